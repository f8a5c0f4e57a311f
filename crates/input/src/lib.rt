// Reading what the programs are given.
#![tactic(auto)]

ghost use Rattle.std.specs.Prelude.{◌≤◌, length, IfOk};

use std::io;
use std::io::Read;

// Reads until `octets` is full or the input ends, and gives how many octets it put at the front.
pub fn read_full(input: &mut impl Read, octets: &mut [u8]) -> io::Result<usize>
    ensures { IfOk result (λ n. n ≤ length octets.new) }
{
    // No `read_exact`: it tells nothing of an input that ends before the octets do.
    let mut done = 0;
    while done < octets.len() {
        let n = input.read(&mut octets[done..])?;
        if n == 0 {
            break;
        }
        done += n;
    }
    Ok(done)
}
