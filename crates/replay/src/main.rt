// replay: pushes the areas of a list (up to a million of them) that `oracle replay` made from the Rust of docs/src, holds what the push gives and leaves to
// what the list says, and prints how many of them agreed. A case of the list, numbers big-endian: registry (1 octet), base (4),
// octets of the area (2), covered (2), records (2), the area, and for each record label, shape, registry (1 each), first octet
// and one past the last, less the base (2 each), number (8), first child and one past the last descendant (2 each).
#![tactic(auto)]

ghost use Rattle.std.specs.Prelude.{◌≡◌, ◌<◌, ◌≤◌, length};

use calls::{clear, read};
use input::read_full;
use octets::read::read_be;
use outcome::Done;
use std::io;
use std::io::Read;
use tape::{Octet, Position, Record};

// Word 0 of a record, as its first three octets say.
fn tag(said: &[u8]) -> u64
    requires { length said.now ≡ 19 }
{
    said[0] as u64 + 256 * (said[1] as u64) + 65536 * (said[2] as u64)
}

// Whether the record at a position is the one that the 19 octets say.
fn same_record(tape: &[u64], at: usize, base: u64, said: &[u8]) -> bool
    requires { (base < 4294967296) × (length said.now ≡ 19) }
{
    let words = [
        tag(said),
        base + read_be::<2>(said, 3),
        base + read_be::<2>(said, 5),
        read_be::<8>(said, 7),
        read_be::<2>(said, 15),
        read_be::<2>(said, 17),
    ];
    let reading = read(tape, false, Position(at));
    reading.unwrap_or(Record::zeros()).words() == words
}

// Reads the records that a case says, all of them, and gives whether each is the tape's.
fn same_records(input: &mut impl Read, tape: &[u64], base: u64, count: usize) -> io::Result<bool>
    requires { base < 4294967296 }
{
    let mut said = [0u8; 19];
    let mut same = true;
    for at in 0..count {
        let n = read_full(input, &mut said)?;
        if n < 19 {
            return Ok(false);
        }
        same &= same_record(tape, at, base, &said);
    }
    Ok(same)
}

// Reads so many octets to the front of `octets`, and gives whether they were there.
fn read_front(input: &mut impl Read, octets: &mut [u8], n: usize) -> io::Result<bool>
    requires { n ≤ length octets.old }
{
    Ok(read_full(input, &mut octets[0..n])? == n)
}

// Reads the rest of a case and gives whether the push agrees with it.
fn agrees(input: &mut impl Read, head: &[u8]) -> io::Result<bool>
    requires { length head.now ≡ 11 }
{
    let base = read_be::<4>(head, 1);
    let length = read_be::<2>(head, 5) as usize;
    let covered = read_be::<2>(head, 7) as usize;
    let count = read_be::<2>(head, 9) as usize;
    if 512 < length {
        return Ok(false);
    }
    let mut area = [0u8; 512];
    if !read_front(input, &mut area, length)? {
        return Ok(false);
    }
    // Room for the 1 + 7 * 512 / 3 records that 512 octets can need.
    let mut tape = [0u64; 7174];
    clear(&mut tape, false).unwrap();
    let outcome = subtlv::push(
        &area[0..length],
        Octet(base as usize),
        head[0] as u64,
        &mut tape,
        false,
    );
    let same = same_records(input, &tape, base, count)?;
    let said = Done {
        covered,
        written: count,
        needed: count,
    };
    Ok(same && outcome == Ok(said))
}

fn main(rt: HostRuntime) -> io::Result<()> {
    let mut input = rt.reader();
    let mut head = [0u8; 11];
    let mut cases: u64 = 0;
    let mut agreed: u64 = 0;
    for turn in 0..1000000u64 {
        if read_full(&mut input, &mut head)? < 11 {
            break;
        }
        cases = turn + 1;
        if agrees(&mut input, &head)? {
            agreed += 1;
        }
    }
    println!(rt; "{agreed} of {cases} agreed")
}
