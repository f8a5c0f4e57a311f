// dump (document 01): reads a registry octet, four octets of base and an area of up to 768 octets on standard input, pushes the
// area onto a clear tape and prints the outcome, then the records. A refusal prints the first line only.
#![tactic(auto)]

ghost use Rattle.std.specs.Prelude.{◌≡◌, true};
ghost use Rattle.outcome.specs.Call.{Gives, numbers_of};
ghost use Rattle.calls.specs.Calls.{read_call};
ghost use Rattle.meaning.specs.Dump.{dump_call, columns};
ghost use Rattle.dump.specs.Answered.{answered};

use calls::{clear, read};
use input::read_full;
use octets::read::read_be;
use outcome::Outcome;
use std::io;
use tape::{Octet, Position, Record};

// The answer to an input under 5 octets, or with an area over `LONGEST`.
const NOT_TAKEN: u64 = 10;

// The longest area that is taken.
const LONGEST: usize = 768;

// The octets that are read: one more than are taken, to tell a longer input.
const READ: usize = 5 + LONGEST + 1;

// The tape has records of four words.
const SLIM: bool = true;

// The words of the tape: room for the 1 + 7n/3 records that the longest area can need.
const WORDS: usize = 4 + 4 * (1 + 7 * LONGEST / 3);

// What the program answers to its input: nothing by its length, or a push of its area onto the tape.
fn dump_call(input: &[u8], tape: &mut [u64]) -> Option<Outcome>
    ensures { Gives (dump_call input.now tape.old) (answered result) tape.new }
{
    let n = input.len();
    if n < 5 {
        return None;
    }
    if LONGEST < n - 5 {
        return None;
    }
    let registry = input[0] as u64;
    let base = read_be::<4>(input, 1) as usize;
    Some(subtlv::push(&input[5..], Octet(base), registry, tape, SLIM))
}

// The four numbers of an answer.
fn numbers(answer: Option<Outcome>) -> [u64; 4]
    ensures { result ≡ numbers_of (answered answer) }
{
    answer.map_or([NOT_TAKEN, 0, 0, 0], outcome::numbers)
}

// The columns of a record: position, label, shape, registry, words 1 to 5.
fn columns(r: Record, at: usize) -> [u64; 9]
    ensures { result ≡ columns at r }
{
    [
        at as u64,
        r.label(),
        r.shape(),
        r.registry(),
        r.start.0 as u64,
        r.end.0 as u64,
        r.number,
        r.first.0 as u64,
        r.past.0 as u64,
    ]
}

// The columns of the record at a position.
fn columns_at(tape: &[u64], at: usize) -> [u64; 9]
    ensures { result ≡ columns at (read_call true tape.now at).«record» }
{
    let reading = read(tape, SLIM, Position(at));
    columns(reading.unwrap_or(Record::zeros()), at)
}

// Prints numbers on one line, a space between two.
fn print_line(rt: &impl Print, numbers: &[u64]) -> io::Result<()> {
    for (i, number) in numbers.iter().enumerate() {
        if 0 < i {
            rt.print(" ")?;
        }
        rt.print(*number)?;
    }
    rt.println("")
}

// Prints what the input is answered with, then the records.
fn print_all(rt: &impl Print, answer: Option<Outcome>, tape: &[u64]) -> io::Result<()> {
    print_line(rt, &numbers(answer))?;
    if let Some(Ok(done)) = answer {
        for at in 0..done.written {
            print_line(rt, &columns_at(tape, at))?;
        }
    }
    Ok(())
}

// Reads the input, and prints what it is answered with.
fn main(rt: HostRuntime) -> io::Result<()> {
    let mut input = [0u8; READ];
    let n = read_full(&mut rt.reader(), &mut input)?;
    let mut tape = [0u64; WORDS];
    clear(&mut tape, SLIM).unwrap();
    let answer = dump_call(&input[..n], &mut tape);
    print_all(&rt, answer, &tape)
}
