// The C boundary of the slim tape (document 02, request 09): each call on a tape, in records of four words. What stands twice, here
// and in capi, does so for C: each function is a name of its own there.
#![tactic(auto)]

ghost use Rattle.std.specs.Prelude.{◌≡◌, true};
ghost use Rattle.outcome.specs.Call.{GivesNumbers};
ghost use Rattle.calls.specs.Calls.{clear_call, cut_back_call, read_call, GivesRecord};
ghost use Rattle.calls.specs.Nest.{nest_test, yes_no};
ghost use Rattle.meaning.specs.AreaCall.{walk_call, push_call};

use calls::nest::nest_test;
use calls::{clear, cut_back, read};
use outcome::Done;
use tape::{Octet, Position, Record};

// Records of four words.
const SLIM: bool = true;

// Writes the records of an area's complete entries behind those that the tape has, and the outcome to `numbers`.
#[unsafe(no_mangle)]
pub extern "C" fn wakkemosut_slim_walk(
    area: &[u8],
    base: u64,
    registry: u64,
    tape: &mut [u64],
    numbers: &mut [u64; 4],
)
    ensures { GivesNumbers (walk_call true registry area.now base tape.old) numbers.new tape.new }
{
    let outcome = subtlv::walk(&area[..], Octet(base as usize), registry, tape, SLIM);
    *numbers = outcome::numbers(outcome);
}

// Writes the same, and a `raw` record beside it for the octets that are left, if there are any.
#[unsafe(no_mangle)]
pub extern "C" fn wakkemosut_slim_push(
    area: &[u8],
    base: u64,
    registry: u64,
    tape: &mut [u64],
    numbers: &mut [u64; 4],
)
    ensures { GivesNumbers (push_call true registry area.now base tape.old) numbers.new tape.new }
{
    let outcome = subtlv::push(&area[..], Octet(base as usize), registry, tape, SLIM);
    *numbers = outcome::numbers(outcome);
}

// Writes the header of a tape without records, and the outcome to `numbers`.
#[unsafe(no_mangle)]
pub extern "C" fn wakkemosut_slim_clear(tape: &mut [u64], numbers: &mut [u64; 4])
    ensures { GivesNumbers (clear_call true tape.old) numbers.new tape.new }
{
    let outcome = clear(tape, SLIM);
    *numbers = outcome::numbers(outcome);
}

// Lowers the count of used records to `mark`, and writes the outcome to `numbers`.
#[unsafe(no_mangle)]
pub extern "C" fn wakkemosut_slim_cut_back(tape: &mut [u64], mark: u64, numbers: &mut [u64; 4])
    ensures { GivesNumbers (cut_back_call true tape.old mark) numbers.new tape.new }
{
    let outcome = cut_back(tape, SLIM, Position(mark as usize));
    *numbers = outcome::numbers(outcome);
}

// Writes the six words of the record at position `at` to `words`, and the outcome to `numbers`.
#[unsafe(no_mangle)]
pub extern "C" fn wakkemosut_slim_read(
    tape: &[u64],
    at: u64,
    words: &mut [u64; 6],
    numbers: &mut [u64; 4],
)
    ensures { GivesRecord (read_call true tape.now at) numbers.new words.new }
{
    let reading = read(tape, SLIM, Position(at as usize));
    let record = reading.unwrap_or(Record::zeros());
    *words = record.words();
    *numbers = outcome::numbers(reading.map(|_| Done::NOTHING));
}

// Whether the used records split into trees: 1 yes, 0 no.
#[unsafe(no_mangle)]
pub extern "C" fn wakkemosut_slim_nest_test(tape: &[u64]) -> u8
    ensures { result ≡ yes_no (nest_test true tape.now) }
{
    nest_test(tape, SLIM) as u8
}
