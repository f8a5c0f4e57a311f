// The C boundary: each call over slices and numbers. A slice passes as a pointer and a length; where a call gives an
// outcome, its four numbers go to a place that the caller lends. What is lent is there, and no two of its parts overlap;
// a length of 0 takes any pointer.
#![tactic(auto)]

ghost use Rattle.std.specs.Prelude.{◌≡◌, false};
ghost use Rattle.octets.specs.Mask.{Masks};
ghost use Rattle.outcome.specs.Call.{GivesNumbers};
ghost use Rattle.registry.specs.NameCall.{name_call};
ghost use Rattle.calls.specs.Calls.{clear_call, cut_back_call, read_call, GivesRecord};
ghost use Rattle.calls.specs.Nest.{nest_test, yes_no};
ghost use Rattle.meaning.specs.AreaCall.{walk_call, push_call};

use calls::nest::nest_test;
use calls::{clear, cut_back, read};
use octets::mask::mask_prefix;
use outcome::Done;
use tape::{Octet, Position, Record};

// Records of six words: the one layout of this library, so that the back end takes the choice out of all that writes.
const USUAL: bool = false;

// Clears the bits of `prefix` after the first `bits` bits.
#[unsafe(no_mangle)]
pub extern "C" fn wakkemosut_mask(prefix: &mut [u8], bits: usize)
    ensures { Masks bits prefix.old prefix.new }
{
    mask_prefix(prefix, bits)
}

// Writes the name of type `t` of a registry to the front of `out`, and the outcome to `numbers`.
#[unsafe(no_mangle)]
pub extern "C" fn wakkemosut_name(registry: u64, t: u64, out: &mut [u8], numbers: &mut [u64; 4])
    ensures { GivesNumbers (name_call registry t out.old) numbers.new out.new }
{
    let outcome = registry::name(registry, t, out);
    *numbers = outcome::numbers(outcome);
}

// Writes the records of an area's complete entries behind those that the tape has, and the outcome to `numbers`.
#[unsafe(no_mangle)]
pub extern "C" fn wakkemosut_walk(
    area: &[u8],
    base: u64,
    registry: u64,
    tape: &mut [u64],
    numbers: &mut [u64; 4],
)
    ensures { GivesNumbers (walk_call false registry area.now base tape.old) numbers.new tape.new }
{
    let outcome = subtlv::walk(&area[..], Octet(base as usize), registry, tape, USUAL);
    *numbers = outcome::numbers(outcome);
}

// Writes the same, and a `raw` record beside it for the octets that are left, if there are any.
#[unsafe(no_mangle)]
pub extern "C" fn wakkemosut_push(
    area: &[u8],
    base: u64,
    registry: u64,
    tape: &mut [u64],
    numbers: &mut [u64; 4],
)
    ensures { GivesNumbers (push_call false registry area.now base tape.old) numbers.new tape.new }
{
    let outcome = subtlv::push(&area[..], Octet(base as usize), registry, tape, USUAL);
    *numbers = outcome::numbers(outcome);
}

// Writes the header of a tape without records, and the outcome to `numbers`.
#[unsafe(no_mangle)]
pub extern "C" fn wakkemosut_clear(tape: &mut [u64], numbers: &mut [u64; 4])
    ensures { GivesNumbers (clear_call false tape.old) numbers.new tape.new }
{
    let outcome = clear(tape, USUAL);
    *numbers = outcome::numbers(outcome);
}

// Lowers the count of used records to `mark`, and writes the outcome to `numbers`.
#[unsafe(no_mangle)]
pub extern "C" fn wakkemosut_cut_back(tape: &mut [u64], mark: u64, numbers: &mut [u64; 4])
    ensures { GivesNumbers (cut_back_call false tape.old mark) numbers.new tape.new }
{
    let outcome = cut_back(tape, USUAL, Position(mark as usize));
    *numbers = outcome::numbers(outcome);
}

// Writes the six words of the record at position `at` to `words`, and the outcome to `numbers`.
#[unsafe(no_mangle)]
pub extern "C" fn wakkemosut_read(
    tape: &[u64],
    at: u64,
    words: &mut [u64; 6],
    numbers: &mut [u64; 4],
)
    ensures { GivesRecord (read_call false tape.now at) numbers.new words.new }
{
    let reading = read(tape, USUAL, Position(at as usize));
    let record = reading.unwrap_or(Record::zeros());
    *words = record.words();
    *numbers = outcome::numbers(reading.map(|_| Done::NOTHING));
}

// Whether the used records split into trees: 1 yes, 0 no.
#[unsafe(no_mangle)]
pub extern "C" fn wakkemosut_nest_test(tape: &[u64]) -> u8
    ensures { result ≡ yes_no (nest_test false tape.now) }
{
    nest_test(tape, USUAL) as u8
}
