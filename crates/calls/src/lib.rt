// The calls clear, cut back and read (document 01, 'Numbers a call gives back').
#![tactic(auto)]

ghost use Rattle.std.specs.Prelude.{◌≡◌, ◌≤◌, leb};
ghost use Rattle.std.specs.List.{list_all, range_with_len};
ghost use Rattle.outcome.specs.Call.{Gives};
ghost use Rattle.outcome.specs.Told.{told};
ghost use Rattle.tape.specs.Tape.{record_at, room};
ghost use Rattle.calls.specs.Calls.{Counted, clear_call, end_by, cut_back_call, readable, read_told, read_call};

use crate::limits::{LAST_LABEL, LAST_REGISTRY, LAST_SHAPE};
use outcome::{Done, Outcome, Refusal};
use store::header::{in_order, set_used, used, width};
use store::words::get;
use tape::{Position, Record};

pub mod limits;
pub mod nest;

// The call `clear`: writes the header of a tape without records.
pub fn clear(tape: &mut [u64], slim: bool) -> Outcome
    ensures { Gives (clear_call slim tape.old) (told result) tape.new }
{
    let words = width(slim) as u64;
    let Some(header) = tape.first_chunk_mut::<4>() else {
        return Err(Refusal::NoTape);
    };
    *header = [0, 4, words, 0];
    Ok(Done::NOTHING)
}

// How many records are used, on a tape whose header is in order.
fn count_of(tape: &[u64], slim: bool) -> Result<Position, Refusal>
    ensures { Counted slim tape.now result }
{
    if !in_order(tape, slim) {
        return Err(Refusal::NoTape);
    }
    Ok(used(tape))
}

// Whether no record before `mark` has descendants at or past it.
fn end_by(tape: &[u64], slim: bool, mark: Position) -> bool
    requires { mark.0 ≤ room slim tape.now }
    ensures { result ≡ list_all (λ i. leb (record_at slim tape.now i).past.0 mark.0) (range_with_len 0 mark.0) }
{
    // From the last one on: a mark inside what was laid last is told by a few records, however many stand before.
    (0..mark.0).all(|k| get(tape, slim, Position(mark.0 - 1 - k)).past.0 <= mark.0)
}

// The call `cut back`: lowers the count of used records to `mark`.
pub fn cut_back(tape: &mut [u64], slim: bool, mark: Position) -> Outcome
    ensures { Gives (cut_back_call slim tape.old mark.0) (told result) tape.new }
{
    let count = count_of(tape, slim)?;
    if count.0 < mark.0 {
        return Err(Refusal::PastCount);
    }
    if !end_by(tape, slim, mark) {
        return Err(Refusal::CutsContainer);
    }
    set_used(tape, mark);
    Ok(Done::NOTHING)
}

// Whether label, shape and registry are known, and the octets' start is not after their end.
#[tactic(auto, unfolding(crate::specs::Calls::readable))]
fn is_readable(r: Record) -> bool
    ensures { result ≡ readable r }
{
    r.label() <= LAST_LABEL
        && r.shape() <= LAST_SHAPE
        && r.tag < 65536 * (LAST_REGISTRY + 1)
        && r.start.0 <= r.end.0
}

// The call `read`: gives the record at position `at`.
pub fn read(tape: &[u64], slim: bool, at: Position) -> Result<Record, Refusal>
    ensures { read_told result ≡ read_call slim tape.now at.0 }
{
    let count = count_of(tape, slim)?;
    if count.0 <= at.0 {
        return Err(Refusal::PastCount);
    }
    let record = get(tape, slim, at);
    if !is_readable(record) {
        return Err(Refusal::Unreadable);
    }
    Ok(record)
}
