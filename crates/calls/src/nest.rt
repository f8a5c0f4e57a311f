// The nest test (document 01, 'The tape').
ghost use Rattle.std.specs.Prelude.{◌≡◌, ◌+◌, ◌≤◌, ◌<◌, ◌^◌};
ghost use Rattle.tape.specs.Record.{shape_of, holds};
ghost use Rattle.tape.specs.Tape.{room};
ghost use Rattle.calls.specs.Nest.{is_leaf, is_container, trees, nest_test};

use crate::limits::DEEPEST;
use store::header::{in_order, used};
use store::words::get;
use tape::shape::Shape;
use tape::{Position, Record};

// Whether a record has a container's shape.
fn holds_others(r: Record) -> bool
    ensures { result ≡ holds (shape_of r) }
{
    let shape = r.shape();
    shape == Shape::Array.code() as u64 || shape == Shape::Object.code() as u64
}

// Whether a record has no children.
fn is_leaf(r: Record) -> bool
    ensures { result ≡ is_leaf r }
{
    r.first.0 == 0 && r.past.0 == 0
}

// Whether the children of the record at position `at` follow it at once, and end in its parent.
fn is_container(r: Record, at: Position, end: Position) -> bool
    requires { at.0 < 2 ^ 62 }
    ensures { result ≡ is_container r at.0 end.0 }
{
    r.first.0 == at.0 + 1 && at.0 + 1 <= r.past.0 && r.past.0 <= end.0
}

// Whether the records from `from` up to `end` split into trees, at most `depth` containers deep.
fn split(tape: &[u64], slim: bool, depth: usize, from: Position, end: Position) -> bool
    requires { end.0 ≤ room slim tape.now }
    ensures { result ≡ trees slim tape.now depth from.0 end.0 }
{
    let mut at = from.0;
    // No `for`: the position goes on behind a container's children.
    while at < end.0 {
        let r = get(tape, slim, Position(at));
        if holds_others(r) {
            if depth == 0 {
                return false;
            }
            if !is_container(r, Position(at), end) {
                return false;
            }
            let past = r.past.0;
            if !split(tape, slim, depth - 1, Position(at + 1), Position(past)) {
                return false;
            }
            at = past;
        } else {
            if !is_leaf(r) {
                return false;
            }
            at += 1;
        }
    }
    true
}

// The call `nest test`: whether the used records split into trees.
#[tactic(auto, unfolding(crate::specs::Nest::nest_test))]
pub fn nest_test(tape: &[u64], slim: bool) -> bool
    ensures { result ≡ nest_test slim tape.now }
{
    in_order(tape, slim) && split(tape, slim, DEEPEST, Position(0), used(tape))
}
