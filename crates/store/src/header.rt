// The header: records used, the word offset of the first record, words in a record, zero. The layout is a bool, as it is in each
// call on a tape. That a tape has 4 words stands in clauses: it is the caller's slice.
ghost use Rattle.std.specs.Prelude.{◌≡◌, ◌≤◌, length};
ghost use Rattle.tape.specs.Layout.{width, room_of};
ghost use Rattle.tape.specs.Tape.{used, headed, with_used};

use tape::Position;

// Words in a record.
pub fn width(slim: bool) -> usize
    ensures { (result ≡ width slim) × (result ≤ 6) }
{
    if slim { 4 } else { 6 }
}

// How many records `n` words have room for.
pub fn room_of(slim: bool, n: usize) -> usize
    requires { 4 ≤ n }
    ensures { result ≡ room_of slim n }
{
    if slim {
        let most = (n - 4) / 4;
        if most <= 4294967295 { most } else { 4294967295 }
    } else {
        (n - 4) / 6
    }
}

// Whether the header is in order for the layout asked for; where it is not, all calls but clear are refused with 4.
#[tactic(auto, unfolding(tape::specs::Tape::headed))]
pub fn in_order(tape: &[u64], slim: bool) -> bool
    ensures { result ≡ headed slim tape.now }
{
    4 <= tape.len()
        && tape[1] == 4
        && tape[2] == width(slim) as u64
        && tape[3] == 0
        && tape[0] <= room_of(slim, tape.len()) as u64
}

// How many records are used, which is also the position after them.
pub fn used(tape: &[u64]) -> Position
    requires { 4 ≤ length tape.now }
    ensures { result.0 ≡ used tape.now }
{
    Position(tape[0] as usize)
}

// Makes the records before `end` the used ones.
pub fn set_used(tape: &mut [u64], end: Position)
    requires { 4 ≤ length tape.old }
    ensures { tape.new ≡ with_used end.0 tape.old }
{
    tape[0] = end.0 as u64;
}
