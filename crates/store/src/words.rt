// The words of records, written and read, in the layout asked for: told by a bool, as the calls are told it (`calls::read`).
// Each layout has a function of its own, since its words hold other things, not more or fewer of the same.
ghost use Rattle.std.specs.Prelude.{◌≡◌, true, false, ℕ, ◌+◌, ◌*◌, ◌^◌, ◌<◌, ◌≤◌, length, get_or};
ghost use Rattle.std.proofs.lemmas.List.Edits.{sets};
ghost use Rattle.tape.specs.Layout.{width, word_of, pair, words_of, record_by};
ghost use Rattle.tape.specs.Tape.{room, put_at, record_at};
ghost use Rattle.tape.specs.Near.{Small, Kept};
ghost use Rattle.tape.specs.Laid.{RoomFor};

use tape::{Octet, Position, Record};

// The first word of the record at position `at`.
fn first_word(slim: bool, at: Position) -> usize
    requires { at.0 < 2 ^ 61 }
    ensures { (result ≡ word_of slim at.0) × (result ≤ 4 + 6 * at.0) }
{
    if slim { 4 + 4 * at.0 } else { 4 + 6 * at.0 }
}

// Two numbers below 4,294,967,296 in a word, low + 4,294,967,296 x high.
fn pair(low: usize, high: usize) -> u64
    requires { (low < 4294967296) × (high < 4294967296) }
    ensures { result ≡ pair low high }
{
    (low + 4294967296 * high) as u64
}

// Writes the six words of `r` from word `b` on.
fn write_six(tape: &mut [u64], b: usize, r: Record)
    requires { b + 6 ≤ length tape.old }
    ensures { tape.new ≡ sets tape.old b (words_of false r) }
{
    tape[b] = r.tag;
    tape[b + 1] = r.start.0 as u64;
    tape[b + 2] = r.end.0 as u64;
    tape[b + 3] = r.number;
    tape[b + 4] = r.first.0 as u64;
    tape[b + 5] = r.past.0 as u64;
}

// Writes the four words of `r` from word `b` on.
fn write_four(tape: &mut [u64], b: usize, r: Record)
    requires { (b + 4 ≤ length tape.old) × Small r }
    ensures { tape.new ≡ sets tape.old b (words_of true r) }
{
    let octets = pair(r.start.0, r.end.0);
    let children = pair(r.first.0, r.past.0);
    tape[b] = r.tag;
    tape[b + 1] = octets;
    tape[b + 2] = r.number;
    tape[b + 3] = children;
}

// Writes the words of `r` from word `b` on.
fn write(tape: &mut [u64], slim: bool, b: usize, r: Record)
    requires { (b + width slim ≤ length tape.old) × Kept slim r }
    ensures { tape.new ≡ sets tape.old b (words_of slim r) }
{
    if slim {
        write_four(tape, b, r);
    } else {
        write_six(tape, b, r);
    }
}

// Writes the words of `r` at position `at`; the tape keeps its room.
pub fn put(tape: &mut [u64], slim: bool, at: Position, r: Record)
    requires { RoomFor slim tape.old (at.0 + 1) × Kept slim r }
    ensures { (tape.new ≡ put_at slim tape.old at.0 r) × (room slim tape.new ≡ room slim tape.old) }
{
    let b = first_word(slim, at);
    write(tape, slim, b, r);
}

// The record in the six words from word `b` on.
fn read_six(tape: &[u64], b: usize) -> Record
    requires { b + 6 ≤ length tape.now }
    ensures { result ≡ record_by false (λ (k : ℕ). get_or tape.now (b + k) 0) }
{
    Record {
        tag: tape[b],
        start: Octet(tape[b + 1] as usize),
        end: Octet(tape[b + 2] as usize),
        number: tape[b + 3],
        first: Position(tape[b + 4] as usize),
        past: Position(tape[b + 5] as usize),
    }
}

// The record in the four words from word `b` on.
fn read_four(tape: &[u64], b: usize) -> Record
    requires { b + 4 ≤ length tape.now }
    ensures { result ≡ record_by true (λ (k : ℕ). get_or tape.now (b + k) 0) }
{
    let octets = tape[b + 1] as usize;
    let children = tape[b + 3] as usize;
    Record {
        tag: tape[b],
        start: Octet(octets % 4294967296),
        end: Octet(octets / 4294967296),
        number: tape[b + 2],
        first: Position(children % 4294967296),
        past: Position(children / 4294967296),
    }
}

// The record in the words from word `b` on.
fn read(tape: &[u64], slim: bool, b: usize) -> Record
    requires { b + width slim ≤ length tape.now }
    ensures { result ≡ record_by slim (λ (k : ℕ). get_or tape.now (b + k) 0) }
{
    if slim {
        return read_four(tape, b);
    }
    read_six(tape, b)
}

// The record at position `at`.
pub fn get(tape: &[u64], slim: bool, at: Position) -> Record
    requires { at.0 < room slim tape.now }
    ensures { result ≡ record_at slim tape.now at.0 }
{
    let b = first_word(slim, at);
    read(tape, slim, b)
}
