// What a call gives back (document 01, 'Numbers a call gives back').
#![tactic(auto)]

ghost use Rattle.std.specs.Prelude.{◌≡◌, Err};
ghost use Rattle.outcome.specs.Call.{numbers_of};
ghost use Rattle.outcome.specs.Told.{told};

use std::error::Error;
use std::fmt;

// Why a call refuses. Each has its number in document 01.
#[derive(Clone, Copy, Debug, PartialEq, Eq)]
pub enum Refusal {
    // Registry not 0 to 5.
    NoSuchRegistry,

    // Area over 65,535 octets.
    AreaTooLong,

    // Base + area length over 4,294,967,295.
    AreaTooFar,

    // Tape under 4 words, or its header not in order.
    NoTape,

    // Needed records, so many, exceed free room.
    NoRoom(usize),

    // Read at or past the count; mark past the count.
    PastCount,

    // A record kept by the cut has descendants past the mark.
    CutsContainer,

    // The record read has an unknown label, shape or registry, or starts after its end.
    Unreadable,

    // Name longer than the lent octets.
    NameTooLong,
}

impl Refusal {
    // Its number, 1 to 9.
    pub fn number(self) -> u8
        ensures { result ≡ (told (Err self)).answer }
    {
        match self {
            Refusal::NoSuchRegistry => 1,
            Refusal::AreaTooLong => 2,
            Refusal::AreaTooFar => 3,
            Refusal::NoTape => 4,
            Refusal::NoRoom(_) => 5,
            Refusal::PastCount => 6,
            Refusal::CutsContainer => 7,
            Refusal::Unreadable => 8,
            Refusal::NameTooLong => 9,
        }
    }

    // How many records are needed, where that is why, and 0 otherwise.
    pub fn needed(self) -> usize
        ensures { result ≡ (told (Err self)).needed }
    {
        match self {
            Refusal::NoRoom(needed) => needed,
            _ => 0,
        }
    }
}

impl fmt::Display for Refusal {
    ghost use Rattle.std.specs.Prelude.{Some};
    ghost use Rattle.outcome.specs.Texts.{text_of};

    ghost output = { λ refusal. Some (text_of refusal) };

    fn fmt<W: fmt::Write>(&self, f: &mut fmt::Formatter<W>) -> fmt::Result {
        match self {
            Refusal::NoSuchRegistry => f.write_str("no registry has this number"),
            Refusal::AreaTooLong => f.write_str("the area is over 65,535 octets"),
            Refusal::AreaTooFar => f.write_str("the area ends past 4,294,967,295"),
            Refusal::NoTape => f.write_str("the tape has no header in order"),
            Refusal::NoRoom(needed) => write!(f, "there is no room for {needed} records"),
            Refusal::PastCount => f.write_str("the position is past the count of records"),
            Refusal::CutsContainer => f.write_str("the mark cuts a container"),
            Refusal::Unreadable => f.write_str("the record is not one that is known"),
            Refusal::NameTooLong => f.write_str("the name is longer than the room lent for it"),
        }
    }
}

impl Error for Refusal {}

// What a call that is done counts: the octets covered, the records (for a name: octets) written and the records needed.
#[derive(Clone, Copy, Debug, PartialEq, Eq)]
pub struct Done {
    pub covered: usize,
    pub written: usize,
    pub needed: usize,
}

impl Done {
    // Done, where there is nothing to count.
    pub const NOTHING: Done = Done {
        covered: 0,
        written: 0,
        needed: 0,
    };
}

// What a call gives back.
pub type Outcome = Result<Done, Refusal>;

// The four numbers of an outcome, in document 01's order: the answer, covered, written, needed. No `From`: both types are std's.
pub fn numbers(outcome: Outcome) -> [u64; 4]
    ensures { result ≡ numbers_of (told outcome) }
{
    match outcome {
        Ok(done) => [
            0,
            done.covered as u64,
            done.written as u64,
            done.needed as u64,
        ],
        Err(refusal) => [refusal.number() as u64, 0, 0, refusal.needed() as u64],
    }
}
