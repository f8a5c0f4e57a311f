// The fields of a value: one part, a bit, a SID, arrays. Each lays on the tape what the definition shows, and nothing else.
#![tactic(auto)]

pub mod array;
pub mod part;
pub mod piece;
pub mod sid;
pub mod stretch;
