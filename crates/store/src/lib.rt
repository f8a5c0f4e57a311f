// The words of a tape: its header, records written and read, and the pen that lays records.
#![tactic(auto)]

pub mod header;
pub mod layout;
pub mod pen;
pub mod words;
