// The nested level: registry 4, of an SRv6 SID, and registry 5, which reads no type. No area is inside a value.
ghost use Rattle.meaning.specs.Value.{Walk};
ghost use Rattle.meaning.specs.Area.{no_walk};
ghost use Rattle.count.specs.Records.{CountsBy};

use crate::Level;
use crate::row::row;
use registry::registries::{Srv6Sid, Unregistered};

// The records of a value of registry 4, whatever would walk an area inside it.
pub fn srv6_sid(kind: u8, value: &[u8]) -> usize
    ensures { (walk : Walk) → CountsBy walk 4 kind value.now result }
{
    match kind {
        1 => row(value.len(), 4, 4, 4),
        _ => 1,
    }
}

impl Level for Srv6Sid {
    ghost number = { λ level. 4 };

    ghost inside = { no_walk };

    // The records of a value of registry 4.
    fn records(self, kind: u8, value: &[u8]) -> usize {
        srv6_sid(kind, value)
    }
}

impl Level for Unregistered {
    ghost number = { λ level. 5 };

    ghost inside = { no_walk };

    // One: no type is read.
    fn records(self, _kind: u8, _value: &[u8]) -> usize {
        1
    }
}
