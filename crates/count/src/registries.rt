// The records of a value, by its registry and its type, which is an octet of the packet: any may stand there. An arm has the numbers
// of a row of the table.
ghost use Rattle.std.specs.Prelude.{◌<◌, ◌^◌, length};
ghost use Rattle.registry.specs.Registry.{number_of};
ghost use Rattle.meaning.specs.Table.{usual};
ghost use Rattle.meaning.specs.Area.{inner_walk};
ghost use Rattle.count.specs.Records.{Counts};

use crate::Level;
use crate::field::{flags_and_push, flags_and_ranges, head_and_tail};
use crate::nested::srv6_sid;
use crate::row::row;
use registry::Registry;

// The records of a value of registry 0.
fn neighbor(kind: u8, value: &[u8]) -> usize
    requires { length value.now < 2 ^ 32 }
    ensures { Counts 0 kind value.now result }
{
    let n = value.len();
    match kind {
        3 => row(n, 4, 1, 4),
        4 => row(n, 8, 2, 8),
        6 => row(n, 4, 1, 4),
        8 => row(n, 4, 1, 4),
        9 => row(n, 4, 1, 4),
        10 => row(n, 4, 1, 4),
        11 => row(n, 32, 9, 32),
        12 => row(n, 16, 1, 16),
        13 => row(n, 16, 1, 16),
        18 => row(n, 3, 1, 3),
        31 => row(n, 5, 3, 6),
        32 => row(n, 11, 4, 12),
        33 => row(n, 4, 2, 4),
        34 => row(n, 8, 3, 8),
        35 => row(n, 4, 1, 4),
        36 => row(n, 4, 2, 4),
        37 => row(n, 4, 1, 4),
        38 => row(n, 4, 1, 4),
        39 => row(n, 4, 1, 4),
        43 => head_and_tail(value, 4, 5),
        44 => head_and_tail(value, 5, 11),
        _ => 1,
    }
}

// The records of a value of registry 1.
fn prefix(kind: u8, value: &[u8]) -> usize
    requires { length value.now < 2 ^ 32 }
    ensures { Counts 1 kind value.now result }
{
    let n = value.len();
    match kind {
        1 => row(n, 4, 1 + n / 4, n / 4 * 4),
        2 => row(n, 8, 1 + n / 8, n / 8 * 8),
        3 => row(n, 5, 3, 6),
        4 => row(n, 1, 4, 1),
        5 => head_and_tail(value, 2, 3),
        11 => row(n, 4, 1, 4),
        12 => row(n, 16, 1, 16),
        _ => 1,
    }
}

// The records of a value of registry 2.
fn router_capability(kind: u8, value: &[u8]) -> usize
    requires { length value.now < 2 ^ 32 }
    ensures { Counts 2 kind value.now result }
{
    let n = value.len();
    match kind {
        2 => flags_and_ranges(value),
        11 => row(n, 4, 1, 4),
        12 => row(n, 16, 1, 16),
        19 => 1 + n,
        22 => flags_and_ranges(value),
        23 => row(n, 0, 1 + 3 * (n / 2), n / 2 * 2),
        24 => row(n, 1, 1, 1),
        25 => flags_and_push(value),
        _ => 1,
    }
}

// The records of a value of registry 3.
fn binding(kind: u8, value: &[u8]) -> usize
    ensures { Counts 3 kind value.now result }
{
    let n = value.len();
    match kind {
        1 => row(n, 3, 1, 4),
        3 => row(n, 5, 3, 6),
        _ => 1,
    }
}

impl Level for Registry {
    ghost number = { number_of };

    ghost inside = { inner_walk usual };

    // The records of a value, by its registry.
    fn records(self, kind: u8, value: &[u8]) -> usize {
        match self {
            Registry::Neighbor => neighbor(kind, value),
            Registry::Prefix => prefix(kind, value),
            Registry::RouterCapability => router_capability(kind, value),
            Registry::Binding => binding(kind, value),
            Registry::Srv6Sid => srv6_sid(kind, value),
            Registry::Unregistered => 1,
        }
    }
}
