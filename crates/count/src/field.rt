// The records of a last field that goes by its octets: an SRv6 tail, ranges, a push.
ghost use Rattle.std.specs.Prelude.{◌≡◌, ℕ, ◌+◌, ◌*◌, ◌≤◌, ◌<◌, ◌^◌, length};
ghost use Rattle.meaning.specs.Label;
ghost use Rattle.meaning.specs.Field.{array, tail as tail_field, push, from, ranges as range_element};
ghost use Rattle.meaning.specs.Frame.{range_length};
ghost use Rattle.meaning.specs.Array.{element_trees};
ghost use Rattle.count.specs.Records.{last_records, Cuts, Heads};

use crate::{Counted, count_area};
use fields::piece::range_length;
use registry::registries::{Srv6Sid, Unregistered};

// The records of an SRv6 tail from `at` on, and of what is left of the value behind it.
fn tail(value: &[u8], at: usize) -> usize
    requires { (at + 16 ≤ length value.now) × (length value.now < 2 ^ 32) }
    ensures { (result ≤ 4 * length value.now) × ((registry base : ℕ) → result ≡ last_records registry value.now base (tail_field at)) }
{
    let Some((length, behind)) = value[at + 16..].split_first() else {
        return 1;
    };
    let Some(inner) = behind.get(..*length as usize) else {
        return 2;
    };
    1 + count_area(inner, Srv6Sid).with_rest(behind.len())
}

// The records of a value that has `head` fields and then an SRv6 tail from `at` on; one where the tail's SID is not there.
pub fn head_and_tail(value: &[u8], head: usize, at: usize) -> usize
    requires { (head ≤ 5) × (at < 2 ^ 32) × (length value.now < 2 ^ 32) }
    ensures { Heads (at + 16) head value.now (tail_field at) result }
{
    if value.len() < at + 16 {
        return 1;
    }
    head + tail(value, at)
}

// Counts ranges, one after the other.
#[tactic(auto, using(crate::specs::LastCount::range_found))]
fn ranges(octets: &[u8]) -> Counted
    requires { length octets.now < 2 ^ 32 }
    ensures { (registry : ℕ) → Cuts range_length (element_trees range_element registry) octets.now result }
{
    let mut left = octets;
    let mut records = 0;
    while let Some(length) = range_length(left) {
        records += 3;
        left = &left[length..];
    }
    Counted {
        covered: octets.len() - left.len(),
        records,
    }
}

// The records of a value that is flags and ranges.
pub fn flags_and_ranges(value: &[u8]) -> usize
    requires { length value.now < 2 ^ 32 }
    ensures { Heads 1 1 value.now (array Label.ranges (from 1) range_element) result }
{
    let Some(octets) = value.get(1..) else {
        return 1;
    };
    2 + ranges(octets).with_rest(octets.len())
}

// The records of a value that is flags of 2 octets and a push in registry 5.
pub fn flags_and_push(value: &[u8]) -> usize
    requires { length value.now < 2 ^ 32 }
    ensures { Heads 2 1 value.now (push 2) result }
{
    let Some(area) = value.get(2..) else {
        return 1;
    };
    1 + count_area(area, Unregistered).with_rest(area.len())
}
