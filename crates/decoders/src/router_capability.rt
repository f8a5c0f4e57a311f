// Registry 2: sub-TLVs of a router capability (TLV 242).
ghost use Rattle.std.specs.Prelude.{◌≡◌};
ghost use Rattle.fields.specs.Stretches.{of};
ghost use Rattle.readings.specs.Reading.{by_row, Asks, Reads};

use fields::array::{Msds, Ranges, array};
use fields::part::number;
use fields::stretch::Stretch;
use readings::{address, number_array, one_number};
use store::layout::Layout;
use store::pen::Pen;
use tape::label::Label;
use tape::shape::Shape;

// SR-Capabilities and SR Local Block (RFC 8667, sections 3.1 and 3.3): Flags | ranges.
fn flags_and_ranges<L: Layout>(value: Stretch, pen: &mut Pen<'_, L>) -> Option<usize>
    requires { Asks L.SLIM (of (by_row 2 2) value) pen.old }
    ensures { Reads L.SLIM (of (by_row 2 2) value.entry) pen.old pen.new result }
{
    if value.octets.len() < 1 {
        return None;
    }
    number::<1, L>(value, Label::Flags, 0, pen);
    Some(1 + array(value.from(1), Label::Ranges, Ranges, pen))
}

// A value by its type; type 25 holds an area of its own. Type 23 is Node MSD (RFC 8491, section 2), type 24 SRMS preference (RFC 8667, section 3.4).
pub fn router_capability<L: Layout>(value: Stretch, kind: u8, pen: &mut Pen<'_, L>) -> Option<usize>
    requires { (kind ≡ 25 → ⊥) × Asks L.SLIM (of (by_row 2 kind) value) pen.old }
    ensures { Reads L.SLIM (of (by_row 2 kind) value.entry) pen.old pen.new result }
{
    match kind {
        2 | 22 => flags_and_ranges(value, pen),
        11 => address(value, Label::Ipv4TeRouterId, Shape::Ipv4, 4, pen),
        12 => address(value, Label::Ipv6TeRouterId, Shape::Ipv6, 16, pen),
        19 => number_array::<1, L>(value, 0, Label::Algorithms, Label::AlgorithmElement, pen),
        23 => Some(array(value, Label::Msds, Msds, pen)),
        24 => one_number::<1, L>(value, Label::Preference, 0, pen),
        _ => None,
    }
}
