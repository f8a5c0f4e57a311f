// Registry 1: sub-TLVs of a prefix (TLVs 27, 135, 235, 236 and 237).
ghost use Rattle.std.specs.Prelude.{◌≡◌, ◌≤◌, length};
ghost use Rattle.store.specs.Pen.{HasRoom, Writes};
ghost use Rattle.fields.specs.Stretches.{of};
ghost use Rattle.readings.specs.Reading.{by_row, Asks, Reads};
ghost use Rattle.readings.specs.Rows.{end_head};

use fields::part::{flag, number};
use fields::stretch::Stretch;
use readings::{address, number_array, octet_and_sid};
use store::layout::Layout;
use store::pen::Pen;
use tape::label::Label;
use tape::shape::Shape;

// Prefix attribute flags (RFC 7794, section 2.1): X | R | N | ...
fn prefix_attributes<L: Layout>(value: Stretch, pen: &mut Pen<'_, L>) -> Option<usize>
    requires { Asks L.SLIM (of (by_row 1 4) value) pen.old }
    ensures { Reads L.SLIM (of (by_row 1 4) value.entry) pen.old pen.new result }
{
    if value.octets.len() < 1 {
        return None;
    }
    number::<1, L>(value, Label::Flags, 0, pen);
    flag(value, Label::FlagX, 0x80, pen);
    flag(value, Label::FlagR, 0x40, pen);
    flag(value, Label::FlagN, 0x20, pen);
    Some(1)
}

// What stands before the SID of an SRv6 End SID (RFC 9352, section 7.2): Flags | Endpoint Behavior.
pub fn end_head<L: Layout>(value: Stretch, pen: &mut Pen<'_, L>)
    requires { (3 ≤ length value.octets.now) × HasRoom L.SLIM pen.old 2 }
    ensures { Writes L.SLIM (of end_head value.entry) pen.old pen.new }
{
    number::<1, L>(value, Label::Flags, 0, pen);
    number::<2, L>(value, Label::EndpointBehavior, 1, pen);
}

// A value by its type; type 5 holds an area of its own. The types 1 and 2 are tags (RFC 5130, sections 3.1 and 3.2).
pub fn prefix<L: Layout>(value: Stretch, kind: u8, pen: &mut Pen<'_, L>) -> Option<usize>
    requires { (kind ≡ 5 → ⊥) × Asks L.SLIM (of (by_row 1 kind) value) pen.old }
    ensures { Reads L.SLIM (of (by_row 1 kind) value.entry) pen.old pen.new result }
{
    match kind {
        1 => number_array::<4, L>(value, 4, Label::Tags, Label::Tag, pen),
        2 => number_array::<8, L>(value, 8, Label::Tags, Label::Tag, pen),
        3 => octet_and_sid(value, Label::Algorithm, pen),
        4 => prefix_attributes(value, pen),
        11 => address(value, Label::Ipv4SourceRouterId, Shape::Ipv4, 4, pen),
        12 => address(value, Label::Ipv6SourceRouterId, Shape::Ipv6, 16, pen),
        _ => None,
    }
}
