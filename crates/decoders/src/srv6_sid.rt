// Registry 4: sub-sub-TLVs of an SRv6 SID.
ghost use Rattle.fields.specs.Stretches.{of};
ghost use Rattle.readings.specs.Reading.{by_row, Asks, Reads};

use fields::part::number;
use fields::stretch::Stretch;
use store::layout::Layout;
use store::pen::Pen;
use tape::label::Label;

// SRv6 SID Structure (RFC 9352, section 9): LB Length | LN Length | Fun. Length | Arg. Length.
fn sid_structure<L: Layout>(value: Stretch, pen: &mut Pen<'_, L>) -> Option<usize>
    requires { Asks L.SLIM (of (by_row 4 1) value) pen.old }
    ensures { Reads L.SLIM (of (by_row 4 1) value.entry) pen.old pen.new result }
{
    if value.octets.len() < 4 {
        return None;
    }
    number::<1, L>(value, Label::LocatorBlockLength, 0, pen);
    number::<1, L>(value, Label::LocatorNodeLength, 1, pen);
    number::<1, L>(value, Label::FunctionLength, 2, pen);
    number::<1, L>(value, Label::ArgumentLength, 3, pen);
    Some(4)
}

// A value by its type.
pub fn srv6_sid<L: Layout>(value: Stretch, kind: u8, pen: &mut Pen<'_, L>) -> Option<usize>
    requires { Asks L.SLIM (of (by_row 4 kind) value) pen.old }
    ensures { Reads L.SLIM (of (by_row 4 kind) value.entry) pen.old pen.new result }
{
    match kind {
        1 => sid_structure(value, pen),
        _ => None,
    }
}
