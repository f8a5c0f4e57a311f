// Registry 3: sub-TLVs of a SID/label binding (TLVs 149 and 150).
ghost use Rattle.fields.specs.Stretches.{of};
ghost use Rattle.readings.specs.Reading.{by_row, Asks, Reads};

use fields::sid::sid;
use fields::stretch::Stretch;
use readings::octet_and_sid;
use store::layout::Layout;
use store::pen::Pen;
use tape::label::Label;

// SID/Label (RFC 8667, sections 2.3 and 2.4.5).
fn sid_label<L: Layout>(value: Stretch, pen: &mut Pen<'_, L>) -> Option<usize>
    requires { Asks L.SLIM (of (by_row 3 1) value) pen.old }
    ensures { Reads L.SLIM (of (by_row 3 1) value.entry) pen.old pen.new result }
{
    if value.octets.len() < 3 {
        return None;
    }
    Some(sid(value, Label::Sid, 0, pen))
}

// A value by its type.
pub fn binding<L: Layout>(value: Stretch, kind: u8, pen: &mut Pen<'_, L>) -> Option<usize>
    requires { Asks L.SLIM (of (by_row 3 kind) value) pen.old }
    ensures { Reads L.SLIM (of (by_row 3 kind) value.entry) pen.old pen.new result }
{
    match kind {
        1 => sid_label(value, pen),
        3 => octet_and_sid(value, Label::Algorithm, pen),
        _ => None,
    }
}
