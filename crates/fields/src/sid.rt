// A SID (document 01, 'SID'): the octet count alone decides how wide it is.
ghost use Rattle.std.specs.Prelude.{◌≡◌, ◌+◌, ◌≤◌, length};
ghost use Rattle.tape.specs.Code.{label_code};
ghost use Rattle.store.specs.Pen.{HasRoom};
ghost use Rattle.fields.specs.Shows.{WritesUpTo, sid_at, sid_number, sid_width};
ghost use Rattle.fields.specs.Stretches.{of, octets_of};

use crate::stretch::Stretch;
use octets::read::read_be;
use store::layout::Layout;
use store::pen::Pen;
use tape::label::Label;
use tape::shape::Shape;

// The width and the number of the SID that begins at `at`: 32 bits where 4 octets are left or more, otherwise the low 20 bits of 3.
fn read_sid(value: &[u8], at: usize) -> (usize, u64)
    requires { at + 3 ≤ length value.now }
    ensures width { result.0 ≡ sid_width value.now at }
    ensures number { result.1 ≡ sid_number value.now at }
{
    if at + 4 <= value.len() {
        return (4, read_be::<4>(value, at));
    }
    (3, read_be::<3>(value, at) % 1048576)
}

// Lays the SID that begins at `at`, and gives where it ends.
pub fn sid<L: Layout>(value: Stretch, label: Label, at: usize, pen: &mut Pen<'_, L>) -> usize
    requires { (at + 3 ≤ length value.octets.now) × HasRoom L.SLIM pen.old 1 }
    ensures { WritesUpTo L.SLIM (at + sid_width (octets_of value.entry) at) (of (sid_at (label_code label) at) value.entry) pen.old pen.new result }
{
    let (width, number) = read_sid(value.octets, at);
    pen.leaf(value.content(label, Shape::U32, at, width, number));
    at + width
}
