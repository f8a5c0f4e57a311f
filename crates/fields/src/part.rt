// Parts of a value: a number, an address or plain octets, a bit.
ghost use Rattle.std.specs.Prelude.{◌≡◌, true, ◌+◌, ◌≤◌, ◌<◌, ◌^◌, length};
ghost use Rattle.octets.specs.BigEndian.{is_width};
ghost use Rattle.tape.specs.Code.{label_code, shape_code};
ghost use Rattle.store.specs.Pen.{HasRoom, Writes};
ghost use Rattle.fields.specs.Shows.{number_shape, number_at, octets_at, flag_at};
ghost use Rattle.fields.specs.Stretches.{of};

use crate::stretch::Stretch;
use octets::read::read_be;
use store::layout::Layout;
use store::pen::Pen;
use tape::label::Label;
use tape::shape::Shape;

// Lays `width` octets from octet `at` of a value on, without a number.
pub fn octets<L: Layout>(
    value: Stretch,
    label: Label,
    shape: Shape,
    at: usize,
    width: usize,
    pen: &mut Pen<'_, L>,
)
    requires { (value.base.0 + at + width < 2 ^ 32) × HasRoom L.SLIM pen.old 1 }
    ensures { Writes L.SLIM (of (octets_at (label_code label) (shape_code shape) at width) value.entry) pen.old pen.new }
{
    pen.leaf(value.content(label, shape, at, width, 0));
}

// The shape of a number of `width` octets.
fn shape_of_number(width: usize) -> Shape
    ensures { shape_code result ≡ number_shape width }
{
    match width {
        1 => Shape::U8,
        2 => Shape::U16,
        8 => Shape::U64,
        _ => Shape::U32,
    }
}

// Lays the number in the `WIDTH` octets from `at` on.
pub fn number<const WIDTH: usize, L: Layout>(
    value: Stretch,
    label: Label,
    at: usize,
    pen: &mut Pen<'_, L>,
)
    requires { (is_width WIDTH ≡ true) × (at + WIDTH ≤ length value.octets.now) × HasRoom L.SLIM pen.old 1 }
    ensures { Writes L.SLIM (of (number_at (label_code label) (number_shape WIDTH) at WIDTH) value.entry) pen.old pen.new }
{
    let number = read_be::<WIDTH>(value.octets, at);
    pen.leaf(value.content(label, shape_of_number(WIDTH), at, WIDTH, number));
}

// Lays a bit of octet 0, as 0 or 1.
pub fn flag<L: Layout>(value: Stretch, label: Label, mask: u8, pen: &mut Pen<'_, L>)
    requires { (1 ≤ mask) × (1 ≤ length value.octets.now) × HasRoom L.SLIM pen.old 1 }
    ensures { Writes L.SLIM (of (flag_at (label_code label) mask) value.entry) pen.old pen.new }
{
    let bit = value.octets[0] / mask % 2;
    pen.leaf(value.content(label, Shape::U8, 0, 1, bit as u64));
}
