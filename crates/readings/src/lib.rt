// The readings that several types share. A reading gives the octets of a value that it took, or none where it does not decode it.
#![tactic(auto)]

ghost use Rattle.std.specs.Prelude.{◌≡◌, true, ◌≤◌};
ghost use Rattle.octets.specs.BigEndian.{is_width};
ghost use Rattle.tape.specs.Code.{label_code, shape_code};
ghost use Rattle.fields.specs.Shows.{number_shape};
ghost use Rattle.fields.specs.Stretches.{of};
ghost use Rattle.readings.specs.Reading.{Asks, Reads};
ghost use Rattle.readings.specs.Rows.{one_number, one_address, octet_and_sid, flag_and_number, number_array};

use fields::array::{Numbers, array};
use fields::part::{flag, number, octets};
use fields::sid::sid;
use fields::stretch::Stretch;
use store::layout::Layout;
use store::pen::Pen;
use tape::label::Label;
use tape::shape::Shape;

// One number of `WIDTH` octets, from `at` on.
pub fn one_number<const WIDTH: usize, L: Layout>(
    value: Stretch,
    label: Label,
    at: usize,
    pen: &mut Pen<'_, L>,
) -> Option<usize>
    requires { (is_width WIDTH ≡ true) × (at ≤ 8) × Asks L.SLIM (of (one_number (label_code label) (number_shape WIDTH) at WIDTH) value) pen.old }
    ensures { Reads L.SLIM (of (one_number (label_code label) (number_shape WIDTH) at WIDTH) value.entry) pen.old pen.new result }
{
    if value.octets.len() < at + WIDTH {
        return None;
    }
    number::<WIDTH, L>(value, label, at, pen);
    Some(at + WIDTH)
}

// An address in the first `width` octets.
pub fn address<L: Layout>(
    value: Stretch,
    label: Label,
    shape: Shape,
    width: usize,
    pen: &mut Pen<'_, L>,
) -> Option<usize>
    requires { Asks L.SLIM (of (one_address (label_code label) (shape_code shape) width) value) pen.old }
    ensures { Reads L.SLIM (of (one_address (label_code label) (shape_code shape) width) value.entry) pen.old pen.new result }
{
    if value.octets.len() < width {
        return None;
    }
    octets(value, label, shape, 0, width, pen);
    Some(width)
}

// Flags | an octet | SID: Adj-SID (RFC 8667, section 2.2.1) and Prefix-SID (sections 2.1 and 2.4.4).
pub fn octet_and_sid<L: Layout>(value: Stretch, label: Label, pen: &mut Pen<'_, L>) -> Option<usize>
    requires { Asks L.SLIM (of (octet_and_sid (label_code label)) value) pen.old }
    ensures { Reads L.SLIM (of (octet_and_sid (label_code label)) value.entry) pen.old pen.new result }
{
    if value.octets.len() < 5 {
        return None;
    }
    number::<1, L>(value, Label::Flags, 0, pen);
    number::<1, L>(value, label, 1, pen);
    Some(sid(value, Label::Sid, 2, pen))
}

// A | RESERVED | a number of 24 bits.
pub fn flag_and_number<L: Layout>(
    value: Stretch,
    label: Label,
    pen: &mut Pen<'_, L>,
) -> Option<usize>
    requires { Asks L.SLIM (of (flag_and_number (label_code label)) value) pen.old }
    ensures { Reads L.SLIM (of (flag_and_number (label_code label)) value.entry) pen.old pen.new result }
{
    if value.octets.len() < 4 {
        return None;
    }
    flag(value, Label::Anomalous, 0x80, pen);
    number::<3, L>(value, label, 1, pen);
    Some(4)
}

// An array of numbers of `WIDTH` octets, where the value has `least` octets.
pub fn number_array<const WIDTH: usize, L: Layout>(
    value: Stretch,
    least: usize,
    label: Label,
    element: Label,
    pen: &mut Pen<'_, L>,
) -> Option<usize>
    requires { (is_width WIDTH ≡ true) × Asks L.SLIM (of (number_array least (label_code label) (label_code element) (number_shape WIDTH) WIDTH) value) pen.old }
    ensures { Reads L.SLIM (of (number_array least (label_code label) (label_code element) (number_shape WIDTH) WIDTH) value.entry) pen.old pen.new result }
{
    if value.octets.len() < least {
        return None;
    }
    let element = Numbers::<WIDTH> { label: element };
    Some(array(value, label, element, pen))
}
