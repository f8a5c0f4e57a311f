// Values of registry 0 that are one leaf over all their octets.
ghost use Rattle.std.specs.Prelude.{◌≡◌, ◌≢◌, true, None, length};
ghost use Rattle.octets.specs.BigEndian.{big_endian, is_width};
ghost use Rattle.tape.specs.Code.{label_code, shape_code};
ghost use Rattle.neighbor.specs.Alone.{IsAlone, Told};

use octets::read::read_be;
use tape::label::Label;
use tape::shape::Shape;

// The leaf that a value is: its label, its shape and its number.
#[derive(Clone, Copy)]
pub struct OneLeaf {
    pub label: Label,
    pub shape: Shape,
    pub number: u64,
}

// A number of `WIDTH` octets, where the value has just these.
fn number_alone<const WIDTH: usize>(value: &[u8], label: Label) -> Option<OneLeaf>
    requires { is_width WIDTH ≡ true }
    ensures { Told WIDTH (label_code label) 2 (big_endian value.now 0 WIDTH) value.now result }
{
    if value.len() != WIDTH {
        return None;
    }
    Some(OneLeaf {
        label,
        shape: Shape::U32,
        number: read_be::<WIDTH>(value, 0),
    })
}

// An address of `width` octets, where the value has just these.
fn address_alone(value: &[u8], label: Label, shape: Shape, width: usize) -> Option<OneLeaf>
    ensures told { Told width (label_code label) (shape_code shape) 0 value.now result }
    ensures there { length value.now ≡ width → result ≢ None }
{
    if value.len() != width {
        return None;
    }
    Some(OneLeaf {
        label,
        shape,
        number: 0,
    })
}

// A value by its type: the one leaf that it is, or that it is none.
pub fn alone(value: &[u8], kind: u8) -> Option<OneLeaf>
    ensures { IsAlone kind value.now result }
{
    match kind {
        3 => number_alone::<4>(value, Label::AdminGroup),
        6 => address_alone(value, Label::Ipv4InterfaceAddress, Shape::Ipv4, 4),
        8 => address_alone(value, Label::Ipv4NeighborAddress, Shape::Ipv4, 4),
        9 => number_alone::<4>(value, Label::MaxBandwidth),
        10 => number_alone::<4>(value, Label::MaxReservableBandwidth),
        12 => address_alone(value, Label::Ipv6InterfaceAddress, Shape::Ipv6, 16),
        13 => address_alone(value, Label::Ipv6NeighborAddress, Shape::Ipv6, 16),
        18 => number_alone::<3>(value, Label::TeDefaultMetric),
        37..=39 => number_alone::<4>(value, Label::Bandwidth),
        4 | 11 | 31..=36 | 43 | 44 => None,
        _ => Some(OneLeaf {
            label: Label::Value,
            shape: Shape::Bytes,
            number: 0,
        }),
    }
}
