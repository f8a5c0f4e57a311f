// An entry around its value: what its decoder leaves, and the object, the type and the length.
ghost use Rattle.std.specs.Prelude.{◌≡◌, ◌+◌, ◌≤◌, length, get_or};
ghost use Rattle.registry.specs.Registry.{number_of};
ghost use Rattle.tape.specs.Forest.{size};
ghost use Rattle.tape.specs.Near.{NearContent};
ghost use Rattle.store.specs.Pen.{HasRoom, Writes};
ghost use Rattle.meaning.specs.Tree.{content};
ghost use Rattle.fields.specs.Stretches.{of};
ghost use Rattle.walk.specs.Rest.{raw_from, rest_of, rest_in};
ghost use Rattle.walk.specs.Entry.{leaf_entry, Completes};

use fields::part::octets;
use fields::stretch::Stretch;
use neighbor::alone::OneLeaf;
use store::layout::Layout;
use store::pen::Pen;
use tape::label::Label;
use tape::shape::Shape;
use tape::{Content, Position};

// An entry: its octets, its type and its length. The type is a number, since any octet may stand there. Both are read before
// anything is written, since after a write they are read again.
#[derive(Clone, Copy)]
pub struct Entry<'a> {
    pub octets: Stretch<'a>,
    pub kind: u8,
    pub length_octet: u8,
    ghost two: { 2 ≤ length octets.octets.now },
    ghost of_kind: { kind ≡ get_or octets.octets.now 0 0 },
    ghost of_length: { length_octet ≡ get_or octets.octets.now 1 0 },
}

impl<'a> Entry<'a> {
    // The entry that octets are.
    pub fn of(octets: Stretch<'a>) -> Entry<'a>
        requires { 2 ≤ length octets.octets.now }
        ensures { result.octets ≡ octets.entry }
    {
        Entry {
            octets,
            kind: octets.octets[0],
            length_octet: octets.octets[1],
        }
    }

    // Its `sub_tlv` object.
    fn object(self) -> Content
        ensures object { let e = self.entry.octets in result ≡ content 47 8 (number_of e.registry) (e.base.0 + 0) (e.base.0 + 0 + length e.octets.now) 0 }
        ensures near { NearContent result }
    {
        let n = self.octets.octets.len();
        self.octets.content(Label::SubTlv, Shape::Object, 0, n, 0)
    }

    // Its type.
    fn type_leaf(self) -> Content
        ensures leaf { let e = self.entry.octets in result ≡ content 0 0 (number_of e.registry) (e.base.0 + 0) (e.base.0 + 0 + 1) (get_or e.octets.now 0 0) }
        ensures near { NearContent result }
    {
        self.octets
            .content(Label::Type, Shape::U8, 0, 1, self.kind as u64)
    }

    // Its length.
    fn length_leaf(self) -> Content
        ensures leaf { let e = self.entry.octets in result ≡ content 1 0 (number_of e.registry) (e.base.0 + 1) (e.base.0 + 1 + 1) (get_or e.octets.now 1 0) }
        ensures near { NearContent result }
    {
        self.octets
            .content(Label::Length, Shape::U8, 1, 1, self.length_octet as u64)
    }

    // Lays the entry, whose value is one leaf: four records.
    pub fn lay_leaf<L: Layout>(self, one: OneLeaf, pen: &mut Pen<'_, L>)
        requires { HasRoom L.SLIM pen.old 4 }
        ensures { Writes L.SLIM (of (leaf_entry one) self.entry.octets) pen.old pen.new }
    {
        let n = self.octets.octets.len();
        let value = self
            .octets
            .content(one.label, one.shape, 2, n - 2, one.number);
        pen.container_of_leaves(self.object(), self.type_leaf(), self.length_leaf(), value);
    }

    // Lays what the entry has around the records of its decoder: what follows these, and the object, the type and the length in front.
    #[inline(always)]
    pub fn complete<L: Layout>(self, taken: Option<usize>, at: Position, pen: &mut Pen<'_, L>)
        requires { HasRoom L.SLIM pen.old (size (of (rest_in taken) self.octets)) × (at.0 + 3 ≤ pen.old.next.0) }
        ensures { Completes L.SLIM taken at.0 self.entry.octets pen.old pen.new }
    {
        rest(self.octets.from(2), taken, pen);
        pen.container_of_two(at, self.object(), self.type_leaf(), self.length_leaf());
    }
}

// Lays the octets from `at` on as one `raw` record, or nothing where there are none.
pub fn raw<L: Layout>(value: Stretch, at: usize, pen: &mut Pen<'_, L>)
    requires { HasRoom L.SLIM pen.old (size (of (raw_from at) value)) }
    ensures { Writes L.SLIM (of (raw_from at) value.entry) pen.old pen.new }
{
    let n = value.octets.len();
    if at < n {
        octets(value, Label::Raw, Shape::Bytes, at, n - at, pen);
    }
}

// Lays what follows a decoder's records: the octets that it did not take, or the whole value.
fn rest<L: Layout>(value: Stretch, taken: Option<usize>, pen: &mut Pen<'_, L>)
    requires { HasRoom L.SLIM pen.old (size (of (rest_of taken) value)) }
    ensures { Writes L.SLIM (of (rest_of taken) value.entry) pen.old pen.new }
{
    let n = value.octets.len();
    match taken {
        Some(k) => raw(value, k, pen),
        None => octets(value, Label::Value, Shape::Bytes, 0, n, pen),
    }
}
