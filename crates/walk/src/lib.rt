// The walk of an area: a walk decodes an entry, and an entry walks again. The remaining octets fall. The registry is a value, not a
// type, since the check takes no generic functions that call one another with other types.
#![tactic(auto)]

ghost use Rattle.std.specs.Prelude.{◌≡◌, ◌+◌, ◌<◌, ◌≤◌, cond, eqb, length};
ghost use Rattle.registry.specs.Registry.{number_of};
ghost use Rattle.tape.specs.Forest.{size};
ghost use Rattle.store.specs.Pen.{HasRoom, Writes};
ghost use Rattle.meaning.specs.Field.{tail as tail_field};
ghost use Rattle.meaning.specs.Frame.{covered};
ghost use Rattle.meaning.specs.Table.{usual};
ghost use Rattle.meaning.specs.Value.{field_end};
ghost use Rattle.meaning.specs.Area.{walked, pushed};
ghost use Rattle.fields.specs.Shows.{WritesUpTo};
ghost use Rattle.fields.specs.Stretches.{of, octets_of};
ghost use Rattle.readings.specs.Reading.{by_row, Asks, Reads};
ghost use Rattle.walk.specs.Entry.{entry_in, reading_as, tail_at, IsOneLeaf};

use crate::entry::{Entry, raw};
use decoders::prefix::{end_head, prefix};
use decoders::router_capability::router_capability;
use fields::part::{number, octets};
use fields::piece::entry_length;
use fields::stretch::Stretch;
use neighbor::alone::{OneLeaf, alone};
use neighbor::{end_x_head, neighbor, system_id};
use registry::Registry;
use store::layout::Layout;
use store::pen::Pen;
use tape::label::Label;
use tape::shape::Shape;

pub mod entry;
pub mod plain;

// The SRv6 tail (RFC 9352, section 7.2): 16 octets of SID, a length octet, and an inner area, which is walked in registry 4.
// Gives the octets that are taken.
#[cycle(nesting)]
fn tail<L: Layout>(value: Stretch, at: usize, pen: &mut Pen<'_, L>) -> usize
    requires { (at + 16 ≤ length value.octets.now) × HasRoom L.SLIM pen.old (size (of (tail_at at) value)) }
    ensures { WritesUpTo L.SLIM (field_end (octets_of value.entry) (tail_field at)) (of (tail_at at) value.entry) pen.old pen.new result }
{
    let n = value.octets.len();
    let length_at = at + 16;
    octets(value, Label::Srv6Sid, Shape::Ipv6, at, 16, pen);
    if n <= length_at {
        return n;
    }
    let start = length_at + 1;
    let length = value.octets[length_at] as usize;
    if n < start + length {
        return length_at;
    }
    let inner = value.from(start).first(length).read_in(Registry::Srv6Sid);
    start + walk(inner, pen)
}

// The octets of a neighbor's system id that a value of type 43 or 44 has in front: 6 in type 44.
fn system_id_width(kind: u8) -> usize
    ensures { result ≡ cond (eqb kind 44) 6 0 }
{
    if kind == 44 { 6 } else { 0 }
}

// A value of registry 0, by its type. Type 44 has the neighbor's system id, 6 octets, in front of what type 43 has.
#[cycle(nesting)]
fn neighbor_value<L: Layout>(value: Stretch, kind: u8, pen: &mut Pen<'_, L>) -> Option<usize>
    requires { Asks L.SLIM (of (by_row 0 kind) value) pen.old }
    ensures { Reads L.SLIM (of (by_row 0 kind) value.entry) pen.old pen.new result }
{
    if kind != 43 && kind != 44 {
        return neighbor(value, kind, pen);
    }
    let id = system_id_width(kind);
    if value.octets.len() < id + 21 {
        return None;
    }
    system_id(value, id, pen);
    end_x_head(value, id, pen);
    Some(tail(value, id + 5, pen))
}

// A value of registry 1, by its type.
#[cycle(nesting)]
fn prefix_value<L: Layout>(value: Stretch, kind: u8, pen: &mut Pen<'_, L>) -> Option<usize>
    requires { Asks L.SLIM (of (by_row 1 kind) value) pen.old }
    ensures { Reads L.SLIM (of (by_row 1 kind) value.entry) pen.old pen.new result }
{
    if kind != 5 {
        return prefix(value, kind, pen);
    }
    if value.octets.len() < 19 {
        return None;
    }
    end_head(value, pen);
    Some(tail(value, 3, pen))
}

// A value of registry 2, by its type.
#[cycle(nesting)]
fn router_value<L: Layout>(value: Stretch, kind: u8, pen: &mut Pen<'_, L>) -> Option<usize>
    requires { Asks L.SLIM (of (by_row 2 kind) value) pen.old }
    ensures { Reads L.SLIM (of (by_row 2 kind) value.entry) pen.old pen.new result }
{
    if kind != 25 {
        return router_capability(value, kind, pen);
    }
    let n = value.octets.len();
    if n < 2 {
        return None;
    }
    number::<2, L>(value, Label::Srv6Flags, 0, pen);
    push(value.from(2).read_in(Registry::Unregistered), pen);
    Some(n)
}

// A value of the registries 0 to 2, by its registry and its type.
#[cycle(nesting)]
fn decode<L: Layout>(value: Stretch, kind: u8, pen: &mut Pen<'_, L>) -> Option<usize>
    requires { (number_of value.registry < 3) × Asks L.SLIM (of (reading_as kind) value) pen.old }
    ensures { Reads L.SLIM (of (reading_as kind) value.entry) pen.old pen.new result }
{
    match value.registry {
        Registry::Neighbor => neighbor_value(value, kind, pen),
        Registry::Prefix => prefix_value(value, kind, pen),
        Registry::RouterCapability => router_value(value, kind, pen),
        _ => None,
    }
}

// The one leaf that a value is, where it is known to be one: told for registry 0 alone, where most entries are.
fn one_leaf(value: Stretch, kind: u8) -> Option<OneLeaf>
    ensures { IsOneLeaf (number_of value.entry.registry) kind (octets_of value.entry) result }
{
    match value.registry {
        Registry::Neighbor => alone(value.octets, kind),
        _ => None,
    }
}

// Lays an entry of these registries.
#[cycle(nesting)]
fn lay_entry<L: Layout>(octets: Stretch, pen: &mut Pen<'_, L>)
    requires { (number_of octets.registry < 3) × (2 ≤ length octets.octets.now) × HasRoom L.SLIM pen.old (size (of entry_in octets)) }
    ensures { Writes L.SLIM (of entry_in octets.entry) pen.old pen.new }
{
    let entry = Entry::of(octets);
    let value = octets.from(2);
    if let Some(one) = one_leaf(value, entry.kind) {
        entry.lay_leaf(one, pen);
        return;
    }
    let at = pen.next;
    pen.skip(3);
    let taken = decode(value, entry.kind, pen);
    entry.complete(taken, at, pen);
}

// Lays the complete entries of an area of these registries, and the `sub_tlvs` array in front of them. Gives the octets that they cover.
#[cycle(nesting)]
fn entries<L: Layout>(area: Stretch, pen: &mut Pen<'_, L>) -> usize
    requires { (number_of area.registry < 3) × (0 < length area.octets.now) × HasRoom L.SLIM pen.old (size (of (walked usual) area)) }
    ensures { WritesUpTo L.SLIM (covered (octets_of area.entry)) (of (walked usual) area.entry) pen.old pen.new result }
{
    let at = pen.next;
    pen.skip(1);
    let mut left = area;
    while let Some(n) = entry_length(left.octets) {
        lay_entry(left.first(n), pen);
        left = left.from(n);
    }
    let covered = area.octets.len() - left.octets.len();
    pen.container(
        at,
        area.content(Label::SubTlvs, Shape::Array, 0, covered, 0),
    );
    covered
}

// Lays the walk of an area: nothing where it is empty. Gives the octets that its complete entries cover. Where values hold no area,
// the entries are laid outside this cycle.
#[cycle(nesting)]
pub fn walk<L: Layout>(area: Stretch, pen: &mut Pen<'_, L>) -> usize
    requires { HasRoom L.SLIM pen.old (size (of (walked usual) area)) }
    ensures { WritesUpTo L.SLIM (covered (octets_of area.entry)) (of (walked usual) area.entry) pen.old pen.new result }
{
    if area.octets.len() == 0 {
        return 0;
    }
    if 3 <= area.registry.number() {
        return plain::walk(area, pen);
    }
    entries(area, pen)
}

// Lays the walk of an area, and one `raw` record beside it for the octets that it does not cover, if there are any.
// Gives the octets that the walk covers.
#[cycle(nesting)]
pub fn push<L: Layout>(area: Stretch, pen: &mut Pen<'_, L>) -> usize
    requires { HasRoom L.SLIM pen.old (size (of (pushed usual) area)) }
    ensures { WritesUpTo L.SLIM (covered (octets_of area.entry)) (of (pushed usual) area.entry) pen.old pen.new result }
{
    let covered = walk(area, pen);
    raw(area, covered, pen);
    covered
}
