// Areas of the registries 3 to 5, whose values hold no area: an array of their entries, outside the walk's cycle, so that what lays
// them is small.
ghost use Rattle.std.specs.Prelude.{◌≡◌, ◌+◌, ◌<◌, ◌≤◌, length};
ghost use Rattle.registry.specs.Registry.{number_of};
ghost use Rattle.tape.specs.Forest.{size};
ghost use Rattle.store.specs.Pen.{HasRoom, Writes};
ghost use Rattle.meaning.specs.Frame.{entry_length as entry_measure, covered};
ghost use Rattle.meaning.specs.FrameLaws.{entry_fits, entry_two};
ghost use Rattle.meaning.specs.Table.{usual};
ghost use Rattle.meaning.specs.Area.{walked};
ghost use Rattle.fields.specs.Shows.{WritesUpTo};
ghost use Rattle.fields.specs.Stretches.{of, octets_of};
ghost use Rattle.readings.specs.Reading.{Asks, Reads};
ghost use Rattle.walk.specs.Entry.{entry_of, reading_as};

use crate::entry::Entry;
use decoders::binding::binding;
use decoders::srv6_sid::srv6_sid;
use fields::array::{Element, array};
use fields::piece::entry_length;
use fields::stretch::Stretch;
use registry::Registry;
use std::mem;
use store::layout::Layout;
use store::pen::Pen;
use tape::label::Label;

// A value by its registry and its type; no type of registry 5 is read.
#[inline(always)]
fn decode<L: Layout>(value: Stretch, kind: u8, pen: &mut Pen<'_, L>) -> Option<usize>
    requires { (3 ≤ number_of value.registry) × Asks L.SLIM (of (reading_as kind) value) pen.old }
    ensures { Reads L.SLIM (of (reading_as kind) value.entry) pen.old pen.new result }
{
    match value.registry {
        Registry::Binding => binding(value, kind, pen),
        Registry::Srv6Sid => srv6_sid(value, kind, pen),
        _ => None,
    }
}

// The entries of one of these registries.
#[derive(Clone, Copy)]
pub struct Entries {
    pub registry: Registry,
    ghost plain: { 3 ≤ number_of registry },
}

impl<L: Layout> Element<L> for Entries {
    ghost measure = { λ e. entry_measure };

    ghost may_have = { λ e n. 2 ≤ n };

    ghost trees = { λ e. entry_of e.registry };

    fn length(self, octets: &[u8]) -> Option<usize> {
        entry_length(octets)
    }

    fn lay(self, piece: Stretch, pen: &mut Pen<'_, L>)
        requires { (2 ≤ length piece.octets.now) × HasRoom L.SLIM pen.old (size (of (entry_of self.registry) piece)) }
        ensures { Writes L.SLIM (of (entry_of self.registry) piece.entry) pen.old pen.new }
    {
        let octets = piece.read_in(self.registry);
        let entry = Entry::of(octets);
        let value = octets.from(2);
        let at = pen.next;
        pen.skip(3);
        let taken = decode(value, entry.kind, pen);
        entry.complete(taken, at, pen);
    }

    ghost fits = { λ e xs. entry_fits xs };

    ghost allowed = { λ e xs some. entry_two xs some };
}

// Lays the complete entries of an area of one of these registries, and the `sub_tlvs` array in front of them.
// Gives the octets that they cover.
pub fn walk<L: Layout>(area: Stretch, pen: &mut Pen<'_, L>) -> usize
    requires { (3 ≤ number_of area.registry) × (0 < length area.octets.now) × HasRoom L.SLIM pen.old (size (of (walked usual) area)) }
    ensures { WritesUpTo L.SLIM (covered (octets_of area.entry)) (of (walked usual) area.entry) pen.old pen.new result }
{
    let entries = Entries {
        registry: area.registry,
    };
    // The tape is in this function's own pen meanwhile, which the back end keeps out of memory.
    let mut own = Pen {
        tape: mem::take(&mut pen.tape),
        next: pen.next,
        layout: pen.layout,
    };
    let covered = array(area, Label::SubTlvs, entries, &mut own);
    let Pen {
        tape,
        next,
        layout: _layout,
    } = own;
    pen.tape = tape;
    pen.next = next;
    covered
}
