// A pen lays records on a tape, one behind the other: what every function that writes records is handed.
ghost use Rattle.std.specs.Prelude.{◌≡◌, [], ◌∷◌, ◌+◌, ◌≤◌, ◌<◌};
ghost use Rattle.tape.specs.Record.{leaf_record, container_record};
ghost use Rattle.tape.specs.Tape.{store};
ghost use Rattle.tape.specs.Forest.{leaf, node, none};
ghost use Rattle.tape.specs.Laid.{RoomFor};
ghost use Rattle.tape.specs.Near.{NearContent, Kept};
ghost use Rattle.store.specs.Pen.{HasRoomTo, HasRoom, Writes, Skips, PutsOne, Puts};

use crate::layout::Layout;
use crate::words::put;
use tape::{Content, Position, Record};

// The tape, its layout, and the position of the next record.
#[derive(Drop)]
pub struct Pen<'a, L> {
    pub tape: &'a mut [u64],
    pub next: Position,
    pub layout: L,
}

impl<L: Layout> Pen<'_, L> {
    // Leaves places free for `n` records, which are put later.
    pub fn skip(&mut self, n: usize)
        requires { HasRoom L.SLIM self.old n }
        ensures { Skips L.SLIM n self.old self.new }
    {
        self.next = Position(self.next.0 + n);
    }

    // Puts a record at position `at`; the next record's position stays.
    fn put(&mut self, at: Position, r: Record)
        requires { HasRoomTo L.SLIM self.old (at.0 + 1) × Kept L.SLIM r }
        ensures { PutsOne L.SLIM at.0 r self.old self.new }
    {
        put(self.tape, L::SLIM, at, r);
    }

    // Lays a leaf.
    pub fn leaf(&mut self, content: Content)
        requires { HasRoom L.SLIM self.old 1 × NearContent content }
        ensures { Writes L.SLIM (leaf content none) self.old self.new }
    {
        let at = self.next;
        self.put(at, content.leaf());
        self.next = Position(at.0 + 1);
    }

    // Puts a container at position `at`; its children stand behind it, up to the next record.
    pub fn container(&mut self, at: Position, content: Content)
        requires { HasRoomTo L.SLIM self.old self.old.next.0 × (at.0 < self.old.next.0) × NearContent content }
        ensures { Puts L.SLIM at.0 (container_record content (at.0 + 1) self.old.next.0 ∷ []) self.old self.new }
    {
        let first = Position(at.0 + 1);
        self.put(at, content.container(first, self.next));
    }

    // Puts a container at position `at`, and two leaves as its first children; the others stand behind these, up to the next record.
    pub fn container_of_two(&mut self, at: Position, content: Content, one: Content, other: Content)
        requires { HasRoomTo L.SLIM self.old self.old.next.0 × (at.0 + 3 ≤ self.old.next.0) × NearContent content × NearContent one × NearContent other }
        ensures { Puts L.SLIM at.0 (container_record content (at.0 + 1) self.old.next.0 ∷ leaf_record one ∷ leaf_record other ∷ []) self.old self.new }
    {
        put_three(self.tape, L::SLIM, at, self.next, content, one, other);
    }

    // Lays a container of three leaves.
    pub fn container_of_leaves(
        &mut self,
        content: Content,
        one: Content,
        other: Content,
        third: Content,
    )
        requires { HasRoom L.SLIM self.old 4 × NearContent content × NearContent one × NearContent other × NearContent third }
        ensures { Writes L.SLIM (node content (leaf one (leaf other (leaf third none))) none) self.old self.new }
    {
        let at = self.next;
        let next = Position(at.0 + 4);
        let tape = &mut self.tape[..];
        put_three(tape, L::SLIM, at, next, content, one, other);
        put(tape, L::SLIM, Position(at.0 + 3), third.leaf());
        self.next = next;
    }
}

// Puts a container at position `at`, whose children end at position `next`, and two leaves as its first children. Of a tape and not
// a pen, so that the tape's place is read once for the three: a store might be one to the pen, as the back end sees it.
fn put_three(
    tape: &mut [u64],
    slim: bool,
    at: Position,
    next: Position,
    content: Content,
    one: Content,
    other: Content,
)
    requires { RoomFor slim tape.old next.0 × (at.0 + 3 ≤ next.0) × NearContent content × NearContent one × NearContent other }
    ensures { tape.new ≡ store slim tape.old at.0 (container_record content (at.0 + 1) next.0 ∷ leaf_record one ∷ leaf_record other ∷ []) }
{
    let first = Position(at.0 + 1);
    put(tape, slim, at, content.container(first, next));
    put(tape, slim, first, one.leaf());
    put(tape, slim, Position(at.0 + 2), other.leaf());
}
