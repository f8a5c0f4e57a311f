// Arrays (document 01, 'The registries' and 'Ranges'): as many elements as fit, and the array in front of them. No iterator cuts them:
// it would be a type with a model of its own, for one loop.
ghost use Rattle.std.specs.Prelude.{◌≡◌, true, ℕ, ◌+◌, ◌<◌, ◌≤◌, List, length};
ghost use Rattle.octets.specs.BigEndian.{is_width};
ghost use Rattle.tape.specs.Code.{label_code};
ghost use Rattle.tape.specs.Forest.{Forest, size};
ghost use Rattle.store.specs.Pen.{HasRoom, Writes};
ghost use Rattle.meaning.specs.Complete.{complete};
ghost use Rattle.meaning.specs.Cut.{pieces, total};
ghost use Rattle.meaning.specs.Frame.{whole, range_length};
ghost use Rattle.meaning.specs.FrameLaws.{whole_fits, whole_is, range_fits, range_eight};
ghost use Rattle.meaning.specs.Field.{msds, ranges};
ghost use Rattle.meaning.specs.Array.{element_trees};
ghost use Rattle.fields.specs.Shows.{WritesUpTo, number_shape, number_trees, array_by};
ghost use Rattle.fields.specs.Stretches.{of, octets_of};

use crate::part::number;
use crate::piece::{range_length, whole};
use crate::sid::sid;
use crate::stretch::Stretch;
use store::layout::Layout;
use store::pen::Pen;
use tape::label::Label;
use tape::shape::Shape;

// What an array is made of.
pub trait Element<L: Layout>: Copy {
    // How many octets the complete element in front has; 0 where none stands there.
    ghost measure: { Self → List ℕ → ℕ };

    // The octets that an element may have.
    ghost may_have: { Self → ℕ → Type 0 };

    // What an element becomes: registry, octets, the place of the first.
    ghost trees: { Self → ℕ → List ℕ → ℕ → Forest };

    // How many octets the complete element in front has, if one stands there.
    fn length(self, octets: &[u8]) -> Option<usize>
        ensures { result ≡ complete (measure self octets.now) };

    // Lays an element.
    fn lay(self, piece: Stretch, pen: &mut Pen<'_, L>)
        requires { may_have self (length piece.octets.now) × HasRoom L.SLIM pen.old (size (of (trees self) piece)) }
        ensures { Writes L.SLIM (of (trees self) piece.entry) pen.old pen.new };

    // An element lies in the octets that it is cut from ..
    ghost fits: { (e : Self) (xs : List ℕ) → measure e xs ≤ length xs };

    // .. and has as many as it may have.
    ghost allowed: { (e : Self) (xs : List ℕ) → 0 < measure e xs → may_have e (measure e xs) };
}

// Numbers of `WIDTH` octets.
#[derive(Clone, Copy)]
pub struct Numbers<const WIDTH: usize> {
    pub label: Label,
    ghost width: { is_width WIDTH ≡ true },
}

impl<const WIDTH: usize, L: Layout> Element<L> for Numbers<WIDTH> {
    ghost measure = { λ e. whole WIDTH };

    ghost may_have = { λ e n. n ≡ WIDTH };

    ghost trees = { λ e. number_trees (label_code e.label) (number_shape WIDTH) WIDTH };

    fn length(self, octets: &[u8]) -> Option<usize> {
        whole(octets, WIDTH)
    }

    fn lay(self, piece: Stretch, pen: &mut Pen<'_, L>)
        requires { (length piece.octets.now ≡ WIDTH) × HasRoom L.SLIM pen.old 1 }
        ensures { Writes L.SLIM (of (number_trees (label_code self.entry.label) (number_shape WIDTH) WIDTH) piece.entry) pen.old pen.new }
    {
        number::<WIDTH, L>(piece, self.label, 0, pen);
    }

    ghost fits = { λ e xs. whole_fits WIDTH xs };

    ghost allowed = { λ e xs some. whole_is WIDTH xs some };
}

// MSDs: a type and a value.
#[derive(Clone, Copy)]
pub struct Msds;

impl<L: Layout> Element<L> for Msds {
    ghost measure = { λ e. whole 2 };

    ghost may_have = { λ e n. n ≡ 2 };

    ghost trees = { λ e. element_trees msds };

    fn length(self, octets: &[u8]) -> Option<usize> {
        whole(octets, 2)
    }

    fn lay(self, piece: Stretch, pen: &mut Pen<'_, L>)
        requires { (length piece.octets.now ≡ 2) × HasRoom L.SLIM pen.old (size (of (element_trees msds) piece)) }
        ensures { Writes L.SLIM (of (element_trees msds) piece.entry) pen.old pen.new }
    {
        let at = pen.next;
        pen.skip(1);
        number::<1, L>(piece, Label::MsdType, 0, pen);
        number::<1, L>(piece, Label::MsdValue, 1, pen);
        pen.container(at, piece.content(Label::Msd, Shape::Object, 0, 2, 0));
    }

    ghost fits = { λ e xs. whole_fits 2 xs };

    ghost allowed = { λ e xs some. whole_is 2 xs some };
}

// Ranges: a size and a SID.
#[derive(Clone, Copy)]
pub struct Ranges;

impl<L: Layout> Element<L> for Ranges {
    ghost measure = { λ e. range_length };

    ghost may_have = { λ e n. 8 ≤ n };

    ghost trees = { λ e. element_trees ranges };

    fn length(self, octets: &[u8]) -> Option<usize> {
        range_length(octets)
    }

    fn lay(self, piece: Stretch, pen: &mut Pen<'_, L>)
        requires { (8 ≤ length piece.octets.now) × HasRoom L.SLIM pen.old (size (of (element_trees ranges) piece)) }
        ensures { Writes L.SLIM (of (element_trees ranges) piece.entry) pen.old pen.new }
    {
        let at = pen.next;
        let n = piece.octets.len();
        pen.skip(1);
        number::<3, L>(piece, Label::RangeSize, 0, pen);
        sid(piece, Label::RangeSid, 5, pen);
        pen.container(at, piece.content(Label::Range, Shape::Object, 0, n, 0));
    }

    ghost fits = { λ e xs. range_fits xs };

    ghost allowed = { λ e xs some. range_eight xs some };
}

// Lays the complete elements from the first octet on, and the array in front of them; gives the octets that they have.
pub fn array<L: Layout, E: Element<L>>(
    octets: Stretch,
    label: Label,
    element: E,
    pen: &mut Pen<'_, L>,
) -> usize
    requires { let trees = λ (registry : ℕ) (v : List ℕ) (base : ℕ). array_by (label_code label) registry (E.trees element registry) base (pieces (E.measure element) v) in HasRoom L.SLIM pen.old (size (of trees octets)) }
    ensures { let trees = λ (registry : ℕ) (v : List ℕ) (base : ℕ). array_by (label_code label) registry (E.trees element registry) base (pieces (E.measure element) v) in WritesUpTo L.SLIM (total (pieces (E.measure element) (octets_of octets.entry))) (of trees octets.entry) pen.old pen.new result }
{
    let at = pen.next;
    pen.skip(1);
    let mut left = octets;
    while let Some(n) = element.length(left.octets) {
        element.lay(left.first(n), pen);
        left = left.from(n);
    }
    let covered = octets.octets.len() - left.octets.len();
    pen.container(at, octets.content(label, Shape::Array, 0, covered, 0));
    covered
}
