// What of an area a call shows: its complete entries, or all of it.
ghost use Rattle.std.specs.Prelude.{◌≡◌, List, ℕ, ◌+◌, ◌*◌, ◌/◌, ◌≤◌, length};
ghost use Rattle.registry.specs.Registry.{number_of};
ghost use Rattle.tape.specs.Forest.{size};
ghost use Rattle.store.specs.Pen.{HasRoom};
ghost use Rattle.meaning.specs.Frame.{covered};
ghost use Rattle.meaning.specs.Table.{usual};
ghost use Rattle.meaning.specs.Value.{Walk};
ghost use Rattle.meaning.specs.Area.{walked, pushed};
ghost use Rattle.fields.specs.Shows.{WritesUpTo};
ghost use Rattle.fields.specs.Stretches.{of, octets_of};
ghost use Rattle.subtlv.specs.CallLaws.{most_walked, most_pushed};

use count::{pushed_records, walked_records};
use fields::stretch::Stretch;
use registry::Registry;
use store::layout::Layout;
use store::pen::Pen;

// So much of an area as a call shows.
pub trait Showing {
    // The records that it becomes.
    ghost shows: { Walk };

    // How many these are.
    fn records(area: &[u8], registry: Registry) -> usize
        requires { length area.now ≤ 65535 }
        ensures { (base : ℕ) → result ≡ size (shows (number_of registry) area.now base) };

    // Lays them, and gives the octets that the complete entries have.
    fn lay<L: Layout>(area: Stretch, pen: &mut Pen<'_, L>) -> usize
        requires { HasRoom L.SLIM pen.old (size (of shows area)) }
        ensures { WritesUpTo L.SLIM (covered (octets_of area.entry)) (of shows area.entry) pen.old pen.new result };

    // They are never more than 1 + 7n/3, of n octets.
    ghost most: { (k : ℕ) (area : List ℕ) (base : ℕ) → size (shows k area base) ≤ 1 + 7 * length area / 3 };
}

// The complete entries.
pub struct Complete;

impl Showing for Complete {
    ghost shows = { walked usual };

    fn records(area: &[u8], registry: Registry) -> usize {
        walked_records(area, registry)
    }

    fn lay<L: Layout>(area: Stretch, pen: &mut Pen<'_, L>) -> usize {
        walk::walk(area, pen)
    }

    ghost most = { most_walked };
}

// The complete entries, and the octets that are left.
pub struct Whole;

impl Showing for Whole {
    ghost shows = { pushed usual };

    fn records(area: &[u8], registry: Registry) -> usize {
        pushed_records(area, registry)
    }

    fn lay<L: Layout>(area: Stretch, pen: &mut Pen<'_, L>) -> usize {
        walk::push(area, pen)
    }

    ghost most = { most_pushed };
}
