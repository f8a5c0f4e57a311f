// How many records an area becomes, by the numbers of the table's rows: nothing is laid. That octets are under 2^32 stands in clauses:
// a slice type with the bound would be made anew at every cut.
#![tactic(auto)]

ghost use Rattle.std.specs.Prelude.{◌≡◌, ℕ, ◌+◌, ◌≤◌, ◌<◌, ◌^◌, length};
ghost use Rattle.registry.specs.Registry.{number_of};
ghost use Rattle.tape.specs.Forest.{size};
ghost use Rattle.meaning.specs.Table.{usual};
ghost use Rattle.meaning.specs.Value.{Walk};
ghost use Rattle.meaning.specs.Area.{walk_trees, walked, pushed};
ghost use Rattle.count.specs.Records.{rest, CountsBy, Walks};

use fields::piece::entry_length;
use registry::Registry;

mod field;
mod nested;
mod registries;
mod row;

// What an area is counted to: the octets of its complete entries, and the records of its walk.
#[derive(Clone, Copy)]
pub struct Counted {
    pub covered: usize,
    pub records: usize,
}

impl Counted {
    // The records of `n` octets that begin with those covered: one more where more octets follow.
    #[tactic(auto, using(std::proofs::lemmas::Bool::Decides::nat_tests))]
    fn with_rest(self, n: usize) -> usize
        requires { self.records < 2 ^ 40 }
        ensures { (result ≡ self.records + rest self.covered n) × (result ≤ self.records + 1) }
    {
        if n <= self.covered {
            return self.records;
        }
        self.records + 1
    }
}

// What counts the values of an area: a registry, or one of the nested level, whose values have no area inside.
trait Level: Copy {
    // The number of its registry.
    ghost number: { Self → ℕ };

    // The walk of an area inside a value.
    ghost inside: { Walk };

    // The records of a value.
    fn records(self, kind: u8, value: &[u8]) -> usize
        requires { length value.now < 2 ^ 32 }
        ensures { CountsBy inside (number self) kind value.now result };
}

// Counts an area in the registry of a level, entry by entry.
#[tactic(auto, using(crate::specs::AreaCount::entry_found))]
fn count_area<L: Level>(area: &[u8], level: L) -> Counted
    requires { length area.now < 2 ^ 32 }
    ensures { Walks (walk_trees usual L.inside) (L.number level) area.now result }
{
    if area.is_empty() {
        return Counted {
            covered: 0,
            records: 0,
        };
    }
    let mut left = area;
    let mut records = 0;
    while let Some(length) = entry_length(left) {
        records += 3 + level.records(left[0], &left[2..length]);
        left = &left[length..];
    }
    Counted {
        covered: area.len() - left.len(),
        records: 1 + records,
    }
}

// How many records the walk of an area becomes.
pub fn walked_records(area: &[u8], registry: Registry) -> usize
    requires { length area.now ≤ 65535 }
    ensures { (base : ℕ) → result ≡ size (walked usual (number_of registry) area.now base) }
{
    count_area(area, registry).records
}

// How many records the push of an area becomes.
pub fn pushed_records(area: &[u8], registry: Registry) -> usize
    requires { length area.now ≤ 65535 }
    ensures { (base : ℕ) → result ≡ size (pushed usual (number_of registry) area.now base) }
{
    count_area(area, registry).with_rest(area.len())
}
