// The records of a value, by how many octets it has.
ghost use Rattle.std.specs.Prelude.{◌≡◌, ◌<◌, ◌^◌};
ghost use Rattle.count.specs.Records.{row_records};

use crate::Counted;

// The records of a value of `n` octets: `shows` from `least` octets on, and one more where it has more than the `takes` that
// these take; otherwise one.
#[tactic(auto, using(std::proofs::lemmas::Bool::Decides::nat_tests))]
pub fn row(n: usize, least: usize, shows: usize, takes: usize) -> usize
    requires { shows < 2 ^ 40 }
    ensures { result ≡ row_records least shows takes n }
{
    if n < least {
        return 1;
    }
    let fields = Counted {
        covered: takes,
        records: shows,
    };
    fields.with_rest(n)
}
