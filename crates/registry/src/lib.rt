// The registries that give a type its meaning (document 01, 'The registries'), and the call `name`.
#![tactic(auto)]

ghost use Rattle.std.specs.Prelude.{◌≡◌, map};
ghost use Rattle.outcome.specs.Call.{Gives};
ghost use Rattle.outcome.specs.Told.{told};
ghost use Rattle.registry.specs.Registry.{number_of, is_nested, registry_of, known};
ghost use Rattle.registry.specs.Names.{names_of, name_of, in_octets};
ghost use Rattle.registry.specs.NameCall.{named, name_call};

use outcome::{Outcome, Refusal};
use registries::{
    Binding, Neighbor, Prefix, RegistryType, RouterCapability, Srv6Sid, Unregistered,
};

mod lookup;
pub mod registries;

// Which registry an area belongs to.
#[derive(Clone, Copy, Debug, PartialEq, Eq)]
pub enum Registry {
    Neighbor,
    Prefix,
    RouterCapability,
    Binding,
    Srv6Sid,
    Unregistered,
}

impl Registry {
    // Its number, 0 to 5.
    pub fn number(self) -> u64
        ensures { result ≡ number_of self }
    {
        self as u64
    }

    // Its level: whether it holds sub-sub-TLVs, one level deeper.
    pub fn nested(self) -> bool
        ensures { result ≡ is_nested self }
    {
        match self {
            Registry::Neighbor => Neighbor::NESTED,
            Registry::Prefix => Prefix::NESTED,
            Registry::RouterCapability => RouterCapability::NESTED,
            Registry::Binding => Binding::NESTED,
            Registry::Srv6Sid => Srv6Sid::NESTED,
            Registry::Unregistered => Unregistered::NESTED,
        }
    }

    // Its names, each behind its type.
    pub fn names(self) -> &'static [(u64, &'static str)]
        ensures { map (λ n. (n.0, n.1.now)) result.now ≡ in_octets (names_of self) }
    {
        match self {
            Registry::Neighbor => Neighbor::NAMES,
            Registry::Prefix => Prefix::NAMES,
            Registry::RouterCapability => RouterCapability::NAMES,
            Registry::Binding => Binding::NAMES,
            Registry::Srv6Sid => Srv6Sid::NAMES,
            Registry::Unregistered => Unregistered::NAMES,
        }
    }

    // Writes the name of type `t` in this registry to the front of `out`, or refuses where it does not fit.
    // By its type, so that the table is a constant where it is searched, and the back end makes a jump of the search.
    pub fn name(self, t: u64, out: &mut [u8]) -> Outcome
        ensures { Gives (named (name_of self t) out.old) (told result) out.new }
    {
        match self {
            Registry::Neighbor => Neighbor::name(t, out),
            Registry::Prefix => Prefix::name(t, out),
            Registry::RouterCapability => RouterCapability::name(t, out),
            Registry::Binding => Binding::name(t, out),
            Registry::Srv6Sid => Srv6Sid::name(t, out),
            Registry::Unregistered => Unregistered::name(t, out),
        }
    }
}

impl TryFrom<u64> for Registry {
    type Error = Refusal;

    ghost try_from_gives = { λ number r. r ≡ known number };

    // The registry that has this number, if one has.
    #[tactic(auto, unfolding(crate::specs::Registry::registry_of))]
    fn try_from(number: u64) -> Result<Registry, Refusal> {
        match number {
            Neighbor::NUMBER => Ok(Registry::Neighbor),
            Prefix::NUMBER => Ok(Registry::Prefix),
            RouterCapability::NUMBER => Ok(Registry::RouterCapability),
            Binding::NUMBER => Ok(Registry::Binding),
            Srv6Sid::NUMBER => Ok(Registry::Srv6Sid),
            Unregistered::NUMBER => Ok(Registry::Unregistered),
            _ => Err(Refusal::NoSuchRegistry),
        }
    }
}

// The call `name`: writes the name of type `t` of a registry to the front of `out`. The registry is a number, as in C, and may be none's.
pub fn name(registry: u64, t: u64, out: &mut [u8]) -> Outcome
    ensures { Gives (name_call registry t out.old) (told result) out.new }
{
    Registry::try_from(registry)?.name(t, out)
}
