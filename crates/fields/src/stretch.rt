// A stretch of octets: an area, an entry, a value or a part of these, where it stands and the registry that it is read in.
ghost use Rattle.std.specs.Prelude.{◌≡◌, ◌+◌, ◌≤◌, ◌<◌, ◌^◌, length, take, drop};
ghost use Rattle.registry.specs.Registry.{number_of};
ghost use Rattle.tape.specs.Code.{label_code, shape_code};
ghost use Rattle.tape.specs.Near.{NearContent};
ghost use Rattle.meaning.specs.Tree.{content};

use registry::Registry;
use tape::label::Label;
use tape::shape::Shape;
use tape::{Content, Octet};

// Octets, the place of the first, and the registry. They end below place 4,294,967,296.
#[derive(Clone, Copy)]
pub struct Stretch<'a> {
    pub octets: &'a [u8],
    pub base: Octet,
    pub registry: Registry,
    ghost near: { base.0 + length octets.now < 2 ^ 32 },
}

impl<'a> Stretch<'a> {
    // Its first `n` octets.
    pub fn first(self, n: usize) -> Stretch<'a>
        requires { n ≤ length self.octets.now }
        ensures octets { result.octets.now ≡ take n self.entry.octets.now }
        ensures base { result.base.0 ≡ self.entry.base.0 }
        ensures registry { result.registry ≡ self.entry.registry }
    {
        Stretch {
            octets: &self.octets[..n],
            base: self.base,
            registry: self.registry,
        }
    }

    // Its octets from `at` on.
    pub fn from(self, at: usize) -> Stretch<'a>
        requires { at ≤ length self.octets.now }
        ensures octets { result.octets.now ≡ drop at self.entry.octets.now }
        ensures base { result.base.0 ≡ self.entry.base.0 + at }
        ensures registry { result.registry ≡ self.entry.registry }
    {
        Stretch {
            octets: &self.octets[at..],
            base: Octet(self.base.0 + at),
            registry: self.registry,
        }
    }

    // Its octets, read in another registry.
    pub fn read_in(self, registry: Registry) -> Stretch<'a>
        ensures octets { result.octets.now ≡ self.entry.octets.now }
        ensures base { result.base.0 ≡ self.entry.base.0 }
        ensures registry { result.registry ≡ registry }
    {
        Stretch {
            octets: self.octets,
            base: self.base,
            registry,
        }
    }

    // A record over `width` octets from its octet `at` on.
    pub fn content(
        self,
        label: Label,
        shape: Shape,
        at: usize,
        width: usize,
        number: u64,
    ) -> Content
        requires { self.base.0 + at + width < 2 ^ 32 }
        ensures content { result ≡ content (label_code label) (shape_code shape) (number_of self.entry.registry) (self.entry.base.0 + at) (self.entry.base.0 + at + width) number }
        ensures near { NearContent result }
    {
        let start = self.base.0 + at;
        Content {
            label: label.code(),
            shape: shape.code(),
            registry: self.registry.number() as u8,
            start: Octet(start),
            end: Octet(start + width),
            number,
        }
    }
}
