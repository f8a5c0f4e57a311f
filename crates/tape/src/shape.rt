// The shapes of document 01: what a record's number or octets are. Arrays and objects are containers.
ghost use Rattle.std.specs.Prelude.{◌≡◌};
ghost use Rattle.tape.specs.Code.{shape_code};

// What a record's number or octets are; its number is its place in this list, from 0 on.
#[derive(Clone, Copy, PartialEq, Eq)]
pub enum Shape {
    U8,
    U16,
    U32,
    U64,
    Ipv4,
    Ipv6,
    Bytes,
    Array,
    Object,
}

impl Shape {
    // Its number.
    pub fn code(self) -> u8
        ensures { result ≡ shape_code self }
    {
        self as u8
    }
}
