// The tape (document 01, 'The tape'): a lent slice of words, four of header and then records of six.
#![tactic(auto)]

ghost use Rattle.std.specs.Prelude.{◌≡◌};
ghost use Rattle.tape.specs.Record.{label_of, shape_of, registry_in, leaf_record, container_record, zeros, words};

pub mod label;
pub mod shape;

// A packet offset: an octet's place, base added.
#[derive(Clone, Copy)]
pub struct Octet(pub usize);

// A tape position: which record, the first at 0.
#[derive(Clone, Copy)]
pub struct Position(pub usize);

// A record without its positions: what it is, its first octet and one past its last, its number. What it is stands as numbers,
// not as `Label`, `Shape` and `Registry`: theorems (`fine_readable`) speak of contents with any numbers.
#[derive(Clone, Copy)]
pub struct Content {
    pub label: u8,
    pub shape: u8,
    pub registry: u8,
    pub start: Octet,
    pub end: Octet,
    pub number: u64,
}

// The six words of a record: `first` is its first child, `past` one past its last descendant. Positions and 0 for none, since they
// are words of the tape that the caller lends.
#[derive(Clone, Copy)]
pub struct Record {
    pub tag: u64,
    pub start: Octet,
    pub end: Octet,
    pub number: u64,
    pub first: Position,
    pub past: Position,
}

impl Content {
    // Its record, as a leaf.
    pub fn leaf(self) -> Record
        ensures { result ≡ leaf_record self }
    {
        self.container(Position(0), Position(0))
    }

    // Its record, as a container of the records from `first` up to `past`.
    pub fn container(self, first: Position, past: Position) -> Record
        ensures { result ≡ container_record self first.0 past.0 }
    {
        let start = self.start;
        let end = self.end;
        Record {
            tag: self.label as u64 + 256 * (self.shape as u64) + 65536 * (self.registry as u64),
            start,
            end,
            number: self.number,
            first,
            past,
        }
    }
}

impl Record {
    // Six zeros: what a refused read gives over C. No `Default`: document 01 says them so.
    pub fn zeros() -> Record
        ensures { result ≡ zeros }
    {
        Record {
            tag: 0,
            start: Octet(0),
            end: Octet(0),
            number: 0,
            first: Position(0),
            past: Position(0),
        }
    }

    // Its six words, in order. No `From`: document 01 calls them so.
    pub fn words(self) -> [u64; 6]
        ensures { result ≡ words self }
    {
        [
            self.tag,
            self.start.0 as u64,
            self.end.0 as u64,
            self.number,
            self.first.0 as u64,
            self.past.0 as u64,
        ]
    }

    // Its label, out of word 0.
    pub fn label(self) -> u64
        ensures { result ≡ label_of self }
    {
        self.tag % 256
    }

    // Its shape, out of word 0.
    pub fn shape(self) -> u64
        ensures { result ≡ shape_of self }
    {
        self.tag / 256 % 256
    }

    // Its registry, out of word 0.
    pub fn registry(self) -> u64
        ensures { result ≡ registry_in self }
    {
        self.tag / 65536
    }
}
