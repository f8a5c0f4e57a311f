// The two layouts of a record's words, as types, so that what writes records is compiled for each.
ghost use Rattle.std.specs.Prelude.{Bool, true, false};

// Whether a record has four words, in which octets and positions share a word two by two, or six.
pub trait Layout: Copy {
    ghost SLIM: { Bool };

    const SLIM: bool;
}

// Six words.
#[derive(Clone, Copy)]
pub struct Usual;

impl Layout for Usual {
    ghost SLIM = { false };

    const SLIM: bool = false;
}

// Four words.
#[derive(Clone, Copy)]
pub struct Slim;

impl Layout for Slim {
    ghost SLIM = { true };

    const SLIM: bool = true;
}
