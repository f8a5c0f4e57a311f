// What read and the nest test admit; a later request raises these. Numbers and no `Label` or `Shape`: a tape may hold any.

// The largest label.
pub const LAST_LABEL: u64 = 56;

// The largest shape.
pub const LAST_SHAPE: u64 = 8;

// The largest registry.
pub const LAST_REGISTRY: u64 = 5;

// How many containers deep the nest test goes.
pub const DEEPEST: usize = 4;
