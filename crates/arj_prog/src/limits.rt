// How much a client program may have.

/// The most turns that a plan may ask for.
pub const TURNS: u64 = 20_000;

/// The most programs of a plan.
pub const PROGRAMS: usize = 16;

/// The most times that a program or a block is tried again.
pub const RETRIES: u64 = 9;

/// The most statements of a program, those in blocks and conditions counted.
pub const STATEMENTS: usize = 1000;

/// The most blocks that stand one inside another.
pub const BLOCKS: usize = 15;

/// The most objects that a program uses.
pub const PROGRAM_OBJECTS: usize = 16;
