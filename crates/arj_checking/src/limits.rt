// How much a journal that is checked may have.

/// The most lines of a journal that is checked.
pub const JOURNAL_LINES: usize = 1_000_000;

/// The most bytes of each of them, without its end.
pub const JOURNAL_LINE_BYTES: u32 = 1_100;
