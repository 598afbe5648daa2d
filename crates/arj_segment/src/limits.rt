// The limits of the segment store.

/// The most segments that a role has after a commit.
pub const MOST_SEGMENTS: usize = 7;

/// The greatest number that a segment has. A commit behind it finds no memory.
pub const MOST_NUMBER: u64 = 4_000_000_000;
