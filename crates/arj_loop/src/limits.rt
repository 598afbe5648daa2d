// The sizes of what is read and written at once, and how long a run is at most.

/// How many bytes are asked of the source at once.
pub const READ_BYTES: usize = 512;

/// How many bytes of text wait at most: they are written when they are more, when a piece of the input is used up, and
/// when the run ends.
pub const WRITE_BYTES: usize = 8192;

/// The most events that a machine runs. A script has fewer lines.
pub const MOST_EVENTS: u32 = 200_000;
