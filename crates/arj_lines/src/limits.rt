// How much is read at once.

/// How many bytes are asked of the source at once.
pub const READ_BYTES: usize = 512;
