// How long the lines of an image may be, and how many there may be.

/// The most bytes of a line before the files, without its end.
pub const IMAGE_LINE_BYTES: usize = 1_100;

/// The most bytes of the line of a file, without its end.
pub const FILE_LINE_BYTES: usize = 200_000;

/// The most lines of an image.
pub const IMAGE_LINES: u32 = 2_000_000;

/// The most lines of its files.
pub const FILE_LINES: u32 = 20_000;
