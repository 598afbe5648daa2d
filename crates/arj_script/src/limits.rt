// How long a script is at most.

/// The most bytes that a line has, its end left out.
pub const LINE_BYTES: usize = 500;

/// The most lines that a script has.
pub const SCRIPT_LINES: usize = 100_000;
