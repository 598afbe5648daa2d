// How much values hold.

/// How many bytes a register holds at most.
pub const REGISTER_BYTES: usize = 192;

/// How many bytes a register holds at most that is packed in format one, or stands in the header of a script that asks for it.
pub const REGISTER_BYTES_ONE: usize = 64;

/// How many numbers a queue holds at most.
pub const QUEUE_NUMBERS: usize = 32;

/// How many pairs a table holds at most.
pub const TABLE_PAIRS: usize = 16;
