// Limits of a commit.

/// The last request number of an action with which its commit may start: a commit takes at most three more.
pub const LAST_START: u32 = u32::MAX - 3;

/// The node of the naming service.
pub const NAMING: u8 = 1;
