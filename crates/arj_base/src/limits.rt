// Limits that several layers keep.

/// The most Uids on a path of actions.
pub const MOST_UIDS: u8 = 16;

/// The most actions of one root, itself among them.
pub const MOST_ACTIONS: u8 = 64;

/// The most objects that the actions of one root use.
pub const MOST_OBJECTS: u8 = 16;

/// The most bytes of a payload, and of whatever else stands behind a length of two bytes.
pub const MOST_BYTES: u16 = 65_535;

/// The last version of a state: one that would go past it stands still.
pub const LAST_VERSION: u64 = 18_446_744_073_709_551_615;
