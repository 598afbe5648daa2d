// The limits of disks.

/// The most objects of a role that a disk may know.
pub const MOST_KNOWN: u16 = 65_535;

/// The most objects that an action may prepare at once: their count is one byte of the action's file.
pub const MOST_PREPARED: u8 = 255;

/// The number of arms at which a disk takes no more.
pub const LAST_ARM: u32 = 4_294_967_295;
