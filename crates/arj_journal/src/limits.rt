// What a script may ask for at most.

/// How many nodes a script has at most. They are numbered from 1.
pub const NODES: u64 = 16;

/// How many objects a script has at most. They are numbered from 1.
pub const OBJECTS: u64 = 256;

/// How many servers an object has at most.
pub const SERVERS: usize = 8;

/// How many stores an object has at most.
pub const STORES: usize = 16;

/// The largest number of a disk call at which a disk can be asked to stop.
pub const STOP_CALLS: u64 = 1_000_000;

/// How many causes of a refusal there are. They are numbered from 1.
pub const REFUSALS: u64 = 18;
