// Messages as bytes, worked out by hand, in lines: kind, Uids, numbers, states. A state stands behind its length, 56.

/// Load: the second request of 1.1.1, object 1.
pub const LOAD: &[u8] = b"\x03\x01\
    \0\0\0\x01\0\0\0\x01\0\0\0\0\0\0\0\x01\
    \x01\0\0\0\x02\0\x01";

/// Loaded: to that, the state of version 0, which nobody wrote, a counter of 0.
pub const LOADED: &[u8] = b"\x04\
    \0\0\0\x01\0\0\0\x01\0\0\0\0\0\0\0\x01\
    \0\0\0\x02\0\
    \0\x38ARJ2\
    \0\0\0\0\0\0\0\0\0\0\0\0\0\0\0\x01\
    \x01\x01\0\0\0\0\0\0\0\0\
    \0\0\0\0\0\0\0\0\0\0\0\0\0\0\0\0\
    \0\x08\0\0\0\0\0\0\0\0";

/// Prepare: the seventh request of 1.1.1, the state of version 1 that it wrote, a counter of 1.
pub const PREPARE: &[u8] = b"\x0d\x01\
    \0\0\0\x01\0\0\0\x01\0\0\0\0\0\0\0\x01\
    \x01\0\0\0\x07\x01\
    \0\x38ARJ2\
    \0\0\0\0\0\0\0\0\0\0\0\0\0\0\0\x01\
    \x01\x01\0\0\0\0\0\0\0\x01\
    \0\0\0\x01\0\0\0\x01\0\0\0\0\0\0\0\x01\
    \0\x08\0\0\0\0\0\0\0\x01";

/// Prepared: to that, yes.
pub const PREPARED: &[u8] = b"\x0e\
    \0\0\0\x01\0\0\0\x01\0\0\0\0\0\0\0\x01\
    \0\0\0\x07\0";

/// Told: of 1.1.1, to be acknowledged, a commit of it.
pub const COMMITTED: &[u8] = b"\x11\
    \0\0\0\x01\0\0\0\x01\0\0\0\0\0\0\0\x01\
    \x01\x01\
    \0\0\0\x01\0\0\0\x01\0\0\0\0\0\0\0\x01\
    \x01";

/// Told: of 1.1.1, not to be acknowledged, an abort of it.
pub const ABORTED: &[u8] = b"\x11\
    \0\0\0\x01\0\0\0\x01\0\0\0\0\0\0\0\x01\
    \0\x01\
    \0\0\0\x01\0\0\0\x01\0\0\0\0\0\0\0\x01\
    \0";

/// Acked: 1.1.1.
pub const ACKED: &[u8] = b"\x12\
    \0\0\0\x01\0\0\0\x01\0\0\0\0\0\0\0\x01";

/// Query: about 1.1.1.
pub const QUERY: &[u8] = b"\x13\
    \0\0\0\x01\0\0\0\x01\0\0\0\0\0\0\0\x01";

/// Hello: node 1 is up in incarnation 2.
pub const HELLO: &[u8] = b"\x14\x01\0\0\0\x02";

/// Bind: the first request of 2.1.1, object 1, no include, no binding to avoid.
pub const BIND: &[u8] = b"\x01\x01\
    \0\0\0\x02\0\0\0\x01\0\0\0\0\0\0\0\x01\
    \x01\0\0\0\x01\0\x01\0\
    \0\0\0\0\0\0\0\0";

/// Bound: to that, binding 1.1 is to be made at server 2, by naming of incarnation 1, with stores 3 and 4.
pub const BOUND: &[u8] = b"\x02\
    \0\0\0\x02\0\0\0\x01\0\0\0\0\0\0\0\x01\
    \0\0\0\x01\x01\
    \0\0\0\x01\0\0\0\x01\
    \x02\0\0\0\x01\x02\x03\x04";

/// Bind: the first request of 3.1.1, else the same.
pub const OTHER_BIND: &[u8] = b"\x01\x01\
    \0\0\0\x03\0\0\0\x01\0\0\0\0\0\0\0\x01\
    \x01\0\0\0\x01\0\x01\0\
    \0\0\0\0\0\0\0\0";

/// Loaded: to the second request of 2.1.1, the state of version 0.
pub const LOADED_TWO: &[u8] = b"\x04\
    \0\0\0\x02\0\0\0\x01\0\0\0\0\0\0\0\x01\
    \0\0\0\x02\0\
    \0\x38ARJ2\
    \0\0\0\0\0\0\0\0\0\0\0\0\0\0\0\x01\
    \x01\x01\0\0\0\0\0\0\0\0\
    \0\0\0\0\0\0\0\0\0\0\0\0\0\0\0\0\
    \0\x08\0\0\0\0\0\0\0\0";

/// Record: the fourth request of 2.1.1, object 1, binding 1.1, server and naming of incarnation 1.
pub const RECORD: &[u8] = b"\x07\x01\
    \0\0\0\x02\0\0\0\x01\0\0\0\0\0\0\0\x01\
    \x01\0\0\0\x04\0\x01\
    \0\0\0\x01\0\0\0\x01\
    \0\0\0\x01\0\0\0\x01";

/// Recorded: to that, yes.
pub const RECORDED: &[u8] = b"\x08\
    \0\0\0\x02\0\0\0\x01\0\0\0\0\0\0\0\x01\
    \0\0\0\x04\0";

/// Prepared: to the seventh request of 2.1.1, yes.
pub const PREPARED_TWO: &[u8] = b"\x0e\
    \0\0\0\x02\0\0\0\x01\0\0\0\0\0\0\0\x01\
    \0\0\0\x07\0";

/// Confirm: the eighth request of 2.1.1, object 1 granted by naming of incarnation 1, without store 4, no inclusion.
pub const CONFIRM: &[u8] = b"\x0f\x01\
    \0\0\0\x02\0\0\0\x01\0\0\0\0\0\0\0\x01\
    \x01\0\0\0\x08\x01\0\x01\0\0\0\x01\
    \0\x01\0\x01\x04\0\0";

/// Confirmed: to that, yes.
pub const CONFIRMED: &[u8] = b"\x10\
    \0\0\0\x02\0\0\0\x01\0\0\0\0\0\0\0\x01\
    \0\0\0\x08\0";

/// Told: of 2.1.1, to be acknowledged, a commit of it.
pub const COMMITTED_TWO: &[u8] = b"\x11\
    \0\0\0\x02\0\0\0\x01\0\0\0\0\0\0\0\x01\
    \x01\x01\
    \0\0\0\x02\0\0\0\x01\0\0\0\0\0\0\0\x01\
    \x01";

/// Acked: 2.1.1.
pub const ACKED_TWO: &[u8] = b"\x12\
    \0\0\0\x02\0\0\0\x01\0\0\0\0\0\0\0\x01";

/// Query: about 2.1.1.
pub const QUERY_TWO: &[u8] = b"\x13\
    \0\0\0\x02\0\0\0\x01\0\0\0\0\0\0\0\x01";
