// Nobody.
use arj_base::Uid;

/// Nobody's Uid.
pub const NOBODY: Uid = Uid {
    node: 0,
    inc: 0,
    num: 0,
};
