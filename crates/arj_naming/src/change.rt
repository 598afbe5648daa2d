// What happens to many objects at once.
use arj_base::{End, Uid};

/// What happens to many objects at once: the end of an action, or a server that is up again in this incarnation.
#[derive(Clone, Copy)]
pub enum Change {
    End { action: Uid, end: End },
    Hello { node: u8, inc: u32 },
}
