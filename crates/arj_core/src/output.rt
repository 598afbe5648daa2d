// What a node puts out.
use arj_base::{Bytes, Seq};
use arj_journal::{Body, FrameKind};

/// What a node puts out in a step: a line of the journal, or a message for another node.
#[derive(Drop)]
pub enum Output {
    /// What a journal line of the event says.
    Say(Body),
    /// The bytes of a message for this node, and what kind of message it is.
    Send {
        to: u8,
        kind: FrameKind,
        bytes: Bytes,
    },
}

/// What a node puts out, in order.
pub type Outputs = Seq<Output>;
