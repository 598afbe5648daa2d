// What a script asks for.
use crate::Label;
use arj_base::{Bytes, Seq};
use arj_class::Op;

/// One event line of a script. Nodes and objects are as written: whether they exist is asked when the event is run.
#[derive(Drop)]
pub enum Event {
    /// A plain top-level action of a node.
    Begin {
        label: Label,
        node: u32,
    },
    /// A nested action, or a constituent where the parent is serializing.
    BeginIn {
        label: Label,
        parent: Label,
    },
    /// An independent top-level action at its invoker's node.
    Top {
        label: Label,
        parent: Label,
    },
    /// A serializing action.
    Serial {
        label: Label,
        node: u32,
    },
    /// One operation on an object.
    Call {
        label: Label,
        x: u16,
        op: Op,
    },
    /// Includes a store for an object.
    Include {
        label: Label,
        x: u16,
        node: u32,
    },
    Commit {
        label: Label,
    },
    Abort {
        label: Label,
    },
    /// Gives up what the action waits for.
    GiveUp {
        label: Label,
    },
    Deliver {
        frame: FrameNo,
    },
    Lose {
        frame: FrameNo,
    },
    Tick {
        node: u32,
    },
    Settle,
    Quiesce,
    Crash {
        node: u32,
    },
    Restart {
        node: u32,
    },
    /// The node's disk stops at the call of that number from now, with that outcome.
    Stop {
        node: u32,
        calls: u32,
        kind: StopKind,
    },
    /// A frame of these bytes from nobody.
    Junk {
        node: u32,
        bytes: Bytes,
    },
    Show {
        x: u16,
    },
}

/// A frame's number, or `last` for the newest.
#[derive(Clone, Copy, Debug, PartialEq, Eq)]
pub enum FrameNo {
    Number(u32),
    Last,
}

/// What a stopped disk call leaves: the files from before, those after, or these bytes under a written name.
#[derive(Drop)]
pub enum StopKind {
    Undone,
    Done,
    Torn(Bytes),
}

/// The events of a script, in order.
pub type Events = Seq<Event>;
