// What a node is asked.
use arj_base::Bytes;
use arj_class::Op;
use arj_journal::{Kind, Label};

/// One thing that a node is asked: an event about an action of it, a frame, a tick, a restart, a crash, or to show an
/// object. Objects count from 1 to 256, nodes from 1 to 16.
#[derive(Drop)]
pub enum Input {
    /// An action begins, under its parent for all kinds but top and serializing.
    Begin {
        label: Label,
        kind: Kind,
        parent: Option<Label>,
    },
    /// An action calls an operation of an object.
    Call {
        label: Label,
        x: u16,
        op: Op,
    },
    /// An action includes a store of an object.
    Include {
        label: Label,
        x: u16,
        store: u8,
    },
    /// An action's commit is called.
    Commit {
        label: Label,
    },
    /// An action's abort is called.
    Abort {
        label: Label,
    },
    /// What the action waits for is given up.
    GiveUp {
        label: Label,
    },
    /// The frame of this number is delivered: its sender, 0 where nobody sent it, and its bytes.
    Frame {
        k: u32,
        from: u8,
        bytes: Bytes,
    },
    /// What waits is asked for again.
    Tick,
    /// A node that is down comes up.
    Restart,
    /// A node that is up goes down.
    Crash,
    /// What the node's disk has of an object is shown.
    Show {
        x: u16,
    },
}
