// Inputs about an action.
use arj_class::Op;
use arj_journal::{Kind, Label};

/// What an action of the node is asked to do.
#[derive(Drop)]
pub enum Act {
    /// It begins, under its parent for all kinds but top and serializing.
    Begin {
        label: Label,
        kind: Kind,
        parent: Option<Label>,
    },
    /// It calls an operation of an object.
    Call {
        label: Label,
        x: u16,
        op: Op,
    },
    /// It includes a store of an object.
    Include {
        label: Label,
        x: u16,
        store: u8,
    },
    /// It commits.
    Commit {
        label: Label,
    },
    /// It aborts.
    Abort {
        label: Label,
    },
    /// It gives up what it waits for.
    GiveUp {
        label: Label,
    },
}
