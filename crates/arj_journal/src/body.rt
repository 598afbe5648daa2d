// What a journal says.
use crate::Label;
use arj_base::{Binding, Bytes, End, Mode, NodeList, Seq, Uid};
use arj_class::Op;

/// A journal line: the number of its event, 0 before the first, and what it says.
#[derive(Drop)]
pub struct Line {
    pub event: u32,
    pub body: Body,
}

/// A journal, or a part of it.
pub type Lines = Seq<Line>;

/// What a line says. `node` is where it happened, `action` an action's Uid, `x` an object's number.
#[derive(Drop)]
pub enum Body {
    /// An action began; the parent is there for all kinds but top and serial.
    Began {
        label: Label,
        kind: Kind,
        uid: Uid,
        parent: Option<Label>,
    },
    /// A call was answered; the answer is kept as its text.
    Ok {
        label: Label,
        x: u16,
        op: Op,
        answer: Bytes,
    },
    /// An include was answered.
    Includes {
        label: Label,
        x: u16,
        node: u8,
    },
    /// A call or include was refused, because the holder has the mode there or is in doubt at that store.
    Conflict {
        label: Label,
        holder: Uid,
        mode: Mode,
        node: u8,
    },
    /// A call or include was given up.
    Lost {
        label: Label,
        node: u8,
    },
    /// A call or include met another incarnation or binding.
    Changed {
        label: Label,
        node: u8,
        difference: Difference,
    },
    /// A top's commit was called.
    Committing {
        label: Label,
    },
    Committed {
        label: Label,
    },
    /// A serializing action was committed.
    Ended {
        label: Label,
    },
    Aborted {
        label: Label,
        cause: Cause,
    },
    GaveUp {
        label: Label,
        node: u8,
    },
    /// This commit sets out to exclude the store.
    Excluded {
        label: Label,
        x: u16,
        node: u8,
    },
    /// A lock was granted or raised.
    Granted {
        node: u8,
        action: Uid,
        object: Uid,
        mode: Mode,
    },
    /// An entry's write lock became read.
    Lowered {
        node: u8,
        action: Uid,
        object: Uid,
    },
    /// Naming bound an object to a server.
    Bound {
        x: u16,
        binding: Binding,
        node: u8,
    },
    /// A server took a copy.
    Active {
        node: u8,
        x: u16,
        binding: Binding,
    },
    /// An end was applied to locks.
    Told {
        node: u8,
        action: Uid,
        end: End,
        part: Part,
    },
    /// States were prepared.
    Prepared {
        node: u8,
        action: Uid,
        role: Role,
    },
    /// What was prepared is committed or aborted.
    Done {
        node: u8,
        action: Uid,
        role: Role,
        end: End,
    },
    Sent {
        frame: u32,
        from: u8,
        to: u8,
        kind: FrameKind,
    },
    Got {
        frame: u32,
    },
    Void {
        frame: u32,
    },
    Dropped {
        frame: u32,
    },
    Halted {
        node: u8,
    },
    /// The node is back with this incarnation.
    Up {
        node: u8,
        inc: u32,
    },
    /// A stop of the node's disk is armed.
    Armed {
        node: u8,
    },
    /// A restart found the intentions record of the action.
    Recovered {
        node: u8,
        action: Uid,
    },
    /// The event was refused, by the first cause that holds.
    Refused {
        cause: u8,
    },
    /// Naming's committed entry of an object.
    Entry {
        x: u16,
        version: u64,
        servers: NodeList,
        stores: NodeList,
    },
    /// A node's committed state of an object.
    Copy {
        node: u8,
        x: u16,
        version: u64,
        writer: Uid,
        payload: Bytes,
    },
    /// The end of a quiesce.
    Quiet {
        yes: bool,
    },
    /// The script line of that number isn't in the grammar.
    Bad {
        line: u32,
    },
    /// A limit ended the run.
    Limit {
        which: Which,
    },
}

/// The kinds of action.
#[derive(Clone, Copy, Debug, PartialEq, Eq)]
pub enum Kind {
    Top,
    Nested,
    Independent,
    Serial,
    Constituent,
}

/// What was had and what is there now.
#[derive(Clone, Copy, Debug, PartialEq, Eq)]
pub enum Difference {
    Inc { had: u32, now: u32 },
    Bind { had: Binding, now: Binding },
}

/// Why an action aborted.
#[derive(Clone, Copy, Debug, PartialEq, Eq)]
pub enum Cause {
    /// The script asked for it.
    Asked,
    /// A call of it was given up after its request had gone out.
    Doomed,
    /// A vote or confirmation was given up.
    Lost { node: u8 },
    Conflict { holder: Uid, mode: Mode, node: u8 },
    Changed { node: u8, difference: Difference },
    /// A store holds that version already.
    Old { node: u8, x: u16, version: u64 },
    /// No store of the object would be left.
    NoStores { x: u16 },
    /// The included store is listed already.
    Listed { x: u16, node: u8 },
}

/// The part of a node that applied an end.
#[derive(Clone, Copy, Debug, PartialEq, Eq)]
pub enum Part {
    Naming,
    Server,
}

/// Whether states of objects or naming entries were prepared.
#[derive(Clone, Copy, Debug, PartialEq, Eq)]
pub enum Role {
    Store,
    Names,
}

/// What a frame carries.
#[derive(Clone, Copy, Debug, PartialEq, Eq)]
pub enum FrameKind {
    Bind,
    Bound,
    Load,
    Loaded,
    Activate,
    Activated,
    Record,
    Recorded,
    Invoke,
    Invoked,
    Vote,
    Voted,
    Prepare,
    Prepared,
    Confirm,
    Confirmed,
    Told,
    Acked,
    Query,
    Hello,
    Junk,
}

/// The limits that end a run.
#[derive(Clone, Copy, Debug, PartialEq, Eq)]
pub enum Which {
    /// Script lines.
    Lines,
    /// Labels.
    Labels,
    /// Frames.
    Frames,
}
