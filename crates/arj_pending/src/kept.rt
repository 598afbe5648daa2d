// What is kept of the lines so far.
use arj_base::Uid;
use arj_journal::Label;
use std::alloc::Global;

/// A commit that was called: the label and the Uid of its top, the place of that line, and of the one with which it was over, if it
/// is.
#[derive(Clone, Copy)]
pub struct Commit {
    pub label: Label,
    pub top: Uid,
    pub called: usize,
    pub over: Option<usize>,
}

/// A Prepare that was sent: its frame, from whom and to whom, and the place of that line.
#[derive(Clone, Copy)]
pub struct Prepare {
    pub frame: u32,
    pub from: u8,
    pub to: u8,
    pub at: usize,
}

/// A frame that was delivered, and in which event.
#[derive(Clone, Copy)]
pub struct Delivery {
    pub event: u32,
    pub frame: u32,
}

/// What a node may hold, prepared for an action: a line said that it prepared it, or the node stopped as it may have done so.
#[derive(Clone, Copy)]
pub struct Pend {
    pub node: u8,
    pub action: Uid,
    pub said: bool,
}

/// What is kept of the lines so far: called commits, Prepares, the last delivered frame, and what nodes may hold.
#[derive(Drop)]
pub struct Prepares {
    pub commits: Vec<Commit>,
    pub prepares: Vec<Prepare>,
    pub delivered: Option<Delivery>,
    pub pends: Vec<Pend>,
}

impl Prepares {
    ghost use Rattle.std.specs.Prelude.{[], List, Bool};
    ghost use Rattle.arj_pending.specs.Pends.{ArePrepared};

    /// Before the first line.
    pub fn new(alloc: Global) -> Prepares
        ensures { (flags : List Bool) → ArePrepared flags [] result }
    {
        Prepares {
            commits: Vec::new(alloc),
            prepares: Vec::new(alloc),
            delivered: None,
            pends: Vec::new(alloc),
        }
    }
}
