// What is kept of the lines so far.
use arj_base::{Seq, Uid};
use std::alloc::Global;
use std::collections::BTreeMap;

/// An exclusion that a top's commit set out to make.
#[derive(Clone, Copy)]
pub struct Leave {
    /// The top's number among the actions that began.
    pub top: usize,
    pub x: u16,
    pub node: u8,
}

/// An include that was answered: the number of its top, if it has one, and those of the actions below it.
#[derive(Drop)]
pub struct Join {
    pub top: Option<usize>,
    pub chain: Seq<usize>,
    pub x: u16,
    pub node: u8,
}

/// A top whose commit was called: its number, its Uid, the number of its root, and the place of the line.
#[derive(Clone, Copy)]
pub struct Called {
    pub id: usize,
    pub uid: Uid,
    pub root: usize,
    pub at: usize,
}

/// What is kept of the lines so far: how many they are, exclusions, includes, and the commits that were called and made.
#[derive(Drop)]
pub struct Changes {
    pub count: usize,
    pub leaves: Vec<Leave>,
    pub joins: Vec<Join>,
    pub called: Vec<Called>,
    /// The number of each action that is committed.
    pub committed: BTreeMap<usize, usize>,
    /// The Uids whose records were found.
    pub found: BTreeMap<Uid, usize>,
}

impl Changes {
    ghost use Rattle.std.specs.Prelude.{[]};
    ghost use Rattle.arj_changes.specs.Kept.{AreKept};

    /// Before the first line.
    pub fn new(alloc: Global) -> Changes
        ensures { AreKept [] result }
    {
        Changes {
            count: 0,
            leaves: Vec::new(alloc),
            joins: Vec::new(alloc),
            called: Vec::new(alloc),
            committed: BTreeMap::new(alloc),
            found: BTreeMap::new(alloc),
        }
    }
}
