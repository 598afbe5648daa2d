// What is kept of the lines so far.
use arj_base::{Seq, Uid};
use arj_changes::Called;
use std::alloc::Global;
use std::collections::BTreeMap;

/// A write that was answered in a top or below it: the place of its line, the number and the Uid of the top, and the numbers of
/// the actions below that.
#[derive(Drop)]
pub struct Write {
    pub at: usize,
    pub top: usize,
    pub writer: Uid,
    pub chain: Seq<usize>,
}

/// What is kept of the lines so far: writes by their objects, and the commits that were called by their tops and by their roots.
#[derive(Drop)]
pub struct Writes {
    pub on: BTreeMap<usize, Vec<Write>>,
    pub by_top: BTreeMap<usize, Vec<Called>>,
    pub by_root: BTreeMap<usize, Vec<Called>>,
}

impl Writes {
    ghost use Rattle.std.specs.Prelude.{[]};
    ghost use Rattle.arj_last.specs.Kept.{AreWritten};

    /// Before the first line.
    pub fn new(alloc: Global) -> Writes
        ensures { AreWritten [] result }
    {
        Writes {
            on: BTreeMap::new(alloc),
            by_top: BTreeMap::new(alloc),
            by_root: BTreeMap::new(alloc),
        }
    }
}
