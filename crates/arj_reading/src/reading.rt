// What is read of a journal, line by line.
use crate::action::Action;
use crate::mark::Mark;
use arj_base::Uid;
use arj_journal::Label;
use std::alloc::Global;
use std::collections::BTreeMap;

/// What is read of the lines so far. An action's number is its place among those that began, from 0.
#[derive(Drop)]
pub struct Reading {
    /// The number of the action with each label.
    pub labels: BTreeMap<Label, usize>,
    /// The number of the action with each Uid.
    pub uids: BTreeMap<Uid, usize>,
    /// The actions, by their numbers.
    pub list: Vec<Action>,
    /// The place at which the commit of each action was first called.
    pub called: BTreeMap<usize, usize>,
    /// The place at which each action first ended.
    pub ended: BTreeMap<usize, usize>,
    /// The place at which each action was first committed.
    pub committed: BTreeMap<usize, usize>,
    /// The places at which records were found, by Uid.
    pub found: BTreeMap<Uid, usize>,
    /// The calls that were answered.
    pub said: Vec<Mark>,
    /// The commits that were called.
    pub calls: Vec<Mark>,
}

impl Reading {
    ghost use Rattle.std.specs.Prelude.{[]};
    ghost use Rattle.arj_reading.specs.Reading.{HasRead};

    /// Before the first line.
    pub fn new(alloc: Global) -> Reading
        ensures { HasRead [] result }
    {
        Reading {
            labels: BTreeMap::new(alloc),
            uids: BTreeMap::new(alloc),
            list: Vec::new(alloc),
            called: BTreeMap::new(alloc),
            ended: BTreeMap::new(alloc),
            committed: BTreeMap::new(alloc),
            found: BTreeMap::new(alloc),
            said: Vec::new(alloc),
            calls: Vec::new(alloc),
        }
    }
}
