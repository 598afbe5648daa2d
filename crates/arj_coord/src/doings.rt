// All actions at work, with those that wait.
ghost use Rattle.std.specs.Prelude.{◌≡◌, ◌<◌, [], ◌∷◌, ◌++◌, suc, None, not, length, IfOk, OnOk, OnErr, MatchOption, option_copied};
ghost use Rattle.std.specs.List.{list_any};
ghost use Rattle.arj_coord.specs.Shown.{now_of};
ghost use Rattle.arj_coord.specs.Waiting.{waiting, changed_at, idle_doing, marked, now_in};
ghost use Rattle.arj_protocol.specs.Coord as coord;
ghost use Rattle.arj_protocol.specs.Coord.{Idle};
ghost use Rattle.arj_protocol.specs.Step.{is_waiting_now};
ghost use Rattle.arj_protocol.specs.Tree.{at_place};

use crate::Now;
use crate::doing::Doing;
use crate::now::{discard, is_waiting};
use arj_base::{NodeList, Numbers};
use arj_journal::Label;
use std::alloc::{AllocError, Global};
use std::collections::BTreeSet;
use std::marker::Model;

/// All actions at work: an action's number is its place, from 1. Contracts see the protocol's list.
#[derive(Drop)]
pub struct Doings {
    alloc: Global,
    all: Vec<Doing>,
    // The numbers of those that wait.
    pending: BTreeSet<u64>,
}

impl Model for Doings {
    ghost use Rattle.std.specs.Prelude.{◌≡◌, List};
    ghost use Rattle.arj_coord.specs.Waiting.{waiting};
    ghost use Rattle.arj_protocol.specs.Coord.{Doing};

    ghost Value = { List Doing };

    ghost view = { λ d. d.all.items };

    ghost invariant = { λ d. d.pending.keys ≡ waiting 1 d.all.items };
}

impl Doings {
    /// None. It allocates nothing.
    pub fn new(alloc: Global) -> Doings
        ensures { result ≡ [] }
    {
        Doings {
            alloc,
            all: Vec::new(alloc),
            pending: BTreeSet::new(alloc),
        }
    }

    // The place of a number. None where there is no such action.
    fn place(&self, number: u64) -> Option<usize>
        ensures { MatchOption result (at_place number self.now ≡ None) (λ place. (number ≡ suc place) × (place < length self.now)) }
    {
        if number == 0 {
            return None;
        }
        let place = (number - 1) as usize;
        if place < self.all.len() {
            Some(place)
        } else {
            None
        }
    }

    /// The action of a number.
    pub fn at(&self, number: u64) -> Option<&Doing>
        ensures { option_copied result ≡ at_place number self.now }
    {
        let place = self.place(number)?;
        Some(&self.all[place])
    }

    /// The numbers of the actions that wait, increasing.
    pub fn waiting(&self) -> &BTreeSet<u64>
        ensures { result.now.keys ≡ waiting 1 self.now }
    {
        &self.pending
    }

    /// The numbers of the actions that wait, increasing, in a list of their own.
    pub fn numbers(&self, alloc: Global) -> Result<Numbers, AllocError>
        ensures { IfOk result (λ numbers. numbers ≡ waiting 1 self.now) }
    {
        let mut numbers = Numbers::new(alloc);
        for number in &self.pending {
            numbers.push(*number)?;
        }
        Ok(numbers)
    }

    /// Whether none waits.
    pub fn wait_for_nothing(&self) -> bool
        ensures { result ≡ not (list_any (λ (d : coord.Doing). is_waiting_now d.now) self.now) }
    {
        self.pending.is_empty()
    }

    /// One more action, the last one.
    pub fn push(&mut self, label: Label) -> Result<(), AllocError>
        ensures kept { OnErr result (self.new ≡ self.old) }
        ensures pushed { OnOk result (self.new ≡ self.old ++ record { label = label; req = 0; now = Idle; took = [] } ∷ []) }
    {
        self.all.reserve(1)?;
        self.all.push_reserved(Doing::new(self.alloc, label));
        Ok(())
    }

    /// The action of a number waits for this from now on, its last request having this number.
    pub fn wait(&mut self, number: u64, req: u32, now: Now) -> Result<(), AllocError>
        ensures kept { OnErr result (self.new ≡ self.old) }
        ensures waits { OnOk result (self.new ≡ changed_at number (λ (d : coord.Doing). record d { req = req; now = now_of now }) self.old) }
    {
        let Some(place) = self.place(number) else {
            discard(now);
            return Ok(());
        };
        if let Err(fault) = mark(&mut self.pending, is_waiting(&now), number) {
            discard(now);
            return Err(fault);
        }
        self.all[place].wait(req, now);
        Ok(())
    }

    /// Takes out what the action of a number waits for: it waits for nothing.
    pub fn take(&mut self, number: u64) -> Now
        ensures taken { now_of result ≡ now_in (at_place number self.old) }
        ensures idle { self.new ≡ changed_at number idle_doing self.old }
    {
        if let Some(place) = self.place(number) {
            self.pending.remove(&number);
            return self.all[place].take();
        }
        Now::Idle
    }

    /// These nodes took part in the commit of the action of a number.
    pub fn take_part(&mut self, number: u64, nodes: NodeList)
        ensures { self.new ≡ changed_at number (λ (d : coord.Doing). record d { took = nodes }) self.old }
    {
        if let Some(place) = self.place(number) {
            self.all[place].take_part(nodes);
        }
    }
}

// A number comes to those that wait, or goes.
fn mark(pending: &mut BTreeSet<u64>, waits: bool, number: u64) -> Result<(), AllocError>
    ensures kept { OnErr result (pending.new.keys ≡ pending.old.keys) }
    ensures marked { OnOk result (pending.new.keys ≡ marked waits number pending.old.keys) }
{
    if waits {
        pending.insert(number)?;
    } else {
        pending.remove(&number);
    }
    Ok(())
}
