// An action at work.
ghost use Rattle.std.specs.Prelude.{◌≡◌, []};
ghost use Rattle.arj_coord.specs.Shown.{now_of};
ghost use Rattle.arj_protocol.specs.Coord.{Idle};
ghost use Rattle.arj_protocol.specs.Order.{has};
ghost use Rattle.arj_protocol.specs.Step.{is_waiting_now};

use crate::Now;
use crate::now::is_waiting;
use crate::tolds::has;
use arj_base::NodeList;
use arj_journal::Label;
use std::alloc::Global;
use std::marker::Model;
use std::mem;

/// An action at work: its label, its last request number, what it waits for, and the participants of its commit.
/// Contracts see the protocol's.
#[derive(Drop)]
pub struct Doing {
    label: Label,
    req: u32,
    now: Now,
    took: NodeList,
}

impl Model for Doing {
    ghost use Rattle.arj_coord.specs.Shown.{now_of};
    ghost use Rattle.arj_protocol.specs.Coord.{Doing};

    ghost Value = { Doing };

    ghost view = { λ d. record { label = d.label; req = d.req; now = now_of d.now; took = d.took } };
}

impl Doing {
    /// An action that begins. It allocates nothing.
    pub fn new(alloc: Global, label: Label) -> Doing
        ensures { result ≡ record { label = label; req = 0; now = Idle; took = [] } }
    {
        Doing {
            label,
            req: 0,
            now: Now::Idle,
            took: NodeList::new(alloc),
        }
    }

    /// Its label.
    pub fn label(&self) -> Label
        ensures { result ≡ self.entry.now.label }
    {
        self.label
    }

    /// The number of its last request, 0 before the first.
    pub fn req(&self) -> u32
        ensures { result ≡ self.entry.now.req }
    {
        self.req
    }

    /// What it waits for.
    pub fn waits_for(&self) -> &Now
        ensures { now_of result.now ≡ self.entry.now.now }
    {
        &self.now
    }

    /// Whether it waits.
    pub fn is_waiting(&self) -> bool
        ensures { result ≡ is_waiting_now self.entry.now.now }
    {
        is_waiting(&self.now)
    }

    /// Whether the node took part in its commit.
    pub fn took_part(&self, node: u8) -> bool
        ensures { result ≡ has self.entry.now.took node }
    {
        has(self.took.as_slice(), node)
    }

    /// It waits for this from now on, its last request having this number.
    pub fn wait(&mut self, req: u32, now: Now)
        ensures { self.new ≡ record self.old { req = req; now = now_of now } }
    {
        self.req = req;
        self.now = now;
    }

    /// Takes out what it waits for: it waits for nothing.
    pub fn take(&mut self) -> Now
        ensures taken { now_of result ≡ self.old.now }
        ensures idle { self.new ≡ record self.old { now = Idle } }
    {
        mem::replace(&mut self.now, Now::Idle)
    }

    /// These nodes took part in its commit.
    pub fn take_part(&mut self, nodes: NodeList)
        ensures { self.new ≡ record self.old { took = nodes } }
    {
        self.took = nodes;
    }
}
