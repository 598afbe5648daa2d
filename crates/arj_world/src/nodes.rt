// What goes over all nodes: ticks, a quiesce, a show.
ghost use Rattle.std.specs.Prelude.{ℕ, ◌≡◌, ◌≤◌, ◌-◌, ◌∷◌, ◌++◌, [], List, true, false, OnOk, Some, is_some, slice_get};
ghost use Rattle.std.specs.List.{list_all};
ghost use Rattle.arj_disk.specs.FileMap.{FileMap};
ghost use Rattle.arj_journal.specs.declared.body.Line.{Line};
ghost use Rattle.arj_journal.specs.declared.header.Header.{Header};
ghost use Rattle.arj_protocol.specs.Step.{Node, is_idle, numbers_to};
ghost use Rattle.arj_protocol.specs.Words.body;
ghost use Rattle.arj_protocol.specs.World.{numbered};
ghost use Rattle.arj_protocol.specs.World as protocol;
ghost use Rattle.arj_world.specs.Disks.{HaveMoved};
ghost use Rattle.arj_world.specs.Goes.{GoesTo};
ghost use Rattle.arj_world.specs.Stands.{AreSomeNodes, StandsSome, hand};
ghost use Rattle.arj_world.specs.Tells.{TellsStops, halts, nobody};

use crate::World;
use arj_core::{Core, Input};
use arj_disk::{Disk, Rack};
use arj_journal::{Body, Lines};
use std::alloc::AllocError;

impl<C: Core> World<C> {
    /// Whether a node is up.
    pub(crate) fn is_up(&self, node: u8) -> bool
        requires least { 1 ≤ node }
        requires greatest { node ≤ self.now.header.nodes }
        ensures { (c : C) → slice_get self.now.cores (node - 1) ≡ Some c → (header : Header) (file : FileMap) (n : Node) → C.stands header c file n → result ≡ is_some n.live }
    {
        self.cores[usize::from(node - 1)].is_up()
    }

    // Whether each node is up, with no action that waits, no prepared action and no record.
    fn is_quiet(&self) -> bool
        ensures { (header : Header) (nodes : List Node) → AreSomeNodes C.Core header self.now.cores nodes → result ≡ list_all is_idle nodes }
    {
        for core in &self.cores {
            if !core.idle() {
                return false;
            }
        }
        true
    }

    // What waits at a node is asked for again, where it is up and all frames fitted.
    #[tactic(auto, using(crate::proofs::Disks::moved_none, crate::proofs::Tells::tells_none))]
    fn tick_up<D: Disk>(
        &mut self,
        rack: &mut Rack<D>,
        node: u8,
        journal: &mut Lines,
    ) -> Result<(), AllocError>
        requires least { 1 ≤ node }
        requires greatest { node ≤ self.old.header.nodes }
        requires stands { StandsSome C.Core D.file (hand self.old rack.old journal.old) }
        ensures goes { OnOk result (GoesTo C.Core D.file (protocol.tick_up node) (hand self.old rack.old journal.old) (hand self.new rack.new journal.new)) }
        ensures header { self.new.header ≡ self.old.header }
        ensures disks { HaveMoved D.Disk self.old.header.nodes [] rack.old rack.new }
        ensures tells { OnOk result (TellsStops D.Disk self.old.header.nodes nobody rack.old rack.new journal.old journal.new) }
    {
        if self.wire.full {
            return Ok(());
        }
        if !self.is_up(node) {
            return Ok(());
        }
        self.step_core(rack, node, Input::Tick, journal)
    }

    // Ticks all nodes, in order.
    fn tick_all<D: Disk>(
        &mut self,
        rack: &mut Rack<D>,
        journal: &mut Lines,
    ) -> Result<(), AllocError>
        requires stands { StandsSome C.Core D.file (hand self.old rack.old journal.old) }
        ensures goes { OnOk result (GoesTo C.Core D.file (protocol.tick_all (numbers_to self.old.header.nodes)) (hand self.old rack.old journal.old) (hand self.new rack.new journal.new)) }
        ensures header { self.new.header ≡ self.old.header }
        ensures disks { HaveMoved D.Disk self.old.header.nodes [] rack.old rack.new }
        ensures tells { OnOk result (TellsStops D.Disk self.old.header.nodes nobody rack.old rack.new journal.old journal.new) }
    {
        let nodes = self.header.nodes;
        for node in 0..nodes {
            self.tick_up(rack, node + 1, journal)?;
        }
        Ok(())
    }

    // Says whether all nodes are quiet, where all frames fitted.
    fn say_quiet(&self, journal: &mut Lines) -> Result<(), AllocError>
        ensures full { self.now.full ≡ true → OnOk result (journal.new ≡ journal.old) }
        ensures said { self.now.full ≡ false → OnOk result ((header : Header) (nodes : List Node) → AreSomeNodes C.Core header self.now.cores nodes
            → journal.new ≡ journal.old ++ numbered self.now.event (body.Quiet (list_all is_idle nodes) ∷ [])) }
        ensures added { OnOk result ((added : List Line) × (journal.new ≡ journal.old ++ added) × ((n : ℕ) → halts n added ≡ 0)) }
    {
        if self.wire.full {
            return Ok(());
        }
        let yes = self.is_quiet();
        self.wire.say(Body::Quiet { yes }, journal)
    }

    /// Frames are delivered, all nodes are ticked, frames are delivered again, and a line says whether all is quiet then.
    pub(crate) fn quiesce<D: Disk>(
        &mut self,
        rack: &mut Rack<D>,
        journal: &mut Lines,
    ) -> Result<(), AllocError>
        requires stands { StandsSome C.Core D.file (hand self.old rack.old journal.old) }
        ensures goes { OnOk result (GoesTo C.Core D.file protocol.quiesce (hand self.old rack.old journal.old) (hand self.new rack.new journal.new)) }
        ensures header { self.new.header ≡ self.old.header }
        ensures disks { HaveMoved D.Disk self.old.header.nodes [] rack.old rack.new }
        ensures tells { OnOk result (TellsStops D.Disk self.old.header.nodes nobody rack.old rack.new journal.old journal.new) }
    {
        self.settle(rack, journal)?;
        self.tick_all(rack, journal)?;
        self.settle(rack, journal)?;
        self.say_quiet(journal)
    }

    // A node that is up shows what its disk has of an object.
    #[tactic(auto, using(crate::proofs::Disks::moved_none, crate::proofs::Tells::tells_none))]
    fn show_up<D: Disk>(
        &mut self,
        rack: &mut Rack<D>,
        x: u16,
        node: u8,
        journal: &mut Lines,
    ) -> Result<(), AllocError>
        requires least { 1 ≤ node }
        requires greatest { node ≤ self.old.header.nodes }
        requires stands { StandsSome C.Core D.file (hand self.old rack.old journal.old) }
        ensures goes { OnOk result (GoesTo C.Core D.file (protocol.show_up x node) (hand self.old rack.old journal.old) (hand self.new rack.new journal.new)) }
        ensures header { self.new.header ≡ self.old.header }
        ensures disks { HaveMoved D.Disk self.old.header.nodes [] rack.old rack.new }
        ensures tells { OnOk result (TellsStops D.Disk self.old.header.nodes nobody rack.old rack.new journal.old journal.new) }
    {
        if !self.is_up(node) {
            return Ok(());
        }
        self.step_core(rack, node, Input::Show { x }, journal)
    }

    /// All nodes that are up show what their disks have of an object, in order.
    pub(crate) fn show_all<D: Disk>(
        &mut self,
        rack: &mut Rack<D>,
        x: u16,
        journal: &mut Lines,
    ) -> Result<(), AllocError>
        requires stands { StandsSome C.Core D.file (hand self.old rack.old journal.old) }
        ensures goes { OnOk result (GoesTo C.Core D.file (protocol.show_all x (numbers_to self.old.header.nodes)) (hand self.old rack.old journal.old) (hand self.new rack.new journal.new)) }
        ensures header { self.new.header ≡ self.old.header }
        ensures disks { HaveMoved D.Disk self.old.header.nodes [] rack.old rack.new }
        ensures tells { OnOk result (TellsStops D.Disk self.old.header.nodes nobody rack.old rack.new journal.old journal.new) }
    {
        let nodes = self.header.nodes;
        for node in 0..nodes {
            self.show_up(rack, x, node + 1, journal)?;
        }
        Ok(())
    }
}
