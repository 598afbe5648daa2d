// The world: its nodes, its frames and its labels.
ghost use Rattle.std.specs.Prelude.{◌≡◌, ◌≤◌, [], length, true, OnOk, IfOk, Some, slice_get};
ghost use Rattle.arj_core.specs.Steps.{input_of};
ghost use Rattle.arj_protocol.specs.World.{steps};
ghost use Rattle.arj_world.specs.Disks.{HaveMoved};
ghost use Rattle.arj_world.specs.Goes.{GoesTo, StepsTo, is_no_restart};
ghost use Rattle.arj_world.specs.Stands.{StandsSome, hand};
ghost use Rattle.arj_world.specs.Tells.{TellsStops, crashed_at};

use crate::Labelled;
use crate::wire::Wire;
use arj_core::{Core, CoreFault, Input, Outputs};
use arj_disk::{Disk, Rack};
use arj_journal::{Body, Header, Label, Lines};
use std::alloc::{AllocError, Global};
use std::collections::{BTreeMap, BTreeSet};
use std::marker::Model;

/// All nodes of a run, 1 to 16, with the frames between them and the labels that were given, in the run or before it. The disks
/// stand apart, in a rack.
#[derive(Drop)]
pub struct World<C> {
    pub(crate) alloc: Global,
    pub(crate) header: Header,
    // the first is node 1
    pub(crate) cores: Vec<C>,
    pub(crate) wire: Wire,
    pub(crate) labels: BTreeMap<Label, Labelled>,
    // those that were given before the run began
    pub(crate) given: BTreeSet<Label>,
}

impl<C> Model for World<C> {
    ghost use Rattle.std.specs.Prelude.{◌≡◌, ◌≤◌, length};
    ghost use Rattle.arj_world.specs.Stands.{Kept};
    ghost use Rattle.arj_world.specs.Wire.{AreFew};

    ghost Value = { Kept C };

    ghost view = { λ w. record { header = w.header; cores = w.cores.items; net = w.wire.net; labels = w.labels.entries; given = w.given.keys; event = w.wire.event; full = w.wire.full } };

    ghost invariant = { λ w. (1 ≤ w.header.nodes) × (w.header.nodes ≤ 16) × (length w.cores.items ≡ w.header.nodes) × AreFew w.wire.net };
}

impl<C: Core> World<C> {
    /// One step of a node. Its lines and frames are put; where its disk stopped, a line says that it halted.
    pub(crate) fn step_core<D: Disk>(
        &mut self,
        rack: &mut Rack<D>,
        node: u8,
        input: Input,
        journal: &mut Lines,
    ) -> Result<(), AllocError>
        requires least { 1 ≤ node }
        requires greatest { node ≤ self.old.header.nodes }
        requires stands { StandsSome C.Core D.file (hand self.old rack.old journal.old) }
        ensures steps { OnOk result (StepsTo C.Core D.file node (input_of input) (hand self.old rack.old journal.old) (hand self.new rack.new journal.new)) }
        ensures header { self.new.header ≡ self.old.header }
        ensures disks { HaveMoved D.Disk self.old.header.nodes [] rack.old rack.new }
        ensures tells { OnOk result (TellsStops D.Disk self.old.header.nodes (crashed_at node (input_of input)) rack.old rack.new journal.old journal.new) }
    {
        let mut outputs = Outputs::new(self.alloc);
        let core = &mut self.cores[usize::from(node - 1)];
        match core.step(rack.disk(node), input, &mut outputs) {
            Ok(()) => self.wire.put(node, outputs, journal),
            Err(CoreFault::Halted) => {
                self.wire.put(node, outputs, journal)?;
                self.wire.say(Body::Halted { node }, journal)
            }
            Err(CoreFault::Memory) => Err(AllocError),
        }
    }

    /// The node of a number takes an input, but no restart. Where there is no such node, nothing happens.
    #[tactic(auto, using(crate::proofs::Disks::moved_none, crate::proofs::Tells::tells_none))]
    pub(crate) fn ask_node<D: Disk>(
        &mut self,
        rack: &mut Rack<D>,
        node: u32,
        input: Input,
        journal: &mut Lines,
    ) -> Result<(), AllocError>
        requires other { is_no_restart (input_of input) ≡ true }
        requires stands { StandsSome C.Core D.file (hand self.old rack.old journal.old) }
        ensures goes { OnOk result (GoesTo C.Core D.file (steps node (input_of input)) (hand self.old rack.old journal.old) (hand self.new rack.new journal.new)) }
        ensures header { self.new.header ≡ self.old.header }
        ensures disks { HaveMoved D.Disk self.old.header.nodes [] rack.old rack.new }
        ensures tells { OnOk result (TellsStops D.Disk self.old.header.nodes (crashed_at node (input_of input)) rack.old rack.new journal.old journal.new) }
    {
        match self.node_in(node) {
            Some(n) => self.step_core(rack, n, input, journal),
            None => Ok(()),
        }
    }
}
