// All nodes as the machine of a script.
ghost use Rattle.std.specs.Prelude.{◌≡◌, ◌≤◌, ◌<◌, ◌+◌, ◌∷◌, ◌++◌, [], List, All, false, true, IfOk, OnOk, IsErrOf};
ghost use Rattle.arj_journal.specs.ScriptForm.{EventInForm};
ghost use Rattle.arj_journal.specs.declared.body.Line.{Line};
ghost use Rattle.arj_loop.specs.Limits.{EndsAtFrames};
ghost use Rattle.arj_loop.specs.declared.limits.TheConstants.{MOST_EVENTS};
ghost use Rattle.arj_loop.specs.declared.machine.EventFault.TheVariants as event_fault;
ghost use Rattle.arj_nodes.specs.AllNodes.{LacksLabels, RanAll, Task, task_from, with_event};
ghost use Rattle.arj_start.specs.Start.{Start};
ghost use Rattle.arj_world.specs.Disks.{HaveMoved};
ghost use Rattle.arj_world.specs.First.{AreAtRest};
ghost use Rattle.arj_world.specs.Stands.{hand};

use arj_core::Core;
use arj_disk::{Disk, Rack};
use arj_journal::{Event, Header, Label, Lines};
use arj_loop::{EventFault, Machine, StartFault};
use arj_world::{FormatFault, StepFault, World};
use std::alloc::{AllocError, Global};
use std::collections::BTreeSet;

/// The nodes, the frames between them and their labels, and whether a frame didn't fit.
#[derive(Drop)]
pub struct AllNodes<C> {
    world: World<C>,
    over: bool,
}

impl<C> AllNodes<C> {
    /// The nodes with their frames and labels.
    pub fn into_world(self) -> World<C>
        ensures { result ≡ self.world }
    {
        self.world
    }
}

impl<C: Core> AllNodes<C> {
    /// The header of the nodes.
    pub fn header(&self) -> &Header
        ensures header { result.now ≡ self.now.world.header }
        ensures few { result.now.nodes ≤ 16 }
    {
        self.world.header()
    }

    /// How many events they have run.
    pub fn count(&self) -> u32
        ensures { result ≡ self.now.world.event }
    {
        self.world.stepped()
    }

    /// Runs an event, wherever the run began: its lines go to the end of the journal.
    pub fn run<D: Disk>(
        &mut self,
        event: Event,
        rack: &mut Rack<D>,
        journal: &mut Lines,
    ) -> Result<(), EventFault>
        requires form { EventInForm event }
        requires room { self.old.world.event < MOST_EVENTS }
        requires going { self.old.over ≡ false }
        requires ran { (t : Task D) × RanAll C.Core D.Disk t self.old.over (hand self.old.world rack.old journal.old) }
        ensures ran { OnOk result ((t : Task D) → RanAll C.Core D.Disk t self.old.over (hand self.old.world rack.old journal.old) → RanAll C.Core D.Disk (with_event t event) self.new.over (hand self.new.world rack.new journal.new)) }
        ensures grown { OnOk result ((self.new.world.event ≡ self.old.world.event + 1) × ((lines : List Line) × (journal.new ≡ journal.old ++ lines))) }
        ensures going { OnOk result (self.new.over ≡ false) }
        ensures labels { IsErrOf result event_fault.Labels → (t : Task D) → RanAll C.Core D.Disk t self.old.over (hand self.old.world rack.old journal.old) → RanAll C.Core D.Disk t self.new.over (hand self.new.world rack.new journal.new) × LacksLabels C.Core self.new.world event }
        ensures kept { IsErrOf result event_fault.Labels → (self.new.world.event ≡ self.old.world.event) × (self.new.over ≡ false) × (journal.new ≡ journal.old) }
        ensures frames { IsErrOf result event_fault.Frames → (t : Task D) → RanAll C.Core D.Disk t self.old.over (hand self.old.world rack.old journal.old) → RanAll C.Core D.Disk (with_event t event) self.new.over (hand self.new.world rack.new journal.new) }
        ensures overflown { IsErrOf result event_fault.Frames → (self.new.over ≡ true) × (self.new.world.event ≡ self.old.world.event + 1) × ((lines : List Line) × (journal.new ≡ journal.old ++ lines)) × EndsAtFrames journal.new }
        ensures moved { (t : Task D) → RanAll C.Core D.Disk t self.old.over (hand self.old.world rack.old journal.old) → HaveMoved D.Disk t.header.nodes (event ∷ []) rack.old rack.new }
    {
        match self.world.step(rack, event, journal) {
            Ok(()) => Ok(()),
            Err(StepFault::Labels) => Err(EventFault::Labels),
            Err(StepFault::Frames) => {
                self.over = true;
                Err(EventFault::Frames)
            }
            Err(StepFault::Memory) => Err(EventFault::Memory),
        }
    }
}

impl<C: Core + Drop> AllNodes<C> {
    /// All nodes, each down over what its disk has, in a run before which these labels were given. It is what has run no event yet, of
    /// each start whose disks these are.
    pub fn adopt<D: Disk>(
        alloc: Global,
        header: Header,
        given: BTreeSet<Label>,
        rack: &Rack<D>,
    ) -> Result<AllNodes<C>, AllocError>
        requires least { 1 ≤ header.nodes }
        requires greatest { header.nodes ≤ 16 }
        requires arms { All (λ one. D.arms one < 1000) rack.now }
        ensures ran { IfOk result (λ nodes. (st : Start) → AreAtRest C.Core D.file header st given.keys rack.now → RanAll C.Core D.Disk (task_from rack.now header st []) nodes.over (hand nodes.world rack.now [])) }
        ensures header { IfOk result (λ nodes. nodes.world.header ≡ header) }
        ensures going { IfOk result (λ nodes. nodes.over ≡ false) }
    {
        match World::<C>::adopt(alloc, header, given, rack) {
            Ok(world) => Ok(AllNodes { world, over: false }),
            Err(AllocError) => Err(AllocError),
        }
    }
}

impl<C: Core + Drop, D: Disk> Machine<D> for AllNodes<C> {
    ghost use Rattle.arj_nodes.specs.AllNodes.{AreFresh, LacksLabels, RanAll, task};
    ghost use Rattle.arj_world.specs.Disks.{HasStopped, HaveMoved};
    ghost use Rattle.arj_world.specs.Stands.{hand};

    ghost ready = { AreFresh D.Disk };

    ghost ran = { λ first header events rack journal nodes. RanAll C.Core D.Disk (task first header events) nodes.over (hand nodes.world rack journal) };

    ghost steps = { λ nodes. nodes.world.event };

    ghost over = { λ nodes. nodes.over };

    ghost is_full = { λ header e rack nodes. LacksLabels C.Core nodes.world e };

    ghost moved = { λ header events old new. HaveMoved D.Disk header.nodes events old new };

    ghost stopped = { HasStopped D.Disk };

    fn format(alloc: Global, header: Header, rack: &mut Rack<D>) -> Result<Self, StartFault> {
        match World::<C>::format(alloc, header, rack) {
            Ok(world) => Ok(AllNodes { world, over: false }),
            Err(FormatFault::Stopped) => Err(StartFault::Stopped),
            Err(FormatFault::Memory) => Err(StartFault::Memory),
        }
    }

    fn stepped(&self) -> u32 {
        self.world.stepped()
    }

    fn is_over(&self) -> bool {
        self.over
    }

    fn step(
        &mut self,
        event: Event,
        rack: &mut Rack<D>,
        journal: &mut Lines,
    ) -> Result<(), EventFault> {
        self.run(event, rack, journal)
    }
}
