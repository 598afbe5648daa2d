// One event after another.
ghost use Rattle.std.specs.Prelude.{◌≡◌, ◌⊎◌, ◌≤◌, ◌<◌, ◌+◌, ◌∷◌, ◌++◌, [], List, true, false, None, Some, OnOk, IfOk, IsErrOf, All};
ghost use Rattle.arj_disk.specs.declared.limits.TheConstants.{LAST_ARM};
ghost use Rattle.arj_journal.specs.ScriptForm.{EventInForm};
ghost use Rattle.arj_journal.specs.Stepping.{EndsWithLimit};
ghost use Rattle.arj_journal.specs.declared.body.Line.{Line};
ghost use Rattle.arj_protocol.specs.Step.{first_reason};
ghost use Rattle.arj_protocol.specs.Step as inputs;
ghost use Rattle.arj_protocol.specs.Words.body;
ghost use Rattle.arj_protocol.specs.Words.event as events;
ghost use Rattle.arj_protocol.specs.Words.which;
ghost use Rattle.arj_protocol.specs.World.{giving, lacks_labels, numbered, reasons, steps};
ghost use Rattle.arj_protocol.specs.World as protocol;
ghost use Rattle.arj_world.specs.Disks.{HaveMoved};
ghost use Rattle.arj_world.specs.Goes.{GoesTo};
ghost use Rattle.arj_world.specs.Happens.{HappensTo, RunsOver, RunsTo, done};
ghost use Rattle.arj_world.specs.Owns.{AnswersEvent, EndsEvent, HasNoOpen};
ghost use Rattle.arj_world.specs.Stands.{Keeps, StandsSome, hand};
ghost use Rattle.arj_world.specs.Tells.{TellsStops, crashed_by, nobody};
ghost use Rattle.arj_world.specs.Wire.{AreFew};
ghost use Rattle.arj_world.specs.declared.run.TheConstants.{MOST_EVENTS};

use crate::{StepFault, World};
use arj_core::{Core, Input};
use arj_disk::{Disk, Rack};
use arj_journal::{Body, Event, Header, Kind, Label, Lines, Which};
use std::alloc::AllocError;

/// The most events that a world runs.
pub const MOST_EVENTS: u32 = 200_000;

/// The most labels that a run gives.
pub const MOST_LABELS: usize = 4096;

impl<C: Core> World<C> {
    // An action includes a store of an object.
    fn include<D: Disk>(
        &mut self,
        rack: &mut Rack<D>,
        label: Label,
        x: u16,
        node: u32,
        journal: &mut Lines,
    ) -> Result<(), AllocError>
        requires least { 1 ≤ node }
        requires greatest { node ≤ self.old.header.nodes }
        requires stands { StandsSome C.Core D.file (hand self.old rack.old journal.old) }
        ensures goes { OnOk result (GoesTo C.Core D.file (λ w. steps (protocol.node_of label w) (inputs.Include label x node) w) (hand self.old rack.old journal.old) (hand self.new rack.new journal.new)) }
        ensures header { self.new.header ≡ self.old.header }
        ensures disks { HaveMoved D.Disk self.old.header.nodes [] rack.old rack.new }
        ensures tells { OnOk result (TellsStops D.Disk self.old.header.nodes nobody rack.old rack.new journal.old journal.new) }
    {
        let Some(store) = self.node_in(node) else {
            unreachable!()
        };
        self.ask(rack, label, Input::Include { label, x, store }, journal)
    }

    // What an event does that the world doesn't refuse.
    fn happen<D: Disk>(
        &mut self,
        rack: &mut Rack<D>,
        event: Event,
        journal: &mut Lines,
    ) -> Result<(), AllocError>
        requires form { EventInForm event }
        requires accepted { (w : protocol.World) → Keeps C.Core self.old w → None ≡ first_reason (reasons event w) }
        requires arms { All (λ d. D.arms d < LAST_ARM) rack.old }
        requires stands { StandsSome C.Core D.file (hand self.old rack.old journal.old) }
        ensures happens { OnOk result (HappensTo C.Core D.file (done event) (hand self.old rack.old journal.old) (hand self.new rack.new journal.new)) }
        ensures header { self.new.header ≡ self.old.header }
        ensures disks { HaveMoved D.Disk self.old.header.nodes (event ∷ []) rack.old rack.new }
        ensures tells { OnOk result (TellsStops D.Disk self.old.header.nodes (crashed_by event) rack.old rack.new journal.old journal.new) }
    {
        match event {
            Event::Begin { label, node } => self.begin_at(rack, label, Kind::Top, node, journal),
            Event::Serial { label, node } => {
                self.begin_at(rack, label, Kind::Serial, node, journal)
            }
            Event::BeginIn { label, parent } => self.begin_in(rack, label, parent, journal),
            Event::Top { label, parent } => self.begin_apart(rack, label, parent, journal),
            Event::Call { label, x, op } => {
                self.ask(rack, label, Input::Call { label, x, op }, journal)
            }
            Event::Include { label, x, node } => self.include(rack, label, x, node, journal),
            Event::Commit { label } => self.ask(rack, label, Input::Commit { label }, journal),
            Event::Abort { label } => self.ask(rack, label, Input::Abort { label }, journal),
            Event::GiveUp { label } => self.ask(rack, label, Input::GiveUp { label }, journal),
            Event::Deliver { frame } => {
                let k = self.frame_number(frame);
                self.deliver(rack, k, journal)
            }
            Event::Lose { frame } => {
                let k = self.frame_number(frame);
                self.lose(k, journal)
            }
            Event::Tick { node } => self.ask_node(rack, node, Input::Tick, journal),
            Event::Settle => self.settle(rack, journal),
            Event::Quiesce => self.quiesce(rack, journal),
            Event::Crash { node } => self.ask_node(rack, node, Input::Crash, journal),
            Event::Restart { node } => self.restart(rack, node, journal),
            Event::Stop { node, calls, kind } => self.arm(rack, node, calls, kind, journal),
            Event::Junk { node, bytes } => self.send_junk(rack, node, bytes, journal),
            Event::Show { x } => self.show_all(rack, x, journal),
        }
    }

    // Whether an event would give one label too many.
    fn lacks_labels(&self, event: &Event) -> bool
        ensures { (w : protocol.World) → Keeps C.Core self.now w → result ≡ lacks_labels (giving event.now w) w }
    {
        let gives = matches!(
            event,
            Event::Begin { .. } | Event::Serial { .. } | Event::BeginIn { .. } | Event::Top { .. }
        );
        gives && MOST_LABELS <= self.labels.len()
    }

    // The next event.
    fn count(&mut self)
        requires { self.old.event < MOST_EVENTS }
        ensures { self.new ≡ record self.old { event = self.old.event + 1 } }
    {
        self.wire.event += 1;
    }

    // Counts a refused event, and writes its line.
    fn refuse(&mut self, cause: u8, journal: &mut Lines) -> Result<(), StepFault>
        requires { self.old.event < MOST_EVENTS }
        ensures counted { OnOk result (self.new ≡ record self.old { event = self.old.event + 1 }) }
        ensures said { OnOk result (journal.new ≡ journal.old ++ numbered (self.old.event + 1) (body.Refused cause ∷ [])) }
        ensures labels { IsErrOf result StepFault.Labels → ⊥ }
        ensures frames { IsErrOf result StepFault.Frames → ⊥ }
        ensures header { self.new.header ≡ self.old.header }
    {
        self.wire.event += 1;
        self.wire.say(Body::Refused { cause }, journal)?;
        Ok(())
    }

    // An event is over: where a frame didn't fit, a line says so.
    fn end(&self, journal: &mut Lines) -> Result<(), StepFault>
        ensures fits { OnOk result (self.now.full ≡ false) }
        ensures still { OnOk result (journal.new ≡ journal.old) }
        ensures full { IsErrOf result StepFault.Frames → self.now.full ≡ true }
        ensures said { IsErrOf result StepFault.Frames → journal.new ≡ journal.old ++ numbered self.now.event (body.Limit which.Frames ∷ []) }
        ensures labels { IsErrOf result StepFault.Labels → ⊥ }
        ensures few { AreFew self.now.net }
    {
        if !self.wire.full {
            return Ok(());
        }
        let body = Body::Limit {
            which: Which::Frames,
        };
        self.wire.say(body, journal)?;
        Err(StepFault::Frames)
    }

    /// The header of its nodes.
    pub fn header(&self) -> &Header
        ensures header { result.now ≡ self.now.header }
        ensures few { result.now.nodes ≤ 16 }
    {
        &self.header
    }

    /// How many events were run.
    pub fn stepped(&self) -> u32
        ensures { result ≡ self.now.event }
    {
        self.wire.event
    }

    /// Runs one event: its lines go to the end of the journal, and the world is then what the protocol makes of it, with
    /// the stops that fell. Where a frame didn't fit, a line says so last, and the run is over. An event that would give
    /// one label too many changes nothing. A line that says that a node halted stands for a stop of its disk, but in the event
    /// that crashes it; an event of a kind with a line of its own writes it, or why it doesn't, with the number of the refusal, and
    /// so does a commit, an abort, a giveup, and a delivery of a frame for a node of the header; and after a settle or a quiesce
    /// each frame was delivered or lost. At every answer, also where memory was wanting, the disks of the header's nodes were armed
    /// as the event asks for it and by nothing else, and all other disks are as they were.
    #[tactic(auto, using(crate::proofs::Disks::moved_none, crate::proofs::Tells::tells_none))]
    pub fn step<D: Disk>(
        &mut self,
        rack: &mut Rack<D>,
        event: Event,
        journal: &mut Lines,
    ) -> Result<(), StepFault>
        requires room { self.old.event < MOST_EVENTS }
        requires form { EventInForm event }
        requires arms { All (λ d. D.arms d < LAST_ARM) rack.old }
        requires stands { StandsSome C.Core D.file (hand self.old rack.old journal.old) }
        ensures ran { OnOk result (RunsTo C.Core D.file event (hand self.old rack.old journal.old) (hand self.new rack.new journal.new)) }
        ensures frames { IsErrOf result StepFault.Frames → RunsOver C.Core D.file event (hand self.old rack.old journal.old) (hand self.new rack.new journal.new) }
        ensures last { IsErrOf result StepFault.Frames → EndsWithLimit which.Frames journal.new }
        ensures counted { OnOk result (self.new.event ≡ self.old.event + 1) }
        ensures counted_over { IsErrOf result StepFault.Frames → self.new.event ≡ self.old.event + 1 }
        ensures grown { OnOk result ((added : List Line) × (journal.new ≡ journal.old ++ added)) }
        ensures grown_over { IsErrOf result StepFault.Frames → (added : List Line) × (journal.new ≡ journal.old ++ added) }
        ensures kept { IsErrOf result StepFault.Labels → (self.new ≡ self.old) × (rack.new ≡ rack.old) × (journal.new ≡ journal.old) }
        ensures labels { IsErrOf result StepFault.Labels → (w : protocol.World) → Keeps C.Core self.old w → (None ≡ first_reason (reasons event w)) × (lacks_labels (giving event w) w ≡ true) }
        ensures header { self.new.header ≡ self.old.header }
        ensures disks { HaveMoved D.Disk self.old.header.nodes (event ∷ []) rack.old rack.new }
        ensures stops { OnOk result (TellsStops D.Disk self.old.header.nodes (crashed_by event) rack.old rack.new journal.old journal.new) }
        ensures stops_over { IsErrOf result StepFault.Frames → TellsStops D.Disk self.old.header.nodes (crashed_by event) rack.old rack.new journal.old journal.new }
        ensures answers { OnOk result (AnswersEvent C.Core D.file event (hand self.old rack.old journal.old) false journal.new) }
        ensures answers_over { IsErrOf result StepFault.Frames → AnswersEvent C.Core D.file event (hand self.old rack.old journal.old) true journal.new }
        ensures ends { OnOk result (EndsEvent C.Core D.file event (hand self.old rack.old journal.old) journal.new) }
        ensures ends_over { IsErrOf result StepFault.Frames → EndsEvent C.Core D.file event (hand self.old rack.old journal.old) journal.new }
        ensures settled { OnOk result ((event ≡ events.Settle) ⊎ (event ≡ events.Quiesce) → HasNoOpen self.new.net) }
    {
        if let Some(cause) = self.refusal(&event)? {
            return self.refuse(cause, journal);
        }
        if self.lacks_labels(&event) {
            return Err(StepFault::Labels);
        }
        self.count();
        self.happen(rack, event, journal)?;
        self.end(journal)
    }
}
