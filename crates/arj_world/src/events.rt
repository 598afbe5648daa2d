// What an event does that the world doesn't refuse.
ghost use Rattle.std.specs.Prelude.{◌≡◌, ◌≤◌, ◌<◌, ◌+◌, ◌∷◌, [], true, false, None, Some, OnOk, All};
ghost use Rattle.std.specs.BTreeMap.{insert_entry};
ghost use Rattle.arj_core.specs.Steps.{Sent, input_of, message_of};
ghost use Rattle.arj_disk.specs.declared.limits.TheConstants.{LAST_ARM};
ghost use Rattle.arj_law_parts.specs.steps.Halts.{is_crash};
ghost use Rattle.arj_journal.specs.ScriptForm.{EventInForm};
ghost use Rattle.arj_protocol.specs.Step.{first_reason};
ghost use Rattle.arj_protocol.specs.Step as inputs;
ghost use Rattle.arj_protocol.specs.Words.{label_cmp};
ghost use Rattle.arj_protocol.specs.Words.event as events;
ghost use Rattle.arj_protocol.specs.World.{reasons, steps};
ghost use Rattle.arj_start.specs.Kinds.{is_serial as is_serial_kind};
ghost use Rattle.arj_protocol.specs.World as protocol;
ghost use Rattle.arj_world.specs.Arms as arms;
ghost use Rattle.arj_world.specs.Disks.{HaveMoved};
ghost use Rattle.arj_world.specs.Goes.{BeginsTo, GoesTo, is_no_restart};
ghost use Rattle.arj_world.specs.Happens.{HappensTo, done};
ghost use Rattle.arj_world.specs.Happens as happens;
ghost use Rattle.arj_world.specs.Stands.{Keeps, StandsSome, hand};
ghost use Rattle.arj_world.specs.Tells.{TellsStops, nobody};

use crate::{Labelled, World};
use arj_base::Bytes;
use arj_core::{Core, Input};
use arj_disk::{Disk, Outcome, Rack};
use arj_journal::{Body, Event, FrameKind, Kind, Label, Lines, StopKind};
use std::alloc::AllocError;

// Whether the last line says that an action began.
fn ends_begun(lines: &Lines) -> bool
    ensures { result ≡ happens.ends_begun lines.now }
{
    match lines.as_slice().last() {
        Some(line) => matches!(line.body, Body::Began { .. }),
        None => false,
    }
}

fn is_serial(kind: Kind) -> bool
    ensures { result ≡ is_serial_kind kind }
{
    matches!(kind, Kind::Serial)
}

fn outcome_of(kind: StopKind) -> Outcome
    ensures { result ≡ arms.outcome_of kind }
{
    match kind {
        StopKind::Undone => Outcome::Undone,
        StopKind::Done => Outcome::Done,
        StopKind::Torn(bytes) => Outcome::Torn(bytes),
    }
}

impl<C: Core> World<C> {
    // Gives a label to an action of a node.
    fn give_label(&mut self, label: Label, node: u8, serial: bool) -> Result<(), AllocError>
        ensures given { OnOk result (self.new ≡ record self.old { labels = insert_entry label_cmp self.old.labels label (record { node = node; serial = serial }) }) }
        ensures header { self.new.header ≡ self.old.header }
    {
        self.labels.insert(label, Labelled { node, serial })?;
        Ok(())
    }

    // An action begins at a node. Its label is given where the node doesn't refuse.
    #[tactic(auto, using(crate::proofs::Disks::moved_none, crate::proofs::Tells::tells_none))]
    fn begin<D: Disk>(
        &mut self,
        rack: &mut Rack<D>,
        label: Label,
        kind: Kind,
        parent: Option<Label>,
        node: u8,
        journal: &mut Lines,
    ) -> Result<(), AllocError>
        requires stands { StandsSome C.Core D.file (hand self.old rack.old journal.old) }
        ensures goes { OnOk result (GoesTo C.Core D.file (protocol.begins (record { label = label; kind = kind; parent = parent; node = node })) (hand self.old rack.old journal.old) (hand self.new rack.new journal.new)) }
        ensures header { self.new.header ≡ self.old.header }
        ensures disks { HaveMoved D.Disk self.old.header.nodes [] rack.old rack.new }
        ensures tells { OnOk result (TellsStops D.Disk self.old.header.nodes nobody rack.old rack.new journal.old journal.new) }
    {
        let serial = is_serial(kind);
        let Some(n) = self.node_in(u32::from(node)) else {
            return self.give_label(label, node, serial);
        };
        let input = Input::Begin {
            label,
            kind,
            parent,
        };
        self.step_core(rack, n, input, journal)?;
        if !ends_begun(journal) {
            return Ok(());
        }
        self.give_label(label, node, serial)
    }

    /// A plain or a serializing action begins at a node.
    pub(crate) fn begin_at<D: Disk>(
        &mut self,
        rack: &mut Rack<D>,
        label: Label,
        kind: Kind,
        node: u32,
        journal: &mut Lines,
    ) -> Result<(), AllocError>
        requires least { 1 ≤ node }
        requires greatest { node ≤ self.old.header.nodes }
        requires stands { StandsSome C.Core D.file (hand self.old rack.old journal.old) }
        ensures goes { OnOk result (GoesTo C.Core D.file (protocol.begins (record { label = label; kind = kind; parent = None; node = node })) (hand self.old rack.old journal.old) (hand self.new rack.new journal.new)) }
        ensures header { self.new.header ≡ self.old.header }
        ensures disks { HaveMoved D.Disk self.old.header.nodes [] rack.old rack.new }
        ensures tells { OnOk result (TellsStops D.Disk self.old.header.nodes nobody rack.old rack.new journal.old journal.new) }
    {
        let Some(n) = self.node_in(node) else {
            unreachable!()
        };
        self.begin(rack, label, kind, None, n, journal)
    }

    // The node of a label, 0 where the label wasn't given.
    fn node_of(&self, label: Label) -> u8
        ensures { (w : protocol.World) → Keeps C.Core self.now w → result ≡ protocol.node_of label w }
    {
        match self.labels.get(&label) {
            Some(given) => given.node,
            None => 0,
        }
    }

    // The kind of an action that begins below one with this label.
    fn kind_below(&self, label: Label) -> Kind
        ensures { (w : protocol.World) → Keeps C.Core self.now w → result ≡ protocol.kind_below label w }
    {
        match self.labels.get(&label) {
            Some(given) => {
                if given.serial {
                    Kind::Constituent
                } else {
                    Kind::Nested
                }
            }
            None => Kind::Nested,
        }
    }

    /// An action begins in another one, at its node.
    pub(crate) fn begin_in<D: Disk>(
        &mut self,
        rack: &mut Rack<D>,
        label: Label,
        parent: Label,
        journal: &mut Lines,
    ) -> Result<(), AllocError>
        requires stands { StandsSome C.Core D.file (hand self.old rack.old journal.old) }
        ensures goes { OnOk result (GoesTo C.Core D.file (done (events.BeginIn label parent)) (hand self.old rack.old journal.old) (hand self.new rack.new journal.new)) }
        ensures header { self.new.header ≡ self.old.header }
        ensures disks { HaveMoved D.Disk self.old.header.nodes [] rack.old rack.new }
        ensures tells { OnOk result (TellsStops D.Disk self.old.header.nodes nobody rack.old rack.new journal.old journal.new) }
    {
        let kind = self.kind_below(parent);
        let node = self.node_of(parent);
        self.begin(rack, label, kind, Some(parent), node, journal)
    }

    /// An independent action begins at the node of another one.
    pub(crate) fn begin_apart<D: Disk>(
        &mut self,
        rack: &mut Rack<D>,
        label: Label,
        parent: Label,
        journal: &mut Lines,
    ) -> Result<(), AllocError>
        requires stands { StandsSome C.Core D.file (hand self.old rack.old journal.old) }
        ensures goes { OnOk result (GoesTo C.Core D.file (done (events.Top label parent)) (hand self.old rack.old journal.old) (hand self.new rack.new journal.new)) }
        ensures header { self.new.header ≡ self.old.header }
        ensures disks { HaveMoved D.Disk self.old.header.nodes [] rack.old rack.new }
        ensures tells { OnOk result (TellsStops D.Disk self.old.header.nodes nobody rack.old rack.new journal.old journal.new) }
    {
        let node = self.node_of(parent);
        self.begin(rack, label, Kind::Independent, Some(parent), node, journal)
    }

    /// The node of a label is asked.
    pub(crate) fn ask<D: Disk>(
        &mut self,
        rack: &mut Rack<D>,
        label: Label,
        input: Input,
        journal: &mut Lines,
    ) -> Result<(), AllocError>
        requires other { is_no_restart (input_of input) ≡ true }
        requires live { is_crash (input_of input) ≡ false }
        requires stands { StandsSome C.Core D.file (hand self.old rack.old journal.old) }
        ensures goes { OnOk result (GoesTo C.Core D.file (λ w. steps (protocol.node_of label w) (input_of input) w) (hand self.old rack.old journal.old) (hand self.new rack.new journal.new)) }
        ensures header { self.new.header ≡ self.old.header }
        ensures disks { HaveMoved D.Disk self.old.header.nodes [] rack.old rack.new }
        ensures tells { OnOk result (TellsStops D.Disk self.old.header.nodes nobody rack.old rack.new journal.old journal.new) }
    {
        let node = self.node_of(label);
        self.ask_node(rack, u32::from(node), input, journal)
    }

    /// A node comes up.
    #[tactic(auto, using(crate::proofs::Disks::moved_none, crate::proofs::Tells::tells_none))]
    pub(crate) fn restart<D: Disk>(
        &mut self,
        rack: &mut Rack<D>,
        node: u32,
        journal: &mut Lines,
    ) -> Result<(), AllocError>
        requires stands { StandsSome C.Core D.file (hand self.old rack.old journal.old) }
        ensures begins { OnOk result (BeginsTo C.Core D.file (steps node inputs.Restart) (hand self.old rack.old journal.old) (hand self.new rack.new journal.new)) }
        ensures header { self.new.header ≡ self.old.header }
        ensures disks { HaveMoved D.Disk self.old.header.nodes [] rack.old rack.new }
        ensures tells { OnOk result (TellsStops D.Disk self.old.header.nodes nobody rack.old rack.new journal.old journal.new) }
    {
        match self.node_in(node) {
            Some(n) => self.step_core(rack, n, Input::Restart, journal),
            None => Ok(()),
        }
    }

    /// A node's disk is armed, also where memory is then wanting for the line.
    pub(crate) fn arm<D: Disk>(
        &mut self,
        rack: &mut Rack<D>,
        node: u32,
        calls: u32,
        kind: StopKind,
        journal: &mut Lines,
    ) -> Result<(), AllocError>
        requires least { 1 ≤ node }
        requires greatest { node ≤ self.old.header.nodes }
        requires calls { 1 ≤ calls }
        requires arms { All (λ d. D.arms d < LAST_ARM) rack.old }
        ensures happens { OnOk result (HappensTo C.Core D.file (done (events.Stop node calls kind)) (hand self.old rack.old journal.old) (hand self.new rack.new journal.new)) }
        ensures header { self.new.header ≡ self.old.header }
        ensures disks { HaveMoved D.Disk self.old.header.nodes (events.Stop node calls kind ∷ []) rack.old rack.new }
        ensures tells { OnOk result (TellsStops D.Disk self.old.header.nodes nobody rack.old rack.new journal.old journal.new) }
    {
        let Some(n) = self.node_in(node) else {
            unreachable!()
        };
        rack.disk(n).arm(calls, outcome_of(kind));
        self.wire.say(Body::Armed { node: n }, journal)
    }

    /// Bytes that are no message are sent to a node, by nobody.
    pub(crate) fn send_junk<D: Disk>(
        &mut self,
        rack: &Rack<D>,
        node: u32,
        bytes: Bytes,
        journal: &mut Lines,
    ) -> Result<(), AllocError>
        requires least { 1 ≤ node }
        requires greatest { node ≤ self.old.header.nodes }
        requires junk { message_of bytes ≡ None }
        ensures goes { OnOk result (GoesTo C.Core D.file (protocol.junk node) (hand self.old rack.now journal.old) (hand self.new rack.now journal.new)) }
        ensures header { self.new.header ≡ self.old.header }
        ensures tells { OnOk result (TellsStops D.Disk self.old.header.nodes nobody rack.now rack.now journal.old journal.new) }
    {
        let Some(n) = self.node_in(node) else {
            unreachable!()
        };
        self.wire.send(0, n, FrameKind::Junk, bytes, journal)
    }
}
