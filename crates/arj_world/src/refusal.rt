// The refusals that the world finds itself, before any node is asked.
ghost use Rattle.std.specs.Prelude.{◌≡◌, ◌≤◌, ◌==◌, ℕ, None, is_some, IfOk, OnErr, MatchOption};
ghost use Rattle.std.specs.List.{list_any};
ghost use Rattle.arj_journal.specs.declared.header.ObjectLine.{ObjectLine as object_line};
ghost use Rattle.arj_protocol.specs.Step.{class_at, first_reason};
ghost use Rattle.arj_protocol.specs.Words.{read_message};
ghost use Rattle.arj_protocol.specs.Words.event as events;
ghost use Rattle.arj_protocol.specs.World.{reads_whole, reasons};
ghost use Rattle.arj_protocol.specs.World as protocol;
ghost use Rattle.arj_world.specs.Arms.{arm_at};
ghost use Rattle.arj_world.specs.Stands.{Keeps};

use crate::World;
use arj_core::Core;
use arj_journal::{Event, FrameNo, Label, ObjectLine};
use arj_msg::{MsgFault, decode};
use std::alloc::{AllocError, Global};

// Whether bytes are a message.
fn is_message(alloc: Global, bytes: &[u8]) -> Result<bool, AllocError>
    ensures { IfOk result (λ is. is ≡ reads_whole (read_message bytes.now)) }
{
    match decode(alloc, bytes) {
        Ok(_) => Ok(true),
        Err(MsgFault::At(_)) => Ok(false),
        Err(MsgFault::Memory) => Err(AllocError),
    }
}

// Whether an object is among these.
fn has_line(objects: &[ObjectLine], x: u16) -> bool
    ensures { result ≡ list_any (λ (o : object_line). o.x == x) objects.now }
{
    objects.iter().any(|object| object.x == x)
}

impl<C: Core> World<C> {
    /// The node of this number, where there is one.
    pub(crate) fn node_in(&self, node: u32) -> Option<u8>
        ensures { MatchOption result (1 ≤ node → node ≤ self.now.header.nodes → ⊥) (λ n. (n ≡ node) × (1 ≤ n) × (n ≤ self.now.header.nodes)) }
    {
        if 1 <= node && node <= u32::from(self.header.nodes) {
            Some(node as u8)
        } else {
            None
        }
    }

    /// The number that a frame is asked for by.
    pub(crate) fn frame_number(&self, frame: FrameNo) -> u32
        ensures { (w : protocol.World) → Keeps C.Core self.now w → result ≡ protocol.frame_number frame w }
    {
        match frame {
            FrameNo::Number(k) => k,
            FrameNo::Last => self.wire.net.count(),
        }
    }

    // Whether a label was given in the run.
    fn is_given(&self, label: Label) -> bool
        ensures { (w : protocol.World) → Keeps C.Core self.now w → result ≡ protocol.is_given label w }
    {
        self.labels.contains_key(&label)
    }

    // Whether a label was given before the run began.
    fn was_given(&self, label: Label) -> bool
        ensures { (w : protocol.World) → Keeps C.Core self.now w → result ≡ protocol.was_given label w }
    {
        self.given.contains(&label)
    }

    // Whether a label was given, in the run or before it.
    fn is_known(&self, label: Label) -> bool
        ensures { (w : protocol.World) → Keeps C.Core self.now w → result ≡ protocol.is_known label w }
    {
        self.was_given(label) || self.is_given(label)
    }

    // Whether the header has an object.
    fn has_object(&self, x: u16) -> bool
        ensures { result ≡ is_some (class_at x self.now.header) }
    {
        has_line(self.header.objects.as_slice(), x)
    }

    fn begin_refusal(&self, label: Label, node: u32) -> Option<u8>
        ensures { (w : protocol.World) → Keeps C.Core self.now w → result ≡ first_reason (reasons (events.Begin label node) w) }
    {
        let Some(n) = self.node_in(node) else {
            return Some(1);
        };
        if !self.is_up(n) {
            return Some(2);
        }
        if self.is_known(label) { Some(4) } else { None }
    }

    fn inner_refusal(&self, label: Label, parent: Label) -> Option<u8>
        ensures { (w : protocol.World) → Keeps C.Core self.now w → result ≡ first_reason (reasons (events.BeginIn label parent) w) }
    {
        if self.is_known(label) {
            return Some(4);
        }
        self.label_refusal(parent)
    }

    fn label_refusal(&self, label: Label) -> Option<u8>
        ensures { (w : protocol.World) → Keeps C.Core self.now w → result ≡ first_reason (reasons (events.Commit label) w) }
    {
        if !self.is_known(label) {
            return Some(5);
        }
        if self.was_given(label) { Some(6) } else { None }
    }

    fn include_refusal(&self, label: Label, node: u32) -> Option<u8>
        ensures { (w : protocol.World) → Keeps C.Core self.now w → result ≡ first_reason (reasons (events.Include label 0 node) w) }
    {
        let Some(_n) = self.node_in(node) else {
            return Some(1);
        };
        self.label_refusal(label)
    }

    fn frame_refusal(&self, frame: FrameNo) -> Option<u8>
        ensures { (w : protocol.World) → Keeps C.Core self.now w → result ≡ first_reason (reasons (events.Deliver frame) w) }
    {
        let k = self.frame_number(frame);
        if self.wire.net.get(k).is_some() {
            None
        } else {
            Some(17)
        }
    }

    fn up_refusal(&self, node: u32) -> Option<u8>
        ensures { (w : protocol.World) → Keeps C.Core self.now w → result ≡ first_reason (reasons (events.Crash node) w) }
    {
        let Some(n) = self.node_in(node) else {
            return Some(1);
        };
        if self.is_up(n) { None } else { Some(2) }
    }

    fn down_refusal(&self, node: u32) -> Option<u8>
        ensures { (w : protocol.World) → Keeps C.Core self.now w → result ≡ first_reason (reasons (events.Restart node) w) }
    {
        let Some(n) = self.node_in(node) else {
            return Some(1);
        };
        if self.is_up(n) { Some(3) } else { None }
    }

    fn junk_refusal(&self, node: u32, bytes: &[u8]) -> Result<Option<u8>, AllocError>
        ensures { IfOk result (λ cause. (w : protocol.World) → Keeps C.Core self.now w → cause ≡ first_reason (reasons (events.Junk node bytes.now) w)) }
    {
        if self.node_in(node).is_none() {
            return Ok(Some(1));
        }
        if is_message(self.alloc, bytes)? {
            return Ok(Some(18));
        }
        Ok(None)
    }

    /// The cause for which the world refuses an event: the first that holds. It wants no memory for an event that arms a disk.
    pub(crate) fn refusal(&self, event: &Event) -> Result<Option<u8>, AllocError>
        ensures cause { IfOk result (λ cause. (w : protocol.World) → Keeps C.Core self.now w → cause ≡ first_reason (reasons event.now w)) }
        ensures memory { OnErr result ((n : ℕ) → arm_at n event.now ≡ None) }
    {
        match event {
            Event::Begin { label, node } => Ok(self.begin_refusal(*label, *node)),
            Event::Serial { label, node } => Ok(self.begin_refusal(*label, *node)),
            Event::BeginIn { label, parent } => Ok(self.inner_refusal(*label, *parent)),
            Event::Top { label, parent } => Ok(self.inner_refusal(*label, *parent)),
            Event::Call { label, .. } => Ok(self.label_refusal(*label)),
            Event::Include { label, node, .. } => Ok(self.include_refusal(*label, *node)),
            Event::Commit { label } => Ok(self.label_refusal(*label)),
            Event::Abort { label } => Ok(self.label_refusal(*label)),
            Event::GiveUp { label } => Ok(self.label_refusal(*label)),
            Event::Deliver { frame } => Ok(self.frame_refusal(*frame)),
            Event::Lose { frame } => Ok(self.frame_refusal(*frame)),
            Event::Tick { node } => Ok(self.up_refusal(*node)),
            Event::Settle => Ok(None),
            Event::Quiesce => Ok(None),
            Event::Crash { node } => Ok(self.up_refusal(*node)),
            Event::Restart { node } => Ok(self.down_refusal(*node)),
            Event::Stop { node, .. } => Ok(if self.node_in(*node).is_some() {
                None
            } else {
                Some(1)
            }),
            Event::Junk { node, bytes } => self.junk_refusal(*node, bytes.as_slice()),
            Event::Show { x } => Ok(if self.has_object(*x) { None } else { Some(13) }),
        }
    }
}
