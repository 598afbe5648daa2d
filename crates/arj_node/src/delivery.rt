// A frame.
ghost use Rattle.std.specs.Prelude.{◌≡◌, Some, IfErr, IfOk, OnOk, IsErrOf};
ghost use Rattle.arj_core.specs.declared.node.CoreFault.{CoreFault};
ghost use Rattle.arj_core.specs.Steps.{CountsStep, message_of};
ghost use Rattle.arj_disk.specs.Counted.{counts};
ghost use Rattle.arj_journal.specs.declared.header.Header.{Header};
ghost use Rattle.arj_msg.specs.Layout.{FaultOf, MessageInForm, message_bytes};
ghost use Rattle.arj_msg.specs.Sendable.{IsSendable};
ghost use Rattle.arj_node.specs.Ran.{IsCut};
ghost use Rattle.arj_node.specs.Stepped.{Steps, up_node};
ghost use Rattle.arj_protocol.specs.Node as protocol;
ghost use Rattle.arj_protocol.specs.Step.{frame_step};

use crate::acting::put_front;
use crate::rounds::settle;
use crate::{Outgoings, Parts};
use arj_core::{CoreFault, Output, Outputs};
use arj_disk::Disk;
use arj_journal::Body;
use arj_msg::{Message, MsgFault, decode};
use std::alloc::Global;

// The message that these bytes spell, in a box.
fn unpacked(alloc: Global, bytes: &[u8]) -> Result<Box<Message>, MsgFault>
    ensures found { IfOk result (λ m. MessageInForm m.value × (message_bytes m.value ≡ bytes.now)) }
    ensures fault { IfErr result (FaultOf bytes.now) }
{
    let m = decode(alloc, bytes)?;
    match Box::new(alloc, m) {
        Ok(m) => Ok(m),
        Err(_) => Err(MsgFault::Memory),
    }
}

/// Delivers a frame from a node: it is got, and what it says is done, or it is void. Where the disk stops it is taken as got.
pub fn deliver<D: Disk, P: Parts>(
    alloc: Global,
    number: u8,
    parts: &mut P,
    disk: &mut D,
    frame: u32,
    from: u8,
    bytes: &[u8],
    out: &mut Outputs,
) -> Result<(), CoreFault>
    requires stands { (header : Header) × (h : protocol.Here) × P.stands header number parts.old (D.file disk.old) h }
    ensures done { OnOk result ((header : Header) (h : protocol.Here) → P.stands header number parts.old (D.file disk.old) h
        → Steps number (P.stands header number parts.new (D.file disk.new)) (frame_step frame from (up_node number h) h.parts (message_of bytes.now)) out.old out.new) }
    ensures halted { IsErrOf result CoreFault.Halted → (header : Header) (h : protocol.Here) → P.stands header number parts.old (D.file disk.old) h
        → IsCut (P.rests header number (D.file disk.new)) (frame_step frame from (up_node number h) h.parts (message_of bytes.now)).halting h.disk out.old out.new }
    ensures counts { CountsStep (counts D.Disk disk.old) (counts D.Disk disk.new) result CoreFault.Halted }
{
    match unpacked(alloc, bytes) {
        Ok(m) => take(alloc, number, parts, disk, frame, from, m, out),
        Err(MsgFault::At(_)) => {
            out.push(Output::Say(Body::Void { frame }))?;
            Ok(())
        }
        Err(MsgFault::Memory) => Err(CoreFault::Memory),
    }
}

// Takes the message of a frame.
fn take<D: Disk, P: Parts>(
    alloc: Global,
    number: u8,
    parts: &mut P,
    disk: &mut D,
    frame: u32,
    from: u8,
    m: Box<Message>,
    out: &mut Outputs,
) -> Result<(), CoreFault>
    requires stands { (header : Header) × (h : protocol.Here) × P.stands header number parts.old (D.file disk.old) h }
    requires spelled { IsSendable m.value }
    ensures done { OnOk result ((header : Header) (h : protocol.Here) → P.stands header number parts.old (D.file disk.old) h
        → Steps number (P.stands header number parts.new (D.file disk.new)) (frame_step frame from (up_node number h) h.parts (Some m.value)) out.old out.new) }
    ensures halted { IsErrOf result CoreFault.Halted → (header : Header) (h : protocol.Here) → P.stands header number parts.old (D.file disk.old) h
        → IsCut (P.rests header number (D.file disk.new)) (frame_step frame from (up_node number h) h.parts (Some m.value)).halting h.disk out.old out.new }
    ensures counts { CountsStep (counts D.Disk disk.old) (counts D.Disk disk.new) result CoreFault.Halted }
{
    let mut outs = Outgoings::new(alloc);
    match parts.take(disk, from, m, &mut outs) {
        Ok(true) => {
            out.push(Output::Say(Body::Got { frame }))?;
            settle(alloc, number, parts, disk, outs, out)
        }
        Ok(false) => {
            out.push(Output::Say(Body::Void { frame }))?;
            Ok(())
        }
        Err(CoreFault::Halted) => {
            out.push(Output::Say(Body::Got { frame }))?;
            put_front(alloc, number, outs, out)?;
            Err(CoreFault::Halted)
        }
        Err(CoreFault::Memory) => Err(CoreFault::Memory),
    }
}
