// What a node sends to itself.
ghost use Rattle.std.specs.Prelude.{◌≡◌, [], List, OnOk, IsErrOf};
ghost use Rattle.std.specs.List.{AllByRecursion};
ghost use Rattle.arj_core.specs.declared.node.CoreFault.{CoreFault};
ghost use Rattle.arj_disk.specs.Counted.{counts};
ghost use Rattle.arj_journal.specs.declared.header.Header.{Header};
ghost use Rattle.arj_msg.specs.Sendable.{IsSendable};
ghost use Rattle.arj_core.specs.Steps.{CountsStep};
ghost use Rattle.arj_node.specs.Goes.{Goes, GoesOn};
ghost use Rattle.arj_node.specs.Outgoing.{effects_of, loud, messages_of};
ghost use Rattle.arj_node.specs.Ran.{IsCut, disk_after};
ghost use Rattle.arj_protocol.specs.Effect as effect;
ghost use Rattle.arj_protocol.specs.Node as protocol;

use crate::putting::put_out;
use crate::{Outgoings, Parts};
use arj_core::{CoreFault, Outputs};
use arj_disk::Disk;
use arj_msg::Message;
use std::alloc::Global;

// Handles a message of the node to itself: what follows goes out, or waits behind the others.
fn handle_one<D: Disk, P: Parts>(
    alloc: Global,
    number: u8,
    parts: &mut P,
    disk: &mut D,
    m: Box<Message>,
    out: &mut Outputs,
    queue: &mut Vec<Box<Message>>,
) -> Result<(), CoreFault>
    requires stands { (header : Header) × (h : protocol.Here) × P.stands header number parts.old (D.file disk.old) h }
    requires spelled { IsSendable m.value }
    ensures done { OnOk result ((header : Header) (h : protocol.Here) → P.stands header number parts.old (D.file disk.old) h
        → GoesOn (P.stands header number parts.new (D.file disk.new)) (protocol.ran_handled number h (protocol.taken number h.disk h.parts number m.value)) out.old out.new (messages_of queue.old.items) (messages_of queue.new.items)) }
    ensures halted { IsErrOf result CoreFault.Halted → (header : Header) (h : protocol.Here) → P.stands header number parts.old (D.file disk.old) h
        → IsCut (P.rests header number (D.file disk.new)) (protocol.ran_handled number h (protocol.taken number h.disk h.parts number m.value)).outs h.disk out.old out.new }
    ensures spelled { OnOk result (AllByRecursion IsSendable (messages_of queue.old.items) → AllByRecursion IsSendable (messages_of queue.new.items)) }
    ensures counts { CountsStep (counts D.Disk disk.old) (counts D.Disk disk.new) result CoreFault.Halted }
{
    let mut outs = Outgoings::new(alloc);
    match parts.take(disk, number, m, &mut outs) {
        Ok(_) => {
            put_out(alloc, number, outs, out, queue)?;
            Ok(())
        }
        Err(CoreFault::Halted) => {
            put_out(alloc, number, outs, out, queue)?;
            Err(CoreFault::Halted)
        }
        Err(CoreFault::Memory) => Err(CoreFault::Memory),
    }
}

// Handles messages of the node to itself, one after another.
fn handle_all<D: Disk, P: Parts>(
    alloc: Global,
    number: u8,
    parts: &mut P,
    disk: &mut D,
    messages: Vec<Box<Message>>,
    out: &mut Outputs,
    queue: &mut Vec<Box<Message>>,
) -> Result<(), CoreFault>
    requires stands { (header : Header) × (h : protocol.Here) × P.stands header number parts.old (D.file disk.old) h }
    requires spelled { AllByRecursion IsSendable (messages_of messages.items) }
    ensures done { OnOk result ((header : Header) (h : protocol.Here) → P.stands header number parts.old (D.file disk.old) h
        → GoesOn (P.stands header number parts.new (D.file disk.new)) (protocol.handle_all number (messages_of messages.items) h) out.old out.new (messages_of queue.old.items) (messages_of queue.new.items)) }
    ensures halted { IsErrOf result CoreFault.Halted → (header : Header) (h : protocol.Here) → P.stands header number parts.old (D.file disk.old) h
        → IsCut (P.rests header number (D.file disk.new)) (protocol.handle_all number (messages_of messages.items) h).outs h.disk out.old out.new }
    ensures spelled { OnOk result (AllByRecursion IsSendable (messages_of queue.old.items) → AllByRecursion IsSendable (messages_of queue.new.items)) }
    ensures counts { CountsStep (counts D.Disk disk.old) (counts D.Disk disk.new) result CoreFault.Halted }
{
    for m in messages {
        handle_one(alloc, number, parts, disk, m, out, queue)?;
    }
    Ok(())
}

// One round: the messages that wait are handled, and those that they lead to wait then.
fn round<D: Disk, P: Parts>(
    alloc: Global,
    number: u8,
    parts: &mut P,
    disk: &mut D,
    out: &mut Outputs,
    queue: &mut Vec<Box<Message>>,
) -> Result<(), CoreFault>
    requires stands { (header : Header) × (h : protocol.Here) × P.stands header number parts.old (D.file disk.old) h }
    requires spelled { AllByRecursion IsSendable (messages_of queue.old.items) }
    ensures done { OnOk result ((header : Header) (h : protocol.Here) → P.stands header number parts.old (D.file disk.old) h
        → GoesOn (P.stands header number parts.new (D.file disk.new)) (protocol.handle_all number (messages_of queue.old.items) h) out.old out.new [] (messages_of queue.new.items)) }
    ensures halted { IsErrOf result CoreFault.Halted → (header : Header) (h : protocol.Here) → P.stands header number parts.old (D.file disk.old) h
        → IsCut (P.rests header number (D.file disk.new)) (protocol.handle_all number (messages_of queue.old.items) h).outs h.disk out.old out.new }
    ensures spelled { OnOk result (AllByRecursion IsSendable (messages_of queue.new.items)) }
    ensures counts { CountsStep (counts D.Disk disk.old) (counts D.Disk disk.new) result CoreFault.Halted }
{
    let messages = std::mem::replace(queue, Vec::new(alloc));
    handle_all(alloc, number, parts, disk, messages, out, queue)
}

/// Puts out what parts handed back, and handles what the node sends to itself by that, in rounds, first sent first. What a
/// message leads to stands further on in the protocol, so 24 rounds are more than enough.
pub fn settle<D: Disk, P: Parts>(
    alloc: Global,
    number: u8,
    parts: &mut P,
    disk: &mut D,
    outs: Outgoings,
    out: &mut Outputs,
) -> Result<(), CoreFault>
    requires stands { (header : Header) × (h : protocol.Here) × P.stands header number parts.old (D.file disk.old) h }
    ensures done { OnOk result ((header : Header) (t : protocol.Parts) (es : List effect.Effect) (d : effect.Disk) → P.stands header number parts.old (D.file disk.old) (record { disk = disk_after es d; parts = t })
        → effects_of outs ≡ loud es → Goes (P.stands header number parts.new (D.file disk.new)) (protocol.whole number t es d) out.old out.new) }
    ensures halted { IsErrOf result CoreFault.Halted → (header : Header) (t : protocol.Parts) (es : List effect.Effect) (d : effect.Disk) → P.stands header number parts.old (D.file disk.old) (record { disk = disk_after es d; parts = t })
        → effects_of outs ≡ loud es → IsCut (P.rests header number (D.file disk.new)) (protocol.whole number t es d).outs d out.old out.new }
    ensures counts { CountsStep (counts D.Disk disk.old) (counts D.Disk disk.new) result CoreFault.Halted }
{
    let mut queue = Vec::new(alloc);
    put_out(alloc, number, outs, out, &mut queue)?;
    'rounds: for _ in 0..24u8 {
        if queue.is_empty() {
            return Ok(());
        }
        round(alloc, number, parts, disk, out, &mut queue)?;
    }
    Ok(())
}
