// Inputs about an action, ticks, shows and restarts.
ghost use Rattle.std.specs.Prelude.{◌≡◌, ℕ, OnOk, IfOk, IsErrOf};
ghost use Rattle.arj_core.specs.declared.node.CoreFault.{CoreFault};
ghost use Rattle.arj_core.specs.Steps.{CountsStep, PutsOut};
ghost use Rattle.arj_disk.specs.Counted.{counts};
ghost use Rattle.arj_journal.specs.declared.header.Header.{Header};
ghost use Rattle.arj_node.specs.Acting.{IsClass, asked_of};
ghost use Rattle.arj_node.specs.Outgoing.{effects_of};
ghost use Rattle.arj_node.specs.Ran.{IsCut, outward};
ghost use Rattle.arj_node.specs.Stepped.{Steps, down_node, up_node};
ghost use Rattle.arj_protocol.specs.Effect as effect;
ghost use Rattle.arj_protocol.specs.Node as protocol;
ghost use Rattle.arj_protocol.specs.Step.{restart_step, show_step, step, tick_step};

use crate::putting::put_out;
use crate::rounds::settle;
use crate::{Act, Outgoings, Parts};
use arj_base::Class;
use arj_core::{CoreFault, Output, Outputs};
use arj_disk::Disk;
use arj_journal::Body;
use std::alloc::{AllocError, Global};

/// Puts out what a stopped call handed back. What the node would have sent to itself is lost with it.
pub fn put_front(
    alloc: Global,
    number: u8,
    outs: Outgoings,
    out: &mut Outputs,
) -> Result<(), AllocError>
    ensures { OnOk result (PutsOut (outward number (effects_of outs)) out.old out.new) }
{
    let mut queue = Vec::new(alloc);
    put_out(alloc, number, outs, out, &mut queue)
}

/// An action of a node that is up is asked to do something.
pub fn act<D: Disk, P: Parts>(
    alloc: Global,
    number: u8,
    parts: &mut P,
    disk: &mut D,
    act: Act,
    class: Option<Class>,
    out: &mut Outputs,
) -> Result<(), CoreFault>
    requires stands { (header : Header) × (h : protocol.Here) × IsClass header act class × P.stands header number parts.old (D.file disk.old) h }
    ensures done { OnOk result ((header : Header) (h : protocol.Here) → IsClass header act class → P.stands header number parts.old (D.file disk.old) h
        → Steps number (P.stands header number parts.new (D.file disk.new)) (step header (up_node number h) (asked_of act)) out.old out.new) }
    ensures halted { IsErrOf result CoreFault.Halted → (header : Header) (h : protocol.Here) → IsClass header act class → P.stands header number parts.old (D.file disk.old) h
        → IsCut (P.rests header number (D.file disk.new)) (step header (up_node number h) (asked_of act)).halting h.disk out.old out.new }
    ensures counts { CountsStep (counts D.Disk disk.old) (counts D.Disk disk.new) result CoreFault.Halted }
{
    let mut outs = Outgoings::new(alloc);
    match parts.act(disk, act, class, &mut outs) {
        Ok(Some(cause)) => {
            out.push(Output::Say(Body::Refused { cause }))?;
            Ok(())
        }
        Ok(None) => settle(alloc, number, parts, disk, outs, out),
        Err(CoreFault::Halted) => {
            put_front(alloc, number, outs, out)?;
            Err(CoreFault::Halted)
        }
        Err(CoreFault::Memory) => Err(CoreFault::Memory),
    }
}

/// A node that is up asks again for what waits.
pub fn tick<D: Disk, P: Parts>(
    alloc: Global,
    number: u8,
    parts: &mut P,
    disk: &mut D,
    out: &mut Outputs,
) -> Result<(), CoreFault>
    requires stands { (header : Header) × (h : protocol.Here) × P.stands header number parts.old (D.file disk.old) h }
    ensures done { OnOk result ((header : Header) (h : protocol.Here) → P.stands header number parts.old (D.file disk.old) h
        → Steps number (P.stands header number parts.new (D.file disk.new)) (tick_step (up_node number h) h.parts) out.old out.new) }
    ensures halted { IsErrOf result CoreFault.Halted → (header : Header) (h : protocol.Here) → P.stands header number parts.old (D.file disk.old) h
        → IsCut (P.rests header number (D.file disk.new)) (tick_step (up_node number h) h.parts).halting h.disk out.old out.new }
    ensures counts { CountsStep (counts D.Disk disk.old) (counts D.Disk disk.new) result CoreFault.Halted }
{
    let mut outs = Outgoings::new(alloc);
    parts.tick(&mut outs)?;
    settle(alloc, number, parts, disk, outs, out)
}

/// A node that is up shows what its disk has of an object.
pub fn show<D: Disk, P: Parts>(
    alloc: Global,
    number: u8,
    parts: &mut P,
    disk: &mut D,
    x: u16,
    out: &mut Outputs,
) -> Result<(), CoreFault>
    requires stands { (header : Header) × (h : protocol.Here) × P.stands header number parts.old (D.file disk.old) h }
    ensures done { OnOk result ((header : Header) (h : protocol.Here) → P.stands header number parts.old (D.file disk.old) h
        → Steps number (P.stands header number parts.new (D.file disk.new)) (show_step x (up_node number h)) out.old out.new) }
    ensures halted { IsErrOf result CoreFault.Halted → (header : Header) (h : protocol.Here) → P.stands header number parts.old (D.file disk.old) h
        → IsCut (P.rests header number (D.file disk.new)) (show_step x (up_node number h)).halting h.disk out.old out.new }
    ensures counts { CountsStep (counts D.Disk disk.old) (counts D.Disk disk.new) result CoreFault.Halted }
{
    let mut outs = Outgoings::new(alloc);
    match parts.show(disk, x, &mut outs) {
        Ok(()) => {
            put_front(alloc, number, outs, out)?;
            Ok(())
        }
        Err(CoreFault::Halted) => {
            put_front(alloc, number, outs, out)?;
            Err(CoreFault::Halted)
        }
        Err(CoreFault::Memory) => Err(CoreFault::Memory),
    }
}

/// A node that is down comes up again, in a run of so many nodes.
pub fn restart<D: Disk, P: Parts + Drop>(
    alloc: Global,
    number: u8,
    nodes: u8,
    disk: &mut D,
    out: &mut Outputs,
) -> Result<P, CoreFault>
    requires rests { (header : Header) × (d : effect.Disk) × (header.nodes ≡ nodes) × P.rests header number (D.file disk.old) d }
    ensures done { IfOk result (λ parts. (header : Header) (d : effect.Disk) → header.nodes ≡ nodes → P.rests header number (D.file disk.old) d
        → Steps number (P.stands header number parts (D.file disk.new)) (restart_step header (down_node number d)) out.old out.new) }
    ensures halted { IsErrOf result CoreFault.Halted → (header : Header) (d : effect.Disk) → header.nodes ≡ nodes → P.rests header number (D.file disk.old) d
        → IsCut (P.rests header number (D.file disk.new)) (restart_step header (down_node number d)).halting d out.old out.new }
    ensures counts { CountsStep (counts D.Disk disk.old) (counts D.Disk disk.new) result CoreFault.Halted }
{
    let mut outs = Outgoings::new(alloc);
    match P::restart(alloc, number, nodes, disk, &mut outs) {
        Ok(mut parts) => {
            settle(alloc, number, &mut parts, disk, outs, out)?;
            Ok(parts)
        }
        Err(CoreFault::Halted) => {
            put_front(alloc, number, outs, out)?;
            Err(CoreFault::Halted)
        }
        Err(CoreFault::Memory) => Err(CoreFault::Memory),
    }
}
