// The parts of a node.
ghost use Rattle.std.specs.Prelude.{◌≡◌, ◌≤◌, ℕ, List, Option, None, Some, IfOk, OnOk, IsErrOf};
ghost use Rattle.arj_core.specs.declared.node.CoreFault.{CoreFault};
ghost use Rattle.arj_core.specs.Steps.{CountsStep};
ghost use Rattle.arj_disk.specs.Counted.{counts};
ghost use Rattle.arj_disk.specs.Disk.{CountsCall};
ghost use Rattle.arj_disk.specs.FileMap.{FileMap};
ghost use Rattle.arj_disk.specs.declared.slot.Slot.{Slot};
ghost use Rattle.arj_journal.specs.ScriptForm.{HeaderInForm};
ghost use Rattle.arj_journal.specs.declared.header.Header.{Header};
ghost use Rattle.arj_msg.specs.Sendable.{IsSendable};
ghost use Rattle.arj_node.specs.Acting.{IsActed, IsClass, Shows, acts_at, again_at, first_here, outs_again, parts_again, tick_outs, why_at};
ghost use Rattle.arj_node.specs.Handing.{Does, IsTaken, outs_of};
ghost use Rattle.arj_node.specs.Outgoing.{IsHalted};
ghost use Rattle.arj_protocol.specs.Effect as effect;
ghost use Rattle.arj_protocol.specs.Node as protocol;
ghost use Rattle.arj_protocol.specs.Step.{is_idle_with, show_outs};

use crate::{Act, Outgoings};
use arj_base::Class;
use arj_core::CoreFault;
use arj_disk::Disk;
use arj_journal as journal;
use arj_msg::Message;
use std::alloc::{AllocError, Global};

/// The parts of a node that is up, over its disk: its server, naming at node 1, and its coordinator. Parts that answered a
/// fault aren't used again.
pub trait Parts: Sized {
    /// In a run with this header the node of this number has these parts, over the disk that these files say.
    ghost stands: { Header → ℕ → Self → FileMap → protocol.Here → Type 0 };

    /// A node that is down has this disk, which these files say.
    ghost rests: { Header → ℕ → FileMap → effect.Disk → Type 0 };

    /// The parts of a node over an empty disk, which is formatted.
    fn format<D: Disk>(
        alloc: Global,
        number: u8,
        header: &journal::Header,
        disk: &mut D,
    ) -> Result<Self, CoreFault>
        requires least { 1 ≤ number }
        requires greatest { number ≤ header.now.nodes }
        requires form { HeaderInForm header.now }
        requires empty { (slot : Slot) → D.file disk.old slot ≡ None }
        ensures stands { IfOk result (λ parts. stands header.now number parts (D.file disk.new) (first_here header.now number)) }
        ensures counts { CountsCall (counts D.Disk disk.old) (counts D.Disk disk.new) result CoreFault.Halted };

    /// The parts of a node that comes up again, in a run of so many nodes. What follows of it is handed back.
    fn restart<D: Disk>(
        alloc: Global,
        number: u8,
        nodes: u8,
        disk: &mut D,
        outs: &mut Outgoings,
    ) -> Result<Self, CoreFault>
        requires rests { (header : Header) × (d : effect.Disk) × (header.nodes ≡ nodes) × rests header number (D.file disk.old) d }
        ensures done { IfOk result (λ parts. (header : Header) (d : effect.Disk) → header.nodes ≡ nodes → rests header number (D.file disk.old) d
            → Does (stands header number parts (D.file disk.new)) (parts_again number d) (outs_again header number d) d outs.old outs.new) }
        ensures halted { IsErrOf result CoreFault.Halted → (header : Header) (d : effect.Disk) → header.nodes ≡ nodes → rests header number (D.file disk.old) d
            → IsHalted (rests header number (D.file disk.new)) (outs_again header number d) d outs.old outs.new }
        ensures counts { CountsStep (counts D.Disk disk.old) (counts D.Disk disk.new) result CoreFault.Halted };

    /// Whether no action waits, none is prepared and there is no record.
    fn is_idle(&self) -> bool
        ensures { (header : Header) (n : ℕ) (file : FileMap) (h : protocol.Here) → stands header n self.now file h → result ≡ is_idle_with h.disk (Some h.parts) };

    /// What an action is asked to do is done, or refused: then the answer is the number of the reason. The class is that
    /// of the object that it is about. What follows is handed back.
    fn act<D: Disk>(
        &mut self,
        disk: &mut D,
        act: Act,
        class: Option<Class>,
        outs: &mut Outgoings,
    ) -> Result<Option<u8>, CoreFault>
        requires stands { (header : Header) × (n : ℕ) × (h : protocol.Here) × stands header n self.old (D.file disk.old) h }
        ensures done { IfOk result (λ refused. (header : Header) (n : ℕ) (h : protocol.Here) → IsClass header act class → stands header n self.old (D.file disk.old) h
            → IsActed (stands header n self.new (D.file disk.new)) h (why_at header act h) (acts_at act h) (record { before = outs.old; after = outs.new }) refused) }
        ensures halted { IsErrOf result CoreFault.Halted → (header : Header) (n : ℕ) (h : protocol.Here) → IsClass header act class → stands header n self.old (D.file disk.old) h
            → (why_at header act h ≡ None) × IsHalted (rests header n (D.file disk.new)) (acts_at act h).outs h.disk outs.old outs.new }
        ensures counts { CountsStep (counts D.Disk disk.old) (counts D.Disk disk.new) result CoreFault.Halted };

    /// What waits is asked for again. What follows is handed back.
    fn tick(&mut self, outs: &mut Outgoings) -> Result<(), AllocError>
        requires stands { (header : Header) × (n : ℕ) × (file : FileMap) × (h : protocol.Here) × stands header n self.old file h }
        ensures done { OnOk result ((header : Header) (n : ℕ) (file : FileMap) (h : protocol.Here) → stands header n self.old file h
            → Does (stands header n self.new file) (protocol.with_coord h.parts (again_at h).part) (tick_outs h) h.disk outs.old outs.new) };

    /// Shows what the disk has of an object. The lines are handed back.
    fn show<D: Disk>(&mut self, disk: &mut D, x: u16, outs: &mut Outgoings) -> Result<(), CoreFault>
        requires stands { (header : Header) × (n : ℕ) × (h : protocol.Here) × stands header n self.old (D.file disk.old) h }
        ensures done { OnOk result ((header : Header) (n : ℕ) (h : protocol.Here) → stands header n self.old (D.file disk.old) h
            → Shows (stands header n self.new (D.file disk.new)) h (show_outs n x h.disk) outs.old outs.new) }
        ensures halted { IsErrOf result CoreFault.Halted → (header : Header) (n : ℕ) (h : protocol.Here) → stands header n self.old (D.file disk.old) h
            → IsHalted (rests header n (D.file disk.new)) (show_outs n x h.disk) h.disk outs.old outs.new }
        ensures counts { CountsStep (counts D.Disk disk.old) (counts D.Disk disk.new) result CoreFault.Halted };

    /// Takes a message from a node, unless it is void. What follows of it is handed back.
    fn take<D: Disk>(
        &mut self,
        disk: &mut D,
        from: u8,
        m: Box<Message>,
        outs: &mut Outgoings,
    ) -> Result<bool, CoreFault>
        requires stands { (header : Header) × (n : ℕ) × (h : protocol.Here) × stands header n self.old (D.file disk.old) h }
        requires spelled { IsSendable m.value }
        ensures done { IfOk result (λ took. (header : Header) (n : ℕ) (h : protocol.Here) → stands header n self.old (D.file disk.old) h
            → IsTaken (stands header n self.new (D.file disk.new)) h (protocol.taken n h.disk h.parts from m.value) outs.old outs.new took) }
        ensures halted { IsErrOf result CoreFault.Halted → (header : Header) (n : ℕ) (h : protocol.Here) → stands header n self.old (D.file disk.old) h
            → IsHalted (rests header n (D.file disk.new)) (outs_of (protocol.taken n h.disk h.parts from m.value)) h.disk outs.old outs.new }
        ensures counts { CountsStep (counts D.Disk disk.old) (counts D.Disk disk.new) result CoreFault.Halted };

    /// A node that goes down has the disk that it had.
    ghost falls: { (header : Header) (n : ℕ) (parts : Self) (file : FileMap) (h : protocol.Here) → stands header n parts file h → rests header n file h.disk };
}
