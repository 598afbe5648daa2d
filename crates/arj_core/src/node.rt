// A node as the world sees it.
ghost use Rattle.std.specs.Prelude.{◌≡◌, ◌≤◌, ℕ, List, Option, None, Some, Bool, IfOk, OnOk, IsErrOf, is_some};
ghost use Rattle.arj_core.specs.Steps.{CountsStep, Did, WasCut, down_with, input_of};
ghost use Rattle.arj_disk.specs.Counted.{counts};
ghost use Rattle.arj_disk.specs.Disk.{CountsCall};
ghost use Rattle.arj_disk.specs.FileMap.{FileMap};
ghost use Rattle.arj_disk.specs.declared.slot.Slot.{Slot};
ghost use Rattle.arj_journal.specs.ScriptForm.{HeaderInForm};
ghost use Rattle.arj_journal.specs.declared.header.Header.{Header};
ghost use Rattle.arj_protocol.specs.Effect as effect;
ghost use Rattle.arj_protocol.specs.Step.{Node, first_node, is_idle, step};

use crate::{Input, Outputs};
use arj_disk::Disk;
use arj_journal as journal;
use std::alloc::{AllocError, AllocFailed, Global};
use thiserror::Error;

/// Why a step wasn't done to its end.
#[derive(Debug, Drop, Error)]
pub enum CoreFault {
    /// The node's disk stopped, and the node with it.
    #[error("the disk was stopped")]
    Halted,
    #[error("out of memory")]
    Memory,
}

impl From<AllocError> for CoreFault {
    ghost use Rattle.std.specs.Prelude.{◌≡◌};
    ghost use Rattle.arj_core.specs.declared.node.CoreFault.TheVariants.{Memory};

    ghost from_gives = { λ _ e. e ≡ Memory };

    fn from(_: AllocError) -> Self {
        CoreFault::Memory
    }
}

impl<T: Drop> From<AllocFailed<T>> for CoreFault {
    ghost use Rattle.std.specs.Prelude.{◌≡◌};
    ghost use Rattle.arj_core.specs.declared.node.CoreFault.TheVariants.{Memory};

    ghost from_gives = { λ _ e. e ≡ Memory };

    fn from(_: AllocFailed<T>) -> Self {
        CoreFault::Memory
    }
}

/// One node. A core that answered `Memory` isn't used again; one that answered `Halted` is down until its restart.
pub trait Core: Sized {
    /// With these files of its disk the core is this node of the protocol, of a run with this header.
    ghost stands: { Header → Self → FileMap → Node → Type 0 };

    /// These files say this disk of the protocol, for the node of this number while it is down.
    ghost rests: { Header → ℕ → FileMap → effect.Disk → Type 0 };

    /// A node over an empty disk, which is formatted: up, in incarnation 1, with the header's states and, at node 1,
    /// entries.
    fn format<D: Disk>(
        alloc: Global,
        node: u8,
        header: &journal::Header,
        disk: &mut D,
    ) -> Result<Self, CoreFault>
        requires least { 1 ≤ node }
        requires greatest { node ≤ header.now.nodes }
        requires form { HeaderInForm header.now }
        requires empty { (slot : Slot) → D.file disk.old slot ≡ None }
        ensures stands { IfOk result (λ core. stands header.now core (D.file disk.new) (first_node header.now node)) }
        ensures counts { CountsCall (counts D.Disk disk.old) (counts D.Disk disk.new) result CoreFault.Halted };

    /// A node that is down, over what its disk has. The disk isn't called.
    fn down(alloc: Global, node: u8, header: &journal::Header) -> Result<Self, AllocError>
        ensures { IfOk result (λ core. (file : FileMap) (d : effect.Disk) → rests header.now node file d → stands header.now core file (down_with node d)) };

    /// Whether the node is up.
    fn is_up(&self) -> bool
        ensures { (header : Header) (file : FileMap) (n : Node) → stands header self.now file n → result ≡ is_some n.live };

    /// Whether the node is up with no action that waits, no prepared action and no record.
    fn idle(&self) -> bool
        ensures { (header : Header) (file : FileMap) (n : Node) → stands header self.now file n → result ≡ is_idle n };

    /// One step: lines and messages are put behind those that are there. Where the disk stops, they are put out up to
    /// the stop, and the node is down.
    fn step<D: Disk>(
        &mut self,
        disk: &mut D,
        input: Input,
        out: &mut Outputs,
    ) -> Result<(), CoreFault>
        requires stands { (header : Header) × (n : Node) × stands header self.old (D.file disk.old) n }
        ensures done { OnOk result ((header : Header) (n : Node) → stands header self.old (D.file disk.old) n
            → Did (stands header self.new (D.file disk.new)) (step header n (input_of input)) out.old out.new) }
        ensures halted { IsErrOf result CoreFault.Halted → (header : Header) (n : Node) → stands header self.old (D.file disk.old) n
            → WasCut (stands header self.new (D.file disk.new)) n (step header n (input_of input)) out.old out.new }
        ensures counts { CountsStep (counts D.Disk disk.old) (counts D.Disk disk.new) result CoreFault.Halted };
}
