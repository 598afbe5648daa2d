// Ticks and shows, and whether the node is idle.
ghost use Rattle.std.specs.Prelude.{◌≡◌, ℕ, Some, OnOk, IsErrOf};
ghost use Rattle.arj_core.specs.Steps.{CountsStep};
ghost use Rattle.arj_core.specs.declared.node.CoreFault.{CoreFault};
ghost use Rattle.arj_disk.specs.Counted.{counts};
ghost use Rattle.arj_disk.specs.FileMap.{FileMap};
ghost use Rattle.arj_parts.specs.Acted.{ShowsObject, Ticks};
ghost use Rattle.arj_parts.specs.Calls.{Halts, StandsSome};
ghost use Rattle.arj_parts.specs.Kept.{StandsOn};
ghost use Rattle.arj_protocol.specs.Node.{Here};
ghost use Rattle.arj_protocol.specs.Step.{is_idle_with, show_outs};

use crate::NodeParts;
use crate::said::{ask_about, say_lines, tell};
use arj_asking::again_all;
use arj_coord::Effects;
use arj_core::CoreFault;
use arj_disk::Disk;
use arj_journal::Lines;
use arj_node::Outgoings;
use arj_store::{ObjectStore, StoreFault};
use std::alloc::AllocError;

impl<O: ObjectStore> NodeParts<O> {
    /// Whether no action waits, none is prepared and there is no record of a commit.
    pub fn is_settled(&self) -> bool
        ensures { (n : ℕ) (file : FileMap) (h : Here) → StandsOn O.ObjectStore n self.now file h → result ≡ is_idle_with h.disk (Some h.parts) }
    {
        self.coord.waits_for_nothing() && (self.services.is_clear() && self.records.is_empty())
    }

    /// What waits is asked for again: requests, tolds that aren't acknowledged, and actions that hold locks or are prepared.
    pub fn ask_again(&mut self, outs: &mut Outgoings) -> Result<(), AllocError>
        ensures { OnOk result ((file : FileMap) → Ticks O.ObjectStore (record { old = self.old; new = self.new; file = file; left = file; before = outs.old; after = outs.new })) }
    {
        let mut effects = Effects::new(self.alloc);
        again_all(self.alloc, &mut self.coord, &mut effects)?;
        self.coord.telling().tolds_again(&mut effects)?;
        tell(effects, outs)?;
        let held = self.services.held()?;
        ask_about(held.as_slice(), outs)
    }

    /// Shows what the disk has of an object, and of its entry at node 1.
    pub fn show_object<D: Disk>(
        &self,
        disk: &mut D,
        x: u16,
        outs: &mut Outgoings,
    ) -> Result<(), CoreFault>
        requires stands { StandsSome O.ObjectStore self.now (D.file disk.old) }
        ensures done { OnOk result (ShowsObject O.ObjectStore x (record { old = self.now; new = self.now; file = D.file disk.old; left = D.file disk.new; before = outs.old; after = outs.new })) }
        ensures halted { IsErrOf result CoreFault.Halted → Halts O.ObjectStore (λ n h. show_outs n x h.disk) (record { old = self.now; new = self.now; file = D.file disk.old; left = D.file disk.new; before = outs.old; after = outs.new }) }
        ensures counts { CountsStep (counts D.Disk disk.old) (counts D.Disk disk.new) result CoreFault.Halted }
    {
        let mut lines = Lines::new(self.alloc);
        match self.services.show(disk, x, &mut lines) {
            Ok(()) => {
                say_lines(lines, outs)?;
                Ok(())
            }
            Err(StoreFault::Stopped) => {
                say_lines(lines, outs)?;
                Err(CoreFault::Halted)
            }
            Err(StoreFault::Memory) => Err(CoreFault::Memory),
        }
    }
}
