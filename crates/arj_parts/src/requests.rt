// Requests, and what a node is told, go to the services.
ghost use Rattle.std.specs.Prelude.{◌≡◌, ℕ, true, IfOk, OnOk, IsErrOf};
ghost use Rattle.arj_core.specs.Steps.{CountsStep};
ghost use Rattle.arj_core.specs.declared.node.CoreFault.{CoreFault};
ghost use Rattle.arj_disk.specs.Counted.{counts};
ghost use Rattle.arj_disk.specs.FileMap.{FileMap};
ghost use Rattle.arj_msg.specs.Ask.{asks};
ghost use Rattle.arj_msg.specs.Sendable.{IsSendable};
ghost use Rattle.arj_parts.specs.Calls.{Halts, StandsSome, Takes};
ghost use Rattle.arj_protocol.specs.Node.{asked_is_meant};
ghost use Rattle.arj_protocol.specs.Words.message;
ghost use Rattle.arj_node.specs.Handing.{outs_of};
ghost use Rattle.arj_parts.specs.Taken.{asked_here, other_here};

use crate::NodeParts;
use crate::said::{ask_about, say_lines, send_back};
use arj_core::CoreFault;
use arj_disk::Disk;
use arj_journal::Lines;
use arj_msg::{Hello, Message, Told};
use arj_node::Outgoings;
use arj_store::{ObjectStore, StoreFault};
use std::alloc::AllocError;

impl<O: ObjectStore> NodeParts<O> {
    /// A request of a node: the answer goes back to it. False: it is void.
    pub fn request<D: Disk>(
        &mut self,
        disk: &mut D,
        from: u8,
        m: &Message,
        outs: &mut Outgoings,
    ) -> Result<bool, CoreFault>
        requires stands { StandsSome O.ObjectStore self.old (D.file disk.old) }
        requires sendable { IsSendable m.now }
        requires meant { asked_is_meant self.old.services.server (asks m.now) ≡ true }
        ensures done { IfOk result (Takes O.ObjectStore (asked_here from m.now) (record { old = self.old; new = self.new; file = D.file disk.old; left = D.file disk.new; before = outs.old; after = outs.new })) }
        ensures halted { IsErrOf result CoreFault.Halted → Halts O.ObjectStore (λ n h. outs_of (asked_here from m.now n h)) (record { old = self.old; new = self.new; file = D.file disk.old; left = D.file disk.new; before = outs.old; after = outs.new }) }
        ensures counts { CountsStep (counts D.Disk disk.old) (counts D.Disk disk.new) result CoreFault.Halted }
    {
        let mut lines = Lines::new(self.alloc);
        match self.services.serve(disk, m, &mut lines) {
            Ok(None) => Ok(false),
            Ok(Some(answer)) => {
                say_lines(lines, outs)?;
                outs.send(from, answer)?;
                Ok(true)
            }
            Err(StoreFault::Stopped) => {
                say_lines(lines, outs)?;
                Err(CoreFault::Halted)
            }
            Err(StoreFault::Memory) => Err(CoreFault::Memory),
        }
    }

    /// Actions have ended. An acknowledgement goes back, where one is wanted.
    pub fn told<D: Disk>(
        &mut self,
        disk: &mut D,
        from: u8,
        m: &Told,
        outs: &mut Outgoings,
    ) -> Result<(), CoreFault>
        requires stands { StandsSome O.ObjectStore self.old (D.file disk.old) }
        ensures done { OnOk result (Takes O.ObjectStore (other_here from (message.Told m.now)) (record { old = self.old; new = self.new; file = D.file disk.old; left = D.file disk.new; before = outs.old; after = outs.new }) true) }
        ensures halted { IsErrOf result CoreFault.Halted → Halts O.ObjectStore (λ n h. outs_of (other_here from (message.Told m.now) n h)) (record { old = self.old; new = self.new; file = D.file disk.old; left = D.file disk.new; before = outs.old; after = outs.new }) }
        ensures counts { CountsStep (counts D.Disk disk.old) (counts D.Disk disk.new) result CoreFault.Halted }
    {
        let mut lines = Lines::new(self.alloc);
        match self.services.told(disk, m, &mut lines) {
            Ok(answer) => {
                say_lines(lines, outs)?;
                send_back(from, answer, outs)?;
                Ok(())
            }
            Err(StoreFault::Stopped) => {
                say_lines(lines, outs)?;
                Err(CoreFault::Halted)
            }
            Err(StoreFault::Memory) => Err(CoreFault::Memory),
        }
    }

    /// A node is up again: its earlier actions are asked about.
    pub fn hello(&mut self, m: &Hello, outs: &mut Outgoings) -> Result<(), AllocError>
        ensures { OnOk result ((file : FileMap) (from : ℕ) → Takes O.ObjectStore (other_here from (message.Hello m.now)) (record { old = self.old; new = self.new; file = file; left = file; before = outs.old; after = outs.new }) true) }
    {
        let actions = self.services.hello(m)?;
        ask_about(actions.as_slice(), outs)
    }
}
