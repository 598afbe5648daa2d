// Answers, acknowledgements and queries go to the coordinator.
ghost use Rattle.std.specs.Prelude.{◌≡◌, true, IfOk, OnOk, IsErrOf};
ghost use Rattle.arj_core.specs.Steps.{CountsStep};
ghost use Rattle.arj_core.specs.declared.node.CoreFault.{CoreFault};
ghost use Rattle.arj_disk.specs.Counted.{counts};
ghost use Rattle.arj_msg.specs.Sendable.{IsSendable};
ghost use Rattle.arj_node.specs.Handing.{outs_of};
ghost use Rattle.arj_parts.specs.Calls.{Halts, StandsSome, Takes};
ghost use Rattle.arj_parts.specs.Taken.{answered_here, other_here};
ghost use Rattle.arj_protocol.specs.Ask.{answers};
ghost use Rattle.arj_protocol.specs.Node.{answer_is_meant};
ghost use Rattle.arj_protocol.specs.Words.message;

use crate::NodeParts;
use crate::performing::perform;
use arj_asking::{asker_has_room, heard};
use arj_coord::Effects;
use arj_core::CoreFault;
use arj_disk::Disk;
use arj_msg::{Acked, Message, Query};
use arj_node::Outgoings;
use arj_store::ObjectStore;

impl<O: ObjectStore> NodeParts<O> {
    // An answer of a node to a request. False: it is void.
    pub(crate) fn answer<D: Disk>(
        &mut self,
        disk: &mut D,
        from: u8,
        m: Box<Message>,
        outs: &mut Outgoings,
    ) -> Result<bool, CoreFault>
        requires stands { StandsSome O.ObjectStore self.old (D.file disk.old) }
        requires sendable { IsSendable m.value }
        requires meant { answer_is_meant self.old.coord (answers m.value) ≡ true }
        ensures done { IfOk result (Takes O.ObjectStore (answered_here from m.value) (record { old = self.old; new = self.new; file = D.file disk.old; left = D.file disk.new; before = outs.old; after = outs.new })) }
        ensures halted { IsErrOf result CoreFault.Halted → Halts O.ObjectStore (λ n h. outs_of (answered_here from m.value n h)) (record { old = self.old; new = self.new; file = D.file disk.old; left = D.file disk.new; before = outs.old; after = outs.new }) }
        ensures counts { CountsStep (counts D.Disk disk.old) (counts D.Disk disk.new) result CoreFault.Halted }
    {
        if !asker_has_room(&self.coord, &m) {
            return Err(CoreFault::Memory);
        }
        let mut effects = Effects::new(self.alloc);
        if !heard(
            self.alloc,
            &mut self.coord,
            from,
            m,
            &self.records,
            &mut effects,
        )? {
            return Ok(false);
        }
        perform(self.alloc, &mut self.records, disk, effects, outs)?;
        Ok(true)
    }

    // An acknowledgement of a commit. False: it is void.
    pub(crate) fn acknowledge<D: Disk>(
        &mut self,
        disk: &mut D,
        from: u8,
        m: &Acked,
        outs: &mut Outgoings,
    ) -> Result<bool, CoreFault>
        requires stands { StandsSome O.ObjectStore self.old (D.file disk.old) }
        ensures done { IfOk result (Takes O.ObjectStore (other_here from (message.Acked m.now)) (record { old = self.old; new = self.new; file = D.file disk.old; left = D.file disk.new; before = outs.old; after = outs.new })) }
        ensures halted { IsErrOf result CoreFault.Halted → Halts O.ObjectStore (λ n h. outs_of (other_here from (message.Acked m.now) n h)) (record { old = self.old; new = self.new; file = D.file disk.old; left = D.file disk.new; before = outs.old; after = outs.new }) }
        ensures counts { CountsStep (counts D.Disk disk.old) (counts D.Disk disk.new) result CoreFault.Halted }
    {
        let mut effects = Effects::new(self.alloc);
        if !self.coord.acked(from, m.act, &self.records, &mut effects)? {
            return Ok(false);
        }
        perform(self.alloc, &mut self.records, disk, effects, outs)?;
        Ok(true)
    }

    // A query about an action of the node.
    pub(crate) fn query<D: Disk>(
        &mut self,
        disk: &mut D,
        from: u8,
        m: &Query,
        outs: &mut Outgoings,
    ) -> Result<(), CoreFault>
        requires stands { StandsSome O.ObjectStore self.old (D.file disk.old) }
        ensures done { OnOk result (Takes O.ObjectStore (other_here from (message.Query m.now)) (record { old = self.old; new = self.new; file = D.file disk.old; left = D.file disk.new; before = outs.old; after = outs.new }) true) }
        ensures halted { IsErrOf result CoreFault.Halted → Halts O.ObjectStore (λ n h. outs_of (other_here from (message.Query m.now) n h)) (record { old = self.old; new = self.new; file = D.file disk.old; left = D.file disk.new; before = outs.old; after = outs.new }) }
        ensures counts { CountsStep (counts D.Disk disk.old) (counts D.Disk disk.new) result CoreFault.Halted }
    {
        let mut effects = Effects::new(self.alloc);
        self.coord
            .answer_query(from, m.act, &self.records, &mut effects)?;
        perform(self.alloc, &mut self.records, disk, effects, outs)
    }
}
