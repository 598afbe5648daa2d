// The end of an action.
ghost use Rattle.std.specs.Prelude.{◌≡◌, Some, is_some, IfOk, OnOk, IsErrOf};
ghost use Rattle.arj_base.specs.declared.mode.End.{End};
ghost use Rattle.arj_base.specs.declared.uid.Uid.{Uid};
ghost use Rattle.arj_disk.specs.Counted.{counts};
ghost use Rattle.arj_disk.specs.Disk.{CountsCall};
ghost use Rattle.arj_protocol.specs.Ask.{last_end};
ghost use Rattle.arj_protocol.specs.Words.message;
ghost use Rattle.arj_serve.specs.Asked.{Handles, HandlesInPart, acked_by, sent_to};
ghost use Rattle.arj_serve.specs.Ended.{EndsNames, EndsNamesInPart, EndsParts, EndsPartsInPart, EndsServer};
ghost use Rattle.arj_serve.specs.Kept.{Leaves, LeavesNames, Stands};
ghost use Rattle.arj_store.specs.declared.answer.StoreFault.{StoreFault};

use crate::Services;
use arj_base::{End, Uid};
use arj_disk::Disk;
use arj_journal::Lines;
use arj_msg::{Acked, Message, Told};
use arj_protocol::parts_act_alone;
use arj_store::{ObjectStore, StoreFault};
use std::alloc::AllocError;

impl<O: ObjectStore> Services<O> {
    /// An action has ended, and others before it: what it has prepared here ends with it, and its locks go or pass. An
    /// acknowledgement is the answer, where one is wanted.
    pub fn told<D: Disk>(
        &mut self,
        disk: &mut D,
        m: &Told,
        out: &mut Lines,
    ) -> Result<Option<Message>, StoreFault>
        requires stands { Stands O.ObjectStore self.old (D.file disk.old) }
        ensures done { IfOk result (λ answer. Handles O.ObjectStore (message.Told m.now) (record { old = self.old; new = self.new; file = D.file disk.old; left = D.file disk.new; before = out.old; after = out.new }) (λ from. sent_to from answer)) }
        ensures stopped { IsErrOf result StoreFault.Stopped → HandlesInPart O.ObjectStore (message.Told m.now) (record { old = self.old; new = self.new; file = D.file disk.old; left = D.file disk.new; before = out.old; after = out.new }) }
        ensures leaves { Leaves O.ObjectStore (is_some self.old.naming) (D.file disk.old) (D.file disk.new) }
        ensures counts { CountsCall (counts D.Disk disk.old) (counts D.Disk disk.new) result StoreFault.Stopped }
    {
        match last_of(m.ends.as_slice()) {
            Some(last) => self.end_last(disk, m, last, out),
            None => Ok(None),
        }
    }

    // The last end of the message, with its acknowledgement.
    fn end_last<D: Disk>(
        &mut self,
        disk: &mut D,
        m: &Told,
        last: (Uid, End),
        out: &mut Lines,
    ) -> Result<Option<Message>, StoreFault>
        requires stands { Stands O.ObjectStore self.old (D.file disk.old) }
        requires last { last_end m.now.ends ≡ Some last }
        ensures done { IfOk result (λ answer. Handles O.ObjectStore (message.Told m.now) (record { old = self.old; new = self.new; file = D.file disk.old; left = D.file disk.new; before = out.old; after = out.new }) (λ from. sent_to from answer)) }
        ensures stopped { IsErrOf result StoreFault.Stopped → HandlesInPart O.ObjectStore (message.Told m.now) (record { old = self.old; new = self.new; file = D.file disk.old; left = D.file disk.new; before = out.old; after = out.new }) }
        ensures leaves { Leaves O.ObjectStore (is_some self.old.naming) (D.file disk.old) (D.file disk.new) }
        ensures counts { CountsCall (counts D.Disk disk.old) (counts D.Disk disk.new) result StoreFault.Stopped }
    {
        self.end_parts(disk, m, last.0, last.1, out)?;
        Ok(acked(m, last.0))
    }

    // The end of this action, the last of the message: at the store, at naming, and at the server.
    fn end_parts<D: Disk>(
        &mut self,
        disk: &mut D,
        m: &Told,
        action: Uid,
        end: End,
        out: &mut Lines,
    ) -> Result<(), StoreFault>
        requires stands { Stands O.ObjectStore self.old (D.file disk.old) }
        ensures done { OnOk result (EndsParts O.ObjectStore m.now action end (record { old = self.old; new = self.new; file = D.file disk.old; left = D.file disk.new; before = out.old; after = out.new })) }
        ensures stopped { IsErrOf result StoreFault.Stopped → EndsPartsInPart O.ObjectStore m.now action end (record { old = self.old; new = self.new; file = D.file disk.old; left = D.file disk.new; before = out.old; after = out.new }) }
        ensures leaves { Leaves O.ObjectStore (is_some self.old.naming) (D.file disk.old) (D.file disk.new) }
        ensures counts { CountsCall (counts D.Disk disk.old) (counts D.Disk disk.new) result StoreFault.Stopped }
    {
        self.end_states(disk, action, end, out)?;
        self.end_names(disk, m, out)?;
        parts_act_alone();
        self.end_server(m, out)?;
        Ok(())
    }

    // What naming does, where the node has it.
    fn end_names<D: Disk>(
        &mut self,
        disk: &mut D,
        m: &Told,
        out: &mut Lines,
    ) -> Result<(), StoreFault>
        requires stands { Stands O.ObjectStore self.old (D.file disk.old) }
        ensures done { OnOk result (EndsNames O.ObjectStore m.now (record { old = self.old; new = self.new; file = D.file disk.old; left = D.file disk.new; before = out.old; after = out.new })) }
        ensures stopped { IsErrOf result StoreFault.Stopped → EndsNamesInPart O.ObjectStore m.now (record { old = self.old; new = self.new; file = D.file disk.old; left = D.file disk.new; before = out.old; after = out.new }) }
        ensures leaves { LeavesNames O.ObjectStore (is_some self.old.naming) (D.file disk.old) (D.file disk.new) }
        ensures counts { CountsCall (counts D.Disk disk.old) (counts D.Disk disk.new) result StoreFault.Stopped }
    {
        let Some(naming) = &mut self.naming else {
            return Ok(());
        };
        parts_act_alone();
        naming.told(disk, m, out)?;
        Ok(())
    }

    // What the server does.
    fn end_server(&mut self, m: &Told, out: &mut Lines) -> Result<(), AllocError>
        ensures { OnOk result (EndsServer m.now self.old self.new out.old out.new) }
    {
        self.server.told(self.number, m, out)
    }
}

// The last of some ends.
fn last_of(ends: &[(Uid, End)]) -> Option<(Uid, End)>
    ensures { result ≡ last_end ends.now }
{
    ends.last().copied()
}

// The acknowledgement, where one is wanted.
fn acked(m: &Told, action: Uid) -> Option<Message>
    ensures { result ≡ acked_by m.now action }
{
    if m.ack {
        Some(Message::Acked(Acked { act: action }))
    } else {
        None
    }
}
