// Requests to naming.
ghost use Rattle.std.specs.Prelude.{is_some, IfOk, IsErrOf};
ghost use Rattle.arj_disk.specs.Counted.{counts};
ghost use Rattle.arj_disk.specs.Disk.{CountsCall};
ghost use Rattle.arj_disk.specs.FileMap.{FileMap};
ghost use Rattle.arj_naming.specs.Calls.{IsSingle};
ghost use Rattle.arj_protocol.specs.Words.message;
ghost use Rattle.arj_serve.specs.Asked.{Serves, ServesInPart};
ghost use Rattle.arj_serve.specs.Kept.{Leaves, Stands};
ghost use Rattle.arj_store.specs.declared.answer.StoreFault.{StoreFault};

use crate::Services;
use crate::answers::confirmed;
use crate::naming::{bind, note};
use arj_disk::Disk;
use arj_journal::Lines;
use arj_msg::{Bind, Confirm, Message, RecordMsg};
use arj_protocol::parts_act_alone;
use arj_store::{ObjectStore, StoreFault};
use std::alloc::AllocError;

impl<O: ObjectStore> Services<O> {
    /// Asks naming for a binding. None where it is void, and at a node without naming.
    pub fn bind(&mut self, m: &Bind, out: &mut Lines) -> Result<Option<Message>, AllocError>
        ensures { IfOk result (λ answer. (file : FileMap) → Serves O.ObjectStore (message.Bind m.now) (record { old = self.old; new = self.new; file = file; left = file; before = out.old; after = out.new }) answer) }
    {
        let Some(naming) = &mut self.naming else {
            return Ok(None);
        };
        bind(naming, m, out)
    }

    /// Tells naming that a binding is in use. None where it is void, and at a node without naming.
    pub fn note(&mut self, m: &RecordMsg, out: &mut Lines) -> Result<Option<Message>, AllocError>
        ensures { IfOk result (λ answer. (file : FileMap) → Serves O.ObjectStore (message.RecordMsg m.now) (record { old = self.old; new = self.new; file = file; left = file; before = out.old; after = out.new }) answer) }
    {
        let Some(naming) = &mut self.naming else {
            return Ok(None);
        };
        note(naming, m, out)
    }

    /// Asks naming whether all grants of a top stand, with its exclusions and inclusions prepared. None where it is void, and
    /// at a node without naming.
    pub fn confirm<D: Disk>(
        &mut self,
        disk: &mut D,
        m: &Confirm,
        out: &mut Lines,
    ) -> Result<Option<Message>, StoreFault>
        requires single { IsSingle m.now }
        requires stands { Stands O.ObjectStore self.old (D.file disk.old) }
        ensures done { IfOk result (Serves O.ObjectStore (message.Confirm m.now) (record { old = self.old; new = self.new; file = D.file disk.old; left = D.file disk.new; before = out.old; after = out.new })) }
        ensures stopped { IsErrOf result StoreFault.Stopped → ServesInPart O.ObjectStore (message.Confirm m.now) (record { old = self.old; new = self.new; file = D.file disk.old; left = D.file disk.new; before = out.old; after = out.new }) }
        ensures leaves { Leaves O.ObjectStore (is_some self.old.naming) (D.file disk.old) (D.file disk.new) }
        ensures counts { CountsCall (counts D.Disk disk.old) (counts D.Disk disk.new) result StoreFault.Stopped }
    {
        let Some(naming) = &mut self.naming else {
            return Ok(None);
        };
        parts_act_alone();
        let answer = naming.confirm(disk, m, out)?;
        Ok(confirmed(answer))
    }
}
