// Any request.
ghost use Rattle.std.specs.Prelude.{◌≡◌, true, is_some, IfOk, IsErrOf};
ghost use Rattle.arj_disk.specs.Counted.{counts};
ghost use Rattle.arj_disk.specs.Disk.{CountsCall};
ghost use Rattle.arj_msg.specs.Sendable.{IsSendable};
ghost use Rattle.arj_protocol.specs.Node.{asked_is_meant};
ghost use Rattle.arj_protocol.specs.Words.{asks};
ghost use Rattle.arj_serve.specs.Asked.{Serves, ServesInPart};
ghost use Rattle.arj_serve.specs.Kept.{Leaves, Stands};
ghost use Rattle.arj_store.specs.declared.answer.StoreFault.{StoreFault};

use crate::Services;
use crate::meant::states_fit;
use arj_disk::Disk;
use arj_journal::Lines;
use arj_msg::Message;
use arj_store::{ObjectStore, StoreFault};

impl<O: ObjectStore> Services<O> {
    /// Serves a request that can be meant. The answer goes to who asked; without one the request is void, and so is a message
    /// that is no request.
    pub fn serve<D: Disk>(
        &mut self,
        disk: &mut D,
        m: &Message,
        out: &mut Lines,
    ) -> Result<Option<Message>, StoreFault>
        requires stands { Stands O.ObjectStore self.old (D.file disk.old) }
        requires meant { asked_is_meant self.old.server (asks m.now) ≡ true }
        requires sends { IsSendable m.now }
        ensures done { IfOk result (Serves O.ObjectStore m.now (record { old = self.old; new = self.new; file = D.file disk.old; left = D.file disk.new; before = out.old; after = out.new })) }
        ensures stopped { IsErrOf result StoreFault.Stopped → ServesInPart O.ObjectStore m.now (record { old = self.old; new = self.new; file = D.file disk.old; left = D.file disk.new; before = out.old; after = out.new }) }
        ensures leaves { Leaves O.ObjectStore (is_some self.old.naming) (D.file disk.old) (D.file disk.new) }
        ensures counts { CountsCall (counts D.Disk disk.old) (counts D.Disk disk.new) result StoreFault.Stopped }
    {
        match m {
            Message::Bind(m) => Ok(self.bind(m, out)?),
            Message::Load(m) => self.load(disk, m, out),
            Message::Activate(m) => Ok(self.activate(m, out)?),
            Message::RecordMsg(m) => Ok(self.note(m, out)?),
            Message::Invoke(m) => Ok(self.invoke(m, out)?),
            Message::Vote(m) => Ok(self.vote(m, out)?),
            Message::Prepare(m) => {
                states_fit(m.states.as_slice());
                self.prepare(disk, m, out)
            }
            Message::Confirm(m) => self.confirm(disk, m, out),
            _ => Ok(None),
        }
    }
}
