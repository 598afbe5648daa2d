// A Prepare.
ghost use Rattle.std.specs.Prelude.{◌≡◌, ◌≤◌, ◌++◌, List, false, is_some, length, IfOk, OnOk, IsErrOf};
ghost use Rattle.arj_base.specs.declared.state.ObjectState.{ObjectState};
ghost use Rattle.arj_disk.specs.Counted.{counts};
ghost use Rattle.arj_disk.specs.Disk.{CountsCall};
ghost use Rattle.arj_naming.specs.Said.{said};
ghost use Rattle.arj_protocol.specs.Ask.{actor};
ghost use Rattle.arj_protocol.specs.Effect as protocol;
ghost use Rattle.arj_protocol.specs.Effect.{is_prepared};
ghost use Rattle.arj_protocol.specs.Words.message;
ghost use Rattle.arj_serve.specs.Asked.{Serves, ServesInPart};
ghost use Rattle.arj_serve.specs.Ended.{IsNumbered, prep_done, prep_reply, prepared_to};
ghost use Rattle.arj_serve.specs.Kept.{Leaves, Stands, StandsOn};
ghost use Rattle.arj_serve.specs.Objects.{AreOfObjects};
ghost use Rattle.arj_store.specs.declared.answer.StoreFault.{StoreFault};
ghost use Rattle.arj_law_store.specs.store.Prep.{prep_of};

use crate::Services;
use crate::answers::asked;
use arj_base::Uid;
use arj_disk::Disk;
use arj_journal::{Body, Line, Lines, Role as JournalRole};
use arj_msg::{Head, Message, Prepare, Prepared, PreparedReply};
use arj_store::{ObjectStore, Prep, StoreFault, known_objects};
use std::alloc::AllocError;

impl<O: ObjectStore> Services<O> {
    /// The store prepares states, all of them or none; what is prepared already is answered Yes again. None where the action
    /// wrote the committed state of one.
    pub fn prepare<D: Disk>(
        &mut self,
        disk: &mut D,
        m: &Prepare,
        out: &mut Lines,
    ) -> Result<Option<Message>, StoreFault>
        requires stands { Stands O.ObjectStore self.old (D.file disk.old) }
        requires states { AreOfObjects m.now.states }
        requires few { length m.now.states ≤ 255 }
        ensures done { IfOk result (Serves O.ObjectStore (message.Prepare m.now) (record { old = self.old; new = self.new; file = D.file disk.old; left = D.file disk.new; before = out.old; after = out.new })) }
        ensures stopped { IsErrOf result StoreFault.Stopped → ServesInPart O.ObjectStore (message.Prepare m.now) (record { old = self.old; new = self.new; file = D.file disk.old; left = D.file disk.new; before = out.old; after = out.new }) }
        ensures leaves { Leaves O.ObjectStore (is_some self.old.naming) (D.file disk.old) (D.file disk.new) }
        ensures counts { CountsCall (counts D.Disk disk.old) (counts D.Disk disk.new) result StoreFault.Stopped }
    {
        if self.store.is_prepared(m.head.path.last()) {
            return Ok(Some(prepared(&m.head, PreparedReply::Yes)));
        }
        self.prepare_new(disk, m, out)
    }

    // The states of an action that isn't prepared yet.
    fn prepare_new<D: Disk>(
        &mut self,
        disk: &mut D,
        m: &Prepare,
        out: &mut Lines,
    ) -> Result<Option<Message>, StoreFault>
        requires stands { Stands O.ObjectStore self.old (D.file disk.old) }
        requires states { AreOfObjects m.now.states }
        requires few { length m.now.states ≤ 255 }
        requires first { (d : protocol.Disk) → StandsOn O.ObjectStore self.old (D.file disk.old) d → is_prepared (actor m.now.head.path) d.store ≡ false }
        ensures done { IfOk result (Serves O.ObjectStore (message.Prepare m.now) (record { old = self.old; new = self.new; file = D.file disk.old; left = D.file disk.new; before = out.old; after = out.new })) }
        ensures stopped { IsErrOf result StoreFault.Stopped → ServesInPart O.ObjectStore (message.Prepare m.now) (record { old = self.old; new = self.new; file = D.file disk.old; left = D.file disk.new; before = out.old; after = out.new }) }
        ensures leaves { Leaves O.ObjectStore (is_some self.old.naming) (D.file disk.old) (D.file disk.new) }
        ensures counts { CountsCall (counts D.Disk disk.old) (counts D.Disk disk.new) result StoreFault.Stopped }
    {
        known_objects();
        let action = m.head.path.last();
        let answer = self.store.prepare(disk, action, &m.states)?;
        say_prepared(self.number, action, answer, out)?;
        Ok(answered(&m.head, answer))
    }
}

// Says that states are prepared, where they are.
fn say_prepared(node: u8, action: Uid, answer: Prep, out: &mut Lines) -> Result<(), AllocError>
    ensures { OnOk result ((states : List ObjectState) → out.new ≡ out.old ++ said (prep_done node action states (prep_of answer))) }
{
    match answer {
        Prep::Prepared => {
            let body = Body::Prepared {
                node,
                action,
                role: JournalRole::Store,
            };
            out.push(Line { event: 0, body })
        }
        Prep::Already { .. } | Prep::Old { .. } | Prep::InDoubt { .. } => Ok(()),
    }
}

// A Prepared to who asked.
fn prepared(head: &Head, reply: PreparedReply) -> Message
    ensures { result ≡ message.Prepared (prepared_to head.now reply) }
{
    Message::Prepared(Prepared {
        asked: asked(head),
        reply,
    })
}

// The answer, by the store's.
fn answered(head: &Head, answer: Prep) -> Option<Message>
    requires { IsNumbered answer }
    ensures { result ≡ prep_reply head.now (prep_of answer) }
{
    let reply = match answer {
        Prep::Prepared => PreparedReply::Yes,
        Prep::Already { .. } => return None,
        Prep::Old { uid, held } => PreparedReply::Old {
            x: uid.num as u16,
            held,
        },
        Prep::InDoubt { uid, holder } => PreparedReply::InDoubt {
            x: uid.num as u16,
            holder,
        },
    };
    Some(prepared(head, reply))
}
