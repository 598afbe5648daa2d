// Reads of the store of objects, and ends of what is prepared there.
ghost use Rattle.std.specs.Prelude.{◌≡◌, ◌∷◌, ◌++◌, [], true, None, is_some, IfOk, OnErr, OnOk, IsErrOf};
ghost use Rattle.arj_disk.specs.Counted.{counts};
ghost use Rattle.arj_disk.specs.Disk.{CountsCall, Same};
ghost use Rattle.arj_disk.specs.declared.slot.Role.{Role};
ghost use Rattle.arj_naming.specs.Said.{said};
ghost use Rattle.arj_protocol.specs.Effect as protocol;
ghost use Rattle.arj_protocol.specs.Effect.{holder_of, Say};
ghost use Rattle.arj_protocol.specs.Words.body;
ghost use Rattle.arj_protocol.specs.Words.ending;
ghost use Rattle.arj_protocol.specs.Words.message;
ghost use Rattle.arj_protocol.specs.Words.role;
ghost use Rattle.arj_serve.specs.Asked.{Serves, ServesInPart};
ghost use Rattle.arj_serve.specs.Ended.{EndsAll, EndsAllInPart, EndsStates, EndsInPart};
ghost use Rattle.arj_serve.specs.Kept.{Leaves, LeavesRole, Stands, StandsOn};
ghost use Rattle.arj_serve.specs.Parts.{loaded_by};
ghost use Rattle.arj_store.specs.declared.answer.StoreFault.{StoreFault};
ghost use Rattle.arj_law_store.specs.store.Reads.{ReadsAs};

use crate::Services;
use crate::answers::asked;
use arj_base::{End, Uid, object_uid};
use arj_disk::Disk;
use arj_journal::{Body, Line, Lines, Role as JournalRole};
use arj_msg::{Head, Load, Loaded, LoadedReply, Message};
use arj_store::{ObjectStore, Read, StoreFault};
use std::alloc::AllocError;

impl<O: ObjectStore> Services<O> {
    /// The action that has prepared the object, or else its committed state.
    pub fn read<D: Disk>(&self, disk: &mut D, uid: Uid) -> Result<Read, StoreFault>
        requires { Stands O.ObjectStore self.now (D.file disk.old) }
        ensures answer { IfOk result (λ answer. (d : protocol.Disk) → StandsOn O.ObjectStore self.now (D.file disk.old) d → ReadsAs d.store uid answer) }
        ensures free { OnErr result ((d : protocol.Disk) → StandsOn O.ObjectStore self.now (D.file disk.old) d → holder_of uid d.store ≡ None) }
        ensures files { Same (D.file disk.old) (D.file disk.new) }
        ensures counts { CountsCall (counts D.Disk disk.old) (counts D.Disk disk.new) result StoreFault.Stopped }
    {
        match self.store.holder(uid) {
            Some(holder) => Ok(Read::InDoubt { holder }),
            None => self.store.read_committed(self.alloc, disk, uid),
        }
    }

    /// Answers a Load: the committed state, or that the object is in doubt. None where there is no state.
    pub fn load<D: Disk>(
        &mut self,
        disk: &mut D,
        m: &Load,
        out: &mut Lines,
    ) -> Result<Option<Message>, StoreFault>
        requires { Stands O.ObjectStore self.old (D.file disk.old) }
        ensures done { IfOk result (Serves O.ObjectStore (message.Load m.now) (record { old = self.old; new = self.new; file = D.file disk.old; left = D.file disk.new; before = out.old; after = out.new })) }
        ensures stopped { IsErrOf result StoreFault.Stopped → ServesInPart O.ObjectStore (message.Load m.now) (record { old = self.old; new = self.new; file = D.file disk.old; left = D.file disk.new; before = out.old; after = out.new }) }
        ensures leaves { Leaves O.ObjectStore (is_some self.old.naming) (D.file disk.old) (D.file disk.new) }
        ensures counts { CountsCall (counts D.Disk disk.old) (counts D.Disk disk.new) result StoreFault.Stopped }
    {
        let answer = self.read(disk, object_uid(m.x))?;
        Ok(loaded(&m.head, answer))
    }

    // What an action has prepared at the store ends, if it is prepared.
    pub(crate) fn end_states<D: Disk>(
        &mut self,
        disk: &mut D,
        act: Uid,
        end: End,
        out: &mut Lines,
    ) -> Result<(), StoreFault>
        requires stands { Stands O.ObjectStore self.old (D.file disk.old) }
        ensures memory { OnOk result (self.new ≡ record self.old { store = self.new.store }) }
        ensures done { OnOk result (EndsStates O.ObjectStore act end (record { old = self.old; new = self.new; file = D.file disk.old; left = D.file disk.new; before = out.old; after = out.new })) }
        ensures stopped { IsErrOf result StoreFault.Stopped → EndsInPart O.ObjectStore act end (record { old = self.old; new = self.new; file = D.file disk.old; left = D.file disk.new; before = out.old; after = out.new }) }
        ensures leaves { LeavesRole O.ObjectStore Role.Store (D.file disk.old) (D.file disk.new) }
        ensures counts { CountsCall (counts D.Disk disk.old) (counts D.Disk disk.new) result StoreFault.Stopped }
    {
        if !self.store.is_prepared(act) {
            return Ok(());
        }
        match end {
            End::Commit => self.commit_states(disk, act, out),
            End::Abort => self.abort_states(disk, act, out),
        }
    }

    // What the action has prepared is committed.
    fn commit_states<D: Disk>(
        &mut self,
        disk: &mut D,
        act: Uid,
        out: &mut Lines,
    ) -> Result<(), StoreFault>
        requires stands { Stands O.ObjectStore self.old (D.file disk.old) }
        ensures memory { OnOk result (self.new ≡ record self.old { store = self.new.store }) }
        ensures done { OnOk result (EndsAll O.ObjectStore act ending.Commit (record { old = self.old; new = self.new; file = D.file disk.old; left = D.file disk.new; before = out.old; after = out.new })) }
        ensures stopped { IsErrOf result StoreFault.Stopped → EndsAllInPart O.ObjectStore act ending.Commit (record { old = self.old; new = self.new; file = D.file disk.old; left = D.file disk.new; before = out.old; after = out.new }) }
        ensures leaves { LeavesRole O.ObjectStore Role.Store (D.file disk.old) (D.file disk.new) }
        ensures counts { CountsCall (counts D.Disk disk.old) (counts D.Disk disk.new) result StoreFault.Stopped }
    {
        self.store.commit(disk, act)?;
        say_done(self.number, act, End::Commit, out)?;
        Ok(())
    }

    // What the action has prepared is dropped.
    fn abort_states<D: Disk>(
        &mut self,
        disk: &mut D,
        act: Uid,
        out: &mut Lines,
    ) -> Result<(), StoreFault>
        requires stands { Stands O.ObjectStore self.old (D.file disk.old) }
        ensures memory { OnOk result (self.new ≡ record self.old { store = self.new.store }) }
        ensures done { OnOk result (EndsAll O.ObjectStore act ending.Abort (record { old = self.old; new = self.new; file = D.file disk.old; left = D.file disk.new; before = out.old; after = out.new })) }
        ensures stopped { IsErrOf result StoreFault.Stopped → EndsAllInPart O.ObjectStore act ending.Abort (record { old = self.old; new = self.new; file = D.file disk.old; left = D.file disk.new; before = out.old; after = out.new }) }
        ensures leaves { LeavesRole O.ObjectStore Role.Store (D.file disk.old) (D.file disk.new) }
        ensures counts { CountsCall (counts D.Disk disk.old) (counts D.Disk disk.new) result StoreFault.Stopped }
    {
        self.store.abort(disk, act)?;
        say_done(self.number, act, End::Abort, out)?;
        Ok(())
    }
}

// A Loaded to who asked, where there is a state or who has prepared one.
fn loaded(head: &Head, answer: Read) -> Option<Message>
    ensures { result ≡ loaded_by head.now answer }
{
    let reply = match answer {
        Read::State(state) => LoadedReply::State(state),
        Read::InDoubt { holder } => LoadedReply::InDoubt { holder },
        Read::Absent => return None,
    };
    Some(Message::Loaded(Loaded {
        asked: asked(head),
        reply,
    }))
}

// Says that what was prepared at the store has ended.
fn say_done(node: u8, action: Uid, end: End, out: &mut Lines) -> Result<(), AllocError>
    ensures { OnOk result (out.new ≡ out.old ++ said (Say (body.Done node action role.Store end) ∷ [])) }
{
    let body = Body::Done {
        node,
        action,
        role: JournalRole::Store,
        end,
    };
    out.push(Line { event: 0, body })
}
