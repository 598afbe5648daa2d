// The end of an action, with its entries on the disk.
ghost use Rattle.std.specs.Prelude.{◌≡◌, ◌++◌, ◌∷◌, [], OnOk, OnErr, IsErrOf};
ghost use Rattle.arj_base.specs.declared.mode.End.TheVariants as ending;
ghost use Rattle.arj_disk.specs.Counted.{counts};
ghost use Rattle.arj_disk.specs.Disk.{CountsCall};
ghost use Rattle.arj_disk.specs.Says.{OnlyOfRole};
ghost use Rattle.arj_disk.specs.declared.slot.Role.{Role};
ghost use Rattle.arj_naming.specs.Calls.{told_by};
ghost use Rattle.arj_naming.specs.Ends.{abort_all};
ghost use Rattle.arj_naming.specs.Files.{GivesEntries};
ghost use Rattle.arj_naming.specs.Kept.{HasDone, IsCut, IsDoneInPart, StandsOn};
ghost use Rattle.arj_naming.specs.Said.{said};
ghost use Rattle.arj_protocol.specs.Ask.{last_end};
ghost use Rattle.arj_protocol.specs.Effect.{Say};
ghost use Rattle.arj_protocol.specs.Naming.{end_entries, own_entries, told};
ghost use Rattle.arj_protocol.specs.Words.body;
ghost use Rattle.arj_protocol.specs.Words.role;
ghost use Rattle.arj_store.specs.declared.answer.StoreFault.{StoreFault};

use crate::Naming;
use crate::lines::{NAMING_NODE, say};
use arj_base::{End, Uid};
use arj_disk::Disk;
use arj_journal::{Body, Lines, Role as JournalRole};
use arj_msg::Told;
use arj_store::{ObjectStore, StoreFault};
use std::alloc::AllocError;

// Says that what was prepared of an action has ended.
fn say_done(action: Uid, end: End, out: &mut Lines) -> Result<(), AllocError>
    ensures { OnOk result (out.new ≡ out.old ++ said (Say (body.Done 1 action role.Names end) ∷ [])) }
{
    let done = Body::Done {
        node: NAMING_NODE,
        action,
        role: JournalRole::Names,
        end,
    };
    say(out, done)
}

// The last of some ends.
fn last_of(ends: &[(Uid, End)]) -> Option<(Uid, End)>
    ensures { result ≡ last_end ends.now }
{
    ends.last().copied()
}

impl<O: ObjectStore> Naming<O> {
    // What an action has prepared is committed.
    fn commit_entries<D: Disk>(
        &mut self,
        disk: &mut D,
        action: Uid,
        out: &mut Lines,
    ) -> Result<(), StoreFault>
        requires stands { StandsOn O.ObjectStore self.old (D.file disk.old) }
        ensures done { OnOk result (HasDone (record { part = self.old.part; outs = end_entries action ending.Commit }) self.old self.new out.old out.new) }
        ensures stands { OnOk result (StandsOn O.ObjectStore self.new (D.file disk.new)) }
        ensures stopped { IsErrOf result StoreFault.Stopped → IsCut (end_entries action ending.Commit) self.old.pair (O.pair (D.file disk.new) Role.Names) out.old out.new }
        ensures fault { OnErr result (IsDoneInPart (end_entries action ending.Commit) self.old.pair (O.pair (D.file disk.new) Role.Names)) }
        ensures entries { GivesEntries (O.pair (D.file disk.new) Role.Names) }
        ensures formed { O.formed (D.file disk.new) Role.Names }
        ensures others { OnlyOfRole Role.Names (D.file disk.old) (D.file disk.new) }
        ensures counts { CountsCall (counts D.Disk disk.old) (counts D.Disk disk.new) result StoreFault.Stopped }
    {
        self.memory.entries.are_entries();
        self.store.commit(disk, action)?;
        self.memory.entries.commit(action)?;
        say_done(action, End::Commit, out)?;
        Ok(())
    }

    // What an action has prepared is aborted.
    fn abort_entries<D: Disk>(
        &mut self,
        disk: &mut D,
        action: Uid,
        out: &mut Lines,
    ) -> Result<(), StoreFault>
        requires stands { StandsOn O.ObjectStore self.old (D.file disk.old) }
        ensures done { OnOk result (HasDone (record { part = self.old.part; outs = end_entries action ending.Abort }) self.old self.new out.old out.new) }
        ensures stands { OnOk result (StandsOn O.ObjectStore self.new (D.file disk.new)) }
        ensures stopped { IsErrOf result StoreFault.Stopped → IsCut (end_entries action ending.Abort) self.old.pair (O.pair (D.file disk.new) Role.Names) out.old out.new }
        ensures fault { OnErr result (IsDoneInPart (end_entries action ending.Abort) self.old.pair (O.pair (D.file disk.new) Role.Names)) }
        ensures entries { GivesEntries (O.pair (D.file disk.new) Role.Names) }
        ensures formed { O.formed (D.file disk.new) Role.Names }
        ensures others { OnlyOfRole Role.Names (D.file disk.old) (D.file disk.new) }
        ensures counts { CountsCall (counts D.Disk disk.old) (counts D.Disk disk.new) result StoreFault.Stopped }
    {
        self.memory.entries.are_entries();
        self.store.abort(disk, action)?;
        self.memory.entries.abort(action);
        say_done(action, End::Abort, out)?;
        Ok(())
    }

    // What an action has prepared ends, if it is prepared.
    fn end_own<D: Disk>(
        &mut self,
        disk: &mut D,
        action: Uid,
        end: End,
        out: &mut Lines,
    ) -> Result<(), StoreFault>
        requires stands { StandsOn O.ObjectStore self.old (D.file disk.old) }
        ensures done { OnOk result (HasDone (record { part = self.old.part; outs = own_entries action end self.old.pair }) self.old self.new out.old out.new) }
        ensures stands { OnOk result (StandsOn O.ObjectStore self.new (D.file disk.new)) }
        ensures stopped { IsErrOf result StoreFault.Stopped → IsCut (own_entries action end self.old.pair) self.old.pair (O.pair (D.file disk.new) Role.Names) out.old out.new }
        ensures fault { OnErr result (IsDoneInPart (own_entries action end self.old.pair) self.old.pair (O.pair (D.file disk.new) Role.Names)) }
        ensures entries { GivesEntries (O.pair (D.file disk.new) Role.Names) }
        ensures formed { O.formed (D.file disk.new) Role.Names }
        ensures others { OnlyOfRole Role.Names (D.file disk.old) (D.file disk.new) }
        ensures counts { CountsCall (counts D.Disk disk.old) (counts D.Disk disk.new) result StoreFault.Stopped }
    {
        self.gives_entries(disk);
        if !self.memory.entries.is_prepared(action) {
            return Ok(());
        }
        match end {
            End::Commit => self.commit_entries(disk, action, out),
            End::Abort => self.abort_entries(disk, action, out),
        }
    }

    // What these actions have prepared is aborted, one after another.
    fn abort_all<D: Disk>(
        &mut self,
        disk: &mut D,
        actions: &[Uid],
        out: &mut Lines,
    ) -> Result<(), StoreFault>
        requires stands { StandsOn O.ObjectStore self.old (D.file disk.old) }
        ensures done { OnOk result (HasDone (record { part = self.old.part; outs = abort_all actions.now }) self.old self.new out.old out.new) }
        ensures stands { OnOk result (StandsOn O.ObjectStore self.new (D.file disk.new)) }
        ensures stopped { IsErrOf result StoreFault.Stopped → IsCut (abort_all actions.now) self.old.pair (O.pair (D.file disk.new) Role.Names) out.old out.new }
        ensures fault { OnErr result (IsDoneInPart (abort_all actions.now) self.old.pair (O.pair (D.file disk.new) Role.Names)) }
        ensures entries { GivesEntries (O.pair (D.file disk.new) Role.Names) }
        ensures formed { O.formed (D.file disk.new) Role.Names }
        ensures others { OnlyOfRole Role.Names (D.file disk.old) (D.file disk.new) }
        ensures counts { CountsCall (counts D.Disk disk.old) (counts D.Disk disk.new) result StoreFault.Stopped }
    {
        self.gives_entries(disk);
        for action in actions {
            match self.abort_entries(disk, *action, out) {
                Ok(()) => {}
                Err(fault) => return Err(fault),
            }
        }
        Ok(())
    }

    // The end of this action.
    fn told_one<D: Disk>(
        &mut self,
        disk: &mut D,
        action: Uid,
        end: End,
        out: &mut Lines,
    ) -> Result<(), StoreFault>
        requires stands { StandsOn O.ObjectStore self.old (D.file disk.old) }
        ensures done { OnOk result (HasDone (told action end self.old.pair self.old.part) self.old self.new out.old out.new) }
        ensures stands { OnOk result (StandsOn O.ObjectStore self.new (D.file disk.new)) }
        ensures stopped { IsErrOf result StoreFault.Stopped → IsCut (told action end self.old.pair self.old.part).outs self.old.pair (O.pair (D.file disk.new) Role.Names) out.old out.new }
        ensures fault { OnErr result (IsDoneInPart (told action end self.old.pair self.old.part).outs self.old.pair (O.pair (D.file disk.new) Role.Names)) }
        ensures entries { GivesEntries (O.pair (D.file disk.new) Role.Names) }
        ensures formed { O.formed (D.file disk.new) Role.Names }
        ensures others { OnlyOfRole Role.Names (D.file disk.old) (D.file disk.new) }
        ensures counts { CountsCall (counts D.Disk disk.old) (counts D.Disk disk.new) result StoreFault.Stopped }
    {
        self.gives_entries(disk);
        let plan = self.memory.plan(action, end)?;
        self.end_own(disk, action, end, out)?;
        match self.abort_all(disk, plan.orphans.as_slice(), out) {
            Ok(()) => {}
            Err(fault) => return Err(fault),
        }
        self.memory.finish(action, plan.taken, out)?;
        Ok(())
    }

    /// The end of an action, the last of the message: what it has prepared here is committed or aborted; its locks go, or
    /// pass to its serializing action.
    pub fn told<D: Disk>(
        &mut self,
        disk: &mut D,
        m: &Told,
        out: &mut Lines,
    ) -> Result<(), StoreFault>
        requires stands { StandsOn O.ObjectStore self.old (D.file disk.old) }
        ensures done { OnOk result (HasDone (told_by m.now self.old.pair self.old.part) self.old self.new out.old out.new) }
        ensures stands { OnOk result (StandsOn O.ObjectStore self.new (D.file disk.new)) }
        ensures stopped { IsErrOf result StoreFault.Stopped → IsCut (told_by m.now self.old.pair self.old.part).outs self.old.pair (O.pair (D.file disk.new) Role.Names) out.old out.new }
        ensures fault { OnErr result (IsDoneInPart (told_by m.now self.old.pair self.old.part).outs self.old.pair (O.pair (D.file disk.new) Role.Names)) }
        ensures entries { GivesEntries (O.pair (D.file disk.new) Role.Names) }
        ensures formed { O.formed (D.file disk.new) Role.Names }
        ensures others { OnlyOfRole Role.Names (D.file disk.old) (D.file disk.new) }
        ensures counts { CountsCall (counts D.Disk disk.old) (counts D.Disk disk.new) result StoreFault.Stopped }
    {
        self.gives_entries(disk);
        match last_of(m.ends.as_slice()) {
            Some((action, end)) => self.told_one(disk, action, end, out),
            None => Ok(()),
        }
    }
}
