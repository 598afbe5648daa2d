// A Confirm, with its entries on the disk.
ghost use Rattle.std.specs.Prelude.{◌≡◌, ◌≤◌, Some, false, length, IfOk, OnOk, OnErr, IsErrOf, option_map};
ghost use Rattle.arj_disk.specs.Counted.{counts};
ghost use Rattle.arj_disk.specs.Disk.{CountsCall};
ghost use Rattle.arj_disk.specs.Says.{OnlyOfRole};
ghost use Rattle.arj_disk.specs.declared.slot.Role.{Role};
ghost use Rattle.arj_naming.specs.Calls.{confirm_by, confirmed_to, IsSingle};
ghost use Rattle.arj_naming.specs.Confirming.{did_of, prepare_by, refusal_by};
ghost use Rattle.arj_naming.specs.Entries.{AreOfEntries};
ghost use Rattle.arj_naming.specs.Files.{GivesEntries};
ghost use Rattle.arj_naming.specs.Kept.{HasDone, IsCut, IsDoneInPart, StandsOn};
ghost use Rattle.arj_protocol.specs.Effect.{is_prepared};
ghost use Rattle.arj_store.specs.declared.answer.StoreFault.{StoreFault};

use crate::Naming;
use crate::nobody::NOBODY;
use crate::part::asked;
use crate::stage::Ready;
use arj_base::{Mode, States, Uid};
use arj_disk::Disk;
use arj_journal::Lines;
use arj_msg::{Confirm, Confirmed, ConfirmedReply, Head};
use arj_store::{ObjectStore, Prep, StoreFault, known_objects};

impl<O: ObjectStore> Naming<O> {
    /// Answers a Confirm: whether all grants of a top stand, with its exclusions and inclusions prepared. None where it is
    /// void.
    pub fn confirm<D: Disk>(
        &mut self,
        disk: &mut D,
        m: &Confirm,
        out: &mut Lines,
    ) -> Result<Option<Confirmed>, StoreFault>
        requires single { IsSingle m.now }
        requires stands { StandsOn O.ObjectStore self.old (D.file disk.old) }
        ensures done { OnOk result (HasDone (did_of (confirm_by m.now self.old.pair self.old.part)) self.old self.new out.old out.new) }
        ensures reply { IfOk result (λ r. r ≡ option_map (confirmed_to m.now.head) (confirm_by m.now self.old.pair self.old.part).reply) }
        ensures stands { OnOk result (StandsOn O.ObjectStore self.new (D.file disk.new)) }
        ensures stopped { IsErrOf result StoreFault.Stopped → IsCut (confirm_by m.now self.old.pair self.old.part).outs self.old.pair (O.pair (D.file disk.new) Role.Names) out.old out.new }
        ensures fault { OnErr result (IsDoneInPart (confirm_by m.now self.old.pair self.old.part).outs self.old.pair (O.pair (D.file disk.new) Role.Names)) }
        ensures entries { GivesEntries (O.pair (D.file disk.new) Role.Names) }
        ensures formed { O.formed (D.file disk.new) Role.Names }
        ensures others { OnlyOfRole Role.Names (D.file disk.old) (D.file disk.new) }
        ensures counts { CountsCall (counts D.Disk disk.old) (counts D.Disk disk.new) result StoreFault.Stopped }
    {
        self.gives_entries(disk);
        let top = m.head.path.top_path().last();
        match self.memory.confirm(m, top, out)? {
            Ready::Answer(answer) => Ok(answered(&m.head, answer)),
            Ready::Prepare(states) => match self.prepare(disk, top, states, out) {
                Ok(reply) => Ok(answered(&m.head, Some(reply))),
                Err(fault) => Err(fault),
            },
        }
    }

    // Prepares the new entries of a top, and answers.
    fn prepare<D: Disk>(
        &mut self,
        disk: &mut D,
        top: Uid,
        states: States,
        out: &mut Lines,
    ) -> Result<ConfirmedReply, StoreFault>
        requires first { is_prepared top self.old.pair ≡ false }
        requires states { AreOfEntries states }
        requires few { length states ≤ 255 }
        requires stands { StandsOn O.ObjectStore self.old (D.file disk.old) }
        ensures done { OnOk result (HasDone (did_of (prepare_by top states self.old.pair self.old.part)) self.old self.new out.old out.new) }
        ensures reply { IfOk result (λ r. Some r ≡ (prepare_by top states self.old.pair self.old.part).reply) }
        ensures stands { OnOk result (StandsOn O.ObjectStore self.new (D.file disk.new)) }
        ensures stopped { IsErrOf result StoreFault.Stopped → IsCut (prepare_by top states self.old.pair self.old.part).outs self.old.pair (O.pair (D.file disk.new) Role.Names) out.old out.new }
        ensures fault { OnErr result (IsDoneInPart (prepare_by top states self.old.pair self.old.part).outs self.old.pair (O.pair (D.file disk.new) Role.Names)) }
        ensures entries { GivesEntries (O.pair (D.file disk.new) Role.Names) }
        ensures formed { O.formed (D.file disk.new) Role.Names }
        ensures others { OnlyOfRole Role.Names (D.file disk.old) (D.file disk.new) }
        ensures counts { CountsCall (counts D.Disk disk.old) (counts D.Disk disk.new) result StoreFault.Stopped }
    {
        known_objects();
        self.memory.entries.are_entries();
        let answer = self.store.prepare(disk, top, &states)?;
        if let Some(refused) = refusal(top, answer) {
            return Ok(refused);
        }
        self.memory.prepared(top, states, out)?;
        Ok(ConfirmedReply::Yes)
    }
}

// An answer to who asked, if there is one.
fn answered(head: &Head, reply: Option<ConfirmedReply>) -> Option<Confirmed>
    ensures { result ≡ option_map (confirmed_to head.now) reply }
{
    let reply = reply?;
    Some(Confirmed {
        asked: asked(head),
        reply,
    })
}

// The answer where the store refuses new entries of a top, which doesn't come.
fn refusal(top: Uid, answer: Prep) -> Option<ConfirmedReply>
    ensures { result ≡ refusal_by top answer }
{
    let holder = match answer {
        Prep::Prepared => return None,
        Prep::InDoubt { holder, .. } => holder,
        Prep::Already { .. } => top,
        Prep::Old { .. } => NOBODY,
    };
    Some(ConfirmedReply::Conflict {
        holder,
        mode: Mode::Write,
    })
}
