// A Confirm in memory: all of it but the store's part.
ghost use Rattle.std.specs.Prelude.{◌≡◌, ◌++◌, ◌∷◌, [], false, IfOk, OnOk};
ghost use Rattle.std.specs.List.{AllByRecursion};
ghost use Rattle.arj_naming.specs.Calls.{confirm_by, IsSingle};
ghost use Rattle.arj_naming.specs.Ends.{finished, orphans_by, taken_by};
ghost use Rattle.arj_naming.specs.Entries.{AreOfEntries, IsNewState};
ghost use Rattle.arj_protocol.specs.Ask.{top_of};
ghost use Rattle.arj_protocol.specs.Confirm.{checked, confirm_new, confirms, entries_after, wanted as wanted_of};
ghost use Rattle.arj_naming.specs.Reached.{IsReached};
ghost use Rattle.arj_naming.specs.Said.{said};
ghost use Rattle.arj_protocol.specs.Effect.{Say, is_prepared, pair_prepared};
ghost use Rattle.arj_protocol.specs.Naming.{orphans};
ghost use Rattle.arj_protocol.specs.Words.body;
ghost use Rattle.arj_protocol.specs.Words.role;

use crate::checks::bare_entry;
use crate::entries::Entries;
use crate::lines::{NAMING_NODE, say};
use crate::part::Part;
use crate::stage::Ready;
use arj_base::{End, ObjectState, States, Uid, Uids};
use arj_journal::{Body, Lines, Role};
use arj_msg::{Confirm, ConfirmedReply};
use std::alloc::AllocError;

/// What naming has in memory.
#[derive(Drop)]
pub struct Memory {
    pub part: Part,
    pub entries: Entries,
}

/// What an end makes naming do: what it is taken for, if it wasn't told before, and whose entries it aborts.
#[derive(Drop)]
pub struct Plan {
    pub taken: Option<End>,
    pub orphans: Uids,
}

impl Memory {
    /// A Confirm of this top until the store is asked.
    pub fn confirm(&mut self, m: &Confirm, top: Uid, out: &mut Lines) -> Result<Ready, AllocError>
        requires single { IsSingle m.now }
        requires top { top ≡ top_of m.now.head.path }
        ensures ready { IfOk result (IsReached (confirm_by m.now self.old.entries self.old.part) top self.old.entries (record { part = self.new.part; before = out.old; lines = out.new })) }
        ensures entries { self.new.entries ≡ self.old.entries }
    {
        if self.part.is_over(&m.head.path) || !self.part.has_all(m.objects.as_slice()) {
            return Ok(Ready::Answer(None));
        }
        if self.part.is_confirmed(top) || self.entries.is_prepared(top) {
            self.part.confirm(top)?;
            return Ok(Ready::Answer(Some(ConfirmedReply::Yes)));
        }
        let states = self.entries.entries_after(m, top)?;
        self.confirm_new(m, top, states, out)
    }

    // A Confirm that wasn't answered Yes before.
    fn confirm_new(
        &mut self,
        m: &Confirm,
        top: Uid,
        states: States,
        out: &mut Lines,
    ) -> Result<Ready, AllocError>
        requires single { IsSingle m.now }
        requires top { top ≡ top_of m.now.head.path }
        requires first { is_prepared top self.old.entries ≡ false }
        requires states { states ≡ entries_after top m.now.objects m.now.excluded m.now.included self.old.entries }
        requires new { AllByRecursion (λ s. IsNewState s.uid s) states }
        ensures ready { IfOk result (IsReached (confirm_new m.now.head.path m.now.objects m.now.excluded m.now.included self.old.entries self.old.part
            (checked m.now.head.path m.now.objects m.now.excluded m.now.included self.old.entries self.old.part)) top self.old.entries (record { part = self.new.part; before = out.old; lines = out.new })) }
        ensures entries { self.new.entries ≡ self.old.entries }
    {
        let wanted = self
            .entries
            .wanted(top, m.objects.as_slice(), m.excluded.as_slice())?;
        if let Some(refused) = self.refused(m, wanted.as_slice(), states.as_slice()) {
            return Ok(Ready::Answer(Some(refused)));
        }
        let alloc = self.entries.allocator();
        self.part
            .lock_all(alloc, wanted.as_slice(), &m.head.path, out)?;
        if states.as_slice().is_empty() {
            self.part.confirm(top)?;
            return Ok(Ready::Answer(Some(ConfirmedReply::Yes)));
        }
        Ok(Ready::Prepare(states))
    }

    // The four checks, in their order.
    fn refused(&self, m: &Confirm, wanted: &[u16], states: &[ObjectState]) -> Option<ConfirmedReply>
        requires wanted { wanted.now ≡ wanted_of (top_of m.now.head.path) m.now.objects m.now.excluded self.now.entries }
        requires states { states.now ≡ entries_after (top_of m.now.head.path) m.now.objects m.now.excluded m.now.included self.now.entries }
        requires new { AllByRecursion (λ s. IsNewState s.uid s) states.now }
        ensures { result ≡ checked m.now.head.path m.now.objects m.now.excluded m.now.included self.now.entries self.now.part }
    {
        if let Some(changed) = self.part.other_grant(m.objects.as_slice()) {
            return Some(changed);
        }
        if let Some(conflict) = self.part.refused_exclude(&m.head.path, wanted) {
            return Some(conflict);
        }
        if let Some(listed) = self.entries.listed_store(m.included.as_slice()) {
            return Some(listed);
        }
        bare_entry(states)
    }

    /// The top is prepared with these states, and confirmed.
    pub fn prepared(&mut self, top: Uid, states: States, out: &mut Lines) -> Result<(), AllocError>
        requires { AreOfEntries states }
        ensures part { OnOk result (self.new.part ≡ confirms top self.old.part) }
        ensures entries { OnOk result (self.new.entries ≡ pair_prepared top states self.old.entries) }
        ensures lines { OnOk result (out.new ≡ out.old ++ said (Say (body.Prepared 1 top role.Names) ∷ [])) }
    {
        self.part.confirm(top)?;
        self.entries.prepare(top, states)?;
        let prepared = Body::Prepared {
            node: NAMING_NODE,
            action: top,
            role: Role::Names,
        };
        say(out, prepared)
    }

    /// What the end of an action makes naming do.
    pub fn plan(&self, action: Uid, end: End) -> Result<Plan, AllocError>
        ensures taken { IfOk result (λ plan. plan.taken ≡ taken_by action end self.now.part) }
        ensures orphans { IfOk result (λ plan. plan.orphans ≡ orphans_by action plan.taken self.now.entries self.now.part) }
    {
        let none = Uids::new(self.entries.allocator());
        if self.part.is_told(action) {
            return Ok(Plan {
                taken: None,
                orphans: none,
            });
        }
        match self.part.taken_end(action, end) {
            End::Commit => Ok(Plan {
                taken: Some(End::Commit),
                orphans: none,
            }),
            End::Abort => Ok(Plan {
                taken: Some(End::Abort),
                orphans: self.orphans(action)?,
            }),
        }
    }

    // The other prepared actions that hold a lock which an abort of the action drops.
    fn orphans(&self, action: Uid) -> Result<Uids, AllocError>
        ensures { IfOk result (λ us. us ≡ orphans action self.now.entries self.now.part) }
    {
        let losers = self.part.losers(self.entries.allocator(), action)?;
        self.entries.prepared_among(&losers, action)
    }

    /// The lines and the locks of an end.
    pub fn finish(
        &mut self,
        action: Uid,
        taken: Option<End>,
        out: &mut Lines,
    ) -> Result<(), AllocError>
        ensures part { OnOk result (self.new.part ≡ (finished action taken self.old.part).part) }
        ensures entries { self.new.entries ≡ self.old.entries }
        ensures lines { OnOk result (out.new ≡ out.old ++ said (finished action taken self.old.part).outs) }
    {
        let Some(end) = taken else {
            return Ok(());
        };
        self.part.say_told(action, end, out)?;
        self.part.end(self.entries.allocator(), action, end)
    }
}
