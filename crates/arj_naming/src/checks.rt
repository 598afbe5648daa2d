// The checks of a Confirm, and the entries that it changes.
ghost use Rattle.std.specs.Prelude.{◌≡◌, ◌≤◌, ◌++◌, ◌∷◌, [], ℕ, List, None, length, map, IfOk, IfSome, OnOk, nat_eq};
ghost use Rattle.std.specs.List.{AllByRecursion, cons_option};
ghost use Rattle.arj_base.specs.Uid.{entry};
ghost use Rattle.arj_msg.specs.InForm.{IsNode};
ghost use Rattle.arj_naming.specs.Entries.{AreNodes, IsNewState, IsOnce};
ghost use Rattle.arj_naming.specs.Said.{said};
ghost use Rattle.arj_protocol.specs.Ask.{top_of};
ghost use Rattle.arj_protocol.specs.Confirm.{has_all, other_grant, wants_lock, wanted, conflict_in, refused_exclude, is_there, is_bare, first_of_each, without_stores, with_stores, marked, same_nodes, entry_state, entry_after, entries_after, lock_in, lock_all};
ghost use Rattle.arj_protocol.specs.Effect.{held_at};
ghost use Rattle.arj_protocol.specs.Order.{at_number};
ghost use Rattle.arj_protocol.specs.Values.{state_entry};

use crate::entries::Entries;
use crate::part::Part;
use crate::payload::{entry_of, stores_of};
use crate::touched::touch_path;
use arj_base::{Class, Format, ObjectState, Path, States, Uid, entry_uid, next_version};
use arj_entry::Entry;
use arj_journal::Lines;
use arj_msg::{Confirm, ConfirmedReply, What};
use arj_protocol::payloads_read_back;
use std::alloc::{AllocError, Global};

impl Part {
    /// Whether naming has each of these objects.
    pub fn has_all(&self, grants: &[(u16, u32)]) -> bool
        ensures { result ≡ has_all grants.now self.now }
    {
        grants
            .iter()
            .all(|grant| self.objects.contains_key(&grant.0))
    }

    /// The first grant of another incarnation.
    pub fn other_grant(&self, grants: &[(u16, u32)]) -> Option<ConfirmedReply>
        ensures { result ≡ first_of_each (other_grant self.now) grants.now }
    {
        for (_, inc) in grants {
            if *inc != self.counter.inc {
                return Some(ConfirmedReply::Changed(What::Inc {
                    had: *inc,
                    now: self.counter.inc,
                }));
            }
        }
        None
    }

    // The lock that stands against the exclude lock on an object's entry.
    fn refused_at(&self, path: &Path, x: u16) -> Option<ConfirmedReply>
        ensures { result ≡ refused_exclude path.now self.now x }
    {
        let (holder, mode) = self.objects.get(&x)?.against_exclude(x, path)?;
        Some(ConfirmedReply::Conflict { holder, mode })
    }

    /// The first lock that stands against an exclude lock on these objects' entries.
    pub fn refused_exclude(&self, path: &Path, xs: &[u16]) -> Option<ConfirmedReply>
        ensures { result ≡ first_of_each (refused_exclude path.now self.now) xs.now }
    {
        for x in xs {
            if let Some(refused) = self.refused_at(path, *x) {
                return Some(refused);
            }
        }
        None
    }

    // The exclude lock on an object's entry.
    fn lock_in(
        &mut self,
        alloc: Global,
        x: u16,
        path: &Path,
        out: &mut Lines,
    ) -> Result<(), AllocError>
        requires { refused_exclude path.now self.old x ≡ None }
        ensures part { OnOk result (self.new ≡ (lock_in x path.now self.old (at_number x self.old.objects)).part) }
        ensures lines { OnOk result (out.new ≡ out.old ++ said (lock_in x path.now self.old (at_number x self.old.objects)).outs) }
    {
        touch_path(alloc, &mut self.touched, path, x)?;
        let Some(object) = self.objects.get_mut(&x) else {
            return Ok(());
        };
        match object.exclude(x, path, out) {
            Ok(()) => Ok(()),
            Err(e) => {
                self.objects.remove(&x);
                Err(e)
            }
        }
    }

    /// The exclude locks on these objects' entries, one after another.
    pub fn lock_all(
        &mut self,
        alloc: Global,
        xs: &[u16],
        path: &Path,
        out: &mut Lines,
    ) -> Result<(), AllocError>
        requires free { first_of_each (refused_exclude path.now self.old) xs.now ≡ None }
        requires once { IsOnce xs.now }
        ensures part { OnOk result (self.new ≡ (lock_all xs.now path.now self.old).part) }
        ensures lines { OnOk result (out.new ≡ out.old ++ said (lock_all xs.now path.now self.old).outs) }
    {
        for x in xs {
            self.lock_in(alloc, *x, path, out)?;
        }
        Ok(())
    }
}

impl Entries {
    // Whether a store that is marked for the object wants its exclude lock.
    fn wants_lock(&self, x: u16, top: Uid, excluded: &[(u16, u8)]) -> bool
        ensures { result ≡ wants_lock top excluded.now self.now x }
    {
        for (y, store) in excluded {
            if *y == x && self.is_wanted(x, top, *store) {
                return true;
            }
        }
        false
    }

    /// The objects whose exclude lock is wanted.
    pub fn wanted(
        &self,
        top: Uid,
        grants: &[(u16, u32)],
        excluded: &[(u16, u8)],
    ) -> Result<Vec<u16>, AllocError>
        ensures { IfOk result (λ xs. xs.items ≡ wanted top grants.now excluded.now self.now) }
    {
        let mut xs = Vec::new(self.allocator());
        for (x, _) in grants {
            if self.wants_lock(*x, top, excluded) {
                xs.push(*x)?;
            }
        }
        Ok(xs)
    }

    // The store, if it is listed.
    fn listed_at(&self, x: u16, node: u8) -> Option<ConfirmedReply>
        ensures { result ≡ is_there self.now (x, node) }
    {
        if self.stores(x).contains(&node) {
            Some(ConfirmedReply::Listed { x, node })
        } else {
            None
        }
    }

    /// The first included store that is listed.
    pub fn listed_store(&self, included: &[(u16, u8)]) -> Option<ConfirmedReply>
        ensures { result ≡ first_of_each (is_there self.now) included.now }
    {
        for mark in included {
            if let Some(listed) = self.listed_at(mark.0, mark.1) {
                return Some(listed);
            }
        }
        None
    }

    // The new entry of an object, where it differs.
    fn entry_after(&self, m: &Confirm, top: Uid, x: u16) -> Result<Option<ObjectState>, AllocError>
        requires nodes { AllByRecursion (λ (k : ℕ × ℕ). IsNode k.1) m.now.included }
        ensures state { IfOk result (λ s. s ≡ entry_after top m.now.excluded m.now.included x (held_at (entry x) self.now)) }
        ensures new { IfOk result (λ s. IfSome s (λ s. IsNewState s.uid s)) }
    {
        let Some(held) = self.get(x) else {
            return Ok(None);
        };
        let mut entry = entry_of(self.allocator(), held)?;
        exclude_all(&mut entry, x, m.excluded.as_slice());
        include_all(&mut entry, x, m.included.as_slice())?;
        if is_same_list(entry.stores.as_slice(), stores_of(held)) {
            return Ok(None);
        }
        let state = new_state(self.allocator(), x, top, held, &entry)?;
        Ok(Some(state))
    }

    /// The entries that change, by object.
    pub fn entries_after(&self, m: &Confirm, top: Uid) -> Result<States, AllocError>
        requires nodes { AllByRecursion (λ (k : ℕ × ℕ). IsNode k.1) m.now.included }
        ensures states { IfOk result (λ states. states ≡ entries_after top m.now.objects m.now.excluded m.now.included self.now) }
        ensures new { IfOk result (λ states. AllByRecursion (λ s. IsNewState s.uid s) states) }
    {
        let mut states = States::new(self.allocator());
        for (x, _) in m.objects.as_slice() {
            let state = self.entry_after(m, top, *x)?;
            push_some(&mut states, state)?;
        }
        Ok(states)
    }
}

// Puts a state at the end, if there is one.
fn push_some(states: &mut States, state: Option<ObjectState>) -> Result<(), AllocError>
    requires { IfSome state (λ s. IsNewState s.uid s) }
    ensures states { OnOk result (states.new ≡ states.old ++ cons_option state []) }
    ensures new { OnOk result (AllByRecursion (λ s. IsNewState s.uid s) states.old → AllByRecursion (λ s. IsNewState s.uid s) states.new) }
{
    match state {
        Some(state) => states.push(state),
        None => Ok(()),
    }
}

// The entry, if it has no store.
fn bare_one(state: &ObjectState) -> Option<ConfirmedReply>
    requires { IsNewState state.now.uid state.now }
    ensures { result ≡ is_bare state.now }
{
    if is_same_list(stores_of(state), &[]) {
        Some(ConfirmedReply::NoStores {
            x: state.uid.num as u16,
        })
    } else {
        None
    }
}

/// The first entry without a store.
pub fn bare_entry(states: &[ObjectState]) -> Option<ConfirmedReply>
    requires { AllByRecursion (λ s. IsNewState s.uid s) states.now }
    ensures { result ≡ first_of_each is_bare states.now }
{
    for state in states {
        if let Some(bare) = bare_one(state) {
            return Some(bare);
        }
    }
    None
}

// Takes the store out of an entry, if it is marked for the object.
fn exclude_one(entry: &mut Entry, x: u16, mark: (u16, u8))
    ensures stores { entry.new.stores ≡ without_stores (marked x (mark ∷ [])) entry.old.stores }
    ensures servers { entry.new.servers ≡ entry.old.servers }
    ensures nodes { AreNodes entry.old.stores → AreNodes entry.new.stores }
{
    if mark.0 == x {
        entry.exclude(mark.1);
    }
}

// Takes the stores that are marked for the object out of an entry.
fn exclude_all(entry: &mut Entry, x: u16, excluded: &[(u16, u8)])
    ensures stores { entry.new.stores ≡ without_stores (marked x excluded.now) entry.old.stores }
    ensures servers { entry.new.servers ≡ entry.old.servers }
    ensures nodes { AreNodes entry.old.stores → AreNodes entry.new.stores }
{
    for mark in excluded {
        exclude_one(entry, x, *mark);
    }
}

// Puts the store into an entry, if it is marked for the object.
fn include_one(entry: &mut Entry, x: u16, mark: (u16, u8)) -> Result<(), AllocError>
    requires { IsNode mark.1 }
    ensures stores { OnOk result (entry.new.stores ≡ with_stores (marked x (mark ∷ [])) entry.old.stores) }
    ensures servers { entry.new.servers ≡ entry.old.servers }
    ensures nodes { OnOk result (AreNodes entry.old.stores → AreNodes entry.new.stores) }
{
    if mark.0 == x {
        entry.include(mark.1)?;
    }
    Ok(())
}

// Puts the stores that are marked for the object into an entry.
fn include_all(entry: &mut Entry, x: u16, included: &[(u16, u8)]) -> Result<(), AllocError>
    requires nodes { AllByRecursion (λ (k : ℕ × ℕ). IsNode k.1) included.now }
    ensures stores { OnOk result (entry.new.stores ≡ with_stores (marked x included.now) entry.old.stores) }
    ensures servers { entry.new.servers ≡ entry.old.servers }
    ensures nodes { OnOk result (AreNodes entry.old.stores → AreNodes entry.new.stores) }
{
    for mark in included {
        include_one(entry, x, *mark)?;
    }
    Ok(())
}

// Whether two lists of nodes are one.
fn is_same_list(a: &[u8], b: &[u8]) -> bool
    ensures { result ≡ same_nodes a.now b.now }
{
    a == b
}

// The state of an object's entry with other stores, one version on.
fn new_state(
    alloc: Global,
    x: u16,
    top: Uid,
    held: &ObjectState,
    new: &Entry,
) -> Result<ObjectState, AllocError>
    requires held { IsNewState (entry x) held.now }
    requires servers { new.now.servers ≡ (state_entry held.now).servers }
    requires stores { AreNodes new.now.stores }
    ensures state { IfOk result (λ s. s ≡ entry_state x top held.now new.now.stores) }
    ensures new { IfOk result (λ s. IsNewState s.uid s) }
{
    payloads_read_back();
    Ok(ObjectState {
        uid: entry_uid(x),
        class: Class::Entry,
        version: next_version(held.version),
        writer: top,
        payload: new.save(alloc)?,
        format: Format::Two,
    })
}
