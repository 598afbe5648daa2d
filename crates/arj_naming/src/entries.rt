// The entries of objects in memory.
ghost use Rattle.std.specs.Prelude.{◌≡◌, ◌↔◌, ◌&&◌, ◌++◌, ℕ, true, not, List, [], filter, map, IfOk, IfSome, OnOk, option_copied, option_map};
ghost use Rattle.std.specs.List.{AllByRecursion, flat_map};
ghost use Rattle.std.specs.List.Sorted.{IsStrictlySortedBy};
ghost use Rattle.arj_base.specs.Order.{uid_order};
ghost use Rattle.arj_base.specs.declared.state.ObjectState.{ObjectState};
ghost use Rattle.arj_base.specs.declared.uid.Uid.{Uid};
ghost use Rattle.arj_base.specs.Rows.{is_on};
ghost use Rattle.arj_base.specs.Uid.{entry, uid_eq};
ghost use Rattle.arj_entry.specs.Entry.{is_listed};
ghost use Rattle.arj_msg.specs.InForm.{IsObject};
ghost use Rattle.arj_naming.specs.Back.{ArePending};
ghost use Rattle.arj_naming.specs.ByEntry.{any_lists, lists_store, lists_store_in};
ghost use Rattle.arj_naming.specs.Entries.{AreEntries, AreOfEntries, IsEntryState};
ghost use Rattle.arj_naming.specs.Found.{AreFound};
ghost use Rattle.arj_law_store.specs.store.Found.{pair_found};
ghost use Rattle.arj_naming.specs.Said.{said};
ghost use Rattle.arj_protocol.specs.Confirm.{adds_store, back_lines, is_prepared_with, is_wanted, mode_back, named_back, pending_of, rows_back};
ghost use Rattle.arj_protocol.specs.Effect.{held_at, is_prepared, moved, pair_prepared, pair_committed, pair_aborted};
ghost use Rattle.arj_protocol.specs.Named.{Named, unnamed};
ghost use Rattle.arj_protocol.specs.Naming.{listed_entry};
ghost use Rattle.arj_protocol.specs.Order.{at_uid};
ghost use Rattle.arj_protocol.specs.Values.{state_entry};

use crate::by_entry::{put_prepared, take_prepared};
use crate::found::{copies, states_by_uid};
use crate::object::NamedObject;
use crate::payload::{entry_of, stores_of};
use crate::pending::{Pending, put_states as put_pending};
use arj_base::{Mode, NodeList, ObjectState, States, Uid, Uids, entry_uid};
use arj_entry::Entry;
use arj_journal::Lines;
use arj_store::Found;
use std::alloc::{AllocError, Global};
use std::collections::{BTreeMap, BTreeSet};
use std::marker::Model;

/// The committed entries by Uid, and the prepared actions, each with its new entries. Contracts see the protocol's pair.
/// Each action stands under the entries that it has prepared, so that who asks about an entry looks at no other.
#[derive(Drop)]
pub struct Entries {
    alloc: Global,
    held: BTreeMap<Uid, ObjectState>,
    pend: BTreeMap<Uid, States>,
    by_entry: BTreeMap<Uid, BTreeSet<Uid>>,
}

impl Model for Entries {
    ghost use Rattle.arj_naming.specs.ByEntry.{AreKept};
    ghost use Rattle.arj_protocol.specs.Effect.{Pair};

    ghost Value = { Pair };

    ghost view = { λ e. record { held = e.held.entries; pend = e.pend.entries } };

    ghost invariant = { λ e. AreKept (record { held = e.held.entries; pend = e.pend.entries }) e.by_entry.entries };
}

impl Entries {
    /// The entries that a recovery found.
    pub fn of_found(alloc: Global, found: &Found) -> Result<Entries, AllocError>
        requires { AreFound found.now }
        ensures { IfOk result (λ entries. entries ≡ pair_found found.now) }
    {
        let held = states_by_uid(alloc, found.committed.as_slice())?;
        let mut entries = Entries {
            alloc,
            held,
            pend: BTreeMap::new(alloc),
            by_entry: BTreeMap::new(alloc),
        };
        entries.prepare_all(found.prepared.as_slice())?;
        Ok(entries)
    }

    // These actions, which stand by Uid, are prepared with these states, and no other.
    fn prepare_all(&mut self, prepared: &[(Uid, States)]) -> Result<(), AllocError>
        requires none { self.old.pend ≡ [] }
        requires states { AllByRecursion (λ (e : Uid × List ObjectState). AreOfEntries e.1) prepared.now }
        requires by_action { IsStrictlySortedBy uid_order (map (λ (e : Uid × List ObjectState). e.0) prepared.now) }
        ensures { OnOk result (self.new ≡ record { held = self.old.held; pend = prepared.now }) }
    {
        for (action, states) in prepared {
            let copied = copies(self.alloc, states.as_slice())?;
            self.prepare(*action, copied)?;
        }
        Ok(())
    }

    // What is prepared of each entry. It walks once over all that is prepared.
    fn pending(&self) -> Result<BTreeMap<Uid, Pending>, AllocError>
        ensures { IfOk result (λ pending. ArePending self.now.pend pending.entries) }
    {
        let mut pending = BTreeMap::new(self.alloc);
        for (action, states) in self.pend.iter() {
            put_pending(self.alloc, &mut pending, *action, states.as_slice())?;
        }
        Ok(pending)
    }

    // The lock that an entry gives back, if it is prepared: its action, and the mode.
    fn lock_back(
        &self,
        pending: &BTreeMap<Uid, Pending>,
        uid: Uid,
        stores: &[u8],
    ) -> Option<(Uid, Mode)>
        requires { ArePending self.now.pend pending.now.entries }
        ensures { result ≡ option_map (λ p. (p.0, mode_back (state_entry p.1).stores stores.now)) (pending_of uid self.now.pend) }
    {
        let pending = pending.get(&uid)?;
        Some((pending.action, mode_back(pending.stores.as_slice(), stores)))
    }

    // The object of an entry after a restart.
    fn object_back(
        &self,
        pending: &BTreeMap<Uid, Pending>,
        uid: Uid,
        held: &ObjectState,
        out: &mut Lines,
    ) -> Result<NamedObject, AllocError>
        requires pending { ArePending self.now.pend pending.now.entries }
        requires held { IsEntryState uid held.now }
        ensures object { IfOk result (λ object. object ≡ unnamed (rows_back uid held.now (pending_of uid self.now.pend))) }
        ensures lines { OnOk result (out.new ≡ out.old ++ said (back_lines (unnamed (rows_back uid held.now (pending_of uid self.now.pend))))) }
    {
        match self.lock_back(pending, uid, stores_of(held)) {
            Some((action, mode)) => {
                NamedObject::locked(self.alloc, object_of(uid), action, mode, out)
            }
            None => Ok(NamedObject::new(self.alloc)),
        }
    }

    /// The objects after a restart: prepared entries give back their locks.
    pub fn objects_back(&self, out: &mut Lines) -> Result<BTreeMap<u16, NamedObject>, AllocError>
        ensures objects { IfOk result (λ objects. objects.entries ≡ map (named_back self.now) self.now.held) }
        ensures lines { OnOk result (out.new ≡ out.old ++ said (flat_map (λ (e : ℕ × Named). back_lines e.1) (map (named_back self.now) self.now.held))) }
    {
        let prepared = self.pending()?;
        let mut objects = BTreeMap::new(self.alloc);
        for (uid, held) in self.held.iter() {
            let object = self.object_back(&prepared, *uid, held, out)?;
            objects.insert(object_of(*uid), object)?;
        }
        Ok(objects)
    }

    /// The tops that are confirmed after a restart: those that are prepared.
    pub fn confirmed_back(&self) -> Result<BTreeSet<Uid>, AllocError>
        ensures { IfOk result (λ confirmed. confirmed.keys ≡ map (λ (p : Uid × List ObjectState). p.0) self.now.pend) }
    {
        let mut confirmed = BTreeSet::new(self.alloc);
        for (action, _) in self.pend.iter() {
            confirmed.insert(*action)?;
        }
        Ok(confirmed)
    }

    /// Where its lists have their memory from.
    pub fn allocator(&self) -> Global {
        self.alloc
    }

    /// What holds of all entries. It does nothing when it runs.
    pub fn are_entries(&self)
        ensures { AreEntries self.now }
    {
        let _alloc = self.alloc;
    }

    /// Whether no action is prepared.
    pub fn is_clear(&self) -> bool
        ensures { (result ≡ true) ↔ (self.now.pend ≡ []) }
    {
        self.pend.is_empty()
    }

    /// The committed state of the entry of an object.
    pub fn get(&self, x: u16) -> Option<&ObjectState>
        ensures state { option_copied result ≡ held_at (entry x) self.now }
        ensures of { IfSome (option_copied result) (IsEntryState (entry x)) }
    {
        self.held.get(&entry_uid(x))
    }

    /// The stores of an object.
    pub fn stores(&self, x: u16) -> &[u8]
        ensures { result.now ≡ (listed_entry x self.now).stores }
    {
        match self.get(x) {
            Some(state) => stores_of(state),
            None => &[],
        }
    }

    /// The entry of an object; without servers and stores where there is none.
    pub fn entry(&self, x: u16) -> Result<Entry, AllocError>
        ensures { IfOk result (λ e. e ≡ listed_entry x self.now) }
    {
        match self.get(x) {
            Some(state) => entry_of(self.alloc, state),
            None => Ok(Entry {
                servers: NodeList::new(self.alloc),
                stores: NodeList::new(self.alloc),
            }),
        }
    }

    /// Whether the action is prepared.
    pub fn is_prepared(&self, action: Uid) -> bool
        ensures { result ≡ is_prepared action self.now }
    {
        self.pend.contains_key(&action)
    }

    // Whether the action has prepared the entry of the object with this store.
    fn lists_store(&self, action: Uid, x: u16, store: u8) -> bool
        ensures { result ≡ lists_store_in x store (at_uid action self.now.pend) }
    {
        match self.pend.get(&action) {
            Some(states) => is_listed_in(states.as_slice(), x, store),
            None => false,
        }
    }

    // Whether another of these actions has.
    fn any_lists(&self, actions: &BTreeSet<Uid>, x: u16, top: Uid, store: u8) -> bool
        ensures { result ≡ any_lists x top store self.now.pend actions.now.keys }
    {
        for action in actions.iter() {
            if *action != top && self.lists_store(*action, x, store) {
                return true;
            }
        }
        false
    }

    /// Whether another action has prepared the entry of the object with this store. It looks at those alone that have
    /// prepared the entry.
    pub fn is_prepared_with(&self, x: u16, top: Uid, store: u8) -> bool
        ensures { result ≡ is_prepared_with x top store self.now }
    {
        let _by_action = self.pend.len();
        match self.by_entry.get(&entry_uid(x)) {
            Some(actions) => self.any_lists(actions, x, top, store),
            None => false,
        }
    }

    /// Whether an exclusion of the store wants the exclude lock: the store is listed, or another action has prepared it.
    pub fn is_wanted(&self, x: u16, top: Uid, store: u8) -> bool
        ensures { result ≡ is_wanted x top self.now store }
    {
        self.stores(x).contains(&store) || self.is_prepared_with(x, top, store)
    }

    /// The prepared actions, in increasing order.
    pub fn actions(&self) -> Result<Uids, AllocError>
        ensures { IfOk result (λ actions. actions ≡ map (λ (p : Uid × List ObjectState). p.0) self.now.pend) }
    {
        let mut actions = Uids::new(self.alloc);
        for (action, _) in self.pend.iter() {
            actions.push(*action)?;
        }
        Ok(actions)
    }

    /// The actions of the set that are prepared, but for this one. It walks the set.
    pub fn prepared_among(&self, set: &BTreeSet<Uid>, but: Uid) -> Result<Uids, AllocError>
        ensures { IfOk result (λ actions. actions ≡ filter (λ act. not (uid_eq act but) && is_on set.now.keys act) (map (λ (p : Uid × List ObjectState). p.0) self.now.pend)) }
    {
        let _by_action = self.pend.len();
        let mut actions = Uids::new(self.alloc);
        for act in set.iter() {
            if *act != but && self.is_prepared(*act) {
                actions.push(*act)?;
            }
        }
        Ok(actions)
    }

    /// The action is prepared with these states.
    pub fn prepare(&mut self, action: Uid, states: States) -> Result<(), AllocError>
        requires { AreOfEntries states }
        ensures { OnOk result (self.new ≡ pair_prepared action states self.old) }
    {
        put_prepared(
            self.alloc,
            &mut self.pend,
            &mut self.by_entry,
            action,
            states,
        )?;
        Ok(())
    }

    /// What the action has prepared is committed.
    pub fn commit(&mut self, action: Uid) -> Result<(), AllocError>
        ensures { OnOk result (self.new ≡ pair_committed action self.old) }
    {
        let Some(states) = take_prepared(&mut self.pend, &mut self.by_entry, action) else {
            return Ok(());
        };
        put_states(&mut self.held, states.into_vec())
    }

    /// What the action has prepared is dropped. It takes no memory.
    pub fn abort(&mut self, action: Uid)
        ensures { self.new ≡ pair_aborted action self.old }
    {
        take_prepared(&mut self.pend, &mut self.by_entry, action);
    }
}

// The object of an entry.
fn object_of(uid: Uid) -> u16
    requires { IsObject uid.num }
    ensures { result ≡ uid.num }
{
    uid.num as u16
}

// Whether there is a store that wasn't there.
fn adds_store(new: &[u8], old: &[u8]) -> bool
    ensures { result ≡ adds_store new.now old.now }
{
    new.iter().any(|store| !old.contains(store))
}

// The mode of the lock that an entry with these stores gives back.
fn mode_back(new: &[u8], old: &[u8]) -> Mode
    ensures { result ≡ mode_back new.now old.now }
{
    if adds_store(new, old) {
        Mode::Write
    } else {
        Mode::Exclude
    }
}

// Whether the state is of the object's entry, and has the store.
fn is_listed_at(state: &ObjectState, x: u16, store: u8) -> bool
    ensures { result ≡ (uid_eq state.now.uid (entry x) && is_listed store (state_entry state.now).stores) }
{
    state.uid == entry_uid(x) && stores_of(state).contains(&store)
}

// Whether one of these states is such.
fn is_listed_in(states: &[ObjectState], x: u16, store: u8) -> bool
    ensures { result ≡ lists_store x store states.now }
{
    states.iter().any(|state| is_listed_at(state, x, store))
}

// Puts states in the places of the committed ones.
fn put_states(
    held: &mut BTreeMap<Uid, ObjectState>,
    states: Vec<ObjectState>,
) -> Result<(), AllocError>
    requires held { AllByRecursion (λ (e : Uid × ObjectState). IsEntryState e.0 e.1) held.old.entries }
    requires states { AllByRecursion (λ s. IsEntryState s.uid s) states.items }
    ensures moved { OnOk result (held.new.entries ≡ moved states.items held.old.entries) }
    ensures held { AllByRecursion (λ (e : Uid × ObjectState). IsEntryState e.0 e.1) held.new.entries }
{
    for state in states {
        held.insert(state.uid, state)?;
    }
    Ok(())
}
