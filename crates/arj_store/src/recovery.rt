// What a recovery reads and removes, and what it finds.
ghost use Rattle.std.specs.Prelude.{◌≡◌, ◌⊎◌, ◌↔◌, true, false, map, None, Some, Contains, IsSome, IfSome, MatchOption, IfOk, OnOk};
ghost use Rattle.std.specs.List.{AllByRecursion};
ghost use Rattle.std.specs.Option.{option_to_list};
ghost use Rattle.arj_base.specs.declared.uid.Uid.{Uid};
ghost use Rattle.arj_disk.specs.Counted.{counts};
ghost use Rattle.arj_disk.specs.Disk.{Lists, Removes, CountsCall};
ghost use Rattle.arj_disk.specs.Says.{OnlyOfRole};
ghost use Rattle.arj_store.specs.Formed.{FormedFor};
ghost use Rattle.arj_disk.specs.declared.slot.Role.{Role};
ghost use Rattle.arj_disk.specs.declared.slot.Slot.{Slot};
ghost use Rattle.arj_store.specs.Recovery.{ReadsAction, ReadsSlot, ReadsActions, SortsShadow, SortsSlot, SortsShadows, DropsShadow, DropsShadows, ListsHeld, HasEntry, IsStateAt, HasRead, entry_at, entries_in, newest, ListsPrepared};
ghost use Rattle.arj_store.specs.OfFiles.{SamePair, Finds, FindsPair};
ghost use Rattle.arj_store.specs.Shadow.{has_shadow, is_in, PendingKeeps};
ghost use Rattle.arj_store.specs.Table.{at};

use crate::memory::{Holding, Pending};
use crate::packed::{objects_in, read_state};
use crate::prepare::Place;
use crate::table::Table;
use crate::{Found, Pends, StoreFault};
use arj_base::{ObjectState, States, Uid, Uids};
use arj_disk::{Disk, Role, Slot, role_of_uid};
use std::alloc::{AllocError, Global};

/// What a disk with these names has prepared. Shadows of the role that no prepared action names are removed.
pub fn recover_pending<D: Disk>(
    alloc: Global,
    disk: &mut D,
    role: Role,
    names: &[Slot],
) -> Result<Pending, StoreFault>
    requires formed { FormedFor (D.file disk.old) role }
    requires lists { Lists (D.file disk.old) names.now }
    ensures keeps { IfOk result (λ pending. PendingKeeps role pending (D.file disk.new)) }
    ensures pair { SamePair role (D.file disk.old) (D.file disk.new) }
    ensures formed { FormedFor (D.file disk.new) role }
    ensures others { OnlyOfRole role (D.file disk.old) (D.file disk.new) }
    ensures counts { CountsCall (counts D.Disk disk.old) (counts D.Disk disk.new) result StoreFault.Stopped }
{
    let mut pending = read_actions(alloc, disk, role, names)?;
    sort_shadows(disk, role, names, &mut pending.holdings)?;
    Ok(pending)
}

/// Reads the file of each prepared action of the role, in the order of the names. No shadow counts as there.
pub fn read_actions<D: Disk>(
    alloc: Global,
    disk: &mut D,
    role: Role,
    names: &[Slot],
) -> Result<Pending, StoreFault>
    requires { FormedFor (D.file disk.old) role }
    ensures read { IfOk result (λ pending. ReadsActions names.now role (D.file disk.old) (at pending.actions) (at pending.holdings)) }
    ensures files { D.file disk.new ≡ D.file disk.old }
    ensures counts { CountsCall (counts D.Disk disk.old) (counts D.Disk disk.new) result StoreFault.Stopped }
{
    let mut pending = Pending::new(alloc);
    for slot in names {
        read_slot(alloc, disk, role, *slot, &mut pending)?;
    }
    Ok(pending)
}

// Reads the file of this name, if it is a prepared action's.
fn read_slot<D: Disk>(
    alloc: Global,
    disk: &mut D,
    role: Role,
    slot: Slot,
    pending: &mut Pending,
) -> Result<(), StoreFault>
    requires { FormedFor (D.file disk.old) role }
    ensures ok { OnOk result (ReadsSlot role (D.file disk.old) slot (at pending.old.actions) (at pending.old.holdings) (at pending.new.actions) (at pending.new.holdings)) }
    ensures files { D.file disk.new ≡ D.file disk.old }
    ensures counts { CountsCall (counts D.Disk disk.old) (counts D.Disk disk.new) result StoreFault.Stopped }
{
    match slot {
        Slot::Prepared(of, act) if of == role => read_action(alloc, disk, role, act, pending),
        _ => Ok(()),
    }
}

// Reads the file of one action.
fn read_action<D: Disk>(
    alloc: Global,
    disk: &mut D,
    role: Role,
    act: Uid,
    pending: &mut Pending,
) -> Result<(), StoreFault>
    requires { FormedFor (D.file disk.old) role }
    ensures ok { OnOk result (ReadsAction role (D.file disk.old) act (at pending.old.actions) (at pending.old.holdings) (at pending.new.actions) (at pending.new.holdings)) }
    ensures files { D.file disk.new ≡ D.file disk.old }
    ensures counts { CountsCall (counts D.Disk disk.old) (counts D.Disk disk.new) result StoreFault.Stopped }
{
    let Some(bytes) = disk.read(alloc, Slot::Prepared(role, act))? else {
        return Ok(());
    };
    let objects = objects_in(alloc, bytes.as_slice())?;
    pending.add(act, false, objects)?;
    Ok(())
}

/// Keeps each shadow of the role that a prepared action names, and removes each other.
pub fn sort_shadows<D: Disk>(
    disk: &mut D,
    role: Role,
    names: &[Slot],
    holdings: &mut Table<Holding>,
) -> Result<(), StoreFault>
    requires there { (q : Slot) → Contains names.now q → IsSome (D.file disk.old q) }
    requires none { (u : Uid) → has_shadow (at holdings.old u) ≡ false }
    ensures ok { OnOk result (SortsShadows names.now role (D.file disk.old) (at holdings.old) (D.file disk.new) (at holdings.new)) }
    ensures files { DropsShadows role (at holdings.old) (D.file disk.old) (D.file disk.new) }
    ensures counts { CountsCall (counts D.Disk disk.old) (counts D.Disk disk.new) result StoreFault.Stopped }
{
    for slot in names {
        sort_slot(disk, role, *slot, holdings)?;
    }
    Ok(())
}

// Keeps or removes the file of this name, if it is a shadow of the role.
fn sort_slot<D: Disk>(
    disk: &mut D,
    role: Role,
    slot: Slot,
    holdings: &mut Table<Holding>,
) -> Result<(), StoreFault>
    ensures ok { OnOk result (SortsSlot role slot (D.file disk.old) (at holdings.old) (D.file disk.new) (at holdings.new)) }
    ensures files { DropsShadow role (at holdings.old) (D.file disk.old) (D.file disk.new) }
    ensures counts { CountsCall (counts D.Disk disk.old) (counts D.Disk disk.new) result StoreFault.Stopped }
{
    match slot {
        Slot::Shadow(uid) if role_of_uid(uid) == role => sort_shadow(disk, uid, holdings),
        _ => Ok(()),
    }
}

// Keeps or removes one shadow.
fn sort_shadow<D: Disk>(
    disk: &mut D,
    uid: Uid,
    holdings: &mut Table<Holding>,
) -> Result<(), StoreFault>
    ensures ok { OnOk result (SortsShadow uid (D.file disk.old) (at holdings.old) (D.file disk.new) (at holdings.new)) }
    ensures files { (D.file disk.new ≡ D.file disk.old) ⊎ ((at holdings.old uid ≡ None) × Removes (D.file disk.old) (D.file disk.new) (Slot.Shadow uid)) }
    ensures counts { CountsCall (counts D.Disk disk.old) (counts D.Disk disk.new) result StoreFault.Stopped }
{
    match holdings.take(uid) {
        Some(holding) => {
            let act = holding.act;
            holdings.set(uid, Holding { act, shadow: true })?;
        }
        None => disk.remove(Slot::Shadow(uid))?,
    }
    Ok(())
}

/// What the recovery tells: for the object store nothing.
pub fn find<D: Disk>(
    alloc: Global,
    disk: &mut D,
    role: Role,
    names: &[Slot],
    pending: &Pending,
) -> Result<Found, StoreFault>
    requires formed { FormedFor (D.file disk.old) role }
    requires keeps { PendingKeeps role pending.now (D.file disk.old) }
    requires lists { ListsHeld role (D.file disk.old) names.now }
    ensures found { IfOk result (Finds role (D.file disk.old)) }
    ensures files { D.file disk.new ≡ D.file disk.old }
    ensures counts { CountsCall (counts D.Disk disk.old) (counts D.Disk disk.new) result StoreFault.Stopped }
{
    match role {
        Role::Store => Ok(Found::new(alloc)),
        Role::Names => find_entries(alloc, disk, names, pending),
    }
}

// Reads each shadow that is left, then each committed entry, and tells what is committed and what is prepared.
fn find_entries<D: Disk>(
    alloc: Global,
    disk: &mut D,
    names: &[Slot],
    pending: &Pending,
) -> Result<Found, StoreFault>
    requires formed { FormedFor (D.file disk.old) Role.Names }
    requires keeps { PendingKeeps Role.Names pending.now (D.file disk.old) }
    requires lists { ListsHeld Role.Names (D.file disk.old) names.now }
    ensures found { IfOk result (FindsPair Role.Names (D.file disk.old)) }
    ensures files { D.file disk.new ≡ D.file disk.old }
    ensures counts { CountsCall (counts D.Disk disk.old) (counts D.Disk disk.new) result StoreFault.Stopped }
{
    let left = shadows_left(alloc, &pending.holdings)?;
    let shadows = read_each(alloc, disk, Place::Shadow, left.as_slice())?;
    let entries = entries_of(alloc, names)?;
    let committed = read_each(alloc, disk, Place::Committed, entries.as_slice())?;
    let prepared = prepared_states(alloc, &pending.actions, &shadows, &committed)?;
    let committed = committed.into_values(alloc)?;
    Ok(Found {
        committed,
        prepared,
    })
}

// The entries whose shadows are there, in increasing order.
fn shadows_left(alloc: Global, holdings: &Table<Holding>) -> Result<Uids, AllocError>
    ensures { IfOk result (λ left. (u : Uid) → is_in left u ≡ has_shadow (at holdings.now u)) }
{
    let mut left = Uids::new(alloc);
    let held = holdings.uids(alloc)?;
    for uid in held.as_slice() {
        if is_left(holdings, *uid) {
            left.push(*uid)?;
        }
    }
    Ok(left)
}

// Whether the entry's shadow is there.
fn is_left(holdings: &Table<Holding>, uid: Uid) -> bool
    ensures { result ≡ has_shadow (at holdings.now uid) }
{
    match holdings.get(uid) {
        Some(holding) => holding.shadow,
        None => false,
    }
}

// The entries that are committed, in the order of the names.
fn entries_of(alloc: Global, names: &[Slot]) -> Result<Uids, AllocError>
    ensures { IfOk result (λ entries. entries ≡ entries_in names.now) }
{
    let mut entries = Uids::new(alloc);
    for slot in names {
        if let Some(uid) = entry_of(*slot) {
            entries.push(uid)?;
        }
    }
    Ok(entries)
}

// The entry whose committed file this is.
fn entry_of(slot: Slot) -> Option<Uid>
    ensures { option_to_list result ≡ entry_at slot }
{
    match slot {
        Slot::Committed(uid) if role_of_uid(uid) == Role::Names => Some(uid),
        _ => None,
    }
}

// Reads the file of this kind of each entry.
fn read_each<D: Disk>(
    alloc: Global,
    disk: &mut D,
    place: Place,
    entries: &[Uid],
) -> Result<Table<ObjectState>, StoreFault>
    requires formed { FormedFor (D.file disk.old) Role.Names }
    requires there { (u : Uid) → (is_in entries.now u ≡ true) ↔ HasEntry place (D.file disk.old) u }
    ensures read { IfOk result (λ states. HasRead place (D.file disk.old) (at states)) }
    ensures files { D.file disk.new ≡ D.file disk.old }
    ensures counts { CountsCall (counts D.Disk disk.old) (counts D.Disk disk.new) result StoreFault.Stopped }
{
    let mut states = Table::new(alloc);
    for uid in entries {
        let state = read_entry(alloc, disk, place, *uid)?;
        states.set(*uid, state)?;
    }
    Ok(states)
}

// Reads a file that is there.
fn read_entry<D: Disk>(
    alloc: Global,
    disk: &mut D,
    place: Place,
    uid: Uid,
) -> Result<ObjectState, StoreFault>
    requires formed { FormedFor (D.file disk.old) Role.Names }
    requires there { HasEntry place (D.file disk.old) uid }
    ensures state { IfOk result (IsStateAt place (D.file disk.old) uid) }
    ensures files { D.file disk.new ≡ D.file disk.old }
    ensures counts { CountsCall (counts D.Disk disk.old) (counts D.Disk disk.new) result StoreFault.Stopped }
{
    match read_state(alloc, disk, place, uid)? {
        Some(state) => Ok(state),
        None => unreachable!(),
    }
}

// The prepared actions with their new states, by Uid.
fn prepared_states(
    alloc: Global,
    actions: &Table<Uids>,
    shadows: &Table<ObjectState>,
    committed: &Table<ObjectState>,
) -> Result<Pends, AllocError>
    requires { (a : Uid) → IfSome (at actions.now a) (AllByRecursion (λ u. IsSome (newest (at shadows.now) (at committed.now) u))) }
    ensures { IfOk result (ListsPrepared (at actions.now) (newest (at shadows.now) (at committed.now))) }
{
    let mut prepared = Pends::new(alloc);
    let acts = actions.uids(alloc)?;
    for act in acts.as_slice() {
        let Some(objects) = actions.get(*act) else {
            unreachable!();
        };
        let states = new_states(alloc, objects.as_slice(), shadows, committed)?;
        prepared.push((*act, states))?;
    }
    Ok(prepared)
}

// The new states of objects, in their order.
fn new_states(
    alloc: Global,
    objects: &[Uid],
    shadows: &Table<ObjectState>,
    committed: &Table<ObjectState>,
) -> Result<States, AllocError>
    requires { AllByRecursion (λ u. IsSome (newest (at shadows.now) (at committed.now) u)) objects.now }
    ensures { IfOk result (λ states. map (newest (at shadows.now) (at committed.now)) objects.now ≡ map Some states) }
{
    let mut states = States::new(alloc);
    for uid in objects {
        let state = new_state(shadows, committed, *uid)?;
        states.push(state)?;
    }
    Ok(states)
}

// A copy of the new state of an object: the shadow where there is one, else the committed state.
fn new_state(
    shadows: &Table<ObjectState>,
    committed: &Table<ObjectState>,
    uid: Uid,
) -> Result<ObjectState, AllocError>
    requires { IsSome (newest (at shadows.now) (at committed.now) uid) }
    ensures { IfOk result (λ state. newest (at shadows.now) (at committed.now) uid ≡ Some state) }
{
    match shadows.get(uid) {
        Some(state) => copied(state),
        None => match committed.get(uid) {
            Some(state) => copied(state),
            None => unreachable!(),
        },
    }
}

// A copy of a state.
fn copied(state: &ObjectState) -> Result<ObjectState, AllocError>
    ensures { IfOk result (λ copied. copied ≡ state.now) }
{
    let payload = state.payload.copy()?;
    Ok(ObjectState {
        uid: state.uid,
        class: state.class,
        version: state.version,
        writer: state.writer,
        payload,
        format: state.format,
    })
}
