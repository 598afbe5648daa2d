// The preparing of new states.
ghost use Rattle.std.specs.Prelude.{◌≡◌, ◌≢◌, ◌⊎◌, ◌≤◌, true, false, None, Some, length, map, option_map, IfOk, OnOk, OnErr, IfSome, MatchOption, ◌↔◌};
ghost use Rattle.std.specs.List.{AllByRecursion, IsDistinct};
ghost use Rattle.arj_base.specs.State.{state_bytes, StateInForm};
ghost use Rattle.arj_base.specs.Uid.{uid_eq};
ghost use Rattle.arj_disk.specs.Counted.{counts};
ghost use Rattle.arj_disk.specs.Disk.{CountsCall, PutsOrNot};
ghost use Rattle.arj_disk.specs.Formed.{IsStateOf};
ghost use Rattle.arj_store.specs.Formed.{FormedFor};
ghost use Rattle.arj_disk.specs.Says.{role_of};
ghost use Rattle.arj_store.specs.OfFiles.{Refuses, IsRefused, IsClear};
ghost use Rattle.arj_store.specs.Pair.{uid_of, IsNoOlder};
ghost use Rattle.arj_store.specs.Shadow.{PendingKeeps, PutsFirst, PutsStates, HasStates, PutsAll, IsBelow, HeldRefuses, slot_at};
ghost use Rattle.arj_store.specs.Table.{at};
ghost use Rattle.arj_disk.specs.declared.slot.Slot.{Slot};
ghost use Rattle.arj_base.specs.declared.limits.TheConstants.{MOST_BYTES};
ghost use Rattle.arj_disk.specs.declared.limits.TheConstants.{MOST_PREPARED};

use crate::memory::Pending;
use crate::packed::{prepared_file, read_state};
use crate::{Prep, StoreFault};
use arj_base::{ObjectState, Uid, Uids, pack};
use arj_disk::{Disk, Role, Slot, put};
use std::alloc::{AllocError, Global};

/// The kinds of files that have one state.
#[derive(Clone, Copy)]
pub enum Place {
    Committed,
    Shadow,
}

impl Place {
    /// The name of the object's file of this kind.
    pub fn slot(self, uid: Uid) -> Slot
        ensures { result ≡ slot_at self uid }
    {
        match self {
            Place::Committed => Slot::Committed(uid),
            Place::Shadow => Slot::Shadow(uid),
        }
    }
}

/// The refusal of the first state, in their order, that has one.
pub fn refusal<D: Disk>(
    alloc: Global,
    disk: &mut D,
    role: Role,
    pending: &Pending,
    act: Uid,
    states: &[ObjectState],
) -> Result<Option<Prep>, StoreFault>
    requires formed { FormedFor (D.file disk.old) role }
    requires keeps { PendingKeeps role pending.now (D.file disk.old) }
    requires own { AllByRecursion (λ s. role_of s.uid ≡ role) states.now }
    requires sizes { AllByRecursion (λ s. length (state_bytes s) ≤ MOST_BYTES) states.now }
    ensures answer { IfOk result (λ refusal. MatchOption refusal (AllByRecursion (IsClear (D.file disk.old) role act) states.now) (IsRefused (D.file disk.old) role act states.now)) }
    ensures files { D.file disk.new ≡ D.file disk.old }
    ensures counts { CountsCall (counts D.Disk disk.old) (counts D.Disk disk.new) result StoreFault.Stopped }
{
    for state in states {
        let refusal = refusal_of(alloc, disk, role, pending, act, state)?;
        if refusal.is_some() {
            return Ok(refusal);
        }
    }
    Ok(None)
}

// The refusal of one state.
fn refusal_of<D: Disk>(
    alloc: Global,
    disk: &mut D,
    role: Role,
    pending: &Pending,
    act: Uid,
    state: &ObjectState,
) -> Result<Option<Prep>, StoreFault>
    requires formed { FormedFor (D.file disk.old) role }
    requires keeps { PendingKeeps role pending.now (D.file disk.old) }
    requires own { role_of state.now.uid ≡ role }
    requires size { length (state_bytes state.now) ≤ MOST_BYTES }
    ensures answer { IfOk result (λ refusal. MatchOption refusal (IsClear (D.file disk.old) role act state.now) (Refuses (D.file disk.old) role act state.now)) }
    ensures files { D.file disk.new ≡ D.file disk.old }
    ensures counts { CountsCall (counts D.Disk disk.old) (counts D.Disk disk.new) result StoreFault.Stopped }
{
    let Some(held) = read_state(alloc, disk, Place::Committed, state.uid)? else {
        return Ok(in_doubt(pending, state.uid));
    };
    match refused_by(alloc, act, state, &held)? {
        Some(refusal) => Ok(Some(refusal)),
        None => Ok(in_doubt(pending, state.uid)),
    }
}

// The refusal of an object that another action has prepared.
fn in_doubt(pending: &Pending, uid: Uid) -> Option<Prep>
    ensures { result ≡ option_map (λ h. Prep.InDoubt uid h.act) (at pending.now.holdings uid) }
{
    match pending.holdings.get(uid) {
        Some(holding) => Some(Prep::InDoubt {
            uid,
            holder: holding.act,
        }),
        None => None,
    }
}

/// The refusal of a state by the committed one of its object; none where it may follow that.
pub fn refused_by(
    alloc: Global,
    act: Uid,
    state: &ObjectState,
    held: &ObjectState,
) -> Result<Option<Prep>, AllocError>
    requires size { length (state_bytes state.now) ≤ MOST_BYTES }
    requires held { StateInForm held.now }
    ensures { IfOk result (HeldRefuses act state.now held.now) }
{
    let uid = state.uid;
    if held.writer == act {
        return Ok(Some(Prep::Already { uid, act }));
    }
    if is_below(alloc, state, held)? {
        return Ok(Some(Prep::Old {
            uid,
            held: held.version,
        }));
    }
    Ok(None)
}

// Whether a state has a lower version than the one that is there, or the same and other bytes.
fn is_below(alloc: Global, state: &ObjectState, held: &ObjectState) -> Result<bool, AllocError>
    requires size { length (state_bytes state.now) ≤ MOST_BYTES }
    requires held { StateInForm held.now }
    ensures below { IfOk result (λ below. below ≡ true → IsBelow state.now held.now) }
    ensures other { IfOk result (λ below. below ≡ false → IsNoOlder state.now held.now) }
{
    if state.version != held.version {
        return Ok(state.version < held.version);
    }
    let sent = pack(alloc, state)?;
    let there = pack(alloc, held)?;
    Ok(sent.as_slice() != there.as_slice())
}

/// Puts the shadows of the states, in their order, and then the file of the action.
pub fn put_prepared<D: Disk>(
    alloc: Global,
    disk: &mut D,
    role: Role,
    act: Uid,
    states: &[ObjectState],
    objects: &[Uid],
) -> Result<(), StoreFault>
    requires objects { objects.now ≡ map uid_of states.now }
    requires count { length objects.now ≤ MOST_PREPARED }
    requires distinct { IsDistinct uid_eq (map uid_of states.now) }
    requires sizes { AllByRecursion (λ s. length (state_bytes s) ≤ MOST_BYTES) states.now }
    ensures ok { OnOk result (PutsAll role act states.now (D.file disk.old) (D.file disk.new)) }
    ensures files { PutsStates Place.Shadow (map uid_of states.now) (D.file disk.old) (D.file disk.new) ⊎ PutsAll role act states.now (D.file disk.old) (D.file disk.new) }
    ensures counts { CountsCall (counts D.Disk disk.old) (counts D.Disk disk.new) result StoreFault.Stopped }
{
    let file = prepared_file(alloc, act, objects)?;
    put_states(alloc, disk, Place::Shadow, states)?;
    put(disk, Slot::Prepared(role, act), file.as_slice())?;
    Ok(())
}

/// Puts the file of each state, in their order.
pub fn put_states<D: Disk>(
    alloc: Global,
    disk: &mut D,
    place: Place,
    states: &[ObjectState],
) -> Result<(), StoreFault>
    requires distinct { IsDistinct uid_eq (map uid_of states.now) }
    requires sizes { AllByRecursion (λ s. length (state_bytes s) ≤ MOST_BYTES) states.now }
    ensures ok { OnOk result (HasStates place states.now (D.file disk.new)) }
    ensures files { PutsStates place (map uid_of states.now) (D.file disk.old) (D.file disk.new) }
    ensures fault { OnErr result (PutsFirst place states.now (D.file disk.old) (D.file disk.new)) }
    ensures counts { CountsCall (counts D.Disk disk.old) (counts D.Disk disk.new) result StoreFault.Stopped }
{
    for state in states {
        put_state(alloc, disk, place.slot(state.uid), state)?;
    }
    Ok(())
}

// Puts the file of one state.
fn put_state<D: Disk>(
    alloc: Global,
    disk: &mut D,
    slot: Slot,
    state: &ObjectState,
) -> Result<(), StoreFault>
    requires slot { slot ≢ Slot.Tmp }
    requires size { length (state_bytes state.now) ≤ MOST_BYTES }
    ensures ok { OnOk result (D.file disk.new slot ≡ Some (state_bytes state.now)) }
    ensures files { PutsOrNot (D.file disk.old) (D.file disk.new) slot (state_bytes state.now) }
    ensures form { D.file disk.new slot ≡ D.file disk.old slot ⊎ IfSome (D.file disk.new slot) (IsStateOf state.now.uid) }
    ensures counts { CountsCall (counts D.Disk disk.old) (counts D.Disk disk.new) result StoreFault.Stopped }
{
    let bytes = pack(alloc, state)?;
    put(disk, slot, bytes.as_slice())?;
    Ok(())
}

/// The objects of states, in their order.
pub fn objects_of_states(alloc: Global, states: &[ObjectState]) -> Result<Uids, AllocError>
    ensures { IfOk result (λ objects. objects ≡ map uid_of states.now) }
{
    let mut objects = Uids::new(alloc);
    for state in states {
        objects.push(state.uid)?;
    }
    Ok(objects)
}
