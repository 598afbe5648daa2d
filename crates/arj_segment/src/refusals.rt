// Reads of committed states, and why a prepare is refused.
ghost use Rattle.std.specs.Prelude.{◌≡◌, ◌≤◌, None, Some, length, IfOk, MatchOption, option_map};
ghost use Rattle.std.specs.List.{AllByRecursion};
ghost use Rattle.arj_base.specs.State.{state_bytes};
ghost use Rattle.arj_base.specs.declared.limits.TheConstants.{MOST_BYTES};
ghost use Rattle.arj_base.specs.declared.uid.Uid.{Uid};
ghost use Rattle.arj_disk.specs.Counted.{counts};
ghost use Rattle.arj_disk.specs.Disk.{CountsCall};
ghost use Rattle.arj_store.specs.Pair.{Packs, IsClear, Refuses, IsRefused};
ghost use Rattle.arj_store.specs.Table.{at};
ghost use Rattle.arj_segment.specs.Formed.{IsFormed};
ghost use Rattle.arj_segment.specs.Kept.{Keeps};
ghost use Rattle.arj_segment.specs.Says.{held, pair_of, place, segments};

use crate::kept::Kept;
use arj_base::{ObjectState, Uid};
use arj_disk::{Disk, Role, Slot};
use arj_segment_file::packed_in;
use arj_store::{Prep, StoreFault, Table, refused_by, state_in};
use std::alloc::Global;

/// The committed state of an object, from the segment that is kept as its place.
pub fn read_held<D: Disk>(
    alloc: Global,
    disk: &mut D,
    role: Role,
    places: &Table<u64>,
    uid: Uid,
) -> Result<Option<ObjectState>, StoreFault>
    requires { at places.now uid ≡ place (segments (D.file disk.old) role) uid }
    ensures state { IfOk result (Packs (held (D.file disk.old) role uid)) }
    ensures files { D.file disk.new ≡ D.file disk.old }
    ensures counts { CountsCall (counts D.Disk disk.old) (counts D.Disk disk.new) result StoreFault.Stopped }
{
    let Some(number) = places.get(uid) else {
        return Ok(None);
    };
    let Some(bytes) = disk.read(alloc, Slot::Segment(role, *number))? else {
        return Ok(None);
    };
    let Some(packed) = packed_in(bytes.as_slice(), uid) else {
        return Ok(None);
    };
    let state = state_in(alloc, packed)?;
    Ok(state)
}

/// The refusal of the first state, in their order, that has one.
pub fn refusal<D: Disk>(
    alloc: Global,
    disk: &mut D,
    role: Role,
    kept: &Kept,
    act: Uid,
    states: &[ObjectState],
) -> Result<Option<Prep>, StoreFault>
    requires formed { IsFormed (D.file disk.old) role }
    requires keeps { Keeps role kept.now (D.file disk.old) }
    requires sizes { AllByRecursion (λ s. length (state_bytes s) ≤ MOST_BYTES) states.now }
    ensures answer { IfOk result (λ refusal. MatchOption refusal (AllByRecursion (IsClear (pair_of (D.file disk.old) role) act) states.now) (IsRefused (pair_of (D.file disk.old) role) act states.now)) }
    ensures files { D.file disk.new ≡ D.file disk.old }
    ensures counts { CountsCall (counts D.Disk disk.old) (counts D.Disk disk.new) result StoreFault.Stopped }
{
    for state in states {
        let refusal = refusal_of(alloc, disk, role, kept, act, state)?;
        if refusal.is_some() {
            return Ok(refusal);
        }
    }
    Ok(None)
}

// The refusal of one state.
fn refusal_of<D: Disk>(
    alloc: Global,
    disk: &mut D,
    role: Role,
    kept: &Kept,
    act: Uid,
    state: &ObjectState,
) -> Result<Option<Prep>, StoreFault>
    requires formed { IsFormed (D.file disk.old) role }
    requires keeps { Keeps role kept.now (D.file disk.old) }
    requires size { length (state_bytes state.now) ≤ MOST_BYTES }
    ensures answer { IfOk result (λ refusal. MatchOption refusal (IsClear (pair_of (D.file disk.old) role) act state.now) (Refuses (pair_of (D.file disk.old) role) act state.now)) }
    ensures files { D.file disk.new ≡ D.file disk.old }
    ensures counts { CountsCall (counts D.Disk disk.old) (counts D.Disk disk.new) result StoreFault.Stopped }
{
    let Some(held) = read_held(alloc, disk, role, &kept.places, state.uid)? else {
        return Ok(in_doubt(&kept.holdings, state.uid));
    };
    match refused_by(alloc, act, state, &held)? {
        Some(refusal) => Ok(Some(refusal)),
        None => Ok(in_doubt(&kept.holdings, state.uid)),
    }
}

// The refusal of an object that an action has prepared.
fn in_doubt(holdings: &Table<Uid>, uid: Uid) -> Option<Prep>
    ensures { result ≡ option_map (λ holder. Prep.InDoubt uid holder) (at holdings.now uid) }
{
    match holdings.get(uid) {
        Some(holder) => Some(Prep::InDoubt {
            uid,
            holder: *holder,
        }),
        None => None,
    }
}
