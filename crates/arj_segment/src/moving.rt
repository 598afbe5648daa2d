// What changes the Pending files of a role: a prepare, and the two ends of an action. A merge stands elsewhere.
ghost use Rattle.std.specs.Prelude.{◌≡◌, ◌⊎◌, ◌↔◌, ◌≤◌, true, None, Some, [], IsSome, IfOk, MatchBool, OnOk, OnErr, IsErrOf, length, map, Contains};
ghost use Rattle.std.specs.List.{AllByRecursion};
ghost use Rattle.arj_base.specs.State.{state_bytes};
ghost use Rattle.arj_base.specs.declared.limits.TheConstants.{MOST_BYTES};
ghost use Rattle.arj_base.specs.declared.uid.Uid.{Uid};
ghost use Rattle.arj_disk.specs.Counted.{counts};
ghost use Rattle.arj_disk.specs.Disk.{CountsCall};
ghost use Rattle.arj_disk.specs.Formed.{AtMost};
ghost use Rattle.arj_disk.specs.Says.{slot_role, OnlyOfRole};
ghost use Rattle.arj_disk.specs.declared.limits.TheConstants.{MOST_KNOWN, MOST_PREPARED};
ghost use Rattle.arj_disk.specs.declared.slot.Slot.{Slot};
ghost use Rattle.arj_store.specs.Pair.{AreClear, AreDistinct, Adds, Drops, HasFirst, HasOnly, InDoubt, IsKnown, Moves, SamePair, uid_of};
ghost use Rattle.arj_store.specs.Table.{at};
ghost use Rattle.arj_segment.specs.Formed.{IsFormed};
ghost use Rattle.arj_segment.specs.Kept.{Keeps};
ghost use Rattle.arj_segment.specs.Says.{pair_of, pend};
ghost use Rattle.arj_segment.specs.Tables.{IsBare};

use crate::kept::{Kept, set_each, take_each};
use crate::numbering::next_number;
use arj_base::{Numbers, ObjectState, Uid, Uids};
use arj_disk::{Disk, Role, Slot, put};
use arj_segment_file::file_of;
use arj_store::{StoreFault, objects_of_states};
use std::alloc::Global;

/// Puts the first states of a role, if there are any, as segment 1.
pub fn put_first<D: Disk>(
    alloc: Global,
    disk: &mut D,
    role: Role,
    states: &[ObjectState],
    kept: &mut Kept,
) -> Result<(), StoreFault>
    requires empty { (q : Slot) → slot_role q ≡ Some role → D.file disk.old q ≡ None }
    requires states { AreDistinct role states.now }
    requires count { length states.now ≤ MOST_KNOWN }
    requires sizes { AllByRecursion (λ s. length (state_bytes s) ≤ MOST_BYTES) states.now }
    requires keeps { Keeps role kept.old (D.file disk.old) }
    requires numbers { kept.old.numbers ≡ [] }
    ensures keeps { OnOk result (Keeps role kept.new (D.file disk.new)) }
    ensures pair { OnOk result (HasOnly (pair_of (D.file disk.new) role) states.now) }
    ensures fault { OnErr result (HasFirst (pair_of (D.file disk.new) role) states.now) }
    ensures formed { IsFormed (D.file disk.new) role }
    ensures others { OnlyOfRole role (D.file disk.old) (D.file disk.new) }
    ensures counts { CountsCall (counts D.Disk disk.old) (counts D.Disk disk.new) result StoreFault.Stopped }
{
    if states.is_empty() {
        return Ok(());
    }
    let file = file_of(alloc, states)?;
    let objects = objects_of_states(alloc, states)?;
    put(disk, Slot::Segment(role, 1), file.as_slice())?;
    set_each(&mut kept.places, objects.as_slice(), 1)?;
    kept.numbers.push(1)?;
    Ok(())
}

/// Puts the Pending file of an action that has none.
pub fn put_pending<D: Disk>(
    alloc: Global,
    disk: &mut D,
    role: Role,
    act: Uid,
    states: &[ObjectState],
    kept: &mut Kept,
) -> Result<(), StoreFault>
    requires formed { IsFormed (D.file disk.old) role }
    requires keeps { Keeps role kept.old (D.file disk.old) }
    requires first { pend (D.file disk.old) role act ≡ None }
    requires free { AllByRecursion (λ s. InDoubt (pair_of (D.file disk.old) role) s.uid → ⊥) states.now }
    requires states { AreDistinct role states.now }
    requires count { length states.now ≤ MOST_PREPARED }
    requires sizes { AllByRecursion (λ s. length (state_bytes s) ≤ MOST_BYTES) states.now }
    requires few { AtMost MOST_KNOWN (λ u. IsKnown (pair_of (D.file disk.old) role) u ⊎ Contains (map uid_of states.now) u) }
    ensures added { OnOk result (Adds (pair_of (D.file disk.old) role) (pair_of (D.file disk.new) role) act states.now) }
    ensures fault { OnErr result (SamePair (pair_of (D.file disk.old) role) (pair_of (D.file disk.new) role) ⊎ Adds (pair_of (D.file disk.old) role) (pair_of (D.file disk.new) role) act states.now) }
    ensures keeps { OnOk result (Keeps role kept.new (D.file disk.new)) }
    ensures formed { IsFormed (D.file disk.new) role }
    ensures others { OnlyOfRole role (D.file disk.old) (D.file disk.new) }
    ensures counts { CountsCall (counts D.Disk disk.old) (counts D.Disk disk.new) result StoreFault.Stopped }
{
    let file = file_of(alloc, states)?;
    let objects = objects_of_states(alloc, states)?;
    put(disk, Slot::Pending(role, act), file.as_slice())?;
    kept.add(act, objects)?;
    Ok(())
}

// Whether what is committed of these objects leaves a role that has no segments without any state.
fn is_bare(objects: &Uids, numbers: &Numbers) -> bool
    ensures { MatchBool result (IsBare objects.now numbers.now) (IsBare objects.now numbers.now → ⊥) }
{
    objects.as_slice().is_empty() && numbers.as_slice().is_empty()
}

/// Gives the Pending file of an action the next number as a segment; true where there is that file. Where it has no state, and no
/// segment is there, the file is removed: the first segment of a role has a state.
pub fn commit_file<D: Disk>(
    disk: &mut D,
    role: Role,
    act: Uid,
    kept: &mut Kept,
) -> Result<bool, StoreFault>
    requires formed { IsFormed (D.file disk.old) role }
    requires keeps { Keeps role kept.old (D.file disk.old) }
    ensures answer { IfOk result (λ was. (was ≡ true) ↔ IsSome (pend (D.file disk.old) role act)) }
    ensures moved { OnOk result (Moves (pair_of (D.file disk.old) role) (pair_of (D.file disk.new) role) act) }
    ensures fault { OnErr result (SamePair (pair_of (D.file disk.old) role) (pair_of (D.file disk.new) role) ⊎ Moves (pair_of (D.file disk.old) role) (pair_of (D.file disk.new) role) act) }
    ensures keeps { OnOk result (Keeps role kept.new (D.file disk.new)) }
    ensures formed { IsFormed (D.file disk.new) role }
    ensures others { OnlyOfRole role (D.file disk.old) (D.file disk.new) }
    ensures counts { CountsCall (counts D.Disk disk.old) (counts D.Disk disk.new) result StoreFault.Stopped }
{
    let Some(objects) = kept.actions.take(act) else {
        return Ok(false);
    };
    if is_bare(&objects, &kept.numbers) {
        disk.remove(Slot::Pending(role, act))?;
        return Ok(true);
    }
    let number = next_number(kept.numbers.as_slice())?;
    disk.rename(Slot::Pending(role, act), Slot::Segment(role, number))?;
    take_each(&mut kept.holdings, objects.as_slice());
    set_each(&mut kept.places, objects.as_slice(), number)?;
    kept.numbers.push(number)?;
    Ok(true)
}

/// Removes the Pending file of an action; true where there is that file.
pub fn abort_file<D: Disk>(
    disk: &mut D,
    role: Role,
    act: Uid,
    kept: &mut Kept,
) -> Result<bool, StoreFault>
    requires formed { IsFormed (D.file disk.old) role }
    requires keeps { Keeps role kept.old (D.file disk.old) }
    ensures answer { IfOk result (λ was. (was ≡ true) ↔ IsSome (pend (D.file disk.old) role act)) }
    ensures dropped { OnOk result (Drops (pair_of (D.file disk.old) role) (pair_of (D.file disk.new) role) act) }
    ensures fault { OnErr result (SamePair (pair_of (D.file disk.old) role) (pair_of (D.file disk.new) role) ⊎ Drops (pair_of (D.file disk.old) role) (pair_of (D.file disk.new) role) act) }
    ensures memory { IsErrOf result StoreFault.Memory → ⊥ }
    ensures keeps { OnOk result (Keeps role kept.new (D.file disk.new)) }
    ensures formed { IsFormed (D.file disk.new) role }
    ensures others { OnlyOfRole role (D.file disk.old) (D.file disk.new) }
    ensures counts { CountsCall (counts D.Disk disk.old) (counts D.Disk disk.new) result StoreFault.Stopped }
{
    let Some(objects) = kept.actions.take(act) else {
        return Ok(false);
    };
    disk.remove(Slot::Pending(role, act))?;
    take_each(&mut kept.holdings, objects.as_slice());
    Ok(true)
}
