// The numbers of segments, and the actions that have a Pending file, as the names of a disk tell them.
ghost use Rattle.std.specs.Prelude.{◌<◌, ◌≤◌, ℕ, Contains, IfOk, OnOk};
ghost use Rattle.std.specs.List.{AllByRecursion};
ghost use Rattle.std.specs.List.Sorted.{IsStrictlySortedBy};
ghost use Rattle.std.specs.Ordering.{nat_cmp};
ghost use Rattle.arj_base.specs.declared.uid.Uid.{Uid};
ghost use Rattle.arj_disk.specs.Slot.{slot_order, uid_order};
ghost use Rattle.arj_disk.specs.declared.slot.Slot.{Slot};
ghost use Rattle.arj_segment.specs.Says.{numbers as all_numbers};
ghost use Rattle.arj_segment.specs.Tables.{TakesName};
ghost use Rattle.arj_segment.specs.declared.limits.TheConstants.{MOST_NUMBER};

use crate::MOST_NUMBER;
use arj_base::{Numbers, Uid, Uids};
use arj_disk::{Role, Slot};
use std::alloc::{AllocError, Global};

/// The numbers of the segments of a role among sorted names, increasing.
pub fn numbers_in(alloc: Global, role: Role, names: &[Slot]) -> Result<Numbers, AllocError>
    requires { IsStrictlySortedBy slot_order names.now }
    ensures there { IfOk result (λ ks. (k : ℕ) → Contains names.now (Slot.Segment role k) → Contains ks k) }
    ensures only { IfOk result (AllByRecursion (λ k. Contains names.now (Slot.Segment role k))) }
    ensures below { IfOk result (AllByRecursion (λ k. k < all_numbers)) }
    ensures rises { IfOk result (IsStrictlySortedBy nat_cmp) }
{
    let mut numbers = Numbers::new(alloc);
    for slot in names {
        take_number(&mut numbers, role, *slot)?;
    }
    Ok(numbers)
}

// Takes the number of a segment of the role, if this is the name of one.
fn take_number(numbers: &mut Numbers, role: Role, slot: Slot) -> Result<(), AllocError>
    ensures taken { OnOk result (TakesName (Slot.Segment role) slot numbers.old numbers.new) }
    ensures below { OnOk result (AllByRecursion (λ k. k < all_numbers) numbers.old → AllByRecursion (λ k. k < all_numbers) numbers.new) }
{
    match slot {
        Slot::Segment(of, number) if of == role => numbers.push(number),
        _ => Ok(()),
    }
}

/// The actions of a role that have a Pending file among sorted names, increasing.
pub fn acts_in(alloc: Global, role: Role, names: &[Slot]) -> Result<Uids, AllocError>
    requires { IsStrictlySortedBy slot_order names.now }
    ensures there { IfOk result (λ acts. (a : Uid) → Contains names.now (Slot.Pending role a) → Contains acts a) }
    ensures rises { IfOk result (IsStrictlySortedBy uid_order) }
{
    let mut acts = Uids::new(alloc);
    for slot in names {
        take_act(&mut acts, role, *slot)?;
    }
    Ok(acts)
}

// Takes the action of a Pending file of the role, if this is the name of one.
fn take_act(acts: &mut Uids, role: Role, slot: Slot) -> Result<(), AllocError>
    ensures { OnOk result (TakesName (Slot.Pending role) slot acts.old acts.new) }
{
    match slot {
        Slot::Pending(of, act) if of == role => acts.push(act),
        _ => Ok(()),
    }
}

/// The number of the next segment. Behind the last number there is none, and so no memory for it.
pub fn next_number(numbers: &[u64]) -> Result<u64, AllocError>
    requires { IsStrictlySortedBy nat_cmp numbers.now }
    ensures above { IfOk result (λ k. AllByRecursion (λ j. j < k) numbers.now) }
    ensures below { IfOk result (λ k. k < all_numbers) }
    ensures low { IfOk result (λ k. k ≤ MOST_NUMBER) }
{
    let count = numbers.len();
    if count == 0 {
        return Ok(1);
    }
    let last = numbers[count - 1];
    if last >= MOST_NUMBER {
        return Err(AllocError);
    }
    Ok(last + 1)
}
