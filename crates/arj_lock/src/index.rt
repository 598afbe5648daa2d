// The index of a lock table: which locks are in which groups.
ghost use Rattle.std.specs.Prelude.{◌≡◌, ◌||◌, ◌&&◌, ℕ, Option, not, None, Some, OnOk};
ghost use Rattle.std.specs.List.{list_any};
ghost use Rattle.std.specs.Ordering.{is_eq, nat_cmp};
ghost use Rattle.arj_base.specs.Mode.{conflicting};
ghost use Rattle.arj_lock.specs.Groups.{has, is_after, same, start};
ghost use Rattle.arj_lock.specs.Index.{AreIndexed, IsFirst, IsIndex, Joins, Leaves, lock_at, put_lock, stands};
ghost use Rattle.arj_lock.specs.Locks.{shown};
ghost use Rattle.arj_lock.specs.declared.group.Group.{Group};
ghost use Rattle.arj_lock.specs.declared.group.Group.TheVariants as group;
ghost use Rattle.arj_lock.specs.declared.lock.Lock.{Lock};

use crate::group::{Group, Member};
use crate::lock::Lock;
use arj_base::{Mode, Uid, conflicts};
use std::alloc::AllocError;
use std::collections::{BTreeMap, BTreeSet};
use std::ops::Bound;

/// The members of all groups.
pub type Index = BTreeSet<Member>;

// Puts a lock in a group.
fn put(index: &mut Index, group: Group, grant: u64) -> Result<(), AllocError>
    ensures { OnOk result ((g : Group) (n : ℕ) → stands index.new g n ≡ (stands index.old g n || (is_eq (nat_cmp grant n) && same group g))) }
{
    index.insert(Member { group, grant })?;
    Ok(())
}

// Puts a lock in the group of those that conflict with a mode, if it does.
fn put_against(index: &mut Index, lock: &Lock, mode: Mode, grant: u64) -> Result<(), AllocError>
    ensures { OnOk result ((g : Group) (n : ℕ) → stands index.new g n ≡ (stands index.old g n || (is_eq (nat_cmp grant n) && (conflicting lock.now.mode mode && same (group.Against lock.now.object mode) g)))) }
{
    if !conflicts(lock.mode, mode) {
        return Ok(());
    }
    let object = lock.object;
    put(index, Group::Against { object, mode }, grant)
}

// Puts a lock in the group of each action of its path.
fn put_below(index: &mut Index, path: &[Uid], grant: u64) -> Result<(), AllocError>
    ensures { OnOk result ((g : Group) (n : ℕ) → stands index.new g n ≡ (stands index.old g n || (is_eq (nat_cmp grant n) && list_any (λ u. same (group.Below u) g) path.now))) }
{
    for action in path {
        put(index, Group::Below { action: *action }, grant)?;
    }
    Ok(())
}

// Puts a lock in all its groups.
fn join(index: &mut Index, lock: &Lock, grant: u64) -> Result<(), AllocError>
    ensures { OnOk result (Joins grant lock.now index.old index.new) }
{
    let object = lock.object;
    let holder = lock.path.last();
    put(index, Group::Own { object, holder }, grant)?;
    put(index, Group::Held { holder }, grant)?;
    put_against(index, lock, Mode::Read, grant)?;
    put_against(index, lock, Mode::Exclude, grant)?;
    put_against(index, lock, Mode::Write, grant)?;
    put_below(index, lock.path.as_slice(), grant)?;
    Ok(())
}

// Takes a lock out of a group.
fn take(index: &mut Index, group: Group, grant: u64)
    ensures { (g : Group) (n : ℕ) → stands index.new g n ≡ (stands index.old g n && not (is_eq (nat_cmp grant n) && same group g)) }
{
    index.remove(&Member { group, grant });
}

// Takes a lock out of the group of those that conflict with a mode, if it does.
fn take_against(index: &mut Index, lock: &Lock, mode: Mode, grant: u64)
    ensures { (g : Group) (n : ℕ) → stands index.new g n ≡ (stands index.old g n && not (is_eq (nat_cmp grant n) && (conflicting lock.now.mode mode && same (group.Against lock.now.object mode) g))) }
{
    if !conflicts(lock.mode, mode) {
        return;
    }
    let object = lock.object;
    take(index, Group::Against { object, mode }, grant);
}

// Takes a lock out of the group of each action of its path.
fn take_below(index: &mut Index, path: &[Uid], grant: u64)
    ensures { (g : Group) (n : ℕ) → stands index.new g n ≡ (stands index.old g n && not (is_eq (nat_cmp grant n) && list_any (λ u. same (group.Below u) g) path.now)) }
{
    for action in path {
        take(index, Group::Below { action: *action }, grant);
    }
}

/// Takes a lock out of all its groups.
pub fn leave(index: &mut Index, lock: &Lock, grant: u64)
    ensures { Leaves grant lock.now index.old index.new }
{
    let object = lock.object;
    let holder = lock.path.last();
    take(index, Group::Own { object, holder }, grant);
    take(index, Group::Held { holder }, grant);
    take_against(index, lock, Mode::Read, grant);
    take_against(index, lock, Mode::Exclude, grant);
    take_against(index, lock, Mode::Write, grant);
    take_below(index, lock.path.as_slice(), grant);
}

/// One more lock, and whether there was memory for it: if not, the index is let go.
pub fn joined(index: &mut Index, lock: &Lock, grant: u64) -> bool
    ensures { (at : ℕ → Option Lock) → at grant ≡ None → AreIndexed at index.old → IsIndex (put_lock grant lock.now at) result index.new }
{
    match join(index, lock, grant) {
        Ok(()) => true,
        Err(_) => {
            index.clear();
            false
        }
    }
}

/// Makes the index of all these locks anew, and says whether there was memory for it: if not, it is let go.
pub fn made(index: &mut Index, locks: &BTreeMap<u64, Lock>) -> bool
    ensures { IsIndex (λ n. lock_at n locks.now.entries) result index.new }
{
    index.clear();
    for (grant, lock) in locks.iter() {
        match join(index, lock, *grant) {
            Ok(()) => {}
            Err(_) => {
                index.clear();
                return false;
            }
        }
    }
    true
}

// Where a look at a group begins.
fn start(group: Group, after: Option<u64>) -> Bound<Member>
    ensures { result ≡ start group after }
{
    match after {
        Some(grant) => Bound::Excluded(Member { group, grant }),
        None => Bound::Included(Member { group, grant: 0 }),
    }
}

/// The first member of a group, or the next one after this grant.
pub fn first(index: &Index, group: Group, after: Option<u64>) -> Option<u64>
    ensures { IsFirst (λ n. stands index.now group n && is_after after n) result }
{
    let from = start(group, after);
    let member = index.range((from, Bound::Unbounded)).next()?;
    if member.group != group {
        return None;
    }
    Some(member.grant)
}
