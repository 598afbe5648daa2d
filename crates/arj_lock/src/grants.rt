// Locks in order of granting, and how they are found.
ghost use Rattle.std.specs.Prelude.{◌≡◌, ◌++◌, ◌∷◌, ◌&&◌, [], ℕ, List, Option, None, Some, IfOk, IfSome, OnOk, OnErr, filter, find, is_some, not, true};
ghost use Rattle.std.specs.BTreeMap.{is_at};
ghost use Rattle.std.specs.List.Sorted.{IsStrictlySortedBy};
ghost use Rattle.std.specs.Map.{keys_of, remove_entry, set_value};
ghost use Rattle.std.specs.Ordering.{nat_cmp};
ghost use Rattle.arj_lock.specs.Groups.{has, is_after, is_next};
ghost use Rattle.arj_lock.specs.Index.{IsAbove, IsFound, IsIndex, lock_at, put_lock};
ghost use Rattle.arj_lock.specs.Locks.{rows_in, shown};
ghost use Rattle.arj_lock.specs.declared.lock.Lock.{Lock};

use crate::group::{Group, is_in};
use crate::index::{Index, first, joined, leave, made};
use crate::lock::Lock;
use std::alloc::{AllocError, Global};
use std::collections::BTreeMap;
use std::marker::Model;

/// Locks under their grants, which count up. Contracts see them in that order. An index finds those of a group: where
/// memory for it is wanting it is let go, and a look over all locks does in its place, until a lock is granted.
#[derive(Drop)]
pub struct Grants {
    locks: BTreeMap<u64, Lock>,
    index: Index,
    whole: bool,
}

impl Model for Grants {
    ghost use Rattle.std.specs.Prelude.{ℕ, List};
    ghost use Rattle.arj_lock.specs.Index.{AreKept};
    ghost use Rattle.arj_lock.specs.declared.lock.Lock.{Lock};

    ghost Value = { List (ℕ × Lock) };

    ghost view = { λ g. g.locks.entries };

    ghost invariant = { λ g. AreKept g.locks.entries g.whole g.index };
}

impl Grants {
    /// No lock. It allocates nothing.
    pub fn new(alloc: Global) -> Grants
        ensures { result ≡ [] }
    {
        Grants {
            locks: BTreeMap::new(alloc),
            index: Index::new(alloc),
            whole: true,
        }
    }

    /// The first lock of a group, or the next one after this grant.
    pub fn find(&self, group: Group, after: Option<u64>) -> Option<(u64, &Lock)>
        ensures first { IsFound (find (is_next group after) self.now) result }
        ensures at { IfSome result (λ e. lock_at e.0 self.now ≡ Some e.1.now) }
        ensures sorted { IsStrictlySortedBy nat_cmp (keys_of self.now) }
    {
        if !self.whole {
            return scan(&self.locks, group, after);
        }
        let grant = first(&self.index, group, after)?;
        let lock = self.locks.get(&grant)?;
        Some((grant, lock))
    }

    /// Grants a lock.
    pub fn push(&mut self, lock: Lock) -> Result<(), AllocError>
        ensures ok { OnOk result (rows_in self.new ≡ rows_in self.old ++ shown lock ∷ []) }
        ensures err { OnErr result (self.new ≡ self.old) }
    {
        let Some(grant) = next(&self.locks) else {
            return Err(AllocError);
        };
        self.locks.insert(grant, lock)?;
        self.whole = renewed(&mut self.index, self.whole, &self.locks, &lock, grant);
        Ok(())
    }

    /// Puts another lock in a lock's place. It takes no memory but for the index.
    pub fn set(&mut self, grant: u64, old: &Lock, lock: Lock)
        requires { lock_at grant self.old ≡ Some old.now }
        ensures { self.new ≡ set_value (is_at (nat_cmp grant)) self.old lock }
    {
        self.whole = exchanged(&mut self.index, self.whole, old, &lock, grant);
        replace(&mut self.locks, grant, lock);
    }

    /// Removes a lock.
    pub fn remove(&mut self, grant: u64, old: &Lock)
        requires { lock_at grant self.old ≡ Some old.now }
        ensures { self.new ≡ remove_entry (is_at (nat_cmp grant)) self.old }
    {
        leave(&mut self.index, old, grant);
        self.locks.remove(&grant);
    }

    /// Removes all locks of a group.
    pub fn remove_all(&mut self, group: Group)
        ensures { rows_in self.new ≡ filter (λ row. not (has group row)) (rows_in self.old) }
    {
        while let Some((grant, lock)) = self.find(group, None) {
            let lock = *lock;
            self.remove(grant, &lock);
        }
    }

    /// The locks, in order.
    pub fn locks(&self) -> &BTreeMap<u64, Lock>
        ensures { result.now.entries ≡ self.now }
    {
        &self.locks
    }
}

// The number of the next grant, above all others.
fn next(locks: &BTreeMap<u64, Lock>) -> Option<u64>
    ensures { IfSome result (IsAbove locks.now.entries) }
{
    match locks.last_key_value() {
        Some((last, _)) => {
            let next = last.checked_add(1)?;
            Some(next)
        }
        None => Some(0),
    }
}

// One more lock in the index, or a new index where it wasn't whole; and whether it is whole then.
fn renewed(
    index: &mut Index,
    whole: bool,
    locks: &BTreeMap<u64, Lock>,
    lock: &Lock,
    grant: u64,
) -> bool
    ensures { (at : ℕ → Option Lock) → at grant ≡ None → IsIndex at whole index.old → ((n : ℕ) → lock_at n locks.now.entries ≡ put_lock grant lock.now at n) → IsIndex (λ n. lock_at n locks.now.entries) result index.new }
{
    if whole {
        return joined(index, lock, grant);
    }
    made(index, locks)
}

// Another lock in a lock's place in the index, and whether it is whole then.
fn exchanged(index: &mut Index, whole: bool, old: &Lock, lock: &Lock, grant: u64) -> bool
    ensures { (at : ℕ → Option Lock) → at grant ≡ Some old.now → IsIndex at whole index.old → IsIndex (put_lock grant lock.now at) result index.new }
{
    leave(index, old, grant);
    if !whole {
        return false;
    }
    joined(index, lock, grant)
}

// Puts another lock in a lock's place.
fn replace(locks: &mut BTreeMap<u64, Lock>, grant: u64, lock: Lock)
    requires { is_some (lock_at grant locks.old.entries) ≡ true }
    ensures entries { locks.new.entries ≡ set_value (is_at (nat_cmp grant)) locks.old.entries lock }
    ensures sorted { IsStrictlySortedBy nat_cmp (keys_of locks.new.entries) }
    ensures at { (n : ℕ) → lock_at n locks.new.entries ≡ put_lock grant lock (λ m. lock_at m locks.old.entries) n }
{
    if let Some(place) = locks.get_mut(&grant) {
        *place = lock;
    }
}

// Whether a grant is after this one, if one is given.
fn is_after(after: Option<u64>, grant: u64) -> bool
    ensures { result ≡ is_after after grant }
{
    match after {
        Some(before) => before < grant,
        None => true,
    }
}

// The first lock of a group, or the next one after this grant, by a look over all.
fn scan(locks: &BTreeMap<u64, Lock>, group: Group, after: Option<u64>) -> Option<(u64, &Lock)>
    ensures first { IsFound (find (is_next group after) locks.now.entries) result }
{
    for (grant, lock) in locks.iter() {
        if is_after(after, *grant) && is_in(lock, group) {
            return Some((*grant, lock));
        }
    }
    None
}
