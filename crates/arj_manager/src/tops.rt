// The tops of the holders of all locks.
ghost use Rattle.std.specs.Prelude.{◌↔◌, Contains, IfOk, List};
ghost use Rattle.std.specs.BTreeSet.{IsFromIterResult};
ghost use Rattle.arj_base.specs.declared.uid.Uid.{Uid};
ghost use Rattle.arj_lock.specs.Held.{AreListed, set_order};
ghost use Rattle.arj_manager.specs.Manager.{tops_in};

use crate::walk::Objects;
use arj_base::{Uid, Uids};
use std::alloc::{AllocError, Global};
use std::collections::BTreeSet;

/// The tops of the holders of the locks on each object.
pub fn tops_of(alloc: Global, objects: &Objects) -> Result<Vec<Uid>, AllocError>
    ensures { IfOk result (λ tops. (u : Uid) → Contains tops.items u ↔ Contains (tops_in objects.now.entries) u) }
{
    let mut tops = Vec::new(alloc);
    for (_, object) in objects.iter() {
        let held = object.held(alloc)?;
        tops.extend_from_slice(held.as_slice())?;
    }
    Ok(tops)
}

// These Uids as a set.
fn set_of(alloc: Global, uids: &[Uid]) -> Result<BTreeSet<Uid>, AllocError>
    ensures { IfOk result (λ set. IsFromIterResult set_order uids.now set) }
{
    let mut set = BTreeSet::new(alloc);
    for uid in uids {
        set.insert(*uid)?;
    }
    Ok(set)
}

// The Uids of a set, in increasing order.
fn listed(alloc: Global, set: &BTreeSet<Uid>) -> Result<Uids, AllocError>
    ensures { IfOk result (λ list. (uids : List Uid) → IsFromIterResult set_order uids set.now → AreListed uids list) }
{
    let mut list = Uids::new(alloc);
    for uid in set.iter() {
        list.push(*uid)?;
    }
    Ok(list)
}

/// These Uids, each once, in increasing order.
pub fn in_order(alloc: Global, uids: &[Uid]) -> Result<Uids, AllocError>
    ensures { IfOk result (λ list. AreListed uids.now list) }
{
    let set = set_of(alloc, uids)?;
    listed(alloc, &set)
}
