// Sets of Uids.
ghost use Rattle.std.specs.Prelude.{◌≡◌, ◌||◌, IfOk, OnOk};
ghost use Rattle.std.specs.List.Sorted.{IsStrictlySortedBy};
ghost use Rattle.arj_base.specs.declared.uid.Uid.{Uid};
ghost use Rattle.arj_base.specs.Order.{uid_order};
ghost use Rattle.arj_base.specs.Rows.{is_on};
ghost use Rattle.arj_protocol.specs.Order.{drop_uid as drop_uid_of};

use arj_base::{Uid, Uids};
use std::alloc::{AllocError, Global};
use std::collections::BTreeSet;

/// Whether the Uid is in the set.
pub fn is_among(set: &BTreeSet<Uid>, uid: Uid) -> bool
    ensures { result ≡ is_on set.now.keys uid }
{
    set.contains(&uid)
}

/// Takes a Uid out of the set.
pub fn drop_uid(set: &mut BTreeSet<Uid>, uid: Uid)
    ensures { set.new.keys ≡ drop_uid_of uid set.old.keys }
{
    if set.len() == 0 {
        return;
    }
    set.remove(&uid);
}

/// Puts Uids into the set.
pub fn insert_all(set: &mut BTreeSet<Uid>, uids: &[Uid]) -> Result<(), AllocError>
    ensures { OnOk result ((u : Uid) → is_on set.new.keys u ≡ (is_on set.old.keys u || is_on uids.now u)) }
{
    for uid in uids {
        set.insert(*uid)?;
    }
    Ok(())
}

/// The Uids of a set, in increasing order.
pub fn list_of(alloc: Global, set: &BTreeSet<Uid>) -> Result<Uids, AllocError>
    ensures list { IfOk result (λ list. list ≡ set.now.keys) }
    ensures increasing { IsStrictlySortedBy uid_order set.now.keys }
{
    let mut list = Uids::new(alloc);
    for uid in set.iter() {
        list.push(*uid)?;
    }
    Ok(list)
}
