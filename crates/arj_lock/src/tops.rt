// What there is to be told of the locks.
ghost use Rattle.std.specs.Prelude.{◌≡◌, IfOk, List, filter, map, nat_le};
ghost use Rattle.std.specs.BTreeSet.{IsFromIterResult};
ghost use Rattle.arj_base.specs.Mode.{mode_code};
ghost use Rattle.arj_base.specs.Path.{uids_of};
ghost use Rattle.arj_base.specs.Rows.{has_any};
ghost use Rattle.arj_base.specs.declared.uid.Uid.{Uid};
ghost use Rattle.arj_lock.specs.Exclusion.{IsOneEach};
ghost use Rattle.arj_lock.specs.Held.{set_order, below, is_any_top, is_any_write, top_of, AreBelow, AreListed, AreTops};
ghost use Rattle.arj_lock.specs.Locks.{rows_in, shown};
ghost use Rattle.arj_lock.specs.Requests.{conflict_with};

use crate::grants::Grants;
use crate::group::Group;
use arj_base::{Mode, Path, Uid, Uids};
use std::alloc::{AllocError, Global};
use std::collections::BTreeSet;

/// Holder and mode of the first lock that stands against a request: behind at most as many others of its group as there are
/// actions on the path.
pub fn first_against(grants: &Grants, path: &Path, object: Uid, mode: Mode) -> Option<(Uid, Mode)>
    ensures { result ≡ conflict_with (uids_of path.now) object mode (rows_in grants.now) }
{
    let group = Group::Against { object, mode };
    let mut after = None;
    while let Some((grant, lock)) = grants.find(group, after) {
        let holder = lock.path.last();
        if !path.is_ancestor_or_self(holder) {
            return Some((holder, lock.mode));
        }
        after = Some(grant);
    }
    None
}

/// Whether an action or a descendant of it has a lock.
pub fn is_any_below(grants: &Grants, action: Uid) -> bool
    ensures { result ≡ has_any action (rows_in grants.now) }
{
    grants.find(Group::Below { action }, None).is_some()
}

/// Whether an action is the top of a lock's holder, or stands above that top.
pub fn is_any_top(grants: &Grants, action: Uid) -> bool
    ensures { result ≡ is_any_top action (rows_in grants.now) }
{
    let group = Group::Below { action };
    let mut after = None;
    while let Some((grant, lock)) = grants.find(group, after) {
        if lock.path.top_path().is_ancestor_or_self(action) {
            return true;
        }
        after = Some(grant);
    }
    false
}

// Whether the mode is write.
fn is_write(mode: Mode) -> bool
    ensures { result ≡ nat_le 2 (mode_code mode) }
{
    matches!(mode, Mode::Write)
}

/// Whether an action itself has the write lock on an object.
pub fn is_any_write(grants: &Grants, action: Uid, object: Uid) -> bool
    requires { IsOneEach (rows_in grants.now) }
    ensures { result ≡ is_any_write object action (rows_in grants.now) }
{
    let own = Group::Own {
        object,
        holder: action,
    };
    match grants.find(own, None) {
        Some((_, lock)) => is_write(lock.mode),
        None => false,
    }
}

// The Uids of a set, in increasing order.
fn listed(alloc: Global, set: &BTreeSet<Uid>) -> Result<Uids, AllocError>
    ensures { IfOk result (λ list. (uids : List Uid) → IsFromIterResult set_order uids set.now → AreListed uids list) }
{
    let mut list = Uids::new(alloc);
    for uid in set.iter() {
        list.push(*uid)?;
    }
    Ok(list)
}

fn tops_of(alloc: Global, grants: &Grants) -> Result<BTreeSet<Uid>, AllocError>
    ensures { IfOk result (λ tops. IsFromIterResult set_order (map top_of (rows_in grants.now)) tops) }
{
    let mut tops = BTreeSet::new(alloc);
    for (_, lock) in grants.locks().iter() {
        tops.insert(lock.path.top())?;
    }
    Ok(tops)
}

// The holders of the locks of an action and of its descendants.
fn holders_of(alloc: Global, grants: &Grants, action: Uid) -> Result<BTreeSet<Uid>, AllocError>
    ensures { IfOk result (λ holders. IsFromIterResult set_order (below action (rows_in grants.now)) holders) }
{
    let group = Group::Below { action };
    let mut holders = BTreeSet::new(alloc);
    let mut after = None;
    while let Some((grant, lock)) = grants.find(group, after) {
        holders.insert(lock.path.last())?;
        after = Some(grant);
    }
    Ok(holders)
}

/// The tops of these locks, each once, in increasing order.
pub fn list_tops(alloc: Global, grants: &Grants) -> Result<Uids, AllocError>
    ensures { IfOk result (λ tops. AreTops (rows_in grants.now) tops) }
{
    let tops = tops_of(alloc, grants)?;
    listed(alloc, &tops)
}

/// The holders of the locks of an action and of its descendants, each once, in increasing order.
pub fn list_below(alloc: Global, grants: &Grants, action: Uid) -> Result<Uids, AllocError>
    ensures { IfOk result (λ holders. AreBelow action (rows_in grants.now) holders) }
{
    let holders = holders_of(alloc, grants, action)?;
    listed(alloc, &holders)
}
