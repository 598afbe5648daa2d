// Passing locks to the parent, and changes of an action's own lock.
ghost use Rattle.std.specs.Prelude.{◌≡◌, Some, true, map, nat_lt};
ghost use Rattle.std.specs.Option.{option_map};
ghost use Rattle.arj_base.specs.Mode.{mode_code};
ghost use Rattle.arj_base.specs.Rows.{has_row, is_held_by, lower_row, mode_of, pass_rows};
ghost use Rattle.arj_lock.specs.Exclusion.{IsOneEach};
ghost use Rattle.arj_lock.specs.Index.{lock_at};
ghost use Rattle.arj_lock.specs.Locks.{rows_in, shown};
ghost use Rattle.arj_lock.specs.Passing.{raised, IsHandedUp, PassesOne};

use crate::grants::Grants;
use crate::group::Group;
use crate::lock::Lock;
use arj_base::{Mode, Uid};

/// Gives an action's lock on an object the stronger mode, and says whether it rose. None where it has none.
pub fn raise(grants: &mut Grants, object: Uid, holder: Uid, mode: Mode) -> Option<bool>
    requires { IsOneEach (rows_in grants.old) }
    ensures rows { rows_in grants.new ≡ map (raised object holder mode) (rows_in grants.old) }
    ensures rose { result ≡ option_map (λ held. nat_lt (mode_code held) (mode_code mode)) (mode_of object holder (rows_in grants.old)) }
{
    let (grant, lock) = grants.find(Group::Own { object, holder }, None)?;
    if lock.mode < mode {
        let lock = *lock;
        grants.set(grant, &lock, lock.with(mode));
        return Some(true);
    }
    Some(false)
}

/// Lowers an action's lock on an object to read.
pub fn lower(grants: &mut Grants, action: Uid, object: Uid)
    requires { IsOneEach (rows_in grants.old) }
    ensures { rows_in grants.new ≡ lower_row action object (rows_in grants.old) }
{
    let own = Group::Own {
        object,
        holder: action,
    };
    if let Some((grant, lock)) = grants.find(own, None) {
        let lock = *lock;
        let mode = Mode::Read;
        grants.set(grant, &lock, Lock { mode, ..lock });
    }
}

// The lock in the hands of the holder's parent, if it has one.
fn handed_up(lock: &Lock) -> Option<Lock>
    ensures { IsHandedUp (shown lock.now) (option_map shown result) }
{
    let path = lock.path.parent_path()?;
    Some(Lock {
        object: lock.object,
        path,
        mode: lock.mode,
    })
}

// Whether an action has a lock on an object.
fn has(grants: &Grants, object: Uid, holder: Uid) -> bool
    ensures { result ≡ has_row object holder (rows_in grants.now) }
{
    grants.find(Group::Own { object, holder }, None).is_some()
}

// Passes a lock of an action.
fn pass_one(grants: &mut Grants, grant: u64, lock: &Lock, action: Uid)
    requires at { lock_at grant grants.old ≡ Some lock.now }
    requires own { is_held_by action (shown lock.now) ≡ true }
    requires one_each { IsOneEach (rows_in grants.old) }
    ensures { PassesOne action (rows_in grants.old) (rows_in grants.new) }
{
    let Some(up) = handed_up(lock) else {
        grants.remove(grant, lock);
        return;
    };
    let heir = up.path.last();
    if has(grants, lock.object, heir) {
        grants.remove(grant, lock);
        raise(grants, lock.object, heir, lock.mode);
    } else {
        grants.set(grant, lock, up);
    }
}

/// Passes an action's locks to its parent.
pub fn pass(grants: &mut Grants, action: Uid)
    requires { IsOneEach (rows_in grants.old) }
    ensures rows { rows_in grants.new ≡ pass_rows action (rows_in grants.old) }
    ensures one_each { IsOneEach (rows_in grants.new) }
{
    let held = Group::Held { holder: action };
    while let Some((grant, lock)) = grants.find(held, None) {
        let lock = *lock;
        pass_one(grants, grant, &lock, action);
    }
}
