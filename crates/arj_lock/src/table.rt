// The lock table.
ghost use Rattle.std.specs.Prelude.{◌≡◌, [], List, Some, None, IfOk, OnOk, OnErr, IfSome, IsErrOf};
ghost use Rattle.arj_base.specs.declared.mode.Mode.{Mode};
ghost use Rattle.arj_base.specs.declared.uid.Uid.{Uid};
ghost use Rattle.arj_base.specs.Path.{uids_of};
ghost use Rattle.arj_base.specs.Rows.{Row, last_uid, grant_row, pass_rows, drop_rows, close_rows, lower_row, first_conflict, has_any, mode_of};
ghost use Rattle.arj_lock.specs.Exclusion.{IsOneEach};
ghost use Rattle.arj_lock.specs.Held.{AreBelow, AreTops, is_any_top, is_any_write};
ghost use Rattle.arj_lock.specs.Requests.{asked, conflict_with, is_rise, IsClear};

use crate::LockFault;
use crate::grants::Grants;
use crate::group::Group;
use crate::lock::Lock;
use crate::pass::{lower, pass, raise};
use crate::tops::{first_against, is_any_below, is_any_top, is_any_write, list_below, list_tops};
use arj_base::{Mode, Path, Uid, Uids};
use std::alloc::{AllocError, Global};
use std::marker::Model;

/// Which action holds which object in which mode. Contracts see the rows, in order of granting, each with the path of
/// its holder. Strict two-phase locking under nested actions (Moss): a lock is granted where every conflicting holder is
/// the asking action or one of its ancestors, and is held until its holder ends.
#[derive(Drop)]
pub struct LockTable {
    grants: Grants,
}

impl Model for LockTable {
    ghost use Rattle.std.specs.Prelude.{List};
    ghost use Rattle.arj_base.specs.Rows.{Row};
    ghost use Rattle.arj_lock.specs.Exclusion.{IsOneEach};
    ghost use Rattle.arj_lock.specs.Locks.{rows_in};

    ghost Value = { List Row };

    ghost view = { λ t. rows_in t.grants };

    ghost invariant = { λ t. IsOneEach (rows_in t.grants) };
}

impl LockTable {
    /// No lock. It allocates nothing.
    pub fn new(alloc: Global) -> LockTable
        ensures { result ≡ [] }
    {
        LockTable {
            grants: Grants::new(alloc),
        }
    }

    /// Asks a lock for the action with this path, and answers whether the action's mode on the object rose. Conflict
    /// exactly where a row conflicts, and it names the first one in order of granting.
    pub fn request(&mut self, path: &Path, object: Uid, mode: Mode) -> Result<bool, LockFault>
        ensures conflict { IfSome (conflict_with (uids_of path.now) object mode self.old) (λ met. IsErrOf result (LockFault.Conflict met.0 met.1)) }
        ensures named { (holder : Uid) (held : Mode) → IsErrOf result (LockFault.Conflict holder held) → conflict_with (uids_of path.now) object mode self.old ≡ Some (holder, held) }
        ensures granted { OnOk result (self.new ≡ grant_row (asked path.now object mode) self.old) }
        ensures rose { IfOk result (λ rose. rose ≡ is_rise (mode_of object (last_uid (uids_of path.now)) self.old) mode) }
        ensures free { OnOk result (first_conflict (uids_of path.now) object mode self.old ≡ None) }
        ensures clear { OnOk result (IsClear (uids_of path.now) object mode self.old) }
        ensures kept { OnErr result (self.new ≡ self.old) }
    {
        match self.conflict(path, object, mode) {
            Some((holder, mode)) => Err(LockFault::Conflict { holder, mode }),
            None => Ok(self.grant(path, object, mode)?),
        }
    }

    /// Grants a lock that meets no conflict to the action with this path, and answers whether the action's mode on the object
    /// rose.
    pub fn grant(&mut self, path: &Path, object: Uid, mode: Mode) -> Result<bool, AllocError>
        requires free { first_conflict (uids_of path.now) object mode self.old ≡ None }
        ensures granted { OnOk result (self.new ≡ grant_row (asked path.now object mode) self.old) }
        ensures rose { IfOk result (λ rose. rose ≡ is_rise (mode_of object (last_uid (uids_of path.now)) self.old) mode) }
        ensures kept { OnErr result (self.new ≡ self.old) }
    {
        if let Some(rose) = raise(&mut self.grants, object, path.last(), mode) {
            return Ok(rose);
        }
        self.grants.push(Lock {
            object,
            path: *path,
            mode,
        })?;
        Ok(true)
    }

    /// Passes an action's locks to its parent, or a constituent's to its serializing action, each in its place. A lock
    /// that the parent has already takes the stronger mode. The locks of an action without a parent go. It never fails
    /// for want of memory.
    pub fn pass_to_parent(&mut self, action: Uid)
        ensures { self.new ≡ pass_rows action self.old }
    {
        pass(&mut self.grants, action);
    }

    /// Drops the locks of an action and of its descendants.
    pub fn drop_action(&mut self, action: Uid)
        ensures { self.new ≡ drop_rows action self.old }
    {
        self.grants.remove_all(Group::Below { action });
    }

    /// Drops all locks on an object.
    pub fn close(&mut self, object: Uid)
        ensures { self.new ≡ close_rows object self.old }
    {
        let mode = Mode::Write;
        self.grants.remove_all(Group::Against { object, mode });
    }

    /// Lowers an action's lock on an object to read, in its place.
    pub fn lower(&mut self, action: Uid, object: Uid)
        ensures { self.new ≡ lower_row action object self.old }
    {
        lower(&mut self.grants, action, object);
    }

    /// Holder and mode of the lock that a request would name as conflicting. None exactly where it would meet none.
    pub fn conflict(&self, path: &Path, object: Uid, mode: Mode) -> Option<(Uid, Mode)>
        ensures first { result ≡ conflict_with (uids_of path.now) object mode self.now }
        ensures clear { result ≡ None → IsClear (uids_of path.now) object mode self.now }
    {
        first_against(&self.grants, path, object, mode)
    }

    /// Whether an action or a descendant of it has a lock.
    pub fn holds(&self, action: Uid) -> bool
        ensures any { result ≡ has_any action self.now }
        ensures one_each { IsOneEach self.now }
    {
        is_any_below(&self.grants, action)
    }

    /// Whether an action is the top of a lock's holder, or the serializing action above that top.
    pub fn is_top(&self, action: Uid) -> bool
        ensures { result ≡ is_any_top action self.now }
    {
        is_any_top(&self.grants, action)
    }

    /// Whether an action itself has the write lock on an object.
    pub fn writes(&self, action: Uid, object: Uid) -> bool
        ensures { result ≡ is_any_write object action self.now }
    {
        is_any_write(&self.grants, action, object)
    }

    /// The tops of all holders, each once, in increasing order.
    pub fn held(&self, alloc: Global) -> Result<Uids, AllocError>
        ensures tops { IfOk result (λ tops. AreTops self.now tops) }
        ensures one_each { IsOneEach self.now }
    {
        list_tops(alloc, &self.grants)
    }

    /// The holders of the locks that `drop_action` would drop, each once, in increasing order.
    pub fn holders_below(&self, alloc: Global, action: Uid) -> Result<Uids, AllocError>
        ensures { IfOk result (λ holders. AreBelow action self.now holders) }
    {
        list_below(alloc, &self.grants, action)
    }
}
