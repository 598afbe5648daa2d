// One lock.
use arj_base::{Mode, Path, Uid, stronger};

/// A lock on an object: the path of the action that holds it, and the strongest mode that was granted.
#[derive(Clone, Copy, Debug)]
pub struct Lock {
    pub object: Uid,
    pub path: Path,
    pub mode: Mode,
}

impl Lock {
    ghost use Rattle.std.specs.Prelude.{◌≡◌};
    ghost use Rattle.arj_base.specs.Mode.{stronger as stronger_of};
    ghost use Rattle.arj_base.specs.Rows.{is_row_of, is_held_by};
    ghost use Rattle.arj_lock.specs.Locks.{shown};

    /// Whether this action itself holds it.
    #[inline(always)]
    pub fn is_held_by(&self, action: Uid) -> bool
        ensures { result ≡ is_held_by action (shown self.now) }
    {
        self.path.last() == action
    }

    /// Whether it is this action's own on this object.
    #[inline(always)]
    pub fn is_of(&self, object: Uid, action: Uid) -> bool
        ensures { result ≡ is_row_of object action (shown self.now) }
    {
        self.object == object && self.is_held_by(action)
    }

    /// The same lock in the stronger mode of its own and this one.
    pub fn with(&self, mode: Mode) -> Lock
        ensures { shown result ≡ record (shown self.now) { mode = stronger_of (shown self.now).mode mode } }
    {
        Lock {
            object: self.object,
            path: self.path,
            mode: stronger(self.mode, mode),
        }
    }
}
