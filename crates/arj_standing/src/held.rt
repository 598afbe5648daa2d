// A lock that is held.
ghost use Rattle.std.specs.Prelude.{◌≡◌, IfOk};
ghost use Rattle.arj_base.specs.Rows.{last_uid};

use arj_base::{Mode, Uid, Uids, stronger};
use std::alloc::AllocError;

/// A lock that is held at a node: on which object or entry, by the action with this path, from its root to itself, how many
/// leading Uids of the path end with its top, and in which mode.
#[derive(Drop)]
pub struct Held {
    pub object: Uid,
    pub holder: Uids,
    pub tops: usize,
    pub mode: Mode,
}

impl Held {
    ghost use Rattle.std.specs.Prelude.{◌≡◌, IfOk};
    ghost use Rattle.arj_base.specs.Rows.{is_held_by, is_row_of, last_uid};
    ghost use Rattle.arj_base.specs.Mode.{stronger as stronger_of};
    ghost use Rattle.arj_standing.specs.Held.{shown};

    /// The same lock again.
    pub fn copy(&self) -> Result<Held, AllocError>
        ensures { IfOk result (λ copied. copied ≡ self.now) }
    {
        Ok(Held {
            object: self.object,
            holder: self.holder.copy()?,
            tops: self.tops,
            mode: self.mode,
        })
    }

    /// The same lock in the stronger mode of its own and this one.
    pub fn with(&self, mode: Mode) -> Result<Held, AllocError>
        ensures { IfOk result (λ out. shown out ≡ record (shown self.now) { mode = stronger_of self.now.mode mode }) }
    {
        Ok(Held {
            object: self.object,
            holder: self.holder.copy()?,
            tops: self.tops,
            mode: stronger(self.mode, mode),
        })
    }

    /// The action that holds it itself: the last Uid of its path.
    pub fn action(&self) -> Uid
        ensures { result ≡ last_uid self.now.holder }
    {
        last_of(self.holder.as_slice())
    }

    /// Whether this action itself holds it.
    pub fn is_held_by(&self, action: Uid) -> bool
        ensures { result ≡ is_held_by action (shown self.now) }
    {
        self.action() == action
    }

    /// Whether it is this action's own on this object.
    pub fn is_of(&self, object: Uid, action: Uid) -> bool
        ensures { result ≡ is_row_of object action (shown self.now) }
    {
        self.object == object && self.is_held_by(action)
    }
}

// Nobody: what an empty path ends with.
const NOBODY: Uid = Uid {
    node: 0,
    inc: 0,
    num: 0,
};

/// The last Uid of a path.
pub fn last_of(path: &[Uid]) -> Uid
    ensures { result ≡ last_uid path.now }
{
    match path {
        [] => NOBODY,
        [.., last] => *last,
    }
}
