// The groups in which locks are found.
ghost use Rattle.std.specs.Prelude.{◌≡◌};
ghost use Rattle.arj_lock.specs.Groups.{has};
ghost use Rattle.arj_lock.specs.Locks.{shown};

use crate::lock::Lock;
use arj_base::{Mode, Uid, conflicts};

/// Locks that are looked for together.
#[derive(Clone, Copy, Debug, PartialEq, Eq, PartialOrd, Ord)]
pub enum Group {
    /// The one of an action on an object.
    Own { object: Uid, holder: Uid },
    /// Those of an action itself.
    Held { holder: Uid },
    /// Those of an action and of its descendants.
    Below { action: Uid },
    /// Those on an object that conflict with a mode.
    Against { object: Uid, mode: Mode },
}

/// A lock's place in a group: the locks of a group stand in order of granting.
#[derive(Clone, Copy, Debug, PartialEq, Eq, PartialOrd, Ord)]
pub struct Member {
    pub group: Group,
    pub grant: u64,
}

/// Whether a lock is in a group.
pub fn is_in(lock: &Lock, group: Group) -> bool
    ensures { result ≡ has group (shown lock.now) }
{
    match group {
        Group::Own { object, holder } => lock.is_of(object, holder),
        Group::Held { holder } => lock.is_held_by(holder),
        Group::Below { action } => lock.path.is_ancestor_or_self(action),
        Group::Against { object, mode } => lock.object == object && conflicts(lock.mode, mode),
    }
}
