// Why a call of the tree was not done.
ghost use Rattle.std.specs.Prelude.{◌≡◌};

use std::alloc::{AllocError, AllocFailed};
use thiserror::Error;

/// Why a call of the tree was not done. Nothing was changed. All but the last are refusals of events, in the order in
/// which they are tested.
#[derive(Clone, Copy, Debug, PartialEq, Eq, Error)]
pub enum TreeFault {
    /// The action has ended, or this incarnation never began it.
    #[error("the action has ended")]
    Ended,
    /// An action that was begun in it is open.
    #[error("an action in it is open")]
    OpenChildren,
    /// The parent is a serializing action.
    #[error("the parent is a serializing action")]
    WrongParent,
    /// The action is a serializing action, which makes no calls.
    #[error("a serializing action makes no calls")]
    NoCalls,
    /// The action, or the parent, can only abort.
    #[error("the action can only abort")]
    Doomed,
    /// The parent's path has as many Uids as a path may have.
    #[error("too many actions above each other")]
    TooDeep,
    /// The root has had as many actions as it may have, or uses as many objects.
    #[error("too many actions or objects of one root")]
    TooMany,
    #[error("out of memory")]
    Memory,
}

impl From<AllocError> for TreeFault {
    ghost use Rattle.arj_tree.specs.declared.fault.TreeFault.TheVariants.{Memory};

    ghost from_gives = { λ _ e. e ≡ Memory };

    fn from(_: AllocError) -> Self {
        TreeFault::Memory
    }
}

impl<T: Drop> From<AllocFailed<T>> for TreeFault {
    ghost use Rattle.arj_tree.specs.declared.fault.TreeFault.TheVariants.{Memory};

    ghost from_gives = { λ _ e. e ≡ Memory };

    fn from(_: AllocFailed<T>) -> Self {
        TreeFault::Memory
    }
}
