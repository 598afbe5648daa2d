// Why a lock was not granted.
ghost use Rattle.std.specs.Prelude.{◌≡◌};

use arj_base::{Mode, Uid};
use std::alloc::{AllocError, AllocFailed};
use thiserror::Error;

/// Why a request was not granted. Nothing was changed.
#[derive(Debug, Drop, Error)]
pub enum LockFault {
    /// Another action, no ancestor of the asking one, holds the object in a mode that conflicts: the first one in order
    /// of granting, and its mode.
    #[error("the object is locked")]
    Conflict { holder: Uid, mode: Mode },
    #[error("out of memory")]
    Memory,
}

impl From<AllocError> for LockFault {
    ghost use Rattle.arj_lock.specs.declared.fault.LockFault.TheVariants.{Memory};

    ghost from_gives = { λ _ e. e ≡ Memory };

    fn from(_: AllocError) -> Self {
        LockFault::Memory
    }
}

impl<T: Drop> From<AllocFailed<T>> for LockFault {
    ghost use Rattle.arj_lock.specs.declared.fault.LockFault.TheVariants.{Memory};

    ghost from_gives = { λ _ e. e ≡ Memory };

    fn from(_: AllocFailed<T>) -> Self {
        LockFault::Memory
    }
}
