// Why a call of the manager was not done.
ghost use Rattle.std.specs.Prelude.{◌≡◌};

use arj_base::{Mode, Uid};
use std::alloc::{AllocError, AllocFailed};
use thiserror::Error;

/// Why a call of the manager was not done. Nothing was changed.
#[derive(Debug, Drop, Error)]
pub enum ManagerFault {
    /// Another action, no ancestor of the asking one, holds the object in a mode that conflicts: the first one in order
    /// of granting, and its mode.
    #[error("the object is locked")]
    Conflict { holder: Uid, mode: Mode },
    /// The object's class lacks the operation.
    #[error("the class lacks this operation")]
    WrongOp,
    /// The payload of a state is none of its class.
    #[error("not the payload of a value of this class")]
    Payload,
    #[error("out of memory")]
    Memory,
}

impl From<AllocError> for ManagerFault {
    ghost use Rattle.arj_manager.specs.declared.fault.ManagerFault.TheVariants.{Memory};

    ghost from_gives = { λ _ e. e ≡ Memory };

    fn from(_: AllocError) -> Self {
        ManagerFault::Memory
    }
}

impl<T: Drop> From<AllocFailed<T>> for ManagerFault {
    ghost use Rattle.arj_manager.specs.declared.fault.ManagerFault.TheVariants.{Memory};

    ghost from_gives = { λ _ e. e ≡ Memory };

    fn from(_: AllocFailed<T>) -> Self {
        ManagerFault::Memory
    }
}
