// Why a journal was not checked.
ghost use Rattle.std.specs.Prelude.{◌≡◌};

use crate::rule::Broken;
use std::alloc::{AllocError, AllocFailed};
use thiserror::Error;

/// Why a journal was not checked.
#[derive(Debug, Drop, Error)]
pub enum CheckFault {
    /// A line breaks a rule: the journal can't be read as a run.
    #[error("the journal can't be read as a run")]
    Unreadable(Broken),
    /// Memory is wanting.
    #[error("out of memory")]
    Memory,
}

impl From<AllocError> for CheckFault {
    ghost use Rattle.arj_reading.specs.declared.fault.CheckFault.TheVariants.{Memory};

    ghost from_gives = { λ _ e. e ≡ Memory };

    fn from(_error: AllocError) -> CheckFault {
        CheckFault::Memory
    }
}

impl<T: Drop> From<AllocFailed<T>> for CheckFault {
    ghost use Rattle.arj_reading.specs.declared.fault.CheckFault.TheVariants.{Memory};

    ghost from_gives = { λ _ e. e ≡ Memory };

    fn from(_error: AllocFailed<T>) -> CheckFault {
        CheckFault::Memory
    }
}
