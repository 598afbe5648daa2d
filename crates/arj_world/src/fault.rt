// Why nodes weren't formatted, and why an event wasn't run to its end.
ghost use Rattle.std.specs.Prelude.{◌≡◌};

use std::alloc::{AllocError, AllocFailed};
use thiserror::Error;

/// Why the nodes were not formatted.
#[derive(Debug, Drop, Error)]
pub enum FormatFault {
    #[error("a disk was stopped while it was formatted")]
    Stopped,
    #[error("out of memory")]
    Memory,
}

/// Why an event was not run to its end.
#[derive(Debug, Drop, Error)]
pub enum StepFault {
    /// The event would give one label too many. Nothing changed.
    #[error("all labels are given")]
    Labels,
    /// A frame didn't fit. The event was run, and the journal's last line says so.
    #[error("all frames are sent")]
    Frames,
    #[error("out of memory")]
    Memory,
}

impl From<AllocError> for StepFault {
    ghost use Rattle.arj_world.specs.declared.fault.StepFault.TheVariants.{Memory};

    ghost from_gives = { λ _ e. e ≡ Memory };

    fn from(_: AllocError) -> Self {
        StepFault::Memory
    }
}

impl<T: Drop> From<AllocFailed<T>> for StepFault {
    ghost use Rattle.arj_world.specs.declared.fault.StepFault.TheVariants.{Memory};

    ghost from_gives = { λ _ e. e ≡ Memory };

    fn from(_: AllocFailed<T>) -> Self {
        StepFault::Memory
    }
}

impl From<AllocError> for FormatFault {
    ghost use Rattle.arj_world.specs.declared.fault.FormatFault.TheVariants.{Memory};

    ghost from_gives = { λ _ e. e ≡ Memory };

    fn from(_: AllocError) -> Self {
        FormatFault::Memory
    }
}

impl<T: Drop> From<AllocFailed<T>> for FormatFault {
    ghost use Rattle.arj_world.specs.declared.fault.FormatFault.TheVariants.{Memory};

    ghost from_gives = { λ _ e. e ≡ Memory };

    fn from(_: AllocFailed<T>) -> Self {
        FormatFault::Memory
    }
}
