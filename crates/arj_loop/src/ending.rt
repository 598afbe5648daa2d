// Where a run ends.
ghost use Rattle.std.specs.Prelude.{◌≡◌, ◌≢◌, MatchBool};

use std::alloc::{AllocError, AllocFailed};
use thiserror::Error;

/// Why a line is bad.
#[derive(Clone, Copy, Debug, PartialEq, Eq, Error)]
pub enum BadLine {
    /// It is longer than a line may be.
    #[error("longer than 500 bytes")]
    TooLong,
    /// No form of the grammar has it at its place.
    #[error("not in the grammar")]
    Unknown,
    /// It isn't there: the input ended before `run`.
    #[error("the input ended before `run`")]
    Missing,
}

/// Why no further line is run.
#[derive(Clone, Copy, Debug, Error)]
pub enum End {
    #[error("every line was run")]
    Whole,
    #[error("a script line is bad: {0}")]
    Bad(BadLine),
    #[error("a read failed")]
    Fault,
    #[error("a write failed")]
    Write,
    #[error("out of memory")]
    Memory,
    #[error("too many script lines")]
    Lines,
    #[error("too many labels")]
    Labels,
    #[error("too many frames")]
    Frames,
    #[error("a disk was stopped while it was formatted")]
    Format,
}

impl End {
    ghost use Rattle.arj_loop.specs.Running.{status_of, why_of};

    /// The status of the program.
    pub fn status(self) -> u8
        ensures { result ≡ status_of self }
    {
        match self {
            End::Whole => 0,
            End::Bad(_) => 2,
            End::Fault => 3,
            End::Write => 4,
            End::Memory => 5,
            End::Lines | End::Labels | End::Frames => 6,
            End::Format => 7,
        }
    }

    /// Whether a write failed.
    pub fn is_write(self) -> bool
        ensures { MatchBool result (self ≡ End.Write) (self ≢ End.Write) }
    {
        matches!(self, End::Write)
    }

    /// Why a line is bad, if one is.
    pub fn why(self) -> Option<BadLine>
        ensures { result ≡ why_of self }
    {
        match self {
            End::Bad(why) => Some(why),
            _ => None,
        }
    }
}

impl From<AllocError> for End {
    ghost use Rattle.arj_loop.specs.declared.ending.End.TheVariants.{Memory};

    ghost from_gives = { λ _ e. e ≡ Memory };

    fn from(_: AllocError) -> Self {
        End::Memory
    }
}

impl<T: Drop> From<AllocFailed<T>> for End {
    ghost use Rattle.arj_loop.specs.declared.ending.End.TheVariants.{Memory};

    ghost from_gives = { λ _ e. e ≡ Memory };

    fn from(_: AllocFailed<T>) -> Self {
        End::Memory
    }
}
