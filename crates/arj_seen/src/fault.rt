// Why an input can't be looked at.
ghost use Rattle.std.specs.Prelude.{◌≡◌};

use std::alloc::{AllocError, AllocFailed};
use thiserror::Error;

/// Why an input was not seen as a script and its journal. Lines are counted from 1, through the whole input.
#[derive(Debug, Drop, Error)]
pub enum SeenFault {
    /// This line isn't in the grammar of scripts at its place.
    #[error("line {0} is no line of a script at its place")]
    NotOfAScript(usize),
    /// The line `journal` came before the line `run`.
    #[error("line {0} is `journal`, and no line `run` stands before it")]
    NoRun(usize),
    /// The input ended before a line `journal`.
    #[error("the input ended after line {0}, and no line `journal` has come")]
    NoJournal(usize),
    /// This line behind `journal` is no line of a journal.
    #[error("line {0} is no line of a journal")]
    NotOfAJournal(usize),
    #[error("out of memory")]
    Memory,
}

impl From<AllocError> for SeenFault {
    ghost use Rattle.arj_seen.specs.declared.fault.SeenFault.TheVariants.{Memory};

    ghost from_gives = { λ _ e. e ≡ Memory };

    fn from(_error: AllocError) -> SeenFault {
        SeenFault::Memory
    }
}

impl<T: Drop> From<AllocFailed<T>> for SeenFault {
    ghost use Rattle.arj_seen.specs.declared.fault.SeenFault.TheVariants.{Memory};

    ghost from_gives = { λ _ e. e ≡ Memory };

    fn from(_error: AllocFailed<T>) -> SeenFault {
        SeenFault::Memory
    }
}
