// Running events one by one.
ghost use Rattle.std.specs.Prelude.{◌≡◌, ◌+◌, ◌<◌, ◌∷◌, ◌++◌, [], ℕ, List, true, Err, IsErrOf};
ghost use Rattle.arj_journal.specs.Stepping.{is_run, is_written, is_left, EndsWithLimit};
ghost use Rattle.arj_journal.specs.declared.body.Line.{Line};
ghost use Rattle.arj_journal.specs.declared.body.Which.{Which as which_type};
ghost use Rattle.arj_journal.specs.declared.step.StepFault.TheVariants as step_fault;

use crate::{Event, Lines, Which};
use std::alloc::{AllocError, AllocFailed};
use thiserror::Error;

/// Why an event was not stepped to its end.
#[derive(Debug, Drop, Error)]
pub enum StepFault {
    /// The run ended at this limit, and the journal's last line says so.
    #[error("the run ended at a limit")]
    Limit(Which),
    /// Memory is wanting. Nothing is known of the stepper then.
    #[error("out of memory")]
    Memory,
}

impl From<AllocError> for StepFault {
    ghost use Rattle.arj_journal.specs.declared.step.StepFault.TheVariants.{Memory};

    ghost from_gives = { λ _ e. e ≡ Memory };

    fn from(_error: AllocError) -> StepFault {
        StepFault::Memory
    }
}

impl<T: Drop> From<AllocFailed<T>> for StepFault {
    ghost use Rattle.arj_journal.specs.declared.step.StepFault.TheVariants.{Memory};

    ghost from_gives = { λ _ e. e ≡ Memory };

    fn from(_error: AllocFailed<T>) -> StepFault {
        StepFault::Memory
    }
}

/// What runs events one by one and writes the journal.
pub trait Stepper {
    ghost use Rattle.arj_journal.specs.declared.event.Event.{Event};

    /// The events that were run, in order.
    ghost events: { Self → List Event };

    /// The journal of them.
    ghost journal: { Self → List Line };

    /// How many events were run.
    ghost steps: { Self → ℕ };

    /// Runs an event, and puts its journal lines at the end of `out` too. It takes at most 200,000 events.
    /// The event that meets the limit of frames was run, one that meets another limit was not.
    fn step(&mut self, event: &Event, out: &mut Lines) -> Result<(), StepFault>
        requires room { steps self.old < 200000 }
        ensures events { is_run result ≡ true → events self.new ≡ events self.old ++ event.now ∷ [] }
        ensures counted { is_run result ≡ true → steps self.new ≡ steps self.old + 1 }
        ensures left { is_left result ≡ true → (events self.new ≡ events self.old) × (steps self.new ≡ steps self.old) }
        ensures lines { is_written result ≡ true → (lines : List Line)
            × (journal self.new ≡ journal self.old ++ lines) × (out.new ≡ out.old ++ lines) }
        ensures limit { (which : which_type) → IsErrOf result (step_fault.Limit which) → EndsWithLimit which (journal self.new) };
}
