// What the schedule gives its events to.
ghost use Rattle.std.specs.Prelude.{◌≡◌, ◌<◌, ℕ, List, OnOk, IsErrOf};
ghost use Rattle.arj_journal.specs.Stepping.{EndsWithLimit};
ghost use Rattle.arj_journal.specs.declared.body.Line.{Line};
ghost use Rattle.arj_journal.specs.declared.body.Which.{Which as which_type};
ghost use Rattle.arj_journal.specs.declared.event.Event.{Event as script_event};
ghost use Rattle.arj_journal.specs.declared.header.Header.{Header as script_header};
ghost use Rattle.arj_journal.specs.declared.step.StepFault.TheVariants as step_fault;
ghost use Rattle.arj_progrun.specs.Stepped.{Stepped, Stepping, written};

use arj_journal::{Event, Line, StepFault};

/// The nodes to which a schedule gives its events, over what they run on.
pub trait Nodes<R> {
    /// What was stepped.
    ghost stepped: { Self → R → Stepping };

    /// The lines of the last event.
    ghost last: { Self → List Line };

    /// Which events they take.
    ghost takes: { script_event → Type 0 };

    /// How they stand, where they began on this, under this header.
    ghost stands: { R → script_header → Self → R → Type 0 };

    /// How they stand where this limit was met.
    ghost ended: { which_type → R → script_header → Self → R → Type 0 };

    /// How what they run on is left where memory was wanting in an event.
    ghost left: { R → script_header → R → Type 0 };

    /// Steps an event. Limit: this limit was met, and the journal's last line says so.
    fn step(&mut self, event: &Event, on: &mut R) -> Result<(), StepFault>
        requires room { (let s = stepped self.old on.old in s.steps) < 200000 }
        requires takes { takes event.now }
        requires stands { (first : R) × (header : script_header) × stands first header self.old on.old }
        ensures stepped { OnOk result (Stepped (written event.now (last self.new)) (stepped self.old on.old) (stepped self.new on.new)) }
        ensures stands { OnOk result ((first : R) (header : script_header) → stands first header self.old on.old → stands first header self.new on.new) }
        ensures says { (which : which_type) → IsErrOf result (step_fault.Limit which) → EndsWithLimit which (let s = stepped self.new on.new in s.journal) }
        ensures ended { (which : which_type) → IsErrOf result (step_fault.Limit which) → (first : R) (header : script_header) → stands first header self.old on.old → ended which first header self.new on.new }
        ensures left { IsErrOf result step_fault.Memory → (first : R) (header : script_header) → stands first header self.old on.old → left first header on.new };

    /// The lines of the last event.
    fn lines(&self) -> &[Line]
        ensures { result.now ≡ last self.now };

    /// How many events were stepped.
    fn steps(&self, on: &R) -> u32
        ensures { result ≡ (let s = stepped self.now on.now in s.steps) };
}
