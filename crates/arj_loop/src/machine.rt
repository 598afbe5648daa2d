// What runs the events of a script.
ghost use Rattle.std.specs.Prelude.{◌≡◌, ◌<◌, ◌+◌, ◌∷◌, [], ◌++◌, false, true, ℕ, Bool, List, length, OnOk, OnErr, IfOk, IsErrOf};
ghost use Rattle.arj_journal.specs.ScriptForm.{EventInForm, HeaderInForm};
ghost use Rattle.arj_journal.specs.declared.body.Line.{Line};
ghost use Rattle.arj_journal.specs.declared.event.Event.{Event as script_event};
ghost use Rattle.arj_journal.specs.declared.header.Header.{Header as script_header};
ghost use Rattle.arj_loop.specs.Limits.{EndsAtFrames};
ghost use Rattle.arj_loop.specs.declared.limits.TheConstants.{MOST_EVENTS};

use arj_disk::{Disk, Rack};
use arj_journal::{Event, Header, Lines};
use std::alloc::Global;
use thiserror::Error;

/// Why a machine wasn't made.
#[derive(Debug, Drop, Error)]
pub enum StartFault {
    #[error("a disk was stopped while it was formatted")]
    Stopped,
    #[error("out of memory")]
    Memory,
}

/// Why an event was not run to its end, or no other may follow it.
#[derive(Debug, Drop, Error)]
pub enum EventFault {
    /// It would give one label too many, and wasn't run.
    #[error("too many labels")]
    Labels,
    /// It was run, and a frame didn't fit. The journal's last line says so.
    #[error("too many frames")]
    Frames,
    /// Memory is wanting. The machine isn't used again.
    #[error("out of memory")]
    Memory,
}

/// What runs the events of a script over a rack of disks.
pub trait Machine<D: Disk>: Sized + Drop {
    /// The disks on which it may start.
    ghost ready: { List D → Type 0 };

    /// What it has run: from these disks on, under this header, these events, to these disks and with this journal.
    ghost ran: { List D → script_header → List script_event → List D → List Line → Self → Type 0 };

    /// How many events it has run.
    ghost steps: { Self → ℕ };

    /// Where the event would give one label too many, under this header and with these disks.
    ghost is_full: { script_header → script_event → List D → Self → Type 0 };

    /// What a call that runs these events under this header may do to the disks.
    ghost moved: { script_header → List script_event → List D → List D → Type 0 };

    /// What it did to them where a disk was stopped while it was formatted.
    ghost stopped: { List D → List D → Type 0 };

    /// Whether a frame didn't fit: no other event may follow.
    ghost over: { Self → Bool };

    /// Formats the disks.
    fn format(alloc: Global, header: Header, rack: &mut Rack<D>) -> Result<Self, StartFault>
        requires form { HeaderInForm header }
        requires ready { ready rack.old }
        ensures made { IfOk result (λ machine. ran rack.old header [] rack.new [] machine × (steps machine ≡ 0) × (over machine ≡ false)) }
        ensures stopped { IsErrOf result StartFault.Stopped → stopped rack.old rack.new }
        ensures moved { moved header [] rack.old rack.new };

    /// How many events were run.
    fn stepped(&self) -> u32
        ensures { result ≡ steps self.now };

    /// Whether a frame didn't fit.
    fn is_over(&self) -> bool
        ensures { result ≡ over self.now };

    /// Runs an event: its lines go to the end of the journal.
    fn step(
        &mut self,
        event: Event,
        rack: &mut Rack<D>,
        journal: &mut Lines,
    ) -> Result<(), EventFault>
        requires form { EventInForm event }
        requires room { steps self.old < MOST_EVENTS }
        requires going { over self.old ≡ false }
        requires ran { (first : List D) × (header : script_header) × (events : List script_event) × ran first header events rack.old journal.old self.old }
        ensures ran { OnOk result ((first : List D) (header : script_header) (events : List script_event) → ran first header events rack.old journal.old self.old
            → ran first header (events ++ event ∷ []) rack.new journal.new self.new) }
        ensures grown { OnOk result ((steps self.new ≡ steps self.old + 1) × ((lines : List Line) × (journal.new ≡ journal.old ++ lines))) }
        ensures going { OnOk result (over self.new ≡ false) }
        ensures labels { IsErrOf result EventFault.Labels → (first : List D) (header : script_header) (events : List script_event) → ran first header events rack.old journal.old self.old
            → ran first header events rack.new journal.new self.new × is_full header event rack.new self.new }
        ensures kept { IsErrOf result EventFault.Labels → (steps self.new ≡ steps self.old) × (over self.new ≡ false) × (journal.new ≡ journal.old) }
        ensures frames { IsErrOf result EventFault.Frames → (first : List D) (header : script_header) (events : List script_event) → ran first header events rack.old journal.old self.old
            → ran first header (events ++ event ∷ []) rack.new journal.new self.new }
        ensures overflown { IsErrOf result EventFault.Frames → (over self.new ≡ true) × (steps self.new ≡ steps self.old + 1) × ((lines : List Line) × (journal.new ≡ journal.old ++ lines)) × EndsAtFrames journal.new }
        ensures moved { (first : List D) (header : script_header) (events : List script_event) → ran first header events rack.old journal.old self.old → moved header (event ∷ []) rack.old rack.new };
}
