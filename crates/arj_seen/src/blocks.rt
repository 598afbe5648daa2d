// What a line of a script led to.
ghost use Rattle.std.specs.Prelude.{◌≡◌, ◌++◌, ◌≤◌};
ghost use Rattle.std.specs.List.{AllByRecursion};

use crate::Asked;
use arj_journal::Line;

// The lines of a journal up to an event's last one, and those behind them.
fn split_event(lines: &[Line], event: u32) -> (&[Line], &[Line])
    ensures whole { lines.now ≡ result.0.now ++ result.1.now }
    ensures front { AllByRecursion (λ line. line.event ≤ event) result.0.now }
{
    for (at, line) in lines.iter().enumerate() {
        if event < line.event {
            return (&lines[..at], &lines[at..]);
        }
    }
    (lines, &[])
}

impl Asked {
    ghost use Rattle.std.specs.Prelude.{◌≡◌, ◌++◌};

    /// The number of the event that a line of a script asks for, or of the last one before it, by that before it.
    pub fn event_after(self, before: u32) -> u32 {
        match self {
            Asked::Nothing => before,
            Asked::Settling | Asked::Event => before.saturating_add(1),
        }
    }

    /// Of the lines of a journal that are left, those up to the last one of the event that a line of a script asks for, and those
    /// behind them.
    pub fn split(self, lines: &[Line], event: u32) -> (&[Line], &[Line])
        ensures { lines.now ≡ result.0.now ++ result.1.now }
    {
        match self {
            Asked::Nothing => (&[], lines),
            Asked::Settling | Asked::Event => split_event(lines, event),
        }
    }
}
