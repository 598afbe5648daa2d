// Calls that fail as planned.
ghost use Rattle.std.specs.Prelude.{◌≡◌, ◌+◌, ◌==◌, is_err, OnOk, OnErr};
ghost use Rattle.arj_io.specs.InMemory.{is_planned, counted};

use crate::Failed;
use arj_base::Numbers;

/// Which calls fail, by their numbers from 1, how many were made, and how many of them failed. Both counts stay
/// at their last value, past which no call has a number that could be planned.
#[derive(Drop)]
pub struct CallPlan {
    failing: Numbers,
    calls: u64,
    faults: u64,
}

impl CallPlan {
    /// No call was made.
    pub fn new(failing: Numbers) -> Self
        ensures { result ≡ record { failing = failing; calls = 0; faults = 0 } }
    {
        CallPlan {
            failing,
            calls: 0,
            faults: 0,
        }
    }

    /// Counts a call. It fails exactly where its number is planned to.
    pub fn call(&mut self) -> Result<(), Failed>
        ensures planned { is_err result ≡ is_planned self.old.failing (self.old.calls + 1) }
        ensures ok { OnOk result (self.new ≡ record self.old { calls = counted self.old.calls }) }
        ensures err { OnErr result (self.new
            ≡ record self.old { calls = counted self.old.calls; faults = counted self.old.faults }) }
    {
        let before = self.calls;
        self.calls = before.saturating_add(1);
        if is_number_after(self.failing.as_slice(), before) {
            self.faults = self.faults.saturating_add(1);
            return Err(Failed);
        }
        Ok(())
    }
}

// Whether the number of the call after so many calls is in the list.
fn is_number_after(failing: &[u64], calls: u64) -> bool
    ensures { result ≡ is_planned failing.now (calls + 1) }
{
    failing.iter().any(|n| follows(*n, calls))
}

// Whether n is the number after calls.
fn follows(n: u64, calls: u64) -> bool
    ensures { result ≡ (n == calls + 1) }
{
    n > calls && n - calls == 1
}
