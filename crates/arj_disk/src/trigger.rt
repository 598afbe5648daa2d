// What makes a disk in memory stop.
ghost use Rattle.std.specs.Prelude.{◌≡◌, ◌+◌, ◌<◌, ◌≤◌, None, Some, OnOk, OnErr, IsSome, option_copied};
ghost use Rattle.arj_base.specs.Count.{Rose};
ghost use Rattle.arj_disk.specs.Armed.{armed_by, due, one_less, LeftBy};
ghost use Rattle.arj_disk.specs.Disk.{Same, Writes, Removes, Renames};
ghost use Rattle.arj_disk.specs.Stored.{stored};
ghost use Rattle.arj_disk.specs.declared.limits.TheConstants.{LAST_ARM};

use crate::files::{Arms, Files};
use crate::{DiskFault, Outcome, Slot};
use std::alloc::AllocError;

/// A disk's arms, the one that waits among them, and its stops.
#[derive(Drop)]
pub struct Trigger {
    pub arms: Arms,
    pub stops: u64,
    /// How many calls there are to the one that is stopped, that one counted; 0 where no arm waits.
    pub left: u32,
}

impl Trigger {
    /// No arm and no stop.
    pub fn new() -> Trigger
        ensures arms { result.arms.count ≡ 0 }
        ensures last { result.arms.last ≡ None }
        ensures stops { result.stops ≡ 0 }
        ensures waits { result.left ≡ 0 }
    {
        Trigger {
            arms: Arms::new(),
            stops: 0,
            left: 0,
        }
    }

    /// The outcome with which the next call is stopped; `None` where it isn't.
    pub fn due(&self) -> Option<&Outcome>
        ensures { option_copied result ≡ due (armed_by self.now.left self.now.arms.last) }
    {
        match &self.arms.last {
            Some((_, outcome)) if self.left == 1 => Some(outcome),
            _ => None,
        }
    }

    /// Counts a call that wasn't stopped.
    pub fn count(&mut self)
        requires { due (armed_by self.old.left self.old.arms.last) ≡ None }
        ensures arms { self.new.arms ≡ self.old.arms }
        ensures stops { self.new.stops ≡ self.old.stops }
        ensures waits { armed_by self.new.left self.new.arms.last ≡ one_less (armed_by self.old.left self.old.arms.last) }
    {
        self.left = self.left.saturating_sub(1);
    }

    /// Counts a stop, by which the arm is spent.
    pub fn stop(&mut self) -> DiskFault
        ensures fault { result ≡ DiskFault.Stopped }
        ensures arms { self.new.arms ≡ self.old.arms }
        ensures rose { Rose self.old.stops self.new.stops }
        ensures later { self.old.stops ≤ self.new.stops }
        ensures waits { self.new.left ≡ 0 }
    {
        self.left = 0;
        self.stops = self.stops.saturating_add(1);
        DiskFault::Stopped
    }

    /// One more arm, in the place of the one that waits.
    pub fn set(&mut self, calls: u32, outcome: Outcome)
        requires { self.old.arms.count < LAST_ARM }
        ensures count { self.new.arms.count ≡ self.old.arms.count + 1 }
        ensures last { self.new.arms.last ≡ Some (calls, outcome) }
        ensures stops { self.new.stops ≡ self.old.stops }
        ensures waits { self.new.left ≡ calls }
    {
        self.arms.add(calls, outcome);
        self.left = calls;
    }
}

/// What a stopped write leaves.
pub fn write_stopped(
    files: &mut Files,
    outcome: &Outcome,
    slot: Slot,
    bytes: &[u8],
) -> Result<(), AllocError>
    ensures ok { OnOk result (LeftBy (Some outcome.now) (Same (stored files.old) (stored files.new)) (Writes (stored files.old) (stored files.new) slot bytes.now)
        (Writes (stored files.old) (stored files.new) slot)) }
    ensures err { OnErr result (Same (stored files.old) (stored files.new)) }
{
    match outcome {
        Outcome::Undone => Ok(()),
        Outcome::Done => files.write(slot, bytes),
        Outcome::Torn(torn) => files.write(slot, torn.as_slice()),
    }
}

/// What a stopped rename leaves.
pub fn rename_stopped(
    files: &mut Files,
    outcome: &Outcome,
    from: Slot,
    to: Slot,
) -> Result<(), AllocError>
    requires { IsSome (stored files.old from) }
    ensures ok { OnOk result (LeftBy (Some outcome.now) (Same (stored files.old) (stored files.new)) (Renames (stored files.old) (stored files.new) from to)
        (λ _. Same (stored files.old) (stored files.new))) }
    ensures err { OnErr result (Same (stored files.old) (stored files.new)) }
{
    match outcome {
        Outcome::Done => files.rename(from, to),
        Outcome::Undone | Outcome::Torn(_) => Ok(()),
    }
}

/// What a stopped removal leaves.
pub fn remove_stopped(files: &mut Files, outcome: &Outcome, slot: Slot)
    ensures { LeftBy (Some outcome.now) (Same (stored files.old) (stored files.new)) (Removes (stored files.old) (stored files.new) slot)
        (λ _. Same (stored files.old) (stored files.new)) }
{
    match outcome {
        Outcome::Done => files.remove(slot),
        Outcome::Undone | Outcome::Torn(_) => {}
    }
}
