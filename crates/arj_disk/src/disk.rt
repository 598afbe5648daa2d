// The disk as the layers above see it.
ghost use Rattle.std.specs.Prelude.{◌≡◌, ◌≢◌, ◌⊎◌, ◌+◌, ◌<◌, ◌≤◌, ℕ, List, Option, IfOk, OnOk, IsErrOf, IsSome};
ghost use Rattle.arj_disk.specs.Disk.{Same, SameBut, Writes, Removes, Renames, Lists, CountsCall, counted};
ghost use Rattle.arj_disk.specs.declared.slot.Slot.{Slot};
ghost use Rattle.arj_disk.specs.declared.slot.Outcome.{Outcome};
ghost use Rattle.arj_disk.specs.declared.limits.TheConstants.{LAST_ARM};

use crate::{Outcome, Slot, Slots};
use arj_base::Bytes;
use std::alloc::{AllocError, AllocFailed, Global};
use thiserror::Error;

/// Why a disk call gave no answer.
#[derive(Debug, Drop, Error)]
pub enum DiskFault {
    /// The call was stopped, and its node with it.
    #[error("the disk was stopped")]
    Stopped,
    #[error("out of memory")]
    Memory,
}

impl From<AllocError> for DiskFault {
    ghost use Rattle.arj_disk.specs.declared.disk.DiskFault.TheVariants.{Memory};

    ghost from_gives = { λ _ e. e ≡ Memory };

    fn from(_: AllocError) -> Self {
        DiskFault::Memory
    }
}

impl<T: Drop> From<AllocFailed<T>> for DiskFault {
    ghost use Rattle.arj_disk.specs.declared.disk.DiskFault.TheVariants.{Memory};

    ghost from_gives = { λ _ e. e ≡ Memory };

    fn from(_: AllocFailed<T>) -> Self {
        DiskFault::Memory
    }
}

/// Files under names. A call is stable when it has returned. A stopped call halts its node.
pub trait Disk {
    /// The files.
    ghost file: { Self → Slot → Option (List ℕ) };

    /// How often a call was stopped.
    ghost stops: { Self → ℕ };

    /// How often `arm` was called.
    ghost arms: { Self → ℕ };

    /// What `arm` was last called with.
    ghost last_arm: { Self → Option (ℕ × Outcome) };

    /// The bytes of a file; `None` where there is none.
    fn read(&mut self, alloc: Global, slot: Slot) -> Result<Option<Bytes>, DiskFault>
        ensures bytes { IfOk result (λ found. found ≡ file self.old slot) }
        ensures files { Same (file self.old) (file self.new) }
        ensures counts { CountsCall (counted stops arms last_arm self.old) (counted stops arms last_arm self.new) result DiskFault.Stopped };

    /// Writes a whole file over what is there. Stopped, it leaves any bytes under the name, or no file.
    fn write(&mut self, slot: Slot, bytes: &[u8]) -> Result<(), DiskFault>
        ensures ok { OnOk result (Writes (file self.old) (file self.new) slot bytes.now) }
        ensures files { SameBut (file self.old) (file self.new) slot }
        ensures memory { IsErrOf result DiskFault.Memory → Same (file self.old) (file self.new) }
        ensures counts { CountsCall (counted stops arms last_arm self.old) (counted stops arms last_arm self.new) result DiskFault.Stopped };

    /// Gives a file another name, in the place of what has it. Stopped, it leaves the files before it or after it.
    fn rename(&mut self, from: Slot, to: Slot) -> Result<(), DiskFault>
        requires { IsSome (file self.old from) }
        ensures ok { OnOk result (Renames (file self.old) (file self.new) from to) }
        ensures files { Same (file self.old) (file self.new) ⊎ Renames (file self.old) (file self.new) from to }
        ensures memory { IsErrOf result DiskFault.Memory → Same (file self.old) (file self.new) }
        ensures counts { CountsCall (counted stops arms last_arm self.old) (counted stops arms last_arm self.new) result DiskFault.Stopped };

    /// Removes a file; one that isn't there is no change. It takes no memory. Stopped, it leaves the files before
    /// it or after it.
    fn remove(&mut self, slot: Slot) -> Result<(), DiskFault>
        ensures ok { OnOk result (Removes (file self.old) (file self.new) slot) }
        ensures files { Same (file self.old) (file self.new) ⊎ Removes (file self.old) (file self.new) slot }
        ensures memory { IsErrOf result DiskFault.Memory → ⊥ }
        ensures counts { CountsCall (counted stops arms last_arm self.old) (counted stops arms last_arm self.new) result DiskFault.Stopped };

    /// The names that have a file, in increasing order.
    fn names(&mut self, alloc: Global) -> Result<Slots, DiskFault>
        ensures names { IfOk result (λ names. Lists (file self.old) names) }
        ensures files { Same (file self.old) (file self.new) }
        ensures counts { CountsCall (counted stops arms last_arm self.old) (counted stops arms last_arm self.new) result DiskFault.Stopped };

    /// Asks for a stop: of the `calls`-th call from now, with this outcome. It replaces an earlier arm. Whether the
    /// disk then stops is the disk's own.
    fn arm(&mut self, calls: u32, outcome: Outcome)
        requires calls { 1 ≤ calls }
        requires arms { arms self.old < LAST_ARM }
        ensures files { Same (file self.old) (file self.new) }
        ensures stops { stops self.new ≡ stops self.old }
        ensures arms { arms self.new ≡ arms self.old + 1 }
        ensures last_arm { last_arm self.new ≡ Some (calls, outcome) };
}
