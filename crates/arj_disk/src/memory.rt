// Disks in memory.
ghost use Rattle.std.specs.Prelude.{◌≡◌, ◌⊎◌, ◌+◌, ◌<◌, ◌≤◌, None, Some, IfOk, OnOk, IsErrOf, IsSome};
ghost use Rattle.arj_disk.specs.Armed.{armed, due, FollowsArm, LeftBy, IsNew, files_of, stops_of, arms_of, last_arm_of, counts_of};
ghost use Rattle.arj_disk.specs.Disk.{Same, SameBut, Writes, Removes, Renames, Lists, CountsCall};
ghost use Rattle.arj_disk.specs.Stored.{stored};
ghost use Rattle.arj_disk.specs.declared.limits.TheConstants.{LAST_ARM};

use crate::files::{Arms, Files};
use crate::trigger::{Trigger, remove_stopped, rename_stopped, write_stopped};
use crate::{Disk, DiskFault, Outcome, Slot, Slots};
use arj_base::Bytes;
use std::alloc::Global;

/// A disk in memory. An arm makes the call that it names stop, with its outcome; no other call is stopped. A call
/// that finds no memory changes nothing and isn't counted.
#[derive(Drop)]
pub struct MemDisk {
    files: Files,
    trigger: Trigger,
}

impl MemDisk {
    /// No file, no stop and no arm.
    pub fn new(alloc: Global) -> MemDisk
        ensures { IsNew result }
    {
        MemDisk {
            files: Files::new(alloc),
            trigger: Trigger::new(),
        }
    }
}

impl Disk for MemDisk {
    ghost file = { files_of };

    ghost stops = { stops_of };

    ghost arms = { arms_of };

    ghost last_arm = { last_arm_of };

    fn read(&mut self, alloc: Global, slot: Slot) -> Result<Option<Bytes>, DiskFault>
        ensures bytes { IfOk result (λ found. found ≡ files_of self.old slot) }
        ensures files { Same (files_of self.old) (files_of self.new) }
        ensures counts { CountsCall (counts_of self.old) (counts_of self.new) result DiskFault.Stopped }
        ensures armed { FollowsArm (armed self.old) (armed self.new) result }
    {
        if self.trigger.due().is_some() {
            return Err(self.trigger.stop());
        }
        let found = self.files.read(alloc, slot)?;
        self.trigger.count();
        Ok(found)
    }

    fn write(&mut self, slot: Slot, bytes: &[u8]) -> Result<(), DiskFault>
        ensures ok { OnOk result (Writes (files_of self.old) (files_of self.new) slot bytes.now) }
        ensures files { SameBut (files_of self.old) (files_of self.new) slot }
        ensures memory { IsErrOf result DiskFault.Memory → Same (files_of self.old) (files_of self.new) }
        ensures counts { CountsCall (counts_of self.old) (counts_of self.new) result DiskFault.Stopped }
        ensures armed { FollowsArm (armed self.old) (armed self.new) result }
        // Undone, the write of these bytes, or that of the arm's bytes.
        ensures outcome { IsErrOf result DiskFault.Stopped → LeftBy (due (armed self.old)) (Same (files_of self.old) (files_of self.new))
            (Writes (files_of self.old) (files_of self.new) slot bytes.now) (Writes (files_of self.old) (files_of self.new) slot) }
    {
        if let Some(outcome) = self.trigger.due() {
            write_stopped(&mut self.files, outcome, slot, bytes)?;
            return Err(self.trigger.stop());
        }
        self.files.write(slot, bytes)?;
        self.trigger.count();
        Ok(())
    }

    fn rename(&mut self, from: Slot, to: Slot) -> Result<(), DiskFault>
        requires { IsSome (files_of self.old from) }
        ensures ok { OnOk result (Renames (files_of self.old) (files_of self.new) from to) }
        ensures files { Same (files_of self.old) (files_of self.new) ⊎ Renames (files_of self.old) (files_of self.new) from to }
        ensures memory { IsErrOf result DiskFault.Memory → Same (files_of self.old) (files_of self.new) }
        ensures counts { CountsCall (counts_of self.old) (counts_of self.new) result DiskFault.Stopped }
        ensures armed { FollowsArm (armed self.old) (armed self.new) result }
        ensures outcome { IsErrOf result DiskFault.Stopped → LeftBy (due (armed self.old)) (Same (files_of self.old) (files_of self.new))
            (Renames (files_of self.old) (files_of self.new) from to) (λ _. Same (files_of self.old) (files_of self.new)) }
    {
        if let Some(outcome) = self.trigger.due() {
            rename_stopped(&mut self.files, outcome, from, to)?;
            return Err(self.trigger.stop());
        }
        self.files.rename(from, to)?;
        self.trigger.count();
        Ok(())
    }

    fn remove(&mut self, slot: Slot) -> Result<(), DiskFault>
        ensures ok { OnOk result (Removes (files_of self.old) (files_of self.new) slot) }
        ensures files { Same (files_of self.old) (files_of self.new) ⊎ Removes (files_of self.old) (files_of self.new) slot }
        ensures memory { IsErrOf result DiskFault.Memory → ⊥ }
        ensures counts { CountsCall (counts_of self.old) (counts_of self.new) result DiskFault.Stopped }
        ensures armed { FollowsArm (armed self.old) (armed self.new) result }
        ensures outcome { IsErrOf result DiskFault.Stopped → LeftBy (due (armed self.old)) (Same (files_of self.old) (files_of self.new))
            (Removes (files_of self.old) (files_of self.new) slot) (λ _. Same (files_of self.old) (files_of self.new)) }
    {
        if let Some(outcome) = self.trigger.due() {
            remove_stopped(&mut self.files, outcome, slot);
            return Err(self.trigger.stop());
        }
        self.files.remove(slot);
        self.trigger.count();
        Ok(())
    }

    fn names(&mut self, alloc: Global) -> Result<Slots, DiskFault>
        ensures names { IfOk result (λ names. Lists (files_of self.old) names) }
        ensures files { Same (files_of self.old) (files_of self.new) }
        ensures counts { CountsCall (counts_of self.old) (counts_of self.new) result DiskFault.Stopped }
        ensures armed { FollowsArm (armed self.old) (armed self.new) result }
    {
        if self.trigger.due().is_some() {
            return Err(self.trigger.stop());
        }
        let names = self.files.names(alloc)?;
        self.trigger.count();
        Ok(names)
    }

    fn arm(&mut self, calls: u32, outcome: Outcome)
        requires calls { 1 ≤ calls }
        requires arms { arms_of self.old < LAST_ARM }
        ensures files { Same (files_of self.old) (files_of self.new) }
        ensures stops { stops_of self.new ≡ stops_of self.old }
        ensures arms { arms_of self.new ≡ arms_of self.old + 1 }
        ensures last_arm { last_arm_of self.new ≡ Some (calls, outcome) }
        ensures armed { armed self.new ≡ Some (calls, outcome) }
    {
        self.trigger.set(calls, outcome);
    }
}

/// A disk in memory that never stops: its count of stops is the constant 0. An arm is only recorded.
#[derive(Drop)]
pub struct SureDisk {
    files: Files,
    arms: Arms,
}

impl SureDisk {
    /// No file and no arm.
    pub fn new(alloc: Global) -> SureDisk
        ensures empty { (q : Slot) → ⟦<SureDisk as Disk>⟧.file result q ≡ None }
        ensures stops { ⟦<SureDisk as Disk>⟧.stops result ≡ 0 }
        ensures arms { ⟦<SureDisk as Disk>⟧.arms result ≡ 0 }
        ensures last_arm { ⟦<SureDisk as Disk>⟧.last_arm result ≡ None }
    {
        SureDisk {
            files: Files::new(alloc),
            arms: Arms::new(),
        }
    }
}

impl Disk for SureDisk {
    ghost file = { λ d. stored d.files };

    ghost stops = { λ _. 0 };

    ghost arms = { λ d. d.arms.count };

    ghost last_arm = { λ d. d.arms.last };

    fn read(&mut self, alloc: Global, slot: Slot) -> Result<Option<Bytes>, DiskFault> {
        Ok(self.files.read(alloc, slot)?)
    }

    fn write(&mut self, slot: Slot, bytes: &[u8]) -> Result<(), DiskFault> {
        self.files.write(slot, bytes)?;
        Ok(())
    }

    fn rename(&mut self, from: Slot, to: Slot) -> Result<(), DiskFault> {
        self.files.rename(from, to)?;
        Ok(())
    }

    fn remove(&mut self, slot: Slot) -> Result<(), DiskFault> {
        self.files.remove(slot);
        Ok(())
    }

    fn names(&mut self, alloc: Global) -> Result<Slots, DiskFault> {
        Ok(self.files.names(alloc)?)
    }

    fn arm(&mut self, calls: u32, outcome: Outcome) {
        self.arms.add(calls, outcome);
    }
}
