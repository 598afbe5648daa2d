// A disk for tests that writes down which calls it gets.
use arj_base::Bytes;
use arj_disk::{Disk, DiskFault, MemDisk, Outcome, Slot, Slots};
use std::alloc::Global;

/// One call of a disk.
#[derive(Clone, Copy, Debug, PartialEq, Eq)]
pub enum Did {
    Read(Slot),
    Write(Slot),
    Rename(Slot, Slot),
    Remove(Slot),
    Names,
}

/// A disk in memory, with its calls so far. One that there was no memory for isn't among them.
#[derive(Drop)]
pub struct Recorder {
    pub disk: MemDisk,
    pub calls: Vec<Did>,
}

// Puts a call at the end, where there is memory for it.
fn note(calls: &mut Vec<Did>, call: Did) {
    let _ = calls.push(call);
}

impl Disk for Recorder {
    ghost file = { λ d. ⟦<MemDisk as Disk>⟧.file d.disk };

    ghost stops = { λ d. ⟦<MemDisk as Disk>⟧.stops d.disk };

    ghost arms = { λ d. ⟦<MemDisk as Disk>⟧.arms d.disk };

    ghost last_arm = { λ d. ⟦<MemDisk as Disk>⟧.last_arm d.disk };

    fn read(&mut self, alloc: Global, slot: Slot) -> Result<Option<Bytes>, DiskFault> {
        note(&mut self.calls, Did::Read(slot));
        self.disk.read(alloc, slot)
    }

    fn write(&mut self, slot: Slot, bytes: &[u8]) -> Result<(), DiskFault> {
        note(&mut self.calls, Did::Write(slot));
        self.disk.write(slot, bytes)
    }

    fn rename(&mut self, from: Slot, to: Slot) -> Result<(), DiskFault> {
        note(&mut self.calls, Did::Rename(from, to));
        self.disk.rename(from, to)
    }

    fn remove(&mut self, slot: Slot) -> Result<(), DiskFault> {
        note(&mut self.calls, Did::Remove(slot));
        self.disk.remove(slot)
    }

    fn names(&mut self, alloc: Global) -> Result<Slots, DiskFault> {
        note(&mut self.calls, Did::Names);
        self.disk.names(alloc)
    }

    fn arm(&mut self, calls: u32, outcome: Outcome) {
        self.disk.arm(calls, outcome);
    }
}
