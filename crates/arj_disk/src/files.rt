// The files of a disk in memory, and its record of arms.
ghost use Rattle.std.specs.Prelude.{◌≡◌, ◌+◌, ◌<◌, OnOk, OnErr, IfOk, IsSome};
ghost use Rattle.arj_disk.specs.Disk.{Same, Writes, Removes, Renames, Lists};
ghost use Rattle.arj_disk.specs.Stored.{stored};
ghost use Rattle.arj_disk.specs.declared.limits.TheConstants.{LAST_ARM};

use crate::{Outcome, Slot, Slots};
use arj_base::Bytes;
use std::alloc::{AllocError, Global};
use std::collections::BTreeMap;

/// Files in memory, ordered by their names.
#[derive(Drop)]
pub struct Files {
    alloc: Global,
    map: BTreeMap<Slot, Bytes>,
}

impl Files {
    ghost use Rattle.arj_disk.specs.Stored.{stored};

    /// No file.
    pub fn new(alloc: Global) -> Files
        ensures { (q : Slot) → stored result q ≡ None }
    {
        Files {
            alloc,
            map: BTreeMap::new(alloc),
        }
    }

    /// A copy of a file.
    pub fn read(&self, alloc: Global, slot: Slot) -> Result<Option<Bytes>, AllocError>
        ensures { IfOk result (λ found. found ≡ stored self.now slot) }
    {
        let Some(bytes) = self.map.get(&slot) else {
            return Ok(None);
        };
        Ok(Some(copied(alloc, bytes.as_slice())?))
    }

    /// Puts a copy of the bytes under the name.
    pub fn write(&mut self, slot: Slot, bytes: &[u8]) -> Result<(), AllocError>
        ensures ok { OnOk result (Writes (stored self.old) (stored self.new) slot bytes.now) }
        ensures err { OnErr result (Same (stored self.old) (stored self.new)) }
    {
        let file = copied(self.alloc, bytes)?;
        self.insert(slot, file)
    }

    fn insert(&mut self, slot: Slot, file: Bytes) -> Result<(), AllocError>
        ensures ok { OnOk result (Writes (stored self.old) (stored self.new) slot file) }
        ensures err { OnErr result (Same (stored self.old) (stored self.new)) }
    {
        self.map.insert(slot, file)?;
        Ok(())
    }

    /// Gives a file another name. The file is copied first, so that want of memory changes nothing.
    pub fn rename(&mut self, from: Slot, to: Slot) -> Result<(), AllocError>
        requires { IsSome (stored self.old from) }
        ensures ok { OnOk result (Renames (stored self.old) (stored self.new) from to) }
        ensures err { OnErr result (Same (stored self.old) (stored self.new)) }
    {
        let file = copied(self.alloc, self.map[&from].as_slice())?;
        self.insert(to, file)?;
        if from != to {
            self.remove(from);
        }
        Ok(())
    }

    /// Removes a file, if it is there.
    pub fn remove(&mut self, slot: Slot)
        ensures { Removes (stored self.old) (stored self.new) slot }
    {
        self.map.remove(&slot);
    }

    /// The names in increasing order.
    pub fn names(&self, alloc: Global) -> Result<Slots, AllocError>
        ensures { IfOk result (λ names. Lists (stored self.now) names) }
    {
        let mut names = Slots::new(alloc);
        for slot in self.map.keys() {
            names.push(*slot)?;
        }
        Ok(names)
    }
}

fn copied(alloc: Global, bytes: &[u8]) -> Result<Bytes, AllocError>
    ensures { IfOk result (λ copy. copy ≡ bytes.now) }
{
    let mut copy = Bytes::new(alloc);
    copy.extend(bytes)?;
    Ok(copy)
}

/// The record of a disk's arms.
#[derive(Drop)]
pub struct Arms {
    pub count: u32,
    pub last: Option<(u32, Outcome)>,
}

impl Arms {
    /// None yet.
    pub fn new() -> Arms
        ensures none { result.count ≡ 0 }
        ensures nothing { result.last ≡ None }
    {
        Arms {
            count: 0,
            last: None,
        }
    }

    /// One more, with these arguments.
    pub fn add(&mut self, calls: u32, outcome: Outcome)
        requires { self.old.count < LAST_ARM }
        ensures count { self.new.count ≡ self.old.count + 1 }
        ensures last { self.new.last ≡ Some (calls, outcome) }
    {
        self.count += 1;
        self.last = Some((calls, outcome));
    }
}
