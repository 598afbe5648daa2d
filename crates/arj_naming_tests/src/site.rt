// The naming service over a disk that writes down its calls. What holds of the two stands in their types.
ghost use Rattle.std.specs.Prelude.{◌≡◌, IfOk};
ghost use Rattle.arj_journal.specs.ScriptForm.{HeaderInForm};
ghost use Rattle.arj_naming.specs.Calls.{IsSingle};
ghost use Rattle.arj_naming.specs.Kept.{StandsOn};

use crate::arming::arm_disk;
use arj_disk::{Disk, MemDisk, Outcome};
use arj_journal::{Header, Lines};
use arj_msg::{Bind, Bound, Confirm, Confirmed, Hello, RecordMsg, Recorded, Told};
use arj_naming::Naming;
use arj_part_tests::Recorder;
use arj_script::{Item, Reader, ScriptFault};
use arj_store::{ObjectStore, Read, ShadowStore, StoreFault};
use std::alloc::{AllocError, Global};
use std::marker::Model;
use thiserror::Error;

/// The naming service, its disk, and the lines so far. Naming stands on the disk.
#[derive(Drop)]
pub struct Site {
    pub alloc: Global,
    pub disk: Recorder,
    pub naming: Naming<ShadowStore>,
    pub out: Lines,
    pub arms: u8,
}

impl Model for Site {
    ghost use Rattle.std.specs.Prelude.{ℕ, ◌≤◌};
    ghost use Rattle.arj_disk.specs.declared.slot.Role.TheVariants as role;
    ghost use Rattle.arj_naming.specs.Files.{GivesEntries};
    ghost use Rattle.arj_naming.specs.Kept.{StandsOn};
    ghost use Rattle.arj_store.specs.OfFiles.{pair_of};

    ghost Value = { ℕ };

    ghost view = { λ s. s.arms };

    ghost invariant = { λ s. StandsOn ⟦<ShadowStore as ObjectStore>⟧ s.naming (⟦<Recorder as Disk>⟧.file s.disk)
        × GivesEntries (pair_of (⟦<Recorder as Disk>⟧.file s.disk) role.Names) × (⟦<Recorder as Disk>⟧.arms s.disk ≤ s.arms) };
}

/// A disk that naming leaves: a restart can begin on it.
#[derive(Drop)]
pub struct Left {
    pub disk: Recorder,
    pub arms: u8,
}

impl Model for Left {
    ghost use Rattle.std.specs.Prelude.{ℕ, ◌≤◌};
    ghost use Rattle.arj_store.specs.Formed.{FormedFor};
    ghost use Rattle.arj_disk.specs.declared.slot.Role.TheVariants as role;
    ghost use Rattle.arj_naming.specs.Files.{GivesEntries};
    ghost use Rattle.arj_store.specs.OfFiles.{pair_of};

    ghost Value = { ℕ };

    ghost view = { λ l. l.arms };

    ghost invariant = { λ l. FormedFor (⟦<Recorder as Disk>⟧.file l.disk) role.Names
        × GivesEntries (pair_of (⟦<Recorder as Disk>⟧.file l.disk) role.Names) × (⟦<Recorder as Disk>⟧.arms l.disk ≤ l.arms) };
}

/// Why there is no answer.
#[derive(Debug, Drop, Error)]
pub enum Fault {
    #[error("out of memory")]
    Memory,
    #[error("the disk was stopped")]
    Stopped,
    #[error("the header is bad")]
    Script,
}

impl From<AllocError> for Fault {
    fn from(_: AllocError) -> Self {
        Fault::Memory
    }
}

impl From<ScriptFault> for Fault {
    fn from(fault: ScriptFault) -> Self {
        match fault {
            ScriptFault::Bad => Fault::Script,
            ScriptFault::Memory => Fault::Memory,
        }
    }
}

impl From<StoreFault> for Fault {
    fn from(fault: StoreFault) -> Self {
        match fault {
            StoreFault::Stopped => Fault::Stopped,
            StoreFault::Memory => Fault::Memory,
        }
    }
}

/// A call that uses the disk answered, or the disk was stopped.
#[derive(Drop)]
pub enum Went<T> {
    Answered(Site, T),
    Stopped(Left),
}

// The header of object 1 with servers 2 and 3 and stores 2 and 3, and object 2 at node 3 alone.
fn header(alloc: Global) -> Result<Header, ScriptFault>
    ensures { IfOk result HeaderInForm }
{
    let mut reader = Reader::new(alloc);
    reader.line(b"nodes 4")?;
    reader.line(b"object 1 counter 0 servers 2,3 stores 2,3")?;
    reader.line(b"object 2 counter 0 servers 3 stores 3")?;
    match reader.line(b"run")? {
        Item::Run(header) => Ok(header),
        _ => Err(ScriptFault::Bad),
    }
}

// The entry of object 1 as the disk has it. The files stay.
fn read_entry(
    alloc: Global,
    naming: &Naming<ShadowStore>,
    disk: &mut Recorder,
) -> Result<Read, StoreFault>
    requires { StandsOn ⟦<ShadowStore as ObjectStore>⟧ naming.now (⟦<Recorder as Disk>⟧.file disk.old) }
    ensures files { ⟦<Recorder as Disk>⟧.file disk.new ≡ ⟦<Recorder as Disk>⟧.file disk.old }
    ensures arms { ⟦<Recorder as Disk>⟧.arms disk.new ≡ ⟦<Recorder as Disk>⟧.arms disk.old }
{
    naming.entry(alloc, disk, 1)
}

impl Site {
    /// Naming of a new run, in incarnation 1.
    pub fn format(alloc: Global) -> Result<Site, Fault> {
        let mut disk = Recorder {
            disk: MemDisk::new(alloc),
            calls: Vec::new(alloc),
        };
        let header = header(alloc)?;
        let naming = Naming::<ShadowStore>::format(alloc, &mut disk, &header)?;
        Ok(Site {
            alloc,
            disk,
            naming,
            out: Lines::new(alloc),
            arms: 0,
        })
    }

    /// Naming of incarnation 2, restarted on what is left.
    pub fn recover(alloc: Global, left: Left) -> Result<Site, Fault> {
        let Left { mut disk, arms } = left;
        disk.calls.clear();
        let mut out = Lines::new(alloc);
        let naming = Naming::<ShadowStore>::recover(alloc, &mut disk, 2, &mut out)?;
        Ok(Site {
            alloc,
            disk,
            naming,
            out,
            arms,
        })
    }

    /// Lets naming go. Its disk stays.
    pub fn leave(self) -> Left {
        let Site { disk, arms, .. } = self;
        Left { disk, arms }
    }

    /// Forgets the disk's calls.
    pub fn clear(self) -> Site {
        let Site {
            alloc,
            mut disk,
            naming,
            out,
            arms,
        } = self;
        disk.calls.clear();
        Site {
            alloc,
            disk,
            naming,
            out,
            arms,
        }
    }

    /// Arms the disk: a call from now on stops so. A disk takes 255 arms.
    pub fn arm(self, calls: u32, outcome: Outcome) -> Option<Site> {
        let Site {
            alloc,
            mut disk,
            naming,
            out,
            arms,
        } = self;
        let arms = arms.checked_add(1)?;
        arm_disk(&mut disk, calls, outcome);
        Some(Site {
            alloc,
            disk,
            naming,
            out,
            arms,
        })
    }

    pub fn bind(self, m: &Bind) -> Result<(Site, Option<Bound>), AllocError> {
        let Site {
            alloc,
            disk,
            mut naming,
            mut out,
            arms,
        } = self;
        let reply = naming.bind(m, &mut out)?;
        let site = Site {
            alloc,
            disk,
            naming,
            out,
            arms,
        };
        Ok((site, reply))
    }

    pub fn note(self, m: &RecordMsg) -> Result<(Site, Option<Recorded>), AllocError> {
        let Site {
            alloc,
            disk,
            mut naming,
            mut out,
            arms,
        } = self;
        let reply = naming.note(m, &mut out)?;
        let site = Site {
            alloc,
            disk,
            naming,
            out,
            arms,
        };
        Ok((site, reply))
    }

    pub fn hello(self, m: &Hello) -> Site {
        let Site {
            alloc,
            disk,
            mut naming,
            out,
            arms,
        } = self;
        naming.hello(m);
        Site {
            alloc,
            disk,
            naming,
            out,
            arms,
        }
    }

    pub fn confirm(self, m: &Confirm) -> Result<Went<Option<Confirmed>>, AllocError>
        requires { IsSingle m.now }
    {
        let Site {
            alloc,
            mut disk,
            mut naming,
            mut out,
            arms,
        } = self;
        match naming.confirm(&mut disk, m, &mut out) {
            Ok(reply) => {
                let site = Site {
                    alloc,
                    disk,
                    naming,
                    out,
                    arms,
                };
                Ok(Went::Answered(site, reply))
            }
            Err(StoreFault::Stopped) => Ok(Went::Stopped(Left { disk, arms })),
            Err(StoreFault::Memory) => Err(AllocError),
        }
    }

    pub fn told(self, m: &Told) -> Result<Went<()>, AllocError> {
        let Site {
            alloc,
            mut disk,
            mut naming,
            mut out,
            arms,
        } = self;
        match naming.told(&mut disk, m, &mut out) {
            Ok(()) => {
                let site = Site {
                    alloc,
                    disk,
                    naming,
                    out,
                    arms,
                };
                Ok(Went::Answered(site, ()))
            }
            Err(StoreFault::Stopped) => Ok(Went::Stopped(Left { disk, arms })),
            Err(StoreFault::Memory) => Err(AllocError),
        }
    }

    /// The stores of object 1, as naming reads them from the disk: each a digit. None where the entry is in doubt.
    pub fn stores(self) -> Result<(Site, Option<u64>), StoreFault> {
        let Site {
            alloc,
            mut disk,
            naming,
            out,
            arms,
        } = self;
        let read = read_entry(alloc, &naming, &mut disk)?;
        let stores = stores_of(&read);
        let site = Site {
            alloc,
            disk,
            naming,
            out,
            arms,
        };
        Ok((site, stores))
    }
}

// Some nodes, each as a digit.
fn digits(nodes: &[u8]) -> u64 {
    let mut digits = 0u64;
    for node in nodes {
        digits = digits.saturating_mul(10).saturating_add(u64::from(*node));
    }
    digits
}

// The stores of an entry: behind the servers, and a count for each.
fn stores_of(read: &Read) -> Option<u64> {
    let Read::State(state) = read else {
        return None;
    };
    match state.payload.as_slice() {
        [2, _, _, _, stores @ ..] => Some(digits(stores)),
        _ => None,
    }
}
