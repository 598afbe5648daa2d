// What a store answers.
ghost use Rattle.arj_store.specs.Pair.{FindsNothing};

use arj_base::{ObjectState, Seq, States, Uid};
use arj_disk::DiskFault;
use std::alloc::{AllocError, AllocFailed, Global};
use thiserror::Error;

/// Prepared actions, each with its new states in the order in which it prepared them.
pub type Pends = Seq<(Uid, States)>;

/// The answer to a read of a committed state.
#[derive(Drop)]
pub enum Read {
    State(ObjectState),
    /// There is no committed state of the object.
    Absent,
    /// This action has prepared a new state, and isn't ended here.
    InDoubt { holder: Uid },
}

/// The answer to a prepare.
#[derive(Clone, Copy, Debug, PartialEq, Eq)]
pub enum Prep {
    Prepared,
    /// Another action has prepared the object.
    InDoubt { uid: Uid, holder: Uid },
    /// The committed state has this version, and it is above the one that was sent, or equal with other bytes.
    Old { uid: Uid, held: u64 },
    /// The action itself wrote the committed state.
    Already { uid: Uid, act: Uid },
}

/// Why a store call gave no answer. The store isn't used again: it is recovered from the disk.
#[derive(Debug, Drop, Error)]
pub enum StoreFault {
    /// The disk was stopped, and the node with it.
    #[error("the disk was stopped")]
    Stopped,
    #[error("out of memory")]
    Memory,
}

impl From<AllocError> for StoreFault {
    ghost use Rattle.std.specs.Prelude.{◌≡◌};
    ghost use Rattle.arj_store.specs.declared.answer.StoreFault.TheVariants.{Memory};

    ghost from_gives = { λ _ e. e ≡ Memory };

    fn from(_: AllocError) -> Self {
        StoreFault::Memory
    }
}

impl<T: Drop> From<AllocFailed<T>> for StoreFault {
    ghost use Rattle.std.specs.Prelude.{◌≡◌};
    ghost use Rattle.arj_store.specs.declared.answer.StoreFault.TheVariants.{Memory};

    ghost from_gives = { λ _ e. e ≡ Memory };

    fn from(_: AllocFailed<T>) -> Self {
        StoreFault::Memory
    }
}

impl From<DiskFault> for StoreFault {
    ghost use Rattle.std.specs.Prelude.{◌≡◌};
    ghost use Rattle.arj_store.specs.Fault.{fault_of};

    ghost from_gives = { λ fault e. e ≡ fault_of fault };

    fn from(fault: DiskFault) -> Self {
        match fault {
            DiskFault::Stopped => StoreFault::Stopped,
            DiskFault::Memory => StoreFault::Memory,
        }
    }
}

/// What a recovery found on the disk for the naming service: the committed entries by Uid, and the prepared actions by
/// Uid with their new entries.
#[derive(Drop)]
pub struct Found {
    pub committed: States,
    pub prepared: Pends,
}

impl Found {
    /// Nothing was found.
    pub fn new(alloc: Global) -> Found
        ensures { FindsNothing result }
    {
        Found {
            committed: States::new(alloc),
            prepared: Pends::new(alloc),
        }
    }
}
