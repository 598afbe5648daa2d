// Why bytes are no message.
use std::alloc::{AllocError, AllocFailed};
use thiserror::Error;

/// Why bytes were not decoded.
#[derive(Debug, Drop, Error)]
pub enum MsgFault {
    /// They are no message. The place, counted in bytes from 0, is where the first field begins that the bytes don't
    /// hold whole or whose value isn't allowed; where bytes follow a whole message it is that message's length.
    #[error("not a message from byte {0} on")]
    At(u32),
    /// Memory is wanting.
    #[error("out of memory")]
    Memory,
}

/// Why a field was not read.
#[derive(Debug, Drop)]
pub(crate) enum ReadFault {
    /// So many bytes are left from the first bad field on.
    Left(usize),
    /// Memory is wanting.
    Memory,
}

impl From<AllocError> for ReadFault {
    ghost use Rattle.std.specs.Prelude.{◌≡◌};
    ghost use Rattle.arj_msg.specs.declared.fault.ReadFault.TheVariants.{Memory};

    ghost from_gives = { λ _ e. e ≡ Memory };

    fn from(_: AllocError) -> ReadFault {
        ReadFault::Memory
    }
}

impl<T: Drop> From<AllocFailed<T>> for ReadFault {
    ghost use Rattle.std.specs.Prelude.{◌≡◌};
    ghost use Rattle.arj_msg.specs.declared.fault.ReadFault.TheVariants.{Memory};

    ghost from_gives = { λ _ e. e ≡ Memory };

    fn from(_: AllocFailed<T>) -> ReadFault {
        ReadFault::Memory
    }
}
