// What a source or a sink answers at a fault.

use thiserror::Error;

/// A read or a write failed, and the count of faults of its source or sink says so.
#[derive(Debug, Clone, Copy, PartialEq, Eq, Error)]
#[error("the read or the write failed")]
pub struct Failed;
