//! Why no refutation was read.

ghost use Rattle.std.specs.Prelude.{◌≡◌};
ghost use Rattle.refutation.specs.declared.fault.RefutationFault.TheVariants.{NoMemory};

use std::alloc::{AllocError, AllocFailed};
use thiserror::Error;

/// Why no refutation was read.
#[derive(Clone, Copy, Debug, Drop, Error, PartialEq, Eq)]
pub enum RefutationFault {
    /// This line, from 1, is none that may stand there.
    #[error("bad line {0}")]
    BadLine(u64),
    /// A growth was refused.
    #[error("no memory")]
    NoMemory,
}

impl From<AllocError> for RefutationFault {
    ghost from_gives = { λ _ fault. fault ≡ NoMemory };

    fn from(_error: AllocError) -> RefutationFault {
        RefutationFault::NoMemory
    }
}
