//! Why a line gave nothing.

ghost use Rattle.std.specs.Prelude.{◌≡◌};
ghost use Rattle.history.specs.declared.line_fault.LineFault.TheVariants.{NoMemory};
ghost use Rattle.history.specs.Gives.{line_fault_number};

use std::alloc::{AllocError, AllocFailed};
use thiserror::Error;

/// Why a line gave nothing.
#[derive(Clone, Copy, Debug, Drop, Error, PartialEq, Eq)]
pub enum LineFault {
    /// It is not the line of anything, fault 51.
    #[error("not such a line")]
    Malformed,
    /// A growth was refused, fault 11.
    #[error("no memory")]
    NoMemory,
}

impl LineFault {
    /// The number of the fault, 51 or 11.
    pub fn number(&self) -> u8
        ensures { result ≡ line_fault_number self.now }
    {
        match self {
            LineFault::Malformed => 51,
            LineFault::NoMemory => 11,
        }
    }
}

impl From<AllocError> for LineFault {
    ghost from_gives = { λ _ fault. fault ≡ NoMemory };

    fn from(_error: AllocError) -> LineFault {
        LineFault::NoMemory
    }
}

impl<T: Drop> From<AllocFailed<T>> for LineFault {
    ghost from_gives = { λ _ fault. fault ≡ NoMemory };

    fn from(_error: AllocFailed<T>) -> LineFault {
        LineFault::NoMemory
    }
}
