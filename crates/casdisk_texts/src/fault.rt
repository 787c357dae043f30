//! Why a run ended before the end of its input.

ghost use Rattle.std.specs.Prelude.{◌≡◌};
ghost use Rattle.casdisk_texts.specs.Fault.{fault_in_memory, exit_status};

use thiserror::Error;

/// Why a run ended before the end of its input. Its words are what the program says on standard error.
#[derive(Debug, Drop, Error, Clone, Copy, PartialEq, Eq)]
pub enum RunFault {
    /// This line, from 1, is none that may stand there.
    #[error("bad line {0}")]
    BadLine(u64),
    /// The configuration line is well formed, and its configuration is refused with this number, 21 to 30.
    #[error("bad config {0}")]
    BadConfig(u8),
    /// Opening or reading failed.
    #[error("input failed")]
    Input,
    /// Writing failed.
    #[error("output failed")]
    Output,
    /// A growth was refused.
    #[error("no memory")]
    NoMemory,
}

impl RunFault {
    /// The same cause, where all that was written went into memory.
    pub fn in_memory(self) -> RunFault
        ensures value { result ≡ fault_in_memory self }
    {
        match self {
            RunFault::Output => RunFault::NoMemory,
            other => other,
        }
    }

    /// The status with which the program then ends.
    pub fn status(&self) -> u8
        ensures value { result ≡ exit_status self.now }
    {
        match self {
            RunFault::BadLine(_) | RunFault::BadConfig(_) => 2,
            RunFault::Input | RunFault::Output => 3,
            RunFault::NoMemory => 4,
        }
    }
}
