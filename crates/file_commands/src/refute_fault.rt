//! Why a trace wasn't compared with what is said to refute it.

ghost use Rattle.std.specs.Prelude.{◌≡◌};
ghost use Rattle.file_commands.specs.Refuting.{refute_status};

use casdisk_texts::RunFault;
use thiserror::Error;

/// Why a trace wasn't compared with what is said to refute it. Its words are what the program says on standard error.
#[derive(Clone, Copy, Debug, Drop, Error, PartialEq, Eq)]
pub enum RefuteFault {
    /// The trace wasn't read, for this reason.
    #[error("trace: {0}")]
    Trace(RunFault),
    /// The refutation wasn't read, for this reason.
    #[error("refutation: {0}")]
    Refutation(RunFault),
    /// Writing failed.
    #[error("output failed")]
    Output,
}

impl RefuteFault {
    /// The status with which the program then ends.
    pub fn status(&self) -> u8
        ensures value { result ≡ refute_status self.now }
    {
        match self {
            RefuteFault::Trace(fault) => fault.status(),
            RefuteFault::Refutation(fault) => fault.status(),
            RefuteFault::Output => 3,
        }
    }
}
