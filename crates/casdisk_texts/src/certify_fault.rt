//! Why a trace and a history weren't compared.

ghost use Rattle.std.specs.Prelude.{◌≡◌};
ghost use Rattle.casdisk_texts.specs.Certified.{certify_status};

use crate::fault::RunFault;
use thiserror::Error;

/// Why a trace and a history weren't compared. Its words are what the program says on standard error.
#[derive(Clone, Copy, Debug, Drop, Error, PartialEq, Eq)]
pub enum CertifyFault {
    /// The trace wasn't read, for this reason.
    #[error("trace: {0}")]
    Trace(RunFault),
    /// The history wasn't read, for this reason.
    #[error("history: {0}")]
    History(RunFault),
    /// They have two configurations.
    #[error("the configuration lines differ")]
    OtherConfig,
    /// Writing failed.
    #[error("output failed")]
    Output,
}

impl CertifyFault {
    /// The status with which the program then ends.
    pub fn status(&self) -> u8
        ensures value { result ≡ certify_status self.now }
    {
        match self {
            CertifyFault::Trace(fault) => fault.status(),
            CertifyFault::History(fault) => fault.status(),
            CertifyFault::OtherConfig => 2,
            CertifyFault::Output => 3,
        }
    }
}
