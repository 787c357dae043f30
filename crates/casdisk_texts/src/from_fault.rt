//! Why a run didn't go on from a history to the end of its script.

ghost use Rattle.std.specs.Prelude.{◌≡◌};
ghost use Rattle.casdisk_texts.specs.Remade.{from_status};

use crate::fault::RunFault;
use thiserror::Error;

/// Why a run didn't go on from a history to the end of its script. Its words are what the program says on standard
/// error.
#[derive(Clone, Copy, Debug, Drop, Error, PartialEq, Eq)]
pub enum FromFault {
    /// The history wasn't read to its end, for this reason.
    #[error("history: {0}")]
    History(RunFault),
    /// A controller of this kind does something else at this step of the history, from 1.
    #[error("differs at {0}")]
    Differs(u64),
    /// The script has another configuration than the history.
    #[error("the configuration lines differ")]
    OtherConfig,
    /// The run of the script ended before its end, for this reason.
    #[error("{0}")]
    Script(RunFault),
}

impl FromFault {
    /// The status with which the program then ends.
    pub fn status(&self) -> u8
        ensures value { result ≡ from_status self.now }
    {
        match self {
            FromFault::History(fault) => fault.status(),
            FromFault::Differs(_) => 1,
            FromFault::OtherConfig => 2,
            FromFault::Script(fault) => fault.status(),
        }
    }
}
