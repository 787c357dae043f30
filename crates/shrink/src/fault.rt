//! How a conversation ended.

ghost use Rattle.std.specs.Prelude.{◌≡◌};
ghost use Rattle.shrink.specs.Status.{shrink_status, shrunk_status as the_status};

use crate::shrinking::Shrunk;
use casdisk_texts::RunFault;
use thiserror::Error;

/// Why a script wasn't made small to the end. Its words are what the program says on standard error.
#[derive(Clone, Copy, Debug, Drop, Error, PartialEq, Eq)]
pub enum ShrinkFault {
    /// The script wasn't read.
    #[error("{0}")]
    Script(RunFault),
    /// This line of the answers, from 1, is none.
    #[error("bad line {0}")]
    BadAnswer(u64),
    /// The answers ended; the smallest script so far was written.
    #[error("no more answers")]
    Ended,
    /// Reading an answer failed.
    #[error("input failed")]
    Input,
    /// Writing failed.
    #[error("output failed")]
    Output,
    /// A growth was refused.
    #[error("no memory")]
    NoMemory,
}

impl ShrinkFault {
    /// The status with which the program then ends.
    pub fn status(&self) -> u8
        ensures value { result ≡ shrink_status self.now }
    {
        match self {
            ShrinkFault::Script(fault) => fault.status(),
            ShrinkFault::BadAnswer(_) => 2,
            ShrinkFault::Ended | ShrinkFault::Input | ShrinkFault::Output => 3,
            ShrinkFault::NoMemory => 4,
        }
    }
}

/// The status with which the program ends after a conversation: 1 where the script passed.
pub fn shrunk_status(shrunk: Shrunk) -> u8
    ensures value { result ≡ the_status shrunk }
{
    match shrunk {
        Shrunk::Smallest => 0,
        Shrunk::Passes => 1,
    }
}
