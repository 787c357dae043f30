//! Why a race gave no legal history.

ghost use Rattle.std.specs.Prelude.{◌≡◌};
ghost use Rattle.race.specs.Faults.{race_exit_status};

use std::alloc::AllocError;
use thiserror::Error;

// A race has no line, configuration or input that could be bad, and a run of a script no history
// that could be `bad at K`.
/// Why a race ended early, or gave no history that is legal. Its words are what the program says on standard error.
#[derive(Clone, Copy, Debug, Drop, Error, PartialEq, Eq)]
pub enum RaceFault {
    /// A growth was refused, a thread couldn't be started, or a host couldn't begin a round.
    #[error("no memory")]
    NoMemory,
    /// The history up to this place, from 1, isn't legal, and shorter beginnings are.
    #[error("bad at {0}")]
    BadAt(u64),
    /// A part of the history was forgotten before it was written.
    #[error("history forgotten")]
    Forgotten,
    /// Writing failed.
    #[error("output failed")]
    Output,
}

impl RaceFault {
    /// The status with which the program then ends.
    pub fn status(&self) -> u8
        ensures value { result ≡ race_exit_status self.now }
    {
        match self {
            RaceFault::BadAt(_) | RaceFault::Forgotten => 1,
            RaceFault::Output => 3,
            RaceFault::NoMemory => 4,
        }
    }
}

impl From<AllocError> for RaceFault {
    ghost use Rattle.std.specs.Prelude.{◌≡◌};
    ghost use Rattle.race.specs.declared.fault.RaceFault.TheVariants.{NoMemory};

    ghost from_gives = { λ _ fault. fault ≡ NoMemory };

    fn from(_error: AllocError) -> RaceFault {
        RaceFault::NoMemory
    }
}
