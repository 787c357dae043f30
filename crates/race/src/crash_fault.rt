//! Why a race some of whose hosts die gave no history.

ghost use Rattle.std.specs.Prelude.{◌≡◌};
ghost use Rattle.race.specs.Crashes.{crash_exit_status};

use std::alloc::AllocError;
use thiserror::Error;

/// Why such a race ended early, or gave no history that keeps its slots. Its words are what the program says on
/// standard error.
#[derive(Clone, Copy, Debug, Drop, Error, PartialEq, Eq)]
pub enum CrashFault {
    /// A growth was refused, or a host couldn't begin a call.
    #[error("no memory")]
    NoMemory,
    /// The controller wasn't given back, or it had forgotten a part of its history.
    #[error("no history")]
    NoHistory,
    /// The entry at this place, from 1, is the first that breaks the discipline of the slots.
    #[error("slots broken at {0}")]
    SlotsAt(u64),
    /// A slot isn't free in the end.
    #[error("a slot isn't free")]
    SlotHeld,
    /// Writing failed.
    #[error("output failed")]
    Output,
}

impl CrashFault {
    /// The status with which the program then ends.
    pub fn status(&self) -> u8
        ensures value { result ≡ crash_exit_status self.now }
    {
        match self {
            CrashFault::NoHistory | CrashFault::SlotsAt(_) | CrashFault::SlotHeld => 1,
            CrashFault::Output => 3,
            CrashFault::NoMemory => 4,
        }
    }
}

impl From<AllocError> for CrashFault {
    ghost use Rattle.std.specs.Prelude.{◌≡◌};
    ghost use Rattle.race.specs.declared.crash_fault.CrashFault.TheVariants.{NoMemory};

    ghost from_gives = { λ _ fault. fault ≡ NoMemory };

    fn from(_error: AllocError) -> CrashFault {
        CrashFault::NoMemory
    }
}
