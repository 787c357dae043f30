//! Why a history wasn't checked beside an area of slots.

ghost use Rattle.std.specs.Prelude.{◌≡◌};
ghost use Rattle.file_commands.specs.Texts.{slots_status};

use casdisk_texts::RunFault;
use thiserror::Error;

/// Why a history wasn't checked beside an area of slots. Its words are what the program says on standard error.
#[derive(Clone, Copy, Debug, Drop, Error, PartialEq, Eq)]
pub enum SlotsFault {
    /// The history wasn't read, for this reason.
    #[error("{0}")]
    Run(RunFault),
    /// The area has no block.
    #[error("there is no slot to check: COUNT is 0")]
    NoSlots,
    /// The area goes beyond the volume, which has this many blocks.
    #[error("the slots go beyond the volume, which has {0} blocks")]
    Beyond(u32),
}

impl SlotsFault {
    /// The status with which the program then ends.
    pub fn status(&self) -> u8
        ensures value { result ≡ slots_status self.now }
    {
        match self {
            SlotsFault::Run(fault) => fault.status(),
            SlotsFault::NoSlots | SlotsFault::Beyond(_) => 2,
        }
    }
}
