//! Why a history wasn't drawn.

ghost use Rattle.std.specs.Prelude.{◌≡◌};
ghost use Rattle.picture_svg.specs.Drawing.{draw_status};

use casdisk_texts::RunFault;
use thiserror::Error;

/// Why a history wasn't drawn. Its words are what the program says on standard error.
#[derive(Clone, Copy, Debug, Drop, Error, PartialEq, Eq)]
pub enum DrawFault {
    /// The history wasn't read, or its picture not written, for this reason.
    #[error("{0}")]
    Run(RunFault),
    /// There are more than 10,000 steps to draw, which is how many there are.
    #[error("too long to draw: {0} steps; give --from and --to")]
    TooLong(u64),
    /// The picture would begin with this step, which isn't the first, and this is the last that there is.
    #[error("there is no step {0} to draw: the last is step {1}")]
    NoStep(u64, u64),
    /// The area of slots has no block.
    #[error("there is no slot to draw: COUNT is 0")]
    NoSlots,
    /// The area of slots goes beyond the volume, which has this many blocks.
    #[error("the slots go beyond the volume, which has {0} blocks")]
    Beyond(u32),
}

impl DrawFault {
    /// The status with which the program then ends.
    pub fn status(&self) -> u8
        ensures value { result ≡ draw_status self.now }
    {
        match self {
            DrawFault::Run(fault) => fault.status(),
            DrawFault::TooLong(_)
            | DrawFault::NoStep(_, _)
            | DrawFault::NoSlots
            | DrawFault::Beyond(_) => 2,
        }
    }
}
