//! What a step is answered with.

ghost use Rattle.std.specs.Prelude.{◌≡◌};
ghost use Rattle.controller_interface.specs.Granted.{granted_answer};

use crate::work::Work;
use block_exec::Done;
use nvme_model::array::{Mode, Range};
use nvme_model::refusal::Why;
use nvme_model::submission::{Payload, Submissions};
use thiserror::Error;

/// The answer to an accepted step.
#[derive(Drop)]
pub enum Answer {
    Published,
    /// A new ticket and what it has to do.
    Fetched(Work),
    /// The number of the unit, from 0, its blocks and how it holds them.
    Granted(u64, Range, Mode),
    Blocked(Done),
    /// The completion queue entry.
    Posted([u8; 16]),
    /// The completion queue entry, and what a successful Read read.
    Reaped { cqe: [u8; 16], payload: Payload },
}

/// A unit that was granted.
#[derive(Clone, Copy)]
pub struct UnitGranted {
    /// Its number within its ticket, from 0.
    pub unit: u64,
    pub range: Range,
    pub mode: Mode,
}

impl UnitGranted {
    /// The answer that it is.
    pub fn answer(self) -> Answer
        ensures { result ≡ granted_answer self }
    {
        Answer::Granted(self.unit, self.range, self.mode)
    }
}

/// Why a step is refused; a refused Publish hands its batch back.
#[derive(Debug, Drop, Error)]
pub enum Refused {
    #[error("{0}")]
    Publish(Why, Submissions),
    #[error("{0}")]
    Step(Why),
}
