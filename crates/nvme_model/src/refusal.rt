//! Why a step is refused.

ghost use Rattle.std.specs.Prelude.{◌≡◌};

use thiserror::Error;

/// Why a step is refused.
#[derive(Clone, Copy, Debug, Drop, Error, PartialEq, Eq)]
pub enum Why {
    /// There is no such queue.
    #[error("no such queue")]
    NoQueue,
    /// The batch doesn't fit into the submission queue.
    #[error("no room in the submission queue")]
    NoRoom,
    /// All published entries of the queue are fetched.
    #[error("no entry to fetch")]
    NoEntry,
    /// As many tickets are in flight as may be.
    #[error("as many tickets in flight as may be")]
    JobsFull,
    /// The ticket isn't in flight.
    #[error("no such ticket in flight")]
    NoTicket,
    /// The ticket's next unit conflicts with an open unit.
    #[error("conflict with an open unit")]
    Conflict,
    /// The ticket isn't where such a step follows.
    #[error("not the ticket's turn")]
    WrongState,
    /// The completion queue is full.
    #[error("completion queue full")]
    CqFull,
    /// All posted completions of the queue are reaped.
    #[error("no completion to reap")]
    NoCompletion,
    /// The batch has no entry.
    #[error("no entry to publish")]
    BadBatch,
    /// A growth was refused.
    #[error("no memory")]
    NoMemory,
    /// Another caller held the lock.
    #[error("busy")]
    Busy,
}

impl Why {
    ghost use Rattle.nvme_model.specs.Refusals.{refusal_number};

    /// The number that texts give it, 1 to 12.
    pub fn number(&self) -> u8
        ensures { result ≡ refusal_number self.now }
    {
        match self {
            Why::NoQueue => 1,
            Why::NoRoom => 2,
            Why::NoEntry => 3,
            Why::JobsFull => 4,
            Why::NoTicket => 5,
            Why::Conflict => 6,
            Why::WrongState => 7,
            Why::CqFull => 8,
            Why::NoCompletion => 9,
            Why::BadBatch => 10,
            Why::NoMemory => 11,
            Why::Busy => 12,
        }
    }
}
