//! What comes of a call by its number, and how many there are.

use driver_cas::{Fault, Reply};
use thiserror::Error;

/// What polling a call gives. One that is pending or put off keeps its number.
#[derive(Drop)]
pub enum Polled {
    /// Not all its completions were reaped.
    Pending,
    /// Nor was one now, for this cause. A `RemotePort` is never the cause.
    Later(Fault),
    Done(Reply),
    /// Its status is another than those that a reply tells.
    Failed(Fault),
}

/// Why a call isn't given up.
#[derive(Clone, Copy, Debug, Drop, Error, PartialEq, Eq)]
pub enum NotGivenUp {
    /// No call has the number.
    #[error("no call has this number")]
    NoCall,
    /// A growth was refused.
    #[error("no memory")]
    NoMemory,
}

/// How many calls a host waits for.
#[derive(Clone, Copy, Debug, PartialEq, Eq)]
pub struct Waiting {
    /// Those that have a number.
    pub calls: usize,
    /// Those that were given up and keep their CIDs.
    pub given_up: usize,
}
