//! What polling a claim or a release gives.

use crate::claim::Claim;
use crate::claiming::Claiming;
use crate::release::Releasing;
use driver_cas::{Fault, Port};

/// What polling a claim gives.
pub enum Progress<P: Port> {
    /// It isn't answered, or no submission queue took the next slot's pair.
    Pending(Claiming<P>),
    /// Nor was a completion reaped, or the next slot's pair begun, for this cause: `Busy` or `NoMemory`.
    Later(Fault, Claiming<P>),
    /// The slot is held.
    Held(Claim),
    /// Somebody else has the slot that was asked for.
    Taken,
    /// Each slot was had by somebody else when its claim was answered.
    AllTaken,
    /// A pair was answered with a status that is neither success nor a difference; or, where any slot will do, the
    /// driver has drawn the last serial (`NoSerial`).
    Failed(Fault),
}

/// What polling a release gives.
#[derive(Drop)]
pub enum Released<P> {
    /// It isn't answered.
    Pending(Releasing<P>),
    /// Nor was a completion reaped, for this cause: `Busy` or `NoMemory`.
    Later(Fault, Releasing<P>),
    /// Nobody holds the slot by this claim any more.
    Released,
    /// It was answered with another status.
    Failed(Fault),
}
