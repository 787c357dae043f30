//! What a slot host's call that is polled tells.

use driver_cas::Fault;
use slot_takeover::Holder;

/// What polling a slot host's call tells. One that is pending or put off goes on.
#[derive(Clone, Copy, Debug, PartialEq, Eq)]
pub enum SlotTold {
    /// It isn't answered.
    Pending,
    /// Nor was a completion reaped, for this cause: `Busy` or `NoMemory`.
    Later(Fault),
    /// The host has this slot now.
    Held(u32),
    /// The slot is somebody else's, or each that would have done.
    Taken,
    /// The slot is free.
    Released,
    /// So the slot was held at one moment since the question was begun.
    Holder(Holder),
    /// It was answered with another status, or a claim of the next slot wasn't begun, for this fault.
    Failed(Fault),
}
