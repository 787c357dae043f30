//! Why a slot host's call isn't begun.

use driver_cas::Fault;

/// Why a slot host begins no call.
#[derive(Clone, Copy, Debug, PartialEq, Eq)]
pub enum NotBegun {
    /// A call is under way.
    InCall,
    /// There is no such slot.
    NoSlot,
    /// The host has the slot.
    Held,
    /// The host hasn't the slot.
    NotHeld,
    /// The name is none of a dead host: it has a zero in it, or is of this host.
    BadName,
    /// Nothing was published, for this fault.
    Fault(Fault),
}
