//! What a host has at a slot.

use slot_alloc::KeptClaim;
use slot_takeover::KeptSlot;

/// What a host has at a slot, while no call is about it.
#[derive(Drop)]
pub(crate) enum Hold {
    Nothing,
    /// It claimed the slot.
    Claimed(KeptClaim),
    /// It took the slot over.
    TakenOver(KeptSlot),
}
