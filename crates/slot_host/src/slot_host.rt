//! What a slot host is.

use crate::hold::Hold;
use crate::under_way::UnderWay;
use driver_cas::{Driver, Port};
use slot_alloc::Slots;
use std::snapshot::Snapshot;

/// A driver with its slots, what its host has at each, and its call: one at a time. It has no call that writes to a
/// slot otherwise, or that releases one which the host hasn't. Until its first takeover its driver keeps the rules of
/// slots.
#[derive(Drop)]
pub struct SlotHost<P: Port> {
    pub(crate) driver: Driver<P>,
    // Of the host.
    pub(crate) number: u32,
    pub(crate) slots: Slots,
    // One for each slot.
    pub(crate) holds: Vec<Hold>,
    pub(crate) under_way: UnderWay<P>,
    // Whether it has begun a takeover.
    pub(crate) took_over: Snapshot<bool>,
}
