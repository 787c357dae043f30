//! A disk in memory with slots and a host of each completion queue, for programs on one thread that keep locks and say
//! who holds them. Nothing is asked of its callers. Where all hosts have met, each holds by its block the slots that it
//! has, and nobody else is believed of them.
#![tactic(auto)]

mod host_calls;
mod meeting;
mod opening;
mod serving;
mod setting;
mod slot_disk;
mod unasked;

pub use crate::slot_disk::SlotDisk;
pub use crate::unasked::{Unasked, Unmade};
pub use slot_host::{NotBegun, SlotTold};
