//! Takes over the slots of a host that is fenced, for hosts that survive it, and tells who holds a slot.
#![tactic(auto)]

mod giving_back;
mod held;
mod holder;
pub mod laws;
mod polling;
mod taking;

pub use giving_back::give_back;
pub use held::{HeldSlot, KeptSlot};
pub use holder::{Holder, HolderPoll, ReadingHolder, poll_holder, read_holder};
pub use polling::{TakeoverProgress, poll_takeover};
pub use taking::{TakingOver, take_over};
