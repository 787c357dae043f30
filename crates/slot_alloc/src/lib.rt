//! Claims and releases slots of a shared volume, for hosts that keep locks there, by Compare and Write.
#![tactic(auto)]

mod claim;
mod claiming;
pub mod laws;
mod poll;
mod progress;
mod release;
mod slots;

pub use claim::{Claim, KeptClaim};
pub use claiming::Claiming;
pub use poll::poll_claim;
pub use progress::{Progress, Released};
pub use release::{Releasing, poll_release};
pub use slots::Slots;
