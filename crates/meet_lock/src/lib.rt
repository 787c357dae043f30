//! A lock round a controller, for callers that share it: each has a pass that knows a beginning of the one history.
//!
//! A step takes the lock word by one compare-exchange and never waits: where another caller has the lock, the answer is
//! Busy.
#![tactic(auto)]

mod glance;
mod laws;
mod owner;
mod pass;
mod plays;
mod seats;
mod shared;
mod view;

pub use controller_interface::Machine;
pub use glance::Glance;
pub use laws::{what_a_pass_has_seen, what_came_between_is_of_passes};
pub use owner::{AnyPass, StepRight, TicketOwner};
pub use pass::{Busy, Declined, Pass, Unmade};
pub use seats::{NoteSeat, TicketSeat};
pub use shared::Shared;
pub use view::View;
