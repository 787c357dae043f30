//! Keeps the tickets in flight, for the controller: how far each has come, its data, and where it is found.
#![tactic(auto)]

mod cids;
mod index;
mod job;
mod jobs;
pub mod laws;
mod progress;
mod steps;
mod tickets;
mod uncounted;

pub use crate::cids::OwedCids;
pub use crate::index::JobIndex;
pub use crate::job::{Data, Job};
pub use crate::jobs::{InFlight, Jobs};
pub use crate::progress::TicketProgress;
pub use crate::steps::ProbeCount;
pub use crate::tickets::{Keyed, Tickets};
