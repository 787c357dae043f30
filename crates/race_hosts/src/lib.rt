//! Runs hosts, for a race: each claims slots and releases them, round by round, on a thread of its own or turn by turn.
#![tactic(auto)]

mod claiming;
mod host_threads;
mod owned;
mod pausing;
mod releasing;
mod rounds;
mod stage;

pub use crate::host_threads::{Play, run_hosts};
pub use crate::owned::{Host, host_of};
pub use crate::pausing::busy_turn;
pub use crate::rounds::{host, host_turn};
pub use crate::stage::{RoundStage, Rounds};
