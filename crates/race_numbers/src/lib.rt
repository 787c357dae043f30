//! Checks the numbers of a race, for the command line and for `race`, and makes the configuration that its hosts share.
//! It is a crate of its own so that the command line needn't wait for `race`.
#![tactic(auto)]

mod bias;
mod race;

pub use bias::Bias;
pub use race::{Race, RaceUsage};
