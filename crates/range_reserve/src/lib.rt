//! Keeps which ranges of blocks tickets hold, for a controller and for a checker, and refuses a range that conflicts
//! with one.
#![tactic(auto)]

mod conflicts;
mod held;
pub mod laws;
mod living;
mod places;
mod ranges;

pub use held::HeldRange;
pub use ranges::Ranges;
