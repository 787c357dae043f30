//! Cuts commands into atomic units at boundaries, for a controller, which serves a unit as one operation, and says
//! which blocks are atomic.
#![tactic(auto)]

mod cells;
pub mod laws;
mod unit_iter;
mod units;

pub use unit_iter::UnitIter;
pub use units::Units;
