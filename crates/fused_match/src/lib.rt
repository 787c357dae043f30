//! Says what a Fetch makes of the entries at the front of a submission queue, for a controller and for a checker:
//! matching, and checks.
#![tactic(auto)]

mod checks;
mod item;
mod judged;
mod matching;

pub use crate::item::Item;
pub use crate::judged::Judged;
pub use crate::matching::judge;
