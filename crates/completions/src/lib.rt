//! Makes the completions that a ticket owes, and the queue entry of each, for a controller and for a checker. Has lists
//! of at most two values, too, which take no memory.
#![tactic(auto)]

mod entry;
mod list;
mod owed;

pub use crate::entry::cqe_of;
pub use crate::list::AtMostTwo;
pub use crate::owed::Owed;
