//! Checks the discipline of lock slots, takeovers among them, for whoever has a legal history: the first rule that is
//! broken, and where. It follows the queues and the tickets of that history, once over it.
#![tactic(auto)]

mod area;
mod batch;
mod broken;
mod moves;
mod names;
mod progress;
mod queue;
mod swap;
mod tables;
mod takeover;
mod takeovers;

pub use crate::area::{AreaCheck, none_is_broken_where_the_discipline_is_kept};
pub use crate::broken::BrokenDiscipline;
pub use crate::progress::{Completed, CompletionPlace, Flying, QueueProgress};
pub use crate::queue::completion_queue;
