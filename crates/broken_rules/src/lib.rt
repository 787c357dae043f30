//! Names the first rule that a step of a history breaks, for an explanation: what stands there, and what is due.
#![tactic(auto)]

mod broken;
mod data_rows;
mod laws;
mod rows;
mod unlike;
mod verdicts;
mod words;

pub use broken::Broken;
pub use data_rows::post_broken;
pub use laws::nothing_is_broken_exactly_where_legal;
pub use rows::{BlockDue, block_broken, fetch_broken, grant_broken};
pub use unlike::{Unlike, cqe_unlike, reap_broken};
pub use verdicts::same_verdict;
pub use words::{Words, may_find};
