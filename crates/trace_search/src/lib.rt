//! Looks for a history that explains a trace, or for what refutes it, for whoever knows only what hosts saw. What it
//! finds is checked before it is given, so nobody has to trust the search. It is apart from `trace_walk` for its size.
#![tactic(auto)]

mod around;
mod beginning;
mod beginnings;
mod choosing;
mod comparing;
mod finding;
mod forced;
mod gates;
mod guessing;
mod missing;
mod observing;
mod part;
mod reason;
mod reasons;
mod searching;
mod shrinking;
mod touching;
mod units;
mod writing;

pub use crate::finding::{find_bad_line, find_on_blocks, find_refutation};
pub use crate::observing::{Observed, observe};
pub use crate::reason::{CommandName, Obstacle, Unexplained};
pub use crate::searching::{Outcome, search_all};
pub use crate::writing::write_witness;
