//! Judges a history beside a trace, for whoever has both: whether it is legal, and what hosts saw of it is this trace.
//! Writes the trace of a legal history, too.
#![tactic(auto)]

mod certifying;
mod comparison;
mod delay_laws;
mod delayed;
mod difference;
mod lanes;
mod laws;
mod observer;
mod payloads;
mod printing;
mod same;
mod sight;
mod text_laws;
mod turn;
mod witness;

pub use crate::certifying::{certify, judge};
pub use crate::comparison::{Comparison, TraceVerdict};
pub use crate::delay_laws::delays_keep_a_publish_before_a_reap;
pub use crate::delayed::{certify_delayed, judge_delayed};
pub use crate::difference::Difference;
pub use crate::laws::a_history_has_one_verdict;
pub use crate::observer::Observer;
pub use crate::printing::{print_sight, print_trace};
pub use crate::sight::Sight;
pub use crate::text_laws::a_trace_goes_on_line_by_line;
pub use crate::turn::Turn;
pub use crate::witness::{Told, Witness};
