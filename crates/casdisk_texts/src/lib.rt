//! Runs scripts and judges histories as texts, for the program and for callers in C: what is printed, answered and
//! explained.
#![tactic(auto)]

mod answer_objects;
mod certify_fault;
mod certifying;
mod checking;
mod explaining;
mod fault;
mod first_line;
mod following;
mod from_fault;
mod going_on;
mod history_lines;
mod history_reading;
mod judging;
mod kinds;
mod logged;
mod meaning;
mod object;
mod performing;
mod printing;
mod remaking;
mod rule_names;
mod running;
mod script;
mod trace_reading;
mod tracing;
mod watching;

pub use crate::answer_objects::{answer_object, explained_object, verdict_object};
pub use crate::certify_fault::CertifyFault;
pub use crate::certifying::{certify_text, certify_verdict};
pub use crate::checking::{check_text, tell_answer};
pub use crate::explaining::{BadStep, Explained, explain_text};
pub use crate::fault::RunFault;
pub use crate::first_line::read_first;
pub use crate::following::{follow_explained, follow_text};
pub use crate::from_fault::FromFault;
pub use crate::going_on::run_from;
pub use crate::history_lines::HistoryLines;
pub use crate::judging::{FirstBad, Judge};
pub use crate::kinds::kinds_of;
pub use crate::logged::Logged;
pub use crate::meaning::{EntryMeaning, LineMeaning, Taken, WriteFault};
pub use crate::object::{Fields, object_line};
pub use crate::running::run_lines;
pub use crate::script::{run_checked, run_script};
pub use crate::trace_reading::{Trace, read_trace};
pub use crate::tracing::trace_text;
