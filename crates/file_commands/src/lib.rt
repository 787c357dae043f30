//! Reads histories and traces as texts, for the program and for callers in C: beside slots, in words, or to find a
//! history. And says why a line is none of its file.
#![tactic(auto)]

mod answer;
mod cause;
mod checking;
mod explaining;
mod fault;
mod form;
mod grammar;
mod judging;
mod observing;
mod opening;
mod reading;
mod reason;
mod refute_fault;
mod refuting;
mod slice_facts;
mod slice_words;
mod slot_objects;
mod spelling;
mod telling;
mod trace_objects;
mod walk;
mod words;

pub use crate::answer::TraceAnswer;
pub use crate::cause::Cause;
pub use crate::checking::check_slots;
pub use crate::explaining::{ExplainedSlots, explain_slots};
pub use crate::fault::SlotsFault;
pub use crate::form::Form;
pub use crate::grammar::Grammar;
pub use crate::judging::WrongStep;
pub use crate::observing::observe_text;
pub use crate::reason::{Reason, why_bad};
pub use crate::refute_fault::RefuteFault;
pub use crate::refuting::{RefuteVerdict, refute_object, refute_text};
pub use crate::slot_objects::{slots_answer_object, slots_object};
pub use crate::telling::{tell_objects, tell_text};
pub use crate::trace_objects::trace_object;
