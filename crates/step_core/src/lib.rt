//! The controller, for a program and for callers that share it: a machine of six steps, each with its answer or its
//! refusal.
#![tactic(auto)]

mod calls;
mod controller;
mod core_machine;
mod spare_boxes;

pub use block_exec::Done;
pub use calls::{FetchCall, PublishCall, ReapCall};
pub use controller::Core;
pub use controller_interface::{Answer, Judged, Refused, Work};
pub use history::{Config, Entry, History, write_line};
pub use nvme_model::step::Step;
pub use nvme_model::submission::{Payload, Submission, Submissions};
pub use rings::Completion;
