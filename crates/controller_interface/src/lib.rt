//! Steps, answers and refusals of a controller, for callers that share one and for drivers, which need no more of it.
#![tactic(auto)]

mod answer;
mod call;
mod machine;
mod work;

pub use crate::answer::{Answer, Refused, UnitGranted};
pub use crate::call::StepCall;
pub use crate::machine::Machine;
pub use crate::work::Work;
pub use fused_match::Judged;
pub use nvme_model::step::Step;
