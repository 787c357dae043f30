//! Says what a driver's calls are told, for drivers and for laws over their logs: by what a port published and reaped.
#![tactic(auto)]

mod batch;
pub mod command_laws;
mod event;
pub mod laws;
mod reply;
mod request;

pub use batch::{batch_of, room_for, taken_back};
pub use event::{CidState, PortEvent};
pub use reply::{Reply, answer_to, pair_answer_to};
pub use request::{CallData, Request};
