//! A shared controller with its queues of works and notices and its callers' passes, set up for programs on one thread
//! or several. Serves it on one thread; `hosts` serves it on several. A plain system has one queue of each kind, and
//! callers that are alike.
#![tactic(auto)]

mod opening;
mod plain;
mod rows;
mod server_laws;
mod serving;
mod stop;
mod system;

pub use crate::opening::system_of;
pub use crate::plain::{PlainCaller, PlainCallers, PlainSystem, plain_system_of, take_caller};
pub use crate::server_laws::{a_server_goes_on, what_a_server_has_seen};
pub use crate::serving::{completion_place, notice_of, serve};
pub use crate::stop::Stop;
pub use crate::system::{CallerPasses, Callers, HostPasses, System, WorkerPasses};
