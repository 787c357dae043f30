//! The driver, for a host: its calls are commands of several submission queues of one completion queue, over a port.
//! Its port to a shared controller borrows it, or has a part of it.
#![tactic(auto)]

mod attend;
mod call;
mod calls;
mod cid_table;
mod claims;
mod driver;
mod engine_part;
mod fault;
mod held;
pub mod laws;
mod listen;
mod looks;
mod messages;
mod poll;
mod port;
mod shared_port;
mod start;
mod table;
mod takeovers;

pub use crate::attend::Attendance;
pub use crate::call::{Call, Poll};
pub use crate::cid_table::{CidTable, TwoCids};
pub use crate::driver::Driver;
pub use crate::fault::{Fault, PortFault};
pub use crate::held::CidUse;
pub use crate::port::{Port, Reaped};
pub use crate::shared_port::SharedPort;
pub use driver_calls::Reply;
