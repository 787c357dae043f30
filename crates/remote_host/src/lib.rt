//! Hosts with many calls in flight: over any port, and of a controller that is somewhere else, for whoever carries its
//! commands. The carrier takes each entry away by `RemoteHost::outgoing` and brings each completion by
//! `RemoteHost::incoming`, over any transport. Nothing here waits or calls back.
#![tactic(auto)]

mod call_host;
mod calls;
#[cfg(test)]
mod carried;
mod carry;
#[cfg(test)]
mod given_up;
mod host;
mod polled;
mod port;

pub use crate::call_host::CallHost;
pub use crate::carry::{Bring, TakeAway};
pub use crate::host::RemoteHost;
pub use crate::polled::{NotGivenUp, Polled, Waiting};
pub use crate::port::{Outgoing, RemotePort};
pub use driver_cas::{Fault, Reaped, Reply};
