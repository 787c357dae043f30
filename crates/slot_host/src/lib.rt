//! A host that claims slots, releases them, and takes over those of a host that is fenced, over any port: one call at a
//! time, which it polls. What it has at each slot is kept in it.
#![tactic(auto)]

mod beginning;
mod endings;
mod hold;
mod host_making;
mod host_polling;
mod meeting;
mod not_begun;
mod slot_host;
mod slot_told;
mod under_way;

pub use crate::not_begun::NotBegun;
pub use crate::slot_host::SlotHost;
pub use crate::slot_told::SlotTold;
