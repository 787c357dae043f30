//! Says what is right, for every other crate: the types of a controller's history, the definitions over them, and the
//! laws that follow. Has the name of who holds a slot, too, and the block that spells it.
#![tactic(auto)]

pub mod array;
mod block;
pub mod config;
pub mod entry;
pub mod laws;
mod name;
pub mod operation;
pub mod refusal;
pub mod status;
pub mod step;
pub mod submission;

pub use crate::block::slot_block;
pub use crate::name::{Name, name_of};
