//! Checks what is said to refute a trace, for whoever gets it: by its last line, or by a slice of its effects.
#![tactic(auto)]

mod apart;
mod block_data;
mod blocks;
mod bytes;
mod collecting;
mod commands;
mod completions;
mod differs;
mod effects;
mod entries;
mod fields;
mod finding;
mod finds;
mod heads;
mod held;
mod known;
mod line;
mod names;
mod order;
mod pieces;
mod post_tables;
mod publishes;
mod refuting;
mod statuses;
mod tables;
mod told;
mod told_heads;
mod writers;
mod writes;

pub use crate::bytes::{cid_named, cid_of, queue_of};
pub use crate::commands::{op_of, units_of};
pub use crate::fields::{is_success, status_of};
pub use crate::known::{Chosen, Known};
pub use crate::line::is_bad_read_line;
pub use crate::order::Effect;
pub use crate::refuting::refute;
pub use crate::tables::{EntryCid, EntryNumber, EntryPlace, TraceAnswers};
pub use crate::told::{is_sure, told_units};
pub use crate::told_heads::ToldHead;
