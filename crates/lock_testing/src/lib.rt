//! What tests of a shared controller stand on: scripts of worked runs, steps of a plain system's callers, and three
//! such callers on one thread.
#![tactic(auto)]

mod commands;
mod crew;
mod messages;
mod plain;
mod table;

pub use crate::commands::{Command, WRITE, begun, flush, items_of};
pub use crate::crew::{ThreeCallers, closed, crew_of, crewed};
pub use crate::messages::{
    LATE, NO_MEMORY, STRANGE, attempt, fetches, learns, noted, open, opens, pops, pushes, tells,
    works,
};
pub use crate::plain::{ScriptRun, config_of, number, run_of, text};
pub use crate::table::{CONFIG, LARGE, LARGE_PAIR, ONE_QUEUE, ROWS};
