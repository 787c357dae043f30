//! Draws scripts by a seed, for tests of a controller: lines of a kind, of which a controller accepts about nine steps
//! in ten. And the numbers, for races, too: the same seed gives the same numbers everywhere.
#![tactic(auto)]

mod commands;
mod config;
mod data;
mod hostile;
mod numbers;
mod publishing;
mod scene;
mod script;
mod script_kind;
mod steps;
mod swaps;

pub use crate::config::draw_config;
pub use crate::numbers::RandomNumbers;
pub use crate::script::{draw_script, write_random};
pub use crate::script_kind::ScriptKind;
