//! Says histories in words, for whoever reads one: a line for a line, with the names that the standard gives commands,
//! statuses and fields.
#![tactic(auto)]

mod beside;
mod commands;
mod completions;
mod configurations;
mod entries;
mod little;
mod names;
mod paint;
mod texts;

pub use crate::beside::beside_words;
pub use crate::commands::command_words;
pub use crate::completions::completion_words;
pub use crate::configurations::config_words;
pub use crate::entries::entry_words;
pub use crate::names::status_name;
pub use crate::paint::Paint;
