//! Configurations, histories, and the one line of each step, both ways, for whoever prints a history or reads one.
#![tactic(auto)]

mod batch;
mod config;
mod config_line;
mod gone;
mod kinds;
mod laws;
mod line_fault;
mod lines_there;
mod marks;
mod part;
mod past;
mod printing;
mod reading;
mod status_word;
mod writing;

pub use crate::config::Config;
pub use crate::config_line::{read_config_line, write_config_line};
pub use crate::kinds::{Kinds, all_kinds, shows};
pub use crate::laws::{configurations_have_one_spelling, lines_have_one_spelling};
pub use crate::line_fault::LineFault;
pub use crate::lines_there::publish_fits;
pub use crate::past::History;
pub use crate::printing::{PrintFault, print_bytes, print_config, print_history};
pub use crate::reading::parse_line;
pub use crate::writing::{write_line, write_publish};
pub use nvme_model::entry::{
    BlockLine, Entry, FetchLine, GrantLine, PostLine, PublishLine, ReapLine, UnitRange,
};
