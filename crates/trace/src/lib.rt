//! What hosts see of a history, its lines, and which histories explain it: for whoever judges a controller from
//! outside.
#![tactic(auto)]

mod line_laws;
mod lines_there;
mod option_lines;
mod options;
mod reading;
mod seen;
mod seen_laws;
mod writing;

pub use crate::line_laws::{option_lines_have_one_spelling, seen_lines_have_one_spelling};
pub use crate::option_lines::{TraceOption, parse_option};
pub use crate::options::{IgnoredFields, TraceOptions, did_nothing, read_completion, refused};
pub use crate::reading::parse_seen;
pub use crate::seen::{ReapedLine, Seen};
pub use crate::seen_laws::{
    beginnings_are_explained, no_option_leaves_nothing_out, only_publishes_and_reaps_are_seen,
    what_was_seen_stays,
};
pub use crate::writing::write_seen;
pub use nvme_model::entry::PublishLine;
