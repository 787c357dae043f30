//! The lines of a script behind its first, read and written, for whoever runs or makes scripts: what each line asks
//! for.
#![tactic(auto)]

mod asked;
mod batch;
mod command;
mod laws;
mod line;
mod lines_there;
mod printing;
mod reading;
mod writing;
mod written;

pub use crate::asked::{step_asked, submission_of};
pub use crate::laws::written_lines_are_read;
pub use crate::line::ScriptLine;
pub use crate::printing::print_script;
pub use crate::reading::read_script_line;
pub use crate::writing::write_script_line;
pub use crate::written::{
    CommandWord, EntryForm, PublishWords, WrittenCommand, WrittenEntry, WrittenLine,
};
