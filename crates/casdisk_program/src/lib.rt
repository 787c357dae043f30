//! The program `casdisk` but for its `main`: it reads words and files, and calls what has contracts. `command_line` is
//! apart since its own check takes minutes.
#![tactic(auto)]

mod certify;
mod checking;
mod contents;
mod counter;
mod culprit;
mod drawing;
mod failure;
mod going_on;
mod in_flight;
mod in_words;
mod input;
mod kept;
mod objects;
mod observing;
mod of_ticket;
mod open_units;
mod output_buffer;
mod paging;
mod program;
mod race_tracing;
mod racing;
mod randoms;
mod reader;
mod refute;
mod running;
mod seed_objects;
mod seeding;
mod shrinking;
mod slots;
mod tracing;
mod unmarked;
mod watched;
mod words;
mod writer;

pub use crate::counter::Counter;
pub use crate::culprit::{Culprit, OpenUnit, Unmarked, Writer, WrongAnswer};
pub use crate::output_buffer::BUFFER;
pub use crate::program::{Terminals, run_program};
pub use crate::race_tracing::print_trace;
pub use crate::racing::race_as_asked;
pub use crate::randoms::random_file;
pub use crate::reader::CountedReader;
pub use crate::seed_objects::{SeedAnswer, SeedWords, seed_object};
pub use crate::seeding::{Draws, RaceAsked, Turns, race_asked};
pub use crate::words::{ExplainedWords, WrongStepWords};
pub use crate::writer::CountedWriter;
