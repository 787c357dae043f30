//! Reads and writes lines and their words, for all crates of texts: each has one spelling, and faults are told apart.
#![tactic(auto)]

mod data;
mod data_out;
mod digits;
mod laws;
mod lines;
mod number;
mod output;
mod unsent;
mod words;

pub use crate::data::{BLOCK, read_data};
pub use crate::data_out::send_data;
pub use crate::digits::{read_fixed, read_hex, send_hex};
pub use crate::laws::{
    data_has_one_spelling, hex_has_one_spelling, lines_are_the_input, numbers_have_one_spelling,
    spellings_have_no_space, words_have_one_spelling,
};
pub use crate::lines::{Lines, NextLine, ReadFault};
pub use crate::number::{read_u16, read_u32, read_u64, send_number};
pub use crate::output::{send, send_line};
pub use crate::words::{Word, send_behind, send_words, split_words};
