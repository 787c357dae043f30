//! Makes a list of lines small that fails, for whoever tests a controller: it asks about candidates, and keeps the
//! smallest that fails.
#![tactic(auto)]

mod blocks;
mod conversation;
mod edits;
mod fault;
mod numbers;
mod planning;
mod printing;
mod question;
mod reading;
mod shrinking;
mod single;
mod smaller;
mod text_line;
mod text_shrinking;
mod tickets;
mod trying;
mod word_edits;
mod words;

pub use crate::conversation::Conversation;
pub use crate::fault::{ShrinkFault, shrunk_status};
pub use crate::question::{Question, Unanswered};
pub use crate::shrinking::{Shrunk, shrink_lines};
pub use crate::text_line::TextLine;
pub use crate::text_shrinking::{TRIES, shrink_text};
