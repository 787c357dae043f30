//! Reads the command line, for the program, by `clap`'s own definitions, and says what it asks for. It is apart from
//! `casdisk_program` since its own check takes minutes.
#![tactic(auto)]

mod area;
mod beside;
mod checking;
mod drawing;
mod observing;
mod options;
mod racing;
mod randoms;
mod request;
mod running;
mod shown;
mod shrinking;
mod telling;
mod usage;

pub use crate::request::{Asked, ColorChoice, Shown, SlotArea, UsageFault};
pub use crate::usage::asked;
