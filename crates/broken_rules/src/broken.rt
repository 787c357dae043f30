//! The rules that an entry may break.

use crate::unlike::Unlike;
use crate::words::Words;
use nvme_model::array::{Mode, Range};
use nvme_model::operation::Found;
use nvme_model::refusal::Why;
use nvme_model::status::{Status, Verdict};
use std::fmt;
use thiserror::Error;

/// A rule that an entry breaks, with what stands there (`found`) and what is due. Its words are what `casdisk explain`
/// says.
#[derive(Clone, Copy, Debug, Drop, Error, PartialEq, Eq)]
pub enum Broken {
    /// An entry before it broke one.
    #[error("an earlier step is bad")]
    Earlier,
    /// Its step is refused.
    #[error("refused {}: {}", .0.number(), *.0)]
    Refused(Why),
    /// It isn't the ticket behind the last.
    #[error("ticket {found}, where {last} tickets were fetched before")]
    Ticket { found: u64, last: u64 },
    /// A Fetch says something else of the commands.
    #[error("fetched as {}, due is {}", VerdictWords(*.found), VerdictWords(*.due))]
    Verdict { found: Verdict, due: Verdict },
    /// It isn't the next unit of the ticket, or the open one.
    #[error("unit {found}, due is {due}")]
    Unit { found: u64, due: u64 },
    /// The unit has other blocks.
    #[error("{} blocks from {}, due are {} from {}", .found.blocks, .found.slba, .due.blocks, .due.slba)]
    Range { found: Range, due: Range },
    /// The unit is held otherwise.
    #[error("mode {}, due is {}", mode_word(*.found), mode_word(*.due))]
    Mode { found: Mode, due: Mode },
    /// It isn't the next block of the unit.
    #[error("block {found}, due is {due}")]
    Block { found: u64, due: u64 },
    /// The word isn't one of those for the block.
    #[error("{}, due is {}", found_word(*.found), due_words(*.due))]
    Word { found: Found, due: Words },
    /// The unit has a mark already.
    #[error("a second mark in unit {unit}")]
    SecondMark { unit: u64 },
    /// A unit before it has no mark.
    #[error("a mark in unit {unit}, and none in the unit before")]
    EarlyMark { unit: u64 },
    /// An earlier answer of the unit isn't right where the mark stands.
    #[error("a mark in unit {unit} where an earlier answer of it is no longer right")]
    Mark { unit: u64 },
    /// The answer isn't right where the mark stands.
    #[error("block {lba} {}, which isn't so at the mark", found_word(*.found))]
    Answer { lba: u64, found: Found },
    /// The ticket owes no completion.
    #[error("ticket {ticket} owes no completion")]
    NothingOwed { ticket: u64 },
    /// The completion isn't the one that is owed next.
    #[error("{0}")]
    Completion(Unlike),
    /// The data beside the completion has another length.
    #[error("{found} bytes of data, due are {due}")]
    Length { found: u64, due: u64 },
    /// A byte of the data, by its place from 0, isn't what was read.
    #[error("byte {place} of the data {found:02X}, due is {due:02X}")]
    Data { place: u64, found: u8, due: u8 },
    /// It isn't the oldest completion of the queue.
    #[error("another completion: {0}")]
    Reaped(Unlike),
}

fn mode_word(mode: Mode) -> &'static str {
    match mode {
        Mode::Shared => "r",
        Mode::Exclusive => "w",
    }
}

fn found_word(found: Found) -> &'static str {
    match found {
        Found::Read => "read",
        Found::Equal => "equal",
        Found::Differs => "differs",
        Found::Written => "written",
    }
}

fn due_words(due: Words) -> &'static str {
    match due {
        Words::Nothing => "no block",
        Words::Read => "read",
        Words::Compared => "equal or differs",
        Words::Written => "written",
    }
}

// A verdict as the line of a Fetch has it.
#[derive(Drop)]
struct VerdictWords(Verdict);

// A status as such a line has it.
#[derive(Drop)]
struct StatusWords(Status);

impl fmt::Display for StatusWords {
    fn fmt<W: fmt::Write>(&self, f: &mut fmt::Formatter<W>) -> fmt::Result {
        write!(f, "{}/{:02X}", self.0.sct(), self.0.sc())
    }
}

impl fmt::Display for VerdictWords {
    fn fmt<W: fmt::Write>(&self, f: &mut fmt::Formatter<W>) -> fmt::Result {
        match self.0 {
            Verdict::Single => write!(f, "1 ok"),
            Verdict::SingleFailed(status) => write!(f, "1 {}", StatusWords(status)),
            Verdict::Pair => write!(f, "2 ok"),
            Verdict::PairFailed(first, second) => write!(
                f,
                "2 {} {}",
                StatusWords(first),
                StatusWords(second)
            ),
        }
    }
}
