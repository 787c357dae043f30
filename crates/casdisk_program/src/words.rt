//! The words of an explanation: the place, the line of the file, and the rule, with the names of statuses and fields,
//! or the slot.

use crate::culprit::Culprit;
use broken_rules::{Broken, Unlike};
use casdisk_texts::Explained;
use file_commands::WrongStep;
use history_words::status_name;
use nvme_model::status::{Status, Verdict};
use std::fmt;

/// What is said of a history, in words, with what has to do with its first bad step, where that is known.
#[derive(Drop)]
pub struct ExplainedWords {
    pub explained: Explained,
    pub culprit: Option<Culprit>,
}

/// What is said of an entry that breaks the discipline of slots, whose area begins at this block.
#[derive(Drop)]
pub struct WrongStepWords {
    pub first: u64,
    pub step: WrongStep,
}

// A rule that is broken.
#[derive(Drop)]
struct BrokenWords(Broken);

// How a completion differs.
#[derive(Drop)]
struct UnlikeWords(Unlike);

// How byte 15 of a completion differs, whose status and phase are right.
#[derive(Drop)]
struct HighWords {
    found: u8,
    due: u8,
}

// What a Fetch says of its commands.
#[derive(Drop)]
struct ExplainedVerdict(Verdict);

// A status by its numbers and its name.
#[derive(Drop)]
struct ExplainedStatus(Status);

// The status of 256 times its type and its code.
fn status_of(code: u16) -> Status {
    Status::new((code / 256 % 8) as u8, (code % 256) as u8)
}

impl fmt::Display for ExplainedWords {
    fn fmt<W: fmt::Write>(&self, f: &mut fmt::Formatter<W>) -> fmt::Result {
        let Explained::BadAt(step) = self.explained else {
            return f.write_str("legal");
        };
        write!(
            f,
            "bad at {} (line {}): {}",
            step.place,
            step.place.saturating_add(1),
            BrokenWords(step.broken)
        )?;
        match self.culprit {
            Some(culprit) => write!(f, ": {culprit}"),
            None => Ok(()),
        }
    }
}

impl fmt::Display for WrongStepWords {
    fn fmt<W: fmt::Write>(&self, f: &mut fmt::Formatter<W>) -> fmt::Result {
        let lba = self.step.broken.lba();
        write!(
            f,
            "slots bad at {} (line {}): slot {} (block {}): {}",
            self.step.place,
            self.step.place.saturating_add(1),
            lba.saturating_sub(self.first),
            lba,
            self.step.broken
        )
    }
}

impl fmt::Display for BrokenWords {
    fn fmt<W: fmt::Write>(&self, f: &mut fmt::Formatter<W>) -> fmt::Result {
        match self.0 {
            Broken::Verdict { found, due } => write!(
                f,
                "fetched as {}, due is {}",
                ExplainedVerdict(found),
                ExplainedVerdict(due)
            ),
            Broken::Completion(unlike) => write!(f, "{}", UnlikeWords(unlike)),
            Broken::Reaped(unlike) => write!(f, "another completion: {}", UnlikeWords(unlike)),
            other => write!(f, "{}", other),
        }
    }
}

impl fmt::Display for UnlikeWords {
    fn fmt<W: fmt::Write>(&self, f: &mut fmt::Formatter<W>) -> fmt::Result {
        match self.0 {
            Unlike::Status { found, due } => write!(
                f,
                "status {}, due is {}",
                ExplainedStatus(status_of(found)),
                ExplainedStatus(status_of(due))
            ),
            Unlike::Byte { place, found, due } => {
                if place < 4 {
                    return write!(
                        f,
                        "byte {} of DW0 is {:02X}, due is {:02X}",
                        place, found, due
                    );
                }
                if place < 8 {
                    return write!(
                        f,
                        "byte {} of DW1 is {:02X}, due is {:02X}",
                        place - 4,
                        found,
                        due
                    );
                }
                write!(f, "{}", HighWords { found, due })
            }
            other => write!(f, "{}", other),
        }
    }
}

impl fmt::Display for HighWords {
    fn fmt<W: fmt::Write>(&self, f: &mut fmt::Formatter<W>) -> fmt::Result {
        let (found, due) = (self.found, self.due);
        if found / 128 != due / 128 {
            return write!(f, "DNR is {}, due is {}", found / 128, due / 128);
        }
        if found / 64 % 2 != due / 64 % 2 {
            return write!(f, "More is {}, due is {}", found / 64 % 2, due / 64 % 2);
        }
        write!(f, "CRD is {}, due is {}", found / 16 % 4, due / 16 % 4)
    }
}

impl fmt::Display for ExplainedVerdict {
    fn fmt<W: fmt::Write>(&self, f: &mut fmt::Formatter<W>) -> fmt::Result {
        match self.0 {
            Verdict::Single => f.write_str("1 ok"),
            Verdict::SingleFailed(status) => write!(f, "1 {}", ExplainedStatus(status)),
            Verdict::Pair => f.write_str("2 ok"),
            Verdict::PairFailed(first, second) => {
                write!(
                    f,
                    "2 {} {}",
                    ExplainedStatus(first),
                    ExplainedStatus(second)
                )
            }
        }
    }
}

impl fmt::Display for ExplainedStatus {
    fn fmt<W: fmt::Write>(&self, f: &mut fmt::Formatter<W>) -> fmt::Result {
        write!(
            f,
            "{}/{:02X} ({})",
            self.0.sct(),
            self.0.sc(),
            status_name(self.0)
        )
    }
}
