//! Histories whose first bad entry is explained.

ghost use Rattle.std.specs.Prelude.{◌≡◌};
ghost use Rattle.casdisk_texts.specs.Explained.{ExplainsText, explained_of};

use crate::fault::RunFault;
use crate::judging::{FirstBad, judge_text};
use broken_rules::Broken;
use std::alloc::Global;
use std::fmt;
use std::io::Read;

/// An entry that breaks a rule: its place, from 1, and the first rule that it breaks.
#[derive(Clone, Copy, Debug, PartialEq, Eq)]
pub struct BadStep {
    pub place: u64,
    pub broken: Broken,
}

/// What is said of a history.
#[derive(Clone, Copy, Debug, PartialEq, Eq)]
pub enum Explained {
    /// It is legal.
    Legal,
    /// This is its first entry that breaks a rule.
    BadAt(BadStep),
}

impl fmt::Display for Explained {
    fn fmt<W: fmt::Write>(&self, f: &mut fmt::Formatter<W>) -> fmt::Result {
        match self {
            Explained::Legal => f.write_str("legal"),
            Explained::BadAt(step) => write!(f, "bad at {}: {}", step.place, step.broken),
        }
    }
}

/// What the first entry that breaks a rule, if there is one, says of the history.
pub(crate) fn explained_by(bad: FirstBad) -> Explained
    ensures value { result ≡ explained_of bad.place bad.broken }
{
    match (bad.place, bad.broken) {
        (Some(place), Some(broken)) => Explained::BadAt(BadStep { place, broken }),
        (Some(_), None) | (None, _) => Explained::Legal,
    }
}

/// Reads a configuration line and the lines of a history to the reader's end, and answers whether the history is legal,
/// or its first bad entry with the first rule that it breaks.
///
/// # Errors
///
/// `BadLine` with the number of the first line that may not stand there, `BadConfig` with the number of the fault,
/// `Input`, where no line that was read is bad, and `NoMemory`. Never `Output`.
pub fn explain_text<R: Read>(alloc: Global, reader: &mut R) -> Result<Explained, RunFault>
    ensures explains { ExplainsText result (R.remaining reader.old) (R.remaining reader.new) }
{
    let bad = judge_text::<true, R>(alloc, reader)?;
    Ok(explained_by(bad))
}
