//! Histories whose first bad entry is explained, beside an area of slots.

ghost use Rattle.std.specs.Prelude.{◌≡◌};
ghost use Rattle.file_commands.specs.Texts.{ExplainsSlots, explained_slots_of};

use crate::fault::SlotsFault;
use crate::judging::WrongStep;
use crate::reading::judge_slots;
use casdisk_texts::{BadStep, FirstBad};
use nvme_model::array::Range;
use std::alloc::Global;
use std::io::Read;

/// What is said of a history beside an area of slots.
#[derive(Clone, Copy, Debug, PartialEq, Eq)]
pub enum ExplainedSlots {
    /// It is legal, and keeps the discipline of the slots.
    Legal,
    /// It isn't legal; this is its first entry that breaks a rule.
    BadAt(BadStep),
    /// It is legal; this is its first entry that breaks the discipline of the slots.
    SlotsBadAt(WrongStep),
}

// What was found says this of the history.
fn explained_by(bad: FirstBad, wrong: Option<WrongStep>) -> ExplainedSlots
    ensures value { result ≡ explained_slots_of bad.place bad.broken wrong }
{
    match (bad.place, bad.broken) {
        (Some(place), Some(broken)) => ExplainedSlots::BadAt(BadStep { place, broken }),
        (Some(_), None) | (None, _) => match wrong {
            Some(step) => ExplainedSlots::SlotsBadAt(step),
            None => ExplainedSlots::Legal,
        },
    }
}

/// Reads a configuration line and the lines of a history to the reader's end, and answers whether the history is legal
/// and keeps the discipline of these slots; or its first bad entry with the first rule that it breaks; or, where it is
/// legal, its first entry that breaks the discipline, with the rule.
///
/// # Errors
///
/// `NoSlots` where there is no slot; `Beyond` with the blocks of the volume, where the slots go beyond it; `Run` with
/// the faults of `explain_text`.
pub fn explain_slots<R: Read>(
    alloc: Global,
    slots: Range,
    reader: &mut R,
) -> Result<ExplainedSlots, SlotsFault>
    ensures explains { ExplainsSlots slots result (R.remaining reader.old) (R.remaining reader.new) }
{
    let found = judge_slots::<true, R>(alloc, slots, reader)?;
    Ok(explained_by(found.bad, found.wrong))
}
