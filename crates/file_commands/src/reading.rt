//! The text of a history, judged beside an area of slots.

ghost use Rattle.std.specs.Prelude.{◌+◌, ◌≡◌, ◌≤◌, IfErr, IfOk, IfSome, IsTrue, OnOk, ◌↔◌};
ghost use Rattle.std.specs.Io.KnownBytes.{IsAtEnd};
ghost use Rattle.casdisk_texts.specs.Files.{HasHistory};
ghost use Rattle.file_commands.specs.Texts.{HasFound, IsUnjudged};

use crate::fault::SlotsFault;
use crate::judging::{JudgedSlots, SlotJudge};
use casdisk_texts::{HistoryLines, RunFault};
use nvme_model::array::Range;
use std::alloc::Global;
use std::io::Read;

// Whether the blocks of an area are blocks of the volume.
fn is_within(slots: Range, blocks: u32) -> bool
    ensures value { IsTrue result ↔ slots.slba + slots.blocks ≤ blocks }
{
    u128::from(slots.slba) + u128::from(slots.blocks) <= u128::from(blocks)
}

// Reads a configuration line and the lines of a history to the reader's end, and judges the history.
pub(crate) fn judge_slots<const WHY: bool, R: Read>(
    alloc: Global,
    slots: Range,
    reader: &mut R,
) -> Result<JudgedSlots, SlotsFault>
    ensures whole { IfOk result (λ found. IsAtEnd (R.remaining reader.new)
        × IfSome (R.remaining reader.old) (HasHistory (λ c past. HasFound WHY c slots past found))) }
    ensures slots { OnOk result (1 ≤ slots.blocks) }
    ensures unread { IfErr result
        (λ fault. IsUnjudged slots fault (R.remaining reader.old) (R.remaining reader.new)) }
{
    if slots.blocks == 0 {
        return Err(SlotsFault::NoSlots);
    }
    let mut lines = match HistoryLines::begin(alloc, reader) {
        Ok(lines) => lines,
        Err(fault) => return Err(SlotsFault::Run(fault)),
    };
    let blocks = lines.config.numbers().blocks;
    if !is_within(slots, blocks) {
        return Err(SlotsFault::Beyond(blocks));
    }
    let Ok(mut judge) = SlotJudge::<WHY>::new(alloc, &lines.config, slots) else {
        return Err(SlotsFault::Run(RunFault::NoMemory));
    };
    match lines.take_entries(&mut judge, reader) {
        Ok(()) => Ok(judge.found()),
        Err(fault) => Err(SlotsFault::Run(fault)),
    }
}
