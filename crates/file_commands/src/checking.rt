//! Files of entries that are checked beside an area of slots.

ghost use Rattle.std.specs.Prelude.{OnErr, OnOk};
ghost use Rattle.std.specs.Io.KnownBytes.{Appends};
ghost use Rattle.line_text.specs.Known.{AppendsFront};
ghost use Rattle.file_commands.specs.Texts.{ChecksSlots, TellsFound, wrong_text};

use crate::fault::SlotsFault;
use crate::judging::WrongStep;
use crate::reading::judge_slots;
use casdisk_texts::{RunFault, tell_answer};
use line_text::{Word, send, send_words};
use nvme_model::array::Range;
use std::alloc::Global;
use std::io::{Read, Result as IoResult, Write};

// Writes `slots bad at K`.
pub(crate) fn send_wrong<W: Write>(place: u64, writer: &mut W) -> IoResult<()>
    ensures whole { OnOk result (Appends (W.contents writer.old) (W.contents writer.new) (wrong_text place)) }
    ensures front { OnErr result (AppendsFront (W.contents writer.old) (W.contents writer.new) (wrong_text place)) }
{
    let words = [
        Word::Text(b"slots"),
        Word::Text(b"bad"),
        Word::Text(b"at"),
        Word::Number(place),
    ];
    send_words(writer, &words)?;
    send(writer, b"\n")
}

// Writes `legal`, or `bad at K` with this place, or else `slots bad at K` with that of this step.
fn tell_found<W: Write>(
    bad: Option<u64>,
    wrong: Option<WrongStep>,
    writer: &mut W,
) -> Result<bool, RunFault>
    ensures told { TellsFound bad wrong result (W.contents writer.old) (W.contents writer.new) }
{
    if bad.is_some() {
        return tell_answer(bad, writer);
    }
    let Some(step) = wrong else {
        return tell_answer(None, writer);
    };
    match send_wrong(step.place, writer) {
        Ok(()) => Ok(false),
        Err(_) => Err(RunFault::Output),
    }
}

/// Reads a configuration line and the lines of a history to the reader's end, and then writes one line: `bad at K` with
/// the first place K, from 1, at which the history isn't legal, as `check_text` writes it; else `slots bad at K` with
/// the first place at which it doesn't keep the discipline of these slots; else `legal`. Answers whether it is legal
/// and keeps the discipline.
///
/// # Errors
///
/// `NoSlots` where there is no slot, before anything is read; `Beyond` with the blocks of the volume, where the slots
/// go beyond it, as soon as the configuration line is read; `Run` with the faults of `check_text`. But for
/// `Run(Output)`, which comes after a beginning of the line, nothing was written.
pub fn check_slots<R: Read, W: Write>(
    alloc: Global,
    slots: Range,
    reader: &mut R,
    writer: &mut W,
) -> Result<bool, SlotsFault>
    ensures checks { ChecksSlots slots result (R.remaining reader.old) (R.remaining reader.new)
        (W.contents writer.old) (W.contents writer.new) }
{
    let found = judge_slots::<false, R>(alloc, slots, reader)?;
    match tell_found(found.bad.place, found.wrong, writer) {
        Ok(answer) => Ok(answer),
        Err(fault) => Err(SlotsFault::Run(fault)),
    }
}
