//! Files of entries that are checked.

ghost use Rattle.std.specs.Prelude.{OnErr, OnOk};
ghost use Rattle.std.specs.Io.KnownBytes.{Appends};
ghost use Rattle.line_text.specs.Known.{AppendsFront};
ghost use Rattle.casdisk_texts.specs.Files.{ChecksText, bad_text};
ghost use Rattle.casdisk_texts.specs.Judged.{TellsAnswer};

use crate::fault::RunFault;
use crate::judging::judge_text;
use line_text::{Word, send, send_words};
use std::alloc::Global;
use std::io::{Read, Result as IoResult, Write};

// Writes `bad at K`.
pub(crate) fn send_bad<W: Write>(place: u64, writer: &mut W) -> IoResult<()>
    ensures whole { OnOk result (Appends (W.contents writer.old) (W.contents writer.new) (bad_text place)) }
    ensures front { OnErr result (AppendsFront (W.contents writer.old) (W.contents writer.new) (bad_text place)) }
{
    send_words(
        writer,
        &[Word::Text(b"bad"), Word::Text(b"at"), Word::Number(place)],
    )?;
    send(writer, b"\n")
}

/// Writes `legal`, or `bad at K` with this place, and says which.
///
/// # Errors
///
/// `Output` where writing fails, after a beginning of the line.
pub fn tell_answer<W: Write>(bad: Option<u64>, writer: &mut W) -> Result<bool, RunFault>
    ensures told { TellsAnswer bad result (W.contents writer.old) (W.contents writer.new) }
{
    let Some(place) = bad else {
        return match send(writer, b"legal\n") {
            Ok(()) => Ok(true),
            Err(_) => Err(RunFault::Output),
        };
    };
    match send_bad(place, writer) {
        Ok(()) => Ok(false),
        Err(_) => Err(RunFault::Output),
    }
}

/// Reads a configuration line and the lines of a history to the reader's end, and then writes one line: `legal` where
/// the history is legal, or `bad at K` with the first place K, from 1, at which it isn't. Answers whether it is legal.
///
/// # Errors
///
/// `BadLine` with the number of the first line that may not stand there, `BadConfig` with the number of the fault,
/// `Input`, where no line that was read is bad, and `NoMemory`, all after nothing was written; `Output`,
/// where all was read, after a beginning of the line.
pub fn check_text<R: Read, W: Write>(
    alloc: Global,
    reader: &mut R,
    writer: &mut W,
) -> Result<bool, RunFault>
    ensures checks { ChecksText result (R.remaining reader.old) (R.remaining reader.new) (W.contents writer.old)
        (W.contents writer.new) }
{
    let bad = judge_text::<false, R>(alloc, reader)?;
    tell_answer(bad.place, writer)
}
