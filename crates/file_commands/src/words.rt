//! Why no history was found, in words.

use line_text::{Word, send, send_behind, send_words};
use std::io::{Result as IoResult, Write};
use trace_search::{CommandName, Obstacle, Unexplained};
use trace_walk::Unfit;

fn unfit_text(unfit: Unfit) -> &'static [u8] {
    match unfit {
        Unfit::Queue => b"there is no such queue",
        Unfit::Reserved => b"DW0, DW1, CRD, More or DNR isn't zero",
        Unfit::Phase => b"the phase tag isn't the one that is due",
        Unfit::OtherQueue => b"its submission queue doesn't use this completion queue",
    }
}

fn command_text(command: CommandName) -> &'static [u8] {
    match command {
        CommandName::Flush => b"the Flush",
        CommandName::Write => b"the Write",
        CommandName::Read => b"the Read",
        CommandName::Compare => b"the Compare",
        CommandName::WriteZeroes => b"the Write Zeroes",
        CommandName::Other => b"the command",
    }
}

/// Writes which command it is: `the Read with CID 7 of queue 1 (line 12)`.
pub(crate) fn send_named<W: Write>(
    text: &[u8],
    cid: u16,
    queue: u16,
    line: usize,
    writer: &mut W,
) -> IoResult<()> {
    send_words(
        writer,
        &[
            Word::Text(text),
            Word::Text(b"with CID"),
            Word::Number(u64::from(cid)),
            Word::Text(b"of queue"),
            Word::Number(u64::from(queue)),
            Word::Text(b"(line"),
            Word::Number(line as u64),
        ],
    )?;
    send(writer, b")")
}

fn send_command<W: Write>(reason: &Unexplained, writer: &mut W) -> IoResult<()> {
    send_named(
        command_text(reason.command),
        reason.cid,
        reason.queue,
        reason.published,
        writer,
    )
}

// Writes that no command with this identifier is out.
fn send_nobody<W: Write>(reason: &Unexplained, writer: &mut W) -> IoResult<()> {
    send_words(
        writer,
        &[
            Word::Text(b"no command with CID"),
            Word::Number(u64::from(reason.cid)),
            Word::Text(b"of queue"),
            Word::Number(u64::from(reason.queue)),
            Word::Text(b"is out"),
        ],
    )
}

// Writes that a command found what nobody wrote.
fn send_found<W: Write>(reason: &Unexplained, block: u64, writer: &mut W) -> IoResult<()> {
    send_command(reason, writer)?;
    send_behind(
        writer,
        &[
            Word::Text(b"found in block"),
            Word::Number(block),
            Word::Text(b"what nobody wrote there"),
        ],
    )
}

// Writes what is the matter.
fn send_why<W: Write>(reason: &Unexplained, writer: &mut W) -> IoResult<()> {
    match reason.why {
        Obstacle::Unfit(unfit) => send(writer, unfit_text(unfit)),
        Obstacle::NoRoom => send(writer, b"no completion before it says that there is room"),
        Obstacle::NoCommand => send_nobody(reason, writer),
        Obstacle::Value(block) => send_found(reason, block, writer),
        Obstacle::Head => {
            send_command(reason, writer)?;
            send(writer, b" can't have this SQHD")
        }
        Obstacle::Status => {
            send_command(reason, writer)?;
            send(writer, b" can't end with this status or this data")
        }
        Obstacle::Order => {
            send_command(reason, writer)?;
            send(
                writer,
                b" can't be answered so in any order of what happened before",
            )
        }
    }
}

/// Writes these words, up to which line of the file, and why; lines are numbered as in the file.
pub(crate) fn send_reason<W: Write>(
    words: &[u8],
    reason: &Unexplained,
    writer: &mut W,
) -> IoResult<()> {
    send_words(
        writer,
        &[
            Word::Text(words),
            Word::Text(b"up to line"),
            Word::Number(reason.lines as u64),
        ],
    )?;
    send(writer, b": ")?;
    send_why(reason, writer)
}
