//! The line of what was seen.

ghost use Rattle.std.specs.Prelude.{OnOk, OnErr};
ghost use Rattle.std.specs.Io.KnownBytes.{Appends};
ghost use Rattle.line_text.specs.Known.{AppendsFront};
ghost use Rattle.trace.specs.declared.seen.Seen.{Seen};
ghost use Rattle.trace.specs.SeenLines.{HasSeenLine, seen_line};

use crate::lines_there::fits;
use crate::seen::{ReapedLine, Seen};
use line_text::{Word, send_words};
use nvme_model::entry::PublishLine;
use std::io::{Result as IoResult, Write};

#[tactic(auto, unfolding(crate::specs::SeenLines::seen_line))]
fn write_publish<W: Write>(line: &PublishLine, writer: &mut W) -> IoResult<()>
    ensures whole { OnOk result
        (Appends (W.contents writer.old) (W.contents writer.new) (seen_line (Seen.Published line.now))) }
    ensures front { OnErr result
        (AppendsFront (W.contents writer.old) (W.contents writer.new) (seen_line (Seen.Published line.now))) }
{
    history::write_publish(line, writer)
}

#[tactic(auto, unfolding(crate::specs::SeenLines::seen_line))]
fn write_reap<W: Write>(line: &ReapedLine, writer: &mut W) -> IoResult<()>
    ensures whole { OnOk result
        (Appends (W.contents writer.old) (W.contents writer.new) (seen_line (Seen.Reaped line.now))) }
    ensures front { OnErr result
        (AppendsFront (W.contents writer.old) (W.contents writer.new) (seen_line (Seen.Reaped line.now))) }
{
    send_words(
        writer,
        &[
            Word::Text(b"reap"),
            Word::Number(u64::from(line.queue)),
            Word::Hex(&line.cqe),
            Word::Data(line.payload.as_slice()),
        ],
    )
}

/// Writes the line of what was seen, without its line feed; it takes no memory.
///
/// After an `Err` the writer has some beginning of it.
pub fn write_seen<W: Write>(seen: &Seen, writer: &mut W) -> IoResult<()>
    ensures whole { OnOk result
        (Appends (W.contents writer.old) (W.contents writer.new) (seen_line seen.now)) }
    ensures front { OnErr result
        (AppendsFront (W.contents writer.old) (W.contents writer.new) (seen_line seen.now)) }
    ensures line { HasSeenLine seen.now }
{
    fits(seen);
    match seen {
        Seen::Published(line) => write_publish(line, writer),
        Seen::Reaped(line) => write_reap(line, writer),
    }
}
