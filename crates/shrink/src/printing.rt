//! What is written in a conversation.

ghost use Rattle.std.specs.Prelude.{◌++◌, ◌∷◌, [], OnErr, OnOk, codes};
ghost use Rattle.std.specs.Io.KnownBytes.{Appends};
ghost use Rattle.line_text.specs.Known.{AppendsFront};
ghost use Rattle.line_text.specs.Lines.{with_feeds};
ghost use Rattle.shrink.specs.Texts.{end_text, numbered_text, whole_script, smallest_text, try_text};

use crate::text_line::TextLine;
use line_text::{Word, send, send_line, send_words};
use std::io::{Result as IoResult, Write};

// Writes lines, each with its line feed.
fn send_lines<W: Write>(lines: &[TextLine], writer: &mut W) -> IoResult<()>
    ensures whole { OnOk result (Appends (W.contents writer.old) (W.contents writer.new) (with_feeds lines.now)) }
    ensures front { OnErr result
        (AppendsFront (W.contents writer.old) (W.contents writer.new) (with_feeds lines.now)) }
{
    for k in 0..lines.len() {
        send_line(writer, lines[k].as_slice())?;
    }
    Ok(())
}

// Writes a script: its first line, and the others.
fn send_script<W: Write>(first: &[u8], lines: &[TextLine], writer: &mut W) -> IoResult<()>
    ensures whole { OnOk result
        (Appends (W.contents writer.old) (W.contents writer.new) (whole_script first.now lines.now)) }
    ensures front { OnErr result
        (AppendsFront (W.contents writer.old) (W.contents writer.new) (whole_script first.now lines.now)) }
{
    send_line(writer, first)?;
    send_lines(lines, writer)
}

// Writes a word and a number as a line.
fn send_numbered<'a, W: Write>(kind: &'a [u8], number: u64, writer: &mut W) -> IoResult<()>
    ensures whole { OnOk result
        (Appends (W.contents writer.old) (W.contents writer.new) (numbered_text kind.now number)) }
    ensures front { OnErr result
        (AppendsFront (W.contents writer.old) (W.contents writer.new) (numbered_text kind.now number)) }
{
    send_words(writer, &[Word::Text(kind), Word::Number(number)])?;
    send(writer, b"\n")
}

// Writes a script, and `end`.
fn send_ended<W: Write>(first: &[u8], lines: &[TextLine], writer: &mut W) -> IoResult<()>
    ensures whole { OnOk result (Appends (W.contents writer.old) (W.contents writer.new)
        (whole_script first.now lines.now ++ end_text)) }
    ensures front { OnErr result (AppendsFront (W.contents writer.old) (W.contents writer.new)
        (whole_script first.now lines.now ++ end_text)) }
{
    send_script(first, lines, writer)?;
    send(writer, b"end\n")
}

// Writes a candidate: `try N`, its script, and `end`.
fn send_try<W: Write>(number: u64, first: &[u8], lines: &[TextLine], writer: &mut W) -> IoResult<()>
    ensures whole { OnOk result
        (Appends (W.contents writer.old) (W.contents writer.new) (try_text number first.now lines.now)) }
    ensures front { OnErr result
        (AppendsFront (W.contents writer.old) (W.contents writer.new) (try_text number first.now lines.now)) }
{
    send_numbered(b"try", number, writer)?;
    send_ended(first, lines, writer)
}

/// Writes a candidate, and sees to it that whoever reads it has all of it.
pub(crate) fn send_flushed<W: Write>(
    number: u64,
    first: &[u8],
    lines: &[TextLine],
    writer: &mut W,
) -> IoResult<()>
    ensures whole { OnOk result
        (Appends (W.contents writer.old) (W.contents writer.new) (try_text number first.now lines.now)) }
{
    send_try(number, first, lines, writer)?;
    match writer.flush() {
        Ok(()) => Ok(()),
        Err(error) => Err(error),
    }
}

/// Writes the smallest script: `smallest N`, and the script.
pub(crate) fn send_smallest<W: Write>(
    number: u64,
    first: &[u8],
    lines: &[TextLine],
    writer: &mut W,
) -> IoResult<()>
    ensures whole { OnOk result
        (Appends (W.contents writer.old) (W.contents writer.new) (smallest_text number first.now lines.now)) }
    ensures front { OnErr result
        (AppendsFront (W.contents writer.old) (W.contents writer.new) (smallest_text number first.now lines.now)) }
{
    send_numbered(b"smallest", number, writer)?;
    send_script(first, lines, writer)
}
