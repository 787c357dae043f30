//! The text of a line.

ghost use Rattle.std.specs.Prelude.{◌++◌, ◌∷◌, ◌≡◌, [], OnErr, OnOk, codes, decimal};
ghost use Rattle.std.specs.Io.KnownBytes.{Appends};
ghost use Rattle.std.specs.List.{join_with_byte};
ghost use Rattle.line_text.specs.Known.{AppendsFront};
ghost use Rattle.line_text.specs.Words.{behind};
ghost use Rattle.script_lines.specs.Texts.{IsScriptLine};
ghost use Rattle.script_lines.specs.Written.{form_words, line_text, name_text, second_words};
ghost use Rattle.script_lines.specs.declared.written.WrittenLine.{WrittenLine as TheLine};

use crate::laws::written_lines_are_read;
use crate::lines_there::fits;
use crate::written::{CommandWord, EntryForm, PublishWords, WrittenEntry, WrittenLine};
use line_text::{Word, send, send_behind, send_words};
use std::io::{Result as IoResult, Write};

fn text_of(name: CommandWord) -> &'static [u8]
    ensures value { result.now ≡ name_text name }
{
    match name {
        CommandWord::Flush => b"flush",
        CommandWord::Write => b"write",
        CommandWord::Read => b"read",
        CommandWord::Compare => b"compare",
        CommandWord::WriteZeroes => b"zeroes",
    }
}

// Writes the words of an entry, each behind a space.
fn send_entry<W: Write>(entry: &WrittenEntry, writer: &mut W) -> IoResult<()>
    ensures whole { OnOk result (Appends (W.contents writer.old) (W.contents writer.new)
        (behind 32 (form_words entry.now.form entry.now.payload))) }
    ensures front { OnErr result (AppendsFront (W.contents writer.old) (W.contents writer.new)
        (behind 32 (form_words entry.now.form entry.now.payload))) }
{
    match &entry.form {
        EntryForm::Named(c) => send_behind(
            writer,
            &[
                Word::Text(text_of(c.name)),
                Word::Number(u64::from(c.fuse.number())),
                Word::Number(u64::from(c.cid)),
                Word::Number(c.slba),
                Word::Number(u64::from(c.nlb)),
                Word::Data(entry.payload.as_slice()),
            ],
        ),
        EntryForm::Raw(bytes) => send_behind(
            writer,
            &[
                Word::Text(b"raw"),
                Word::Hex(bytes),
                Word::Data(entry.payload.as_slice()),
            ],
        ),
    }
}

// Writes `+` and the words of an entry, each behind a space.
fn send_plus<W: Write>(entry: &WrittenEntry, writer: &mut W) -> IoResult<()>
    ensures whole { OnOk result (Appends (W.contents writer.old) (W.contents writer.new)
        ((32 ∷ 43 ∷ []) ++ behind 32 (form_words entry.now.form entry.now.payload))) }
    ensures front { OnErr result (AppendsFront (W.contents writer.old) (W.contents writer.new)
        ((32 ∷ 43 ∷ []) ++ behind 32 (form_words entry.now.form entry.now.payload))) }
{
    send(writer, b" +")?;
    send_entry(entry, writer)
}

// Writes `+` and the words of a second entry, each behind a space; nothing where there is none.
#[tactic(auto, unfolding(line_text::specs::Words::behind))]
fn send_second<W: Write>(second: &Option<WrittenEntry>, writer: &mut W) -> IoResult<()>
    ensures whole { OnOk result (Appends (W.contents writer.old) (W.contents writer.new)
        (behind 32 (second_words second.now))) }
    ensures front { OnErr result (AppendsFront (W.contents writer.old) (W.contents writer.new)
        (behind 32 (second_words second.now))) }
{
    match second {
        None => Ok(()),
        Some(entry) => send_plus(entry, writer),
    }
}

// Writes a `publish` line, in three parts.
fn send_parts<W: Write>(words: &PublishWords, writer: &mut W) -> IoResult<()>
    ensures whole { OnOk result (Appends (W.contents writer.old) (W.contents writer.new)
        (join_with_byte 32 (codes "publish" ∷ decimal words.now.queue ∷ [])
        ++ (behind 32 (form_words words.now.first.form words.now.first.payload)
        ++ behind 32 (second_words words.now.second)))) }
    ensures front { OnErr result (AppendsFront (W.contents writer.old) (W.contents writer.new)
        (join_with_byte 32 (codes "publish" ∷ decimal words.now.queue ∷ [])
        ++ (behind 32 (form_words words.now.first.form words.now.first.payload)
        ++ behind 32 (second_words words.now.second)))) }
{
    send_words(
        writer,
        &[Word::Text(b"publish"), Word::Number(u64::from(words.queue))],
    )?;
    send_entries(words, writer)
}

// Writes the words of the entries, each behind a space.
fn send_entries<W: Write>(words: &PublishWords, writer: &mut W) -> IoResult<()>
    ensures whole { OnOk result (Appends (W.contents writer.old) (W.contents writer.new)
        (behind 32 (form_words words.now.first.form words.now.first.payload)
        ++ behind 32 (second_words words.now.second))) }
    ensures front { OnErr result (AppendsFront (W.contents writer.old) (W.contents writer.new)
        (behind 32 (form_words words.now.first.form words.now.first.payload)
        ++ behind 32 (second_words words.now.second))) }
{
    send_entry(&words.first, writer)?;
    send_second(&words.second, writer)
}

// Writes a `publish` line.
fn send_publish<W: Write>(words: &PublishWords, writer: &mut W) -> IoResult<()>
    ensures whole { OnOk result (Appends (W.contents writer.old) (W.contents writer.new)
        (line_text (TheLine.Publish words.now))) }
    ensures front { OnErr result (AppendsFront (W.contents writer.old) (W.contents writer.new)
        (line_text (TheLine.Publish words.now))) }
{
    send_parts(words, writer)
}

// Writes a kind and a number.
fn send_numbered<'a, W: Write>(kind: &'a [u8], number: u64, writer: &mut W) -> IoResult<()>
    ensures whole { OnOk result (Appends (W.contents writer.old) (W.contents writer.new)
        (join_with_byte 32 (kind.now ∷ decimal number ∷ []))) }
    ensures front { OnErr result (AppendsFront (W.contents writer.old) (W.contents writer.new)
        (join_with_byte 32 (kind.now ∷ decimal number ∷ []))) }
{
    send_words(writer, &[Word::Text(kind), Word::Number(number)])
}

/// Writes a line of a script, without its line feed; it takes no memory. The line reads as what its words ask for.
///
/// After an `Err` the writer has some beginning of it.
#[tactic(auto, unfolding(crate::specs::Written::line_text, crate::specs::Written::line_words))]
pub fn write_script_line<W: Write>(line: &WrittenLine, writer: &mut W) -> IoResult<()>
    ensures whole { OnOk result
        (Appends (W.contents writer.old) (W.contents writer.new) (line_text line.now)) }
    ensures front { OnErr result
        (AppendsFront (W.contents writer.old) (W.contents writer.new) (line_text line.now)) }
    ensures read { IsScriptLine line.now }
{
    fits(line);
    written_lines_are_read();
    match line {
        WrittenLine::Publish(words) => send_publish(words, writer),
        WrittenLine::Fetch(queue) => send_numbered(b"fetch", u64::from(*queue), writer),
        WrittenLine::Grant(ticket) => send_numbered(b"grant", *ticket, writer),
        WrittenLine::Block(ticket) => send_numbered(b"block", *ticket, writer),
        WrittenLine::Post(ticket) => send_numbered(b"post", *ticket, writer),
        WrittenLine::Reap(queue) => send_numbered(b"reap", u64::from(*queue), writer),
        WrittenLine::Settle => send(writer, b"settle"),
        WrittenLine::Medium(block) => send_numbered(b"medium", *block, writer),
    }
}
