//! The lines that a script prints, where their kind is shown.

ghost use Rattle.std.specs.Prelude.{◌≡◌, OnOk, OnErr};
ghost use Rattle.std.specs.Io.KnownBytes.{Appends};
ghost use Rattle.line_text.specs.Known.{AppendsFront};
ghost use Rattle.line_text.specs.Words.{word_text};
ghost use Rattle.casdisk_texts.specs.Said.{block_word, entry_text, medium_text, refusal_text};
ghost use Rattle.casdisk_texts.specs.Said.{line_kind as the_kind_of};

use history::{Entry, Kinds, shows, write_line};
use line_text::{Word, send, send_words};
use nvme_model::refusal::Why;
use std::io::{Result as IoResult, Write};
use step_core::Core;

// The kind of an entry's line.
pub(crate) fn kind_of(entry: &Entry) -> Kinds
    ensures { result.0 ≡ the_kind_of entry.now }
{
    match entry {
        Entry::Publish(_) => Kinds::publish,
        Entry::Fetch(_) => Kinds::fetch,
        Entry::Grant(_) => Kinds::grant,
        Entry::Block(_) => Kinds::block,
        Entry::Post(_) => Kinds::post,
        Entry::Reap(_) => Kinds::reap,
    }
}

// Writes the line of an entry, where its kind is shown.
pub(crate) fn print_entry<W: Write>(kinds: Kinds, entry: &Entry, writer: &mut W) -> IoResult<()>
    ensures whole { OnOk result
        (Appends (W.contents writer.old) (W.contents writer.new) (entry_text kinds.0 entry.now)) }
    ensures front { OnErr result
        (AppendsFront (W.contents writer.old) (W.contents writer.new) (entry_text kinds.0 entry.now)) }
{
    if !shows(kinds, kind_of(entry)) {
        return Ok(());
    }
    write_line(entry, writer)?;
    send(writer, b"\n")
}

// Writes that a step was refused, where that is shown.
pub(crate) fn print_refusal<W: Write>(kinds: Kinds, why: Why, writer: &mut W) -> IoResult<()>
    ensures whole { OnOk result
        (Appends (W.contents writer.old) (W.contents writer.new) (refusal_text kinds.0 why)) }
    ensures front { OnErr result
        (AppendsFront (W.contents writer.old) (W.contents writer.new) (refusal_text kinds.0 why)) }
{
    if !shows(kinds, Kinds::refused) {
        return Ok(());
    }
    send_words(
        writer,
        &[
            Word::Text(b"refused"),
            Word::Number(u64::from(why.number())),
        ],
    )?;
    send(writer, b"\n")
}

// A block as it lies in the volume, or `none` past the end.
fn word_of<'a>(core: &'a Core, lba: u64) -> Word<'a>
    ensures { word_text result ≡ block_word core.now.config core.now.past lba }
{
    match core.medium(lba) {
        Some(block) => Word::Data(block),
        None => Word::Text(b"none"),
    }
}

// Writes a block of the volume, where that is shown.
pub(crate) fn print_medium<W: Write>(
    kinds: Kinds,
    core: &Core,
    lba: u64,
    writer: &mut W,
) -> IoResult<()>
    ensures whole { OnOk result
        (Appends (W.contents writer.old) (W.contents writer.new)
        (medium_text kinds.0 core.now.config core.now.past lba)) }
    ensures front { OnErr result
        (AppendsFront (W.contents writer.old) (W.contents writer.new)
        (medium_text kinds.0 core.now.config core.now.past lba)) }
{
    if !shows(kinds, Kinds::medium) {
        return Ok(());
    }
    send_words(
        writer,
        &[Word::Text(b"medium"), Word::Number(lba), word_of(core, lba)],
    )?;
    send(writer, b"\n")
}
