//! The text of a refutation.

ghost use Rattle.std.specs.Prelude.{◌++◌, ◌∷◌, [], OnErr, OnOk, map};
ghost use Rattle.std.specs.Io.KnownBytes.{Appends};
ghost use Rattle.line_text.specs.Known.{AppendsFront};
ghost use Rattle.std.specs.List.{join_with_byte};
ghost use Rattle.line_text.specs.Lines.{with_feeds};
ghost use Rattle.line_text.specs.Words.{word_text};
ghost use Rattle.refutation.specs.Refutations.{IsRefutation};
ghost use Rattle.refutation.specs.Texts.{block_line, command_line, count_line, front_text, refutation_text, slice_text};

use crate::refutation::Refutation;
use line_text::{Word, send, send_words};
use std::io::{Result as IoResult, Write};

fn write_line<W: Write>(writer: &mut W, words: &[Word<'_>]) -> IoResult<()>
    ensures whole { OnOk result (Appends (W.contents writer.old) (W.contents writer.new)
        (join_with_byte 32 (map word_text words.now) ++ 10 ∷ [])) }
    ensures front { OnErr result (AppendsFront (W.contents writer.old) (W.contents writer.new)
        (join_with_byte 32 (map word_text words.now) ++ 10 ∷ [])) }
{
    send_words(writer, words)?;
    send(writer, b"\n")
}

fn write_count<W: Write>(lines: u64, writer: &mut W) -> IoResult<()>
    ensures whole { OnOk result
        (Appends (W.contents writer.old) (W.contents writer.new) (count_line lines ++ 10 ∷ [])) }
    ensures front { OnErr result
        (AppendsFront (W.contents writer.old) (W.contents writer.new) (count_line lines ++ 10 ∷ [])) }
{
    write_line(writer, &[Word::Text(b"lines"), Word::Number(lines)])
}

fn write_block<W: Write>(block: u64, writer: &mut W) -> IoResult<()>
    ensures whole { OnOk result
        (Appends (W.contents writer.old) (W.contents writer.new) (block_line block ++ 10 ∷ [])) }
    ensures front { OnErr result
        (AppendsFront (W.contents writer.old) (W.contents writer.new) (block_line block ++ 10 ∷ [])) }
{
    write_line(writer, &[Word::Text(b"block"), Word::Number(block)])
}

fn write_command<W: Write>(queue: u16, number: u64, writer: &mut W) -> IoResult<()>
    ensures whole { OnOk result
        (Appends (W.contents writer.old) (W.contents writer.new) (command_line (queue, number) ++ 10 ∷ [])) }
    ensures front { OnErr result
        (AppendsFront (W.contents writer.old) (W.contents writer.new) (command_line (queue, number) ++ 10 ∷ [])) }
{
    write_line(
        writer,
        &[
            Word::Text(b"command"),
            Word::Number(u64::from(queue)),
            Word::Number(number),
        ],
    )
}

fn write_blocks<W: Write>(blocks: &[u64], writer: &mut W) -> IoResult<()>
    ensures whole { OnOk result
        (Appends (W.contents writer.old) (W.contents writer.new) (with_feeds (map block_line blocks.now))) }
    ensures front { OnErr result
        (AppendsFront (W.contents writer.old) (W.contents writer.new) (with_feeds (map block_line blocks.now))) }
{
    for block in blocks {
        write_block(*block, writer)?;
    }
    Ok(())
}

fn write_commands<W: Write>(commands: &[(u16, u64)], writer: &mut W) -> IoResult<()>
    ensures whole { OnOk result
        (Appends (W.contents writer.old) (W.contents writer.new) (with_feeds (map command_line commands.now))) }
    ensures front { OnErr result
        (AppendsFront (W.contents writer.old) (W.contents writer.new) (with_feeds (map command_line commands.now))) }
{
    for (queue, number) in commands {
        write_command(*queue, *number, writer)?;
    }
    Ok(())
}

fn write_front<W: Write>(lines: u64, writer: &mut W) -> IoResult<()>
    ensures whole { OnOk result (Appends (W.contents writer.old) (W.contents writer.new) (front_text lines)) }
    ensures front { OnErr result (AppendsFront (W.contents writer.old) (W.contents writer.new) (front_text lines)) }
{
    write_line(writer, &[Word::Text(b"refutation")])?;
    write_count(lines, writer)
}

fn write_slice<W: Write>(blocks: &[u64], commands: &[(u16, u64)], writer: &mut W) -> IoResult<()>
    ensures whole { OnOk result (Appends (W.contents writer.old) (W.contents writer.new)
        (slice_text blocks.now commands.now)) }
    ensures front { OnErr result (AppendsFront (W.contents writer.old) (W.contents writer.new)
        (slice_text blocks.now commands.now)) }
{
    write_blocks(blocks, writer)?;
    write_commands(commands, writer)
}

/// Writes the text of a refutation; it takes no memory.
///
/// # Errors
///
/// What the writer answered; it has some beginning of the text.
pub fn write_refutation<W: Write>(refutation: &Refutation, writer: &mut W) -> IoResult<()>
    ensures whole { OnOk result
        (Appends (W.contents writer.old) (W.contents writer.new) (refutation_text refutation.now)) }
    ensures front { OnErr result
        (AppendsFront (W.contents writer.old) (W.contents writer.new) (refutation_text refutation.now)) }
    ensures fits { IsRefutation refutation.now }
{
    refutation.fits();
    write_front(refutation.lines(), writer)?;
    write_slice(refutation.blocks(), refutation.commands(), writer)
}
