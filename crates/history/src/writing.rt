//! The line of an entry.

ghost use Rattle.std.specs.Prelude.{[], ◌∷◌, OnOk, OnErr, codes, decimal};
ghost use Rattle.std.specs.Io.KnownBytes.{Appends};
ghost use Rattle.std.specs.List.{join_with_byte};
ghost use Rattle.line_text.specs.Known.{AppendsFront};
ghost use Rattle.nvme_model.specs.declared.entry.Entry.{Entry};
ghost use Rattle.history.specs.Lines.{HasLine, entry_line};

use crate::batch::write_batch;
use crate::lines_there::fits;
use crate::marks::{found_text, mark_text, mode_text};
use crate::status_word::status_text;
use line_text::{Word, send_words};
use nvme_model::entry::{BlockLine, Entry, FetchLine, GrantLine, PostLine, PublishLine, ReapLine};
use nvme_model::status::Verdict;
use std::io::{Result as IoResult, Write};

/// Writes the line of a Publish, without its line feed; it takes no memory.
///
/// After an `Err` the writer has some beginning of it.
#[tactic(auto, unfolding(crate::specs::Lines::entry_line, crate::specs::Lines::entry_words))]
pub fn write_publish<W: Write>(line: &PublishLine, writer: &mut W) -> IoResult<()>
    ensures whole { OnOk result
        (Appends (W.contents writer.old) (W.contents writer.new) (entry_line (Entry.Publish line.now))) }
    ensures front { OnErr result
        (AppendsFront (W.contents writer.old) (W.contents writer.new) (entry_line (Entry.Publish line.now))) }
{
    write_batch(writer, line.queue, line.batch.as_slice())
}

#[tactic(auto, unfolding(crate::specs::Lines::entry_line, crate::specs::Lines::entry_words))]
fn write_fetch<W: Write>(line: &FetchLine, writer: &mut W) -> IoResult<()>
    ensures whole { OnOk result
        (Appends (W.contents writer.old) (W.contents writer.new) (entry_line (Entry.Fetch line.now))) }
    ensures front { OnErr result
        (AppendsFront (W.contents writer.old) (W.contents writer.new) (entry_line (Entry.Fetch line.now))) }
{
    match line.verdict {
        Verdict::Single => send_fetch(line, b"1", b"ok", writer),
        Verdict::SingleFailed(status) => send_fetch(line, b"1", &status_text(status), writer),
        Verdict::Pair => send_fetch(line, b"2", b"ok", writer),
        Verdict::PairFailed(first, second) => {
            let first = status_text(first);
            let second = status_text(second);
            send_words(
                writer,
                &[
                    Word::Text(b"fetch"),
                    Word::Number(u64::from(line.queue)),
                    Word::Number(line.ticket),
                    Word::Text(b"2"),
                    Word::Text(&first),
                    Word::Text(&second),
                ],
            )
        }
    }
}

// Writes the line of a Fetch whose verdict is these two words.
fn send_fetch<'a, W: Write>(
    line: &FetchLine,
    count: &'a [u8],
    word: &'a [u8],
    writer: &mut W,
) -> IoResult<()>
    ensures whole { OnOk result
        (Appends (W.contents writer.old) (W.contents writer.new)
        (join_with_byte 32
        (codes "fetch" ∷ decimal line.now.queue ∷ decimal line.now.ticket ∷ count.now ∷ word.now ∷ []))) }
    ensures front { OnErr result
        (AppendsFront (W.contents writer.old) (W.contents writer.new)
        (join_with_byte 32
        (codes "fetch" ∷ decimal line.now.queue ∷ decimal line.now.ticket ∷ count.now ∷ word.now ∷ []))) }
{
    send_words(
        writer,
        &[
            Word::Text(b"fetch"),
            Word::Number(u64::from(line.queue)),
            Word::Number(line.ticket),
            Word::Text(count),
            Word::Text(word),
        ],
    )
}

#[tactic(auto, unfolding(crate::specs::Lines::entry_line, crate::specs::Lines::entry_words))]
fn write_grant<W: Write>(line: &GrantLine, writer: &mut W) -> IoResult<()>
    ensures whole { OnOk result
        (Appends (W.contents writer.old) (W.contents writer.new) (entry_line (Entry.Grant line.now))) }
    ensures front { OnErr result
        (AppendsFront (W.contents writer.old) (W.contents writer.new) (entry_line (Entry.Grant line.now))) }
{
    let range = line.range.get();
    send_words(
        writer,
        &[
            Word::Text(b"grant"),
            Word::Number(line.ticket),
            Word::Number(line.unit),
            Word::Number(range.slba),
            Word::Number(u64::from(range.blocks)),
            Word::Text(mode_text(&line.mode)),
        ],
    )
}

#[tactic(auto, unfolding(crate::specs::Lines::entry_line, crate::specs::Lines::entry_words))]
fn write_block<W: Write>(line: &BlockLine, writer: &mut W) -> IoResult<()>
    ensures whole { OnOk result
        (Appends (W.contents writer.old) (W.contents writer.new) (entry_line (Entry.Block line.now))) }
    ensures front { OnErr result
        (AppendsFront (W.contents writer.old) (W.contents writer.new) (entry_line (Entry.Block line.now))) }
{
    send_words(
        writer,
        &[
            Word::Text(b"block"),
            Word::Number(line.ticket),
            Word::Number(line.unit),
            Word::Number(line.lba),
            Word::Text(found_text(&line.found)),
            Word::Text(mark_text(&line.effect)),
        ],
    )
}

#[tactic(auto, unfolding(crate::specs::Lines::entry_line, crate::specs::Lines::entry_words))]
fn write_post<W: Write>(line: &PostLine, writer: &mut W) -> IoResult<()>
    ensures whole { OnOk result
        (Appends (W.contents writer.old) (W.contents writer.new) (entry_line (Entry.Post line.now))) }
    ensures front { OnErr result
        (AppendsFront (W.contents writer.old) (W.contents writer.new) (entry_line (Entry.Post line.now))) }
{
    send_words(
        writer,
        &[
            Word::Text(b"post"),
            Word::Number(line.ticket),
            Word::Hex(&line.cqe),
            Word::Data(line.payload.as_slice()),
        ],
    )
}

#[tactic(auto, unfolding(crate::specs::Lines::entry_line, crate::specs::Lines::entry_words))]
fn write_reap<W: Write>(line: &ReapLine, writer: &mut W) -> IoResult<()>
    ensures whole { OnOk result
        (Appends (W.contents writer.old) (W.contents writer.new) (entry_line (Entry.Reap line.now))) }
    ensures front { OnErr result
        (AppendsFront (W.contents writer.old) (W.contents writer.new) (entry_line (Entry.Reap line.now))) }
{
    send_words(
        writer,
        &[
            Word::Text(b"reap"),
            Word::Number(u64::from(line.queue)),
            Word::Hex(&line.cqe),
        ],
    )
}

/// Writes the line of the entry, without its line feed; it takes no memory.
///
/// After an `Err` the writer has some beginning of it.
pub fn write_line<W: Write>(entry: &Entry, writer: &mut W) -> IoResult<()>
    ensures whole { OnOk result
        (Appends (W.contents writer.old) (W.contents writer.new) (entry_line entry.now)) }
    ensures front { OnErr result
        (AppendsFront (W.contents writer.old) (W.contents writer.new) (entry_line entry.now)) }
    ensures line { HasLine entry.now }
{
    fits(entry);
    match entry {
        Entry::Publish(line) => write_publish(line, writer),
        Entry::Fetch(line) => write_fetch(line, writer),
        Entry::Grant(line) => write_grant(line, writer),
        Entry::Block(line) => write_block(line, writer),
        Entry::Post(line) => write_post(line, writer),
        Entry::Reap(line) => write_reap(line, writer),
    }
}
