//! The entries of a Publish, read and written.

ghost use Rattle.std.specs.Prelude.{◌≡◌, ◌<◌, Some, OnOk, OnErr, length, map};
ghost use Rattle.std.specs.Io.KnownBytes.{Appends};
ghost use Rattle.std.specs.List.{join_with_byte};
ghost use Rattle.line_text.specs.Known.{AppendsFront};
ghost use Rattle.history.specs.BatchWords.{batch_in, item_in, more_in, publish_words, then_item};
ghost use Rattle.history.specs.Gives.{GivesRead};

use crate::line_fault::LineFault;
use line_text::{Word, read_data, read_fixed, send_behind, send_words};
use nvme_model::submission::{Batch, Payload, Submission};
use std::alloc::Global;
use std::io::{Result as IoResult, Write};

// The entry that two words spell.
fn item_of(alloc: Global, entry: &[u8], payload: &[u8]) -> Result<Submission, LineFault>
    ensures { GivesRead result (item_in entry.now payload.now) }
{
    let Some(entry) = read_fixed::<64>(entry) else {
        return Err(LineFault::Malformed);
    };
    let Some(payload) = read_data(alloc, payload)? else {
        return Err(LineFault::Malformed);
    };
    Ok(Submission {
        entry,
        payload: Payload::new(payload),
    })
}

// The first entry, and those that the words behind it spell.
fn more_of(alloc: Global, first: Submission, words: &[&[u8]]) -> Result<Batch, LineFault>
    ensures { GivesRead result (then_item (Some first) (more_in (map (λ w. w.now) words.now))) }
{
    let mut items = Vec::new(alloc);
    items.push(first)?;
    let mut rest = words;
    while let [plus, entry, payload, after @ ..] = rest {
        if *plus != b"+".as_slice() {
            return Err(LineFault::Malformed);
        }
        let item = item_of(alloc, entry, payload)?;
        items.push(item)?;
        rest = after;
    }
    if !rest.is_empty() {
        return Err(LineFault::Malformed);
    }
    Ok(Batch::new(items))
}

// The entries that words spell.
#[tactic(auto, unfolding(crate::specs::BatchWords::batch_in))]
pub(crate) fn batch_of(alloc: Global, words: &[&[u8]]) -> Result<Batch, LineFault>
    ensures { GivesRead result (batch_in (map (λ w. w.now) words.now)) }
{
    let [entry, payload, others @ ..] = words else {
        return Err(LineFault::Malformed);
    };
    let first = item_of(alloc, entry, payload)?;
    more_of(alloc, first, others)
}

// Writes the line of a Publish, or a beginning of it.
pub(crate) fn write_batch<W: Write>(
    writer: &mut W,
    queue: u16,
    items: &[Submission],
) -> IoResult<()>
    requires { 0 < length items.now }
    ensures whole { OnOk result
        (Appends (W.contents writer.old) (W.contents writer.new)
        (join_with_byte 32 (publish_words queue items.now))) }
    ensures front { OnErr result
        (AppendsFront (W.contents writer.old) (W.contents writer.new)
        (join_with_byte 32 (publish_words queue items.now))) }
{
    let Some((first, others)) = items.split_first() else {
        return Ok(());
    };
    send_words(
        writer,
        &[
            Word::Text(b"publish"),
            Word::Number(u64::from(queue)),
            Word::Hex(&first.entry),
            Word::Data(first.payload.as_slice()),
        ],
    )?;
    for item in others {
        send_behind(
            writer,
            &[
                Word::Text(b"+"),
                Word::Hex(&item.entry),
                Word::Data(item.payload.as_slice()),
            ],
        )?;
    }
    Ok(())
}
