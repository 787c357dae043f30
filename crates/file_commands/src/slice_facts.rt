//! What a command of a refutation did on a block, in words.

use entry_codec::decode_sqe;
use line_text::{Word, send, send_words};
use nvme_model::operation::Op;
use nvme_model::submission::Submission;
use refutation::Refutation;
use refutation_check::{cid_named, cid_of, is_success, op_of, queue_of, status_of};
use std::io::{Result as IoResult, Write};
use trace::{ReapedLine, Seen};

const ZEROS: [u8; 512] = [0; 512];

/// An entry of a trace.
#[derive(Clone, Copy)]
pub(crate) struct Placed<'a> {
    /// The place of the line that publishes it, from 0.
    pub(crate) place: usize,
    pub(crate) entry: &'a Submission,
    // The entry behind it on its queue, of which a pair has its data.
    next: Option<&'a Submission>,
}

// The place of the line that publishes an entry of a submission queue, and the entry.
fn entry_at<'a>(things: &'a [Seen], queue: u16, number: u64) -> Option<(usize, &'a Submission)> {
    let mut before: u64 = 0;
    for (place, thing) in things.iter().enumerate() {
        if let Seen::Published(line) = thing {
            if line.queue == queue {
                let batch = line.batch.as_slice();
                if before <= number {
                    if let Some(entry) = batch.get((number - before) as usize) {
                        return Some((place, entry));
                    }
                }
                before = before.saturating_add(batch.len() as u64);
            }
        }
    }
    None
}

/// The entry of this number of a submission queue, from 0.
pub(crate) fn entry_placed<'a>(things: &'a [Seen], queue: u16, number: u64) -> Option<Placed<'a>> {
    let (place, entry) = entry_at(things, queue, number)?;
    let next = match entry_at(things, queue, number.saturating_add(1)) {
        Some((_, next)) => Some(next),
        None => None,
    };
    Some(Placed { place, entry, next })
}

// The line that answers an entry, and its place.
fn answer_of<'a>(
    things: &'a [Seen],
    placed: &Placed<'a>,
    queue: u16,
) -> Option<(usize, &'a ReapedLine)> {
    let cid = cid_of(placed.entry);
    for (place, thing) in things.iter().enumerate() {
        if let Seen::Reaped(line) = thing {
            if place > placed.place && queue_of(&line.cqe) == queue && cid_named(&line.cqe) == cid {
                return Some((place, line));
            }
        }
    }
    None
}

// The first block of these in the range of an entry, and how many blocks of the range stand before it.
fn block_in(blocks: &[u64], entry: &Submission) -> Option<(u64, u64)> {
    let fields = decode_sqe(&entry.entry);
    for block in blocks {
        if *block >= fields.slba() && *block - fields.slba() < u64::from(fields.blocks()) {
            return Some((*block, *block - fields.slba()));
        }
    }
    None
}

// The data of the block with so many before it.
fn block_data(bytes: &[u8], before: u64) -> &[u8] {
    let start = before.saturating_mul(512) as usize;
    match bytes.get(start..start.saturating_add(512)) {
        Some(block) => block,
        None => &[],
    }
}

// Whether all bytes are this one.
fn are_all(bytes: &[u8], byte: u8) -> bool {
    for other in bytes {
        if *other != byte {
            return false;
        }
    }
    true
}

// Writes a block: as one byte, where all of its bytes are that one, else its first 16.
fn send_block<W: Write>(data: &[u8], writer: &mut W) -> IoResult<()> {
    match (data.first(), data.get(..16)) {
        (Some(byte), Some(_)) if are_all(data, *byte) => send_words(writer, &[Word::Hex(&[*byte])]),
        (_, Some(front)) => {
            send_words(writer, &[Word::Hex(front)])?;
            send(writer, b"..")
        }
        (_, None) => send(writer, b"nothing"),
    }
}

// Writes a word, a block, and which one it is.
fn send_held<W: Write>(word: &[u8], data: &[u8], block: u64, writer: &mut W) -> IoResult<()> {
    send(writer, word)?;
    send_block(data, writer)?;
    send_words(writer, &[Word::Text(b" in block"), Word::Number(block)])
}

// Writes that a command found something else than it compares: in this block, or in one of its blocks.
fn send_differs<W: Write>(
    entry: &Submission,
    given: &[u8],
    block: u64,
    writer: &mut W,
) -> IoResult<()> {
    let fields = decode_sqe(&entry.entry);
    if fields.blocks() == 1 {
        return send_held(b"found something else than ", given, block, writer);
    }
    let last = fields.slba().saturating_add(u64::from(fields.blocks() - 1));
    send_words(
        writer,
        &[
            Word::Text(b"found something else than it compares in one of blocks"),
            Word::Number(fields.slba()),
            Word::Text(b"to"),
            Word::Number(last),
        ],
    )
}

// Writes what a pair did that wasn't answered by another status than success.
fn send_pair<W: Write>(
    finds: &[u8],
    writes: &[u8],
    block: u64,
    is_answered: bool,
    writer: &mut W,
) -> IoResult<()> {
    let (first, second): (&[u8], &[u8]) = match is_answered {
        true => (b"found ", b" and wrote "),
        false => (b"may have found ", b" and written "),
    };
    send(writer, first)?;
    send_block(finds, writer)?;
    send_held(second, writes, block, writer)
}

// Whether a command wrote, by whether it was answered with success, where it was.
fn written_word(answer: Option<(bool, &ReapedLine)>) -> &'static [u8] {
    match answer {
        Some((true, _)) => b"wrote ",
        Some((false, _)) => b"didn't write ",
        None => b"may have written ",
    }
}

// Writes what a command did; whether it was answered with success, where it was.
fn send_done<W: Write>(
    placed: &Placed<'_>,
    block: u64,
    before: u64,
    answer: Option<(bool, &ReapedLine)>,
    writer: &mut W,
) -> IoResult<()> {
    let given = block_data(placed.entry.payload.as_slice(), before);
    let written = written_word(answer);
    match (op_of(placed.entry), answer) {
        (Some(Op::Read), Some((_, line))) => {
            send_held(
                b"found ",
                block_data(line.payload.as_slice(), before),
                block,
                writer,
            )
        }
        (Some(Op::Compare), Some((true, _))) => send_held(b"found ", given, block, writer),
        (Some(Op::Compare | Op::Pair), Some((false, _))) => {
            send_differs(placed.entry, given, block, writer)
        }
        (Some(Op::Write), _) => send_held(written, given, block, writer),
        (Some(Op::WriteZeroes), _) => send_held(written, &ZEROS, block, writer),
        (Some(Op::Pair), _) => {
            let writes = match placed.next {
                Some(next) => block_data(next.payload.as_slice(), before),
                None => &[],
            };
            send_pair(given, writes, block, answer.is_some(), writer)
        }
        (Some(Op::Read | Op::Compare) | None, _) => send(writer, b"wasn't answered"),
    }
}

/// Writes what a command of this submission queue did on the first block of a refutation that it has, as it says,
/// and by which line of the file that was answered; so many lines of the file stand before these things.
pub(crate) fn send_fact<W: Write>(
    refutation: &Refutation,
    things: &[Seen],
    placed: &Placed<'_>,
    queue: u16,
    head: usize,
    writer: &mut W,
) -> IoResult<()> {
    let Some((block, before)) = block_in(refutation.blocks(), placed.entry) else {
        return send(writer, b"did something");
    };
    let Some((place, line)) = answer_of(things, placed, queue) else {
        return send_done(placed, block, before, None, writer);
    };
    send_done(
        placed,
        block,
        before,
        Some((is_success(status_of(&line.cqe)), line)),
        writer,
    )?;
    let answered = head.saturating_add(place).saturating_add(1);
    send_words(
        writer,
        &[Word::Text(b" by line"), Word::Number(answered as u64)],
    )
}
