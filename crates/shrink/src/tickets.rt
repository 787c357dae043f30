//! Scripts without one of their tickets.

use crate::edits::Change;
use crate::text_line::TextLine;
use line_text::{read_u64, send_number, split_words};
use std::alloc::{AllocError as NoMemory, Global};

/// A ticket, and the lines that bring it.
#[derive(Clone, Copy, Drop)]
pub(crate) struct TicketLines {
    /// Its number, that of its line among the `fetch` lines.
    pub(crate) number: u64,
    /// The place of its `fetch` line.
    pub(crate) fetch: usize,
    /// The place of its `publish` line, where that is left out too.
    pub(crate) publish: Option<usize>,
}

// The ticket that a `grant`, `block` or `post` line names.
fn ticket_of(words: &[&[u8]]) -> Option<u64> {
    let [kind, number] = words else {
        return None;
    };
    if *kind == b"grant".as_slice() || *kind == b"block".as_slice() || *kind == b"post".as_slice() {
        return read_u64(number);
    }
    None
}

// The line with this number.
fn numbered(alloc: Global, kind: &[u8], number: u64) -> Result<Change, NoMemory> {
    let mut text = Vec::new(alloc);
    text.extend_from_slice(kind)?;
    text.push(b' ')?;
    match send_number(&mut text, number) {
        Ok(()) => Ok(Change::Changed(TextLine::new(text))),
        Err(_) => Err(NoMemory),
    }
}

/// What becomes of the line at a place without this ticket.
pub(crate) fn without_ticket(
    alloc: Global,
    ticket: &TicketLines,
    k: usize,
    line: &TextLine,
) -> Result<Change, NoMemory> {
    if k == ticket.fetch || ticket.publish == Some(k) {
        return Ok(Change::LeftOut);
    }
    let words = split_words(alloc, line.as_slice(), b' ')?;
    let Some(number) = ticket_of(words.as_slice()) else {
        return Ok(Change::Kept);
    };
    if number == ticket.number {
        return Ok(Change::LeftOut);
    }
    if number < ticket.number || words.is_empty() {
        return Ok(Change::Kept);
    }
    numbered(alloc, words[0], number.saturating_sub(1))
}

// The queue that a line of this kind names.
fn queue_of<'a>(line: &'a [u8], kind: &[u8]) -> Option<&'a [u8]> {
    let behind = line.strip_prefix(kind)?;
    behind.split(|b| *b == b' ').next()
}

// The place of the publish that has this number among those of its queue.
fn publish_at(lines: &[TextLine], queue: &[u8], number: u64) -> Option<usize> {
    let mut seen = 0u64;
    for k in 0..lines.len() {
        if queue_of(lines[k].as_slice(), b"publish ") == Some(queue) {
            seen = seen.saturating_add(1);
            if seen == number {
                return Some(k);
            }
        }
    }
    None
}

// Which one of the fetches of its queue the line at a place is.
fn number_on_queue(lines: &[TextLine], queue: &[u8], place: usize) -> u64 {
    let mut seen = 0u64;
    for k in 0..lines.len() {
        if k <= place && queue_of(lines[k].as_slice(), b"fetch ") == Some(queue) {
            seen = seen.saturating_add(1);
        }
    }
    seen
}

/// The ticket with this number and, as far as can be guessed, its lines.
pub(crate) fn ticket_at(
    lines: &[TextLine],
    number: u64,
    with_publish: bool,
) -> Option<TicketLines> {
    let mut seen = 0u64;
    for k in 0..lines.len() {
        if let Some(queue) = queue_of(lines[k].as_slice(), b"fetch ") {
            seen = seen.saturating_add(1);
            if seen == number {
                let publish = if with_publish {
                    publish_at(lines, queue, number_on_queue(lines, queue, k))
                } else {
                    None
                };
                return Some(TicketLines {
                    number,
                    fetch: k,
                    publish,
                });
            }
        }
    }
    None
}

/// How many `fetch` lines there are.
pub(crate) fn count_fetches(lines: &[TextLine]) -> u64 {
    let mut seen = 0u64;
    for k in 0..lines.len() {
        if lines[k].as_slice().starts_with(b"fetch ") {
            seen = seen.saturating_add(1);
        }
    }
    seen
}
