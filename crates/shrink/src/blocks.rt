//! `publish` lines whose entries have fewer blocks.

use crate::word_edits::add_word;
use line_text::{read_u64, send_number, split_words};
use std::alloc::{AllocError as NoMemory, Global};

// Where a word of a `publish` line stands in its entry.
#[derive(Clone, Copy, PartialEq, Eq)]
enum Place {
    Kind,
    Queue,
    Name,
    Nlb,
    Data,
    Other(u8),
    Raw(u8),
}

// The place behind a word at another.
fn next_place(place: Place, word: &[u8]) -> Place {
    match place {
        Place::Kind => Place::Queue,
        Place::Queue => Place::Name,
        Place::Name => {
            if word == b"raw".as_slice() {
                Place::Raw(0)
            } else {
                Place::Other(0)
            }
        }
        Place::Other(0) => Place::Other(1),
        Place::Other(1) => Place::Other(2),
        Place::Other(_) => Place::Nlb,
        Place::Nlb => Place::Data,
        Place::Raw(0) => Place::Raw(1),
        // behind the data of an entry stands `+`, which is as the word of a queue
        Place::Raw(_) | Place::Data => Place::Queue,
    }
}

// The first so many blocks of data.
fn cut(data: &[u8], blocks: u64) -> &[u8] {
    let mut left = blocks;
    for k in 0..data.len() {
        if data[k] == b'.' {
            left = left.saturating_sub(1);
            if left == 0 {
                return &data[..k];
            }
        }
    }
    data
}

// Puts the word at the end, with at most so many blocks.
fn add_cut(
    out: &mut Vec<u8>,
    first: bool,
    place: Place,
    word: &[u8],
    nlb: u64,
) -> Result<(), NoMemory> {
    match place {
        Place::Nlb => {
            let many = read_u64(word).unwrap_or(0) > nlb;
            if !many {
                return add_word(out, first, word);
            }
            add_word(out, first, b"")?;
            match send_number(out, nlb) {
                Ok(()) => Ok(()),
                Err(_) => Err(NoMemory),
            }
        }
        Place::Data => add_word(out, first, cut(word, nlb.saturating_add(1))),
        Place::Kind | Place::Queue | Place::Name | Place::Other(_) | Place::Raw(_) => {
            add_word(out, first, word)
        }
    }
}

/// The line where no entry has more blocks than this, 0's based, nor data for more.
pub(crate) fn with_blocks(alloc: Global, line: &[u8], nlb: u64) -> Result<Vec<u8>, NoMemory> {
    let words = split_words(alloc, line, b' ')?;
    let mut out = Vec::new(alloc);
    let mut place = Place::Kind;
    for k in 0..words.len() {
        add_cut(&mut out, k == 0, place, words[k], nlb)?;
        place = next_place(place, words[k]);
    }
    Ok(out)
}

/// The most blocks of an entry of the line, 0's based; 0 where it publishes none.
pub(crate) fn most_blocks(alloc: Global, line: &[u8]) -> Result<u64, NoMemory> {
    if !line.starts_with(b"publish ") {
        return Ok(0);
    }
    let words = split_words(alloc, line, b' ')?;
    let mut most = 0;
    let mut place = Place::Kind;
    for k in 0..words.len() {
        if place == Place::Nlb {
            most = most.max(read_u64(words[k]).unwrap_or(0));
        }
        place = next_place(place, words[k]);
    }
    Ok(most)
}
