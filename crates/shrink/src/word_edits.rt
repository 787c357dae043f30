//! Lines with another word, or other words.

use line_text::split_words;
use std::alloc::{AllocError as NoMemory, Global};

/// Puts a word at the end of a line, behind a space where it isn't the first.
pub(crate) fn add_word(line: &mut Vec<u8>, first: bool, word: &[u8]) -> Result<(), NoMemory> {
    if !first {
        line.push(b' ')?;
    }
    line.extend_from_slice(word)
}

/// The line with this text in place of each word that is another.
pub(crate) fn with_words(
    alloc: Global,
    line: &[u8],
    old: &[u8],
    new: &[u8],
) -> Result<Vec<u8>, NoMemory> {
    let words = split_words(alloc, line, b' ')?;
    let mut out = Vec::new(alloc);
    for k in 0..words.len() {
        let word = words[k];
        add_word(&mut out, k == 0, if word == old { new } else { word })?;
    }
    Ok(out)
}

/// The line with this text in place of the word at a place.
pub(crate) fn with_word(
    alloc: Global,
    line: &[u8],
    place: usize,
    new: &[u8],
) -> Result<Vec<u8>, NoMemory> {
    let words = split_words(alloc, line, b' ')?;
    let mut out = Vec::new(alloc);
    for k in 0..words.len() {
        add_word(&mut out, k == 0, if k == place { new } else { words[k] })?;
    }
    Ok(out)
}
