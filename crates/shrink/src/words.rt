//! Smaller data in the place of a word.

use std::alloc::{AllocError as NoMemory, Global};

/// Whether a word may be data: digits in upper case, or `x` and digits.
pub(crate) fn may_be_data(word: &[u8]) -> bool {
    match word.first() {
        Some(b) => b.is_ascii_digit() || (b'A' <= *b && *b <= b'F') || *b == b'x',
        None => false,
    }
}

// The digits before the first dot.
fn first_block(word: &[u8]) -> &[u8] {
    for k in 0..word.len() {
        if word[k] == b'.' {
            return &word[..k];
        }
    }
    word
}

// As many blocks, each of zeros.
fn blocks_of_zeros(alloc: Global, word: &[u8]) -> Result<Vec<u8>, NoMemory> {
    let mut out = Vec::new(alloc);
    out.extend_from_slice(b"00")?;
    for b in word {
        if *b == b'.' {
            out.extend_from_slice(b".00")?;
        }
    }
    Ok(out)
}

// The word with zeros in place of two of its digits.
fn zeroed(alloc: Global, word: &[u8], byte: usize) -> Result<Vec<u8>, NoMemory> {
    let mut out = Vec::new(alloc);
    for k in 0..word.len() {
        out.push(if k / 2 == byte { b'0' } else { word[k] })?;
    }
    Ok(out)
}

/// What may stand for data, by the number of the try: no data, a block of zeros, the first block, as many blocks of
/// zeros, and then in digits of at most 64 bytes one byte after the other as zero. None where nothing is left.
pub(crate) fn smaller_data(
    alloc: Global,
    word: &[u8],
    number: usize,
) -> Result<Option<Vec<u8>>, NoMemory> {
    let text = match number {
        0 => Vec::from_slice(alloc, b"-")?,
        1 => Vec::from_slice(alloc, b"00")?,
        2 => Vec::from_slice(alloc, first_block(word))?,
        3 => blocks_of_zeros(alloc, word)?,
        _ => {
            let byte = number - 4;
            if word.len() > 128 || byte >= word.len() / 2 {
                return Ok(None);
            }
            zeroed(alloc, word, byte)?
        }
    };
    Ok(Some(text))
}
