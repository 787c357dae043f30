//! Pieces of a text, added one behind the other.

ghost use Rattle.std.specs.Prelude.{◌≡◌, ◌++◌, OnOk, decimal, flat_map, take};
ghost use Rattle.picture_svg.specs.Pieces.{escaped, escaped_byte, piece_text};

use itoa::Buffer;
use std::alloc::AllocError as NoMemory;

/// One piece of a text.
#[derive(Clone, Copy)]
pub enum Piece<'a> {
    /// The bytes as they are.
    Raw(&'a [u8]),
    /// Decimal digits.
    Number(u64),
    /// Words, with what has a meaning in SVG replaced.
    Words(&'a [u8]),
    /// The first bytes of words, at most so many, in the same way.
    Clipped(&'a [u8], u64),
}

// Adds a byte of words.
fn push_escaped(text: &mut Vec<u8>, byte: u8) -> Result<(), NoMemory>
    ensures value { OnOk result (text.new.items ≡ text.old.items ++ escaped_byte byte) }
{
    match byte {
        b'&' => text.extend_from_slice(b"&amp;"),
        b'<' => text.extend_from_slice(b"&lt;"),
        b'>' => text.extend_from_slice(b"&gt;"),
        0..=31 => text.extend_from_slice(b" "),
        _ => text.extend_from_slice(&[byte]),
    }
}

// Adds words.
fn push_words(text: &mut Vec<u8>, words: &[u8]) -> Result<(), NoMemory>
    ensures value { OnOk result (text.new.items ≡ text.old.items ++ escaped words.now) }
{
    for byte in words {
        push_escaped(text, *byte)?;
    }
    Ok(())
}

// The first bytes, at most so many.
fn clipped(words: &[u8], most: u64) -> &[u8]
    ensures value { result.now ≡ take most words.now }
{
    if most < words.len() as u64 {
        return &words[..most as usize];
    }
    words
}

// Adds a number.
fn push_number(text: &mut Vec<u8>, n: u64) -> Result<(), NoMemory>
    ensures value { OnOk result (text.new.items ≡ text.old.items ++ decimal n) }
{
    let mut digits = Buffer::new();
    text.extend_from_slice(digits.format(n).as_bytes())
}

// Adds a piece.
fn push_piece(text: &mut Vec<u8>, piece: Piece<'_>) -> Result<(), NoMemory>
    ensures value { OnOk result (text.new.items ≡ text.old.items ++ piece_text piece.entry) }
{
    match piece {
        Piece::Raw(bytes) => text.extend_from_slice(bytes),
        Piece::Number(n) => push_number(text, n),
        Piece::Words(words) => push_words(text, words),
        Piece::Clipped(words, most) => push_words(text, clipped(words, most)),
    }
}

/// Adds the pieces.
///
/// # Errors
///
/// `NoMemory` where a growth is refused.
pub fn push_all(text: &mut Vec<u8>, pieces: &[Piece<'_>]) -> Result<(), NoMemory>
    ensures value { OnOk result (text.new.items ≡ text.old.items ++ flat_map piece_text pieces.now) }
{
    for piece in pieces {
        push_piece(text, *piece)?;
    }
    Ok(())
}
