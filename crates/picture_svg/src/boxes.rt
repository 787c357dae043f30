//! Rectangles with round corners, and words in them.

ghost use Rattle.std.specs.Prelude.{◌≡◌, ◌++◌, OnOk};
ghost use Rattle.picture_svg.specs.Boxes.{rect_svg, words_svg};

use crate::pieces::{Piece, push_all};
use std::alloc::AllocError as NoMemory;

/// The ends of a rectangle, its top and its height.
#[derive(Clone, Copy)]
pub struct Frame {
    pub left: u64,
    pub right: u64,
    pub top: u64,
    pub height: u64,
}

/// Adds a rectangle of this class.
pub fn push_rect(text: &mut Vec<u8>, class: &[u8], frame: Frame) -> Result<(), NoMemory>
    ensures value { OnOk result (text.new.items ≡ text.old.items ++ rect_svg class.now frame) }
{
    push_all(
        text,
        &[
            Piece::Raw(b"<rect class='"),
            Piece::Raw(class),
            Piece::Raw(b"' x='"),
            Piece::Number(frame.left),
            Piece::Raw(b"' y='"),
            Piece::Number(frame.top),
            Piece::Raw(b"' width='"),
            Piece::Number(frame.right.saturating_sub(frame.left)),
            Piece::Raw(b"' height='"),
            Piece::Number(frame.height),
            Piece::Raw(b"' rx='4'/>"),
        ],
    )
}

/// Adds words that begin here, as many of their characters as have room.
pub fn push_words(
    text: &mut Vec<u8>,
    left: u64,
    base: u64,
    words: &[u8],
    most: u64,
) -> Result<(), NoMemory>
    ensures value { OnOk result (text.new.items ≡ text.old.items ++ words_svg left base words.now most) }
{
    push_all(
        text,
        &[
            Piece::Raw(b"<text x='"),
            Piece::Number(left),
            Piece::Raw(b"' y='"),
            Piece::Number(base),
            Piece::Raw(b"'>"),
            Piece::Clipped(words, most),
            Piece::Raw(b"</text>"),
        ],
    )
}
