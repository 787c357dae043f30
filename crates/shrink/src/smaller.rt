//! Whether a line is another with words made smaller.

ghost use Rattle.std.specs.Prelude.{◌≡◌, IfOk, length, map, true};
ghost use Rattle.shrink.specs.Smaller.{AreAtMost, IsAtMost, IsSmallerLine, in_order};

use line_text::split_words;
use std::alloc::{AllocError as NoMemory, Global};

// Whether a word stands before another of its length, or is the same.
fn is_in_order(word: &[u8], other: &[u8]) -> bool
    requires { length word.now ≡ length other.now }
    ensures value { result ≡ in_order word.now other.now }
{
    for k in 0..word.len() {
        let (b, c) = (word[k], other[k]);
        if b != c {
            return b < c;
        }
    }
    true
}

// Whether a word is another or smaller.
fn is_at_most(word: &[u8], other: &[u8]) -> bool
    ensures value { result ≡ true → IsAtMost word.now other.now }
{
    if word.len() != other.len() {
        return word.len() < other.len();
    }
    is_in_order(word, other)
}

// Whether there are as many words, each at most the other.
fn are_at_most(words: &[&[u8]], others: &[&[u8]]) -> bool
    ensures value { result ≡ true → AreAtMost (map (λ w. w.now) words.now) (map (λ w. w.now) others.now) }
{
    if words.len() != others.len() {
        return false;
    }
    for k in 0..words.len() {
        if !is_at_most(words[k], others[k]) {
            return false;
        }
    }
    true
}

/// Whether a line is another with some words made smaller, or none.
///
/// # Errors
///
/// `NoMemory` alone.
pub(crate) fn is_smaller_line(alloc: Global, line: &[u8], other: &[u8]) -> Result<bool, NoMemory>
    ensures value { IfOk result (λ is. is ≡ true → IsSmallerLine line.now other.now) }
{
    let words = split_words(alloc, line, b' ')?;
    let others = split_words(alloc, other, b' ')?;
    Ok(are_at_most(words.as_slice(), others.as_slice()))
}
