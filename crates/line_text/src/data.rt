ghost use Rattle.std.specs.Prelude.{◌≡◌, ◌<◌, ◌^◌, ◌==◌, ◌++◌, ℕ, List, Some, IfOk, IfSome, OnOk, length, replicate};
ghost use Rattle.std.specs.Prelude.{option_map};
ghost use Rattle.std.specs.List.{slice_split, list_all};
ghost use Rattle.hex.specs.Hex.{IsBytes};
ghost use Rattle.line_text.specs.Digits.{bytes_in};
ghost use Rattle.line_text.specs.Data.{all_same, data_text, data_in, spelled_block, bytes_of_blocks_in, ReadsBlock};

use crate::digits::{read_fixed, read_hex};
use memchr::memchr;
use std::alloc::{AllocError, Global};

/// How many bytes a block has.
pub const BLOCK: usize = 512;

/// Reads the list of bytes that the word spells as DATA.
///
/// Each list has one spelling, in upper-case hexadecimal digits:
///
/// - `-` is the empty list;
/// - a list of whole blocks is its blocks joined by `.`, where a block of equal bytes is two digits
///   and any other block 1,024;
/// - any other list is `x` and then two digits a byte.
///
/// The answer is `None` where the word is no such spelling.
///
/// # Errors
///
/// `AllocError` where a growth is refused.
pub fn read_data(alloc: Global, word: &[u8]) -> Result<Option<Vec<u8>>, AllocError>
    ensures value { IfOk result (λ read. option_map (λ v. v.items) read ≡ data_in 512 word.now) }
    ensures found { IfOk result (λ read. IfSome read (λ v. word.now ≡ data_text 512 v.items)) }
    ensures only { (bytes : List ℕ) → IsBytes bytes → word.now ≡ data_text 512 bytes →
        IfOk result (λ read. option_map (λ v. v.items) read ≡ Some bytes) }
{
    if word == b"-".as_slice() {
        return Ok(Some(Vec::new(alloc)));
    }
    let Some(digits) = word.strip_prefix(b"x") else {
        return read_blocks(alloc, word);
    };
    let Some(bytes) = read_hex(alloc, digits)? else {
        return Ok(None);
    };
    // Whole blocks, and no bytes at all, are spelled without the `x`.
    if bytes.len() % BLOCK == 0 {
        return Ok(None);
    }
    Ok(Some(bytes))
}

fn read_blocks(alloc: Global, word: &[u8]) -> Result<Option<Vec<u8>>, AllocError>
    ensures { IfOk result
        (λ read. option_map (λ v. v.items) read ≡ bytes_of_blocks_in 512 (slice_split (λ b. b == 46) word.now)) }
{
    let mut out = Vec::new(alloc);
    let mut rest = word;
    while let Some(end) = memchr(b'.', rest) {
        let (part, behind) = rest.split_at(end);
        if !read_block(alloc, part, &mut out)? {
            return Ok(None);
        }
        rest = &behind[1..];
    }
    if !read_block(alloc, rest, &mut out)? {
        return Ok(None);
    }
    Ok(Some(out))
}

// Adds the block that the text spells, if it spells one.
fn read_block(alloc: Global, text: &[u8], out: &mut Vec<u8>) -> Result<bool, AllocError>
    ensures { IfOk result
        (λ found. ReadsBlock found (spelled_block 512 (bytes_in text.now)) out.old.items out.new.items) }
{
    if text.len() == 2 {
        return read_equal(text, out);
    }
    let Some(bytes) = read_hex(alloc, text)? else {
        return Ok(false);
    };
    if bytes.len() != BLOCK {
        return Ok(false);
    }
    // Equal bytes are spelled by one of them alone.
    if all_same(bytes.as_slice()) {
        return Ok(false);
    }
    out.extend_from_slice(bytes.as_slice())?;
    Ok(true)
}

// Adds a block of equal bytes, where the text spells one byte.
fn read_equal(text: &[u8], out: &mut Vec<u8>) -> Result<bool, AllocError>
    requires { length text.now ≡ 2 }
    ensures { IfOk result
        (λ found. ReadsBlock found (spelled_block 512 (bytes_in text.now)) out.old.items out.new.items) }
{
    let Some(bytes) = read_fixed::<1>(text) else {
        return Ok(false);
    };
    add_equal::<BLOCK>(out, bytes[0])?;
    Ok(true)
}

fn add_equal<const N: usize>(out: &mut Vec<u8>, byte: u8) -> Result<(), AllocError>
    requires { N < 2 ^ 63 }
    ensures { OnOk result (out.new.items ≡ out.old.items ++ replicate N byte) }
{
    out.extend_from_slice(&[byte; N])
}

pub(crate) fn all_same(bytes: &[u8]) -> bool
    ensures { result ≡ all_same bytes.now }
{
    match bytes.split_first() {
        None => true,
        // each byte is the one before it
        Some((_, others)) => others == &bytes[..others.len()],
    }
}
