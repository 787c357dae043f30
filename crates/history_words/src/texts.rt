//! Texts of parts.

ghost use Rattle.std.specs.Prelude.{◌≡◌, IfOk, flat_map, string_bytes};
ghost use Rattle.history_words.specs.Texts.{blocks_told, where_set};

use itoa::Buffer;
use std::alloc::{AllocError as NoMemory, Global};

// The parts, one behind the other.
pub(crate) fn joined(alloc: Global, parts: &[&str]) -> Result<String, NoMemory>
    ensures value { IfOk result (λ text. string_bytes text ≡ flat_map (λ part. part.now) parts.now) }
{
    parts.concat(alloc)
}

// These blocks, by their first and their number.
pub(crate) fn blocks_text(alloc: Global, slba: u64, blocks: u32) -> Result<String, NoMemory>
    ensures value { IfOk result (λ text. string_bytes text ≡ blocks_told slba blocks) }
{
    let mut first = Buffer::new();
    if blocks == 1 {
        return joined(alloc, &["block ", first.format(slba)]);
    }
    let mut count = Buffer::new();
    joined(
        alloc,
        &[count.format(blocks), " blocks from ", first.format(slba)],
    )
}

// A field with its name, where it isn't zero.
pub(crate) fn set_text(alloc: Global, name: &str, field: u32) -> Result<String, NoMemory>
    ensures value { IfOk result (λ text. string_bytes text ≡ where_set name.now field) }
{
    if field == 0 {
        return Ok(String::new(alloc));
    }
    let mut digits = Buffer::new();
    joined(alloc, &[", ", name, " ", digits.format(field)])
}
