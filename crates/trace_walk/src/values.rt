//! Blocks as values: blocks of zeros are 0, and two blocks that differ hardly ever have one value.

use byteorder::{ByteOrder, LittleEndian};
use entry_codec::Sqe;
use std::alloc::{AllocError as NoMemory, Global};

/// A number that hardly any other pair of numbers has.
pub fn mixed(one: u64, other: u64) -> u64 {
    let first = (one ^ 0x9e37_79b9_7f4a_7c15).wrapping_mul(0xbf58_476d_1ce4_e5b9);
    let both = (first ^ (first >> 29)).wrapping_add(other);
    let second = both.wrapping_mul(0x94d0_49bb_1331_11eb);
    second ^ (second >> 31)
}

// The value of a block of these bytes.
fn value_of(block: &[u8]) -> u64 {
    let mut value = 0u64;
    let mut any = 0u64;
    for part in block.chunks_exact(8) {
        if part.len() >= 8 {
            let word = LittleEndian::read_u64(part);
            any |= word;
            value = mixed(value, word);
        }
    }
    if any == 0 { 0 } else { value | 1 }
}

/// Adds the values of the whole blocks of these bytes.
pub(crate) fn add_values(values: &mut Vec<u64>, bytes: &[u8]) -> Result<(), NoMemory> {
    for block in bytes.chunks_exact(512) {
        values.push(value_of(block))?;
    }
    Ok(())
}

/// As many empty lists.
pub(crate) fn empty_lists<T: Drop>(alloc: Global, count: u16) -> Result<Vec<Vec<T>>, NoMemory> {
    let mut lists = Vec::new(alloc);
    for _ in 0..count {
        lists.push(Vec::new(alloc))?;
    }
    Ok(lists)
}

/// The blocks that a command reads, compares or writes, where it can pass its checks.
pub(crate) fn blocks_of(sqe: &Sqe, size: u32) -> Option<(u64, usize)> {
    let end = sqe.slba().checked_add(u64::from(sqe.blocks()))?;
    if sqe.blocks() > 256 || end > u64::from(size) {
        return None;
    }
    Some((sqe.slba(), sqe.blocks() as usize))
}
