//! Pieces for tests, each of one block with one byte.

use refutation::{HeldBlock, HeldBlocks, Piece};
use std::alloc::{AllocError as NoMemory, Global};

fn block(alloc: Global, number: u64, byte: u8) -> Result<HeldBlock, NoMemory> {
    let mut bytes = Vec::new(alloc);
    bytes.push(byte)?;
    Ok(HeldBlock::new(number, bytes))
}

fn one(alloc: Global, number: u64, byte: u8) -> Result<Vec<HeldBlock>, NoMemory> {
    let mut blocks = Vec::new(alloc);
    blocks.push(block(alloc, number, byte)?)?;
    Ok(blocks)
}

/// A Read behind these pieces, and what it found.
pub(crate) fn read(
    alloc: Global,
    behind: &[usize],
    number: u64,
    byte: u8,
) -> Result<Piece, NoMemory> {
    let behind = Vec::from_slice(alloc, behind)?;
    let found = one(alloc, number, byte)?;
    Ok(Piece::new(true, behind, found, Vec::new(alloc), Vec::new(alloc)))
}

/// A Write behind these pieces, and what it leaves.
pub(crate) fn write(
    alloc: Global,
    behind: &[usize],
    number: u64,
    byte: u8,
) -> Result<Piece, NoMemory> {
    let behind = Vec::from_slice(alloc, behind)?;
    let left = one(alloc, number, byte)?;
    Ok(Piece::new(true, behind, Vec::new(alloc), Vec::new(alloc), left))
}

/// A pair that found one byte of block 3 and left another, or may have done so.
pub(crate) fn swap(alloc: Global, sure: bool, old: u8, new: u8) -> Result<Piece, NoMemory> {
    let found = one(alloc, 3, old)?;
    let left = one(alloc, 3, new)?;
    Ok(Piece::new(sure, Vec::new(alloc), found, Vec::new(alloc), left))
}

/// A Compare of blocks 3 and 4 behind these pieces that failed with these bytes.
pub(crate) fn failed(
    alloc: Global,
    behind: &[usize],
    third: u8,
    fourth: u8,
) -> Result<Piece, NoMemory> {
    let behind = Vec::from_slice(alloc, behind)?;
    let mut blocks = one(alloc, 3, third)?;
    blocks.push(block(alloc, 4, fourth)?)?;
    let mut lists = Vec::new(alloc);
    lists.push(HeldBlocks::new(blocks))?;
    Ok(Piece::new(true, behind, Vec::new(alloc), lists, Vec::new(alloc)))
}
