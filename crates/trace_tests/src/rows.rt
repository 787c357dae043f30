//! Slices with and without an order, as they are worked out by hand.

use crate::pieces::{failed, read, swap, write};
use refutation::{Piece, has_no_order};
use std::alloc::{AllocError as NoMemory, Global};
use std::test::Fail;

/// Whether none of the pieces has a place, where nothing wrote zeros.
fn none(alloc: Global, pieces: &Vec<Piece>) -> Result<bool, NoMemory> {
    has_no_order(alloc, &[0], pieces.as_slice())
}

/// One Write, a later one, and a Read behind both.
fn of_two_writes(alloc: Global, byte: u8) -> Result<bool, NoMemory> {
    let mut pieces = Vec::new(alloc);
    pieces.push(write(alloc, &[], 3, 0x0A)?)?;
    pieces.push(write(alloc, &[0], 3, 0x0B)?)?;
    pieces.push(read(alloc, &[0, 1], 3, byte)?)?;
    none(alloc, &pieces)
}

/// Two Writes in either order, a Read behind these of them, and a Read behind that one.
fn of_two_reads(alloc: Global, behind: &[usize]) -> Result<bool, NoMemory> {
    let mut pieces = Vec::new(alloc);
    pieces.push(write(alloc, &[], 3, 0x0A)?)?;
    pieces.push(write(alloc, &[], 3, 0x0B)?)?;
    pieces.push(read(alloc, behind, 3, 0x0A)?)?;
    pieces.push(read(alloc, &[2], 3, 0x0B)?)?;
    none(alloc, &pieces)
}

/// Two pairs, of which the second found and left these bytes.
fn of_two_pairs(alloc: Global, sure: bool, old: u8, new: u8) -> Result<bool, NoMemory> {
    let mut pieces = Vec::new(alloc);
    pieces.push(swap(alloc, true, 0, 1)?)?;
    pieces.push(swap(alloc, sure, old, new)?)?;
    none(alloc, &pieces)
}

/// A Write, and a Compare behind it that failed with these bytes.
fn of_a_compare(alloc: Global, third: u8, fourth: u8) -> Result<bool, NoMemory> {
    let mut pieces = Vec::new(alloc);
    pieces.push(write(alloc, &[], 3, 0x0A)?)?;
    pieces.push(failed(alloc, &[0], third, fourth)?)?;
    none(alloc, &pieces)
}

#[test]
fn a_read_finds_the_newest_write(rt: HostRuntime) -> Result<(), Fail> {
    let alloc = rt.alloc();
    assert!(rt; of_two_writes(alloc, 0x0A)?);
    assert!(rt; !of_two_writes(alloc, 0x0B)?);
    Ok(())
}

#[test]
fn reads_agree_behind_both_writes(rt: HostRuntime) -> Result<(), Fail> {
    let alloc = rt.alloc();
    assert!(rt; of_two_reads(alloc, &[0, 1])?);
    assert!(rt; !of_two_reads(alloc, &[0])?);
    Ok(())
}

#[test]
fn no_update_is_lost(rt: HostRuntime) -> Result<(), Fail> {
    let alloc = rt.alloc();
    assert!(rt; of_two_pairs(alloc, true, 0, 2)?);
    assert!(rt; !of_two_pairs(alloc, true, 1, 2)?);
    assert!(rt; !of_two_pairs(alloc, false, 0, 2)?);
    Ok(())
}

#[test]
fn a_compare_failed_on_one_block(rt: HostRuntime) -> Result<(), Fail> {
    let alloc = rt.alloc();
    assert!(rt; of_a_compare(alloc, 0x0A, 0)?);
    assert!(rt; !of_a_compare(alloc, 0x0A, 1)?);
    assert!(rt; !of_a_compare(alloc, 0x0B, 0)?);
    Ok(())
}
