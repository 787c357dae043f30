//! Slices at limits: of no piece, of the greatest numbers, of data of any length, and of many states.

use crate::pieces::{read, write};
use refutation::{HeldBlock, Piece, has_no_order};
use std::alloc::{AllocError as NoMemory, Global};
use std::test::Fail;

/// A Write of the last block there is, behind a number of no piece, and a Read of it.
fn of_great_numbers(alloc: Global, byte: u8) -> Result<bool, NoMemory> {
    let mut pieces = Vec::new(alloc);
    pieces.push(write(alloc, &[usize::MAX], u64::MAX, 7)?)?;
    pieces.push(read(alloc, &[0, usize::MAX], u64::MAX, byte)?)?;
    has_no_order(alloc, &[0], pieces.as_slice())
}

/// A Read of a block that nothing wrote, which found no bytes, where this is there.
fn of_no_bytes(alloc: Global, blank: &[u8]) -> Result<bool, NoMemory> {
    let mut found = Vec::new(alloc);
    found.push(HeldBlock::new(0, Vec::new(alloc)))?;
    let mut pieces = Vec::new(alloc);
    pieces.push(Piece::new(
        true,
        Vec::new(alloc),
        found,
        Vec::new(alloc),
        Vec::new(alloc),
    ))?;
    has_no_order(alloc, blank, pieces.as_slice())
}

/// Writes of which none comes before another, and a Read behind none that found this.
fn of_many(alloc: Global, writes: u8, byte: u8) -> Result<bool, NoMemory> {
    let mut pieces = Vec::new(alloc);
    for number in 0..writes {
        pieces.push(write(alloc, &[], 3, number)?)?;
    }
    pieces.push(read(alloc, &[], 3, byte)?)?;
    has_no_order(alloc, &[99], pieces.as_slice())
}

#[test]
fn no_pieces_have_an_order(rt: HostRuntime) -> Result<(), Fail> {
    assert!(rt; !has_no_order(rt.alloc(), &[], &[])?);
    Ok(())
}

#[test]
fn great_numbers(rt: HostRuntime) -> Result<(), Fail> {
    let alloc = rt.alloc();
    assert!(rt; of_great_numbers(alloc, 0)?);
    assert!(rt; !of_great_numbers(alloc, 7)?);
    Ok(())
}

#[test]
fn no_bytes(rt: HostRuntime) -> Result<(), Fail> {
    let alloc = rt.alloc();
    assert!(rt; of_no_bytes(alloc, &[0])?);
    assert!(rt; !of_no_bytes(alloc, &[])?);
    Ok(())
}

#[test]
fn many_states(rt: HostRuntime) -> Result<(), Fail> {
    let alloc = rt.alloc();
    assert!(rt; of_many(alloc, 6, 6)?);
    assert!(rt; !of_many(alloc, 6, 5)?);
    assert!(rt; !of_many(alloc, 6, 99)?);
    Ok(())
}
