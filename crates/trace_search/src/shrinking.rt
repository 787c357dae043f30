//! Fewer commands and blocks that do as well.

use crate::part::{Part, is_refuted_by};
use crate::touching::Touching;
use std::alloc::{AllocError as NoMemory, Global};

// Without so many from this place on.
fn without<T: Copy>(
    alloc: Global,
    all: &[T],
    place: usize,
    count: usize,
) -> Result<Vec<T>, NoMemory> {
    let mut left = Vec::new(alloc);
    for (at, one) in all.iter().enumerate() {
        if at < place || at - place >= count {
            left.push(*one)?;
        }
    }
    Ok(left)
}

// Leaves out so many commands at a time, wherever the others do.
fn fewer_at_a_time(
    alloc: Global,
    part: &Part<'_>,
    blocks: &[u64],
    commands: Vec<Touching>,
    count: usize,
) -> Result<Vec<Touching>, NoMemory> {
    let mut kept = commands;
    let mut place: usize = 0;
    for _ in 0..kept.len() {
        if place >= kept.len() {
            break;
        }
        let left = without(alloc, kept.as_slice(), place, count)?;
        if is_refuted_by(alloc, part, blocks, left.as_slice())? {
            kept = left;
        } else {
            place = place.saturating_add(count);
        }
    }
    Ok(kept)
}

/// Commands of these that do as well, of which none can be left out alone: halves are left out first.
///
/// # Errors
///
/// `NoMemory` alone.
pub(crate) fn fewer_commands(
    alloc: Global,
    part: &Part<'_>,
    blocks: &[u64],
    commands: Vec<Touching>,
) -> Result<Vec<Touching>, NoMemory> {
    let mut kept = commands;
    let mut count = kept.len();
    for _ in 0..usize::BITS {
        count /= 2;
        if count == 0 {
            break;
        }
        kept = fewer_at_a_time(alloc, part, blocks, kept, count)?;
    }
    Ok(kept)
}

/// Blocks of these that do as well, of which none can be left out alone.
///
/// # Errors
///
/// `NoMemory` alone.
pub(crate) fn fewer_blocks(
    alloc: Global,
    part: &Part<'_>,
    blocks: Vec<u64>,
    commands: &[Touching],
) -> Result<Vec<u64>, NoMemory> {
    let mut kept = blocks;
    let mut place: usize = 0;
    for _ in 0..kept.len() {
        if place >= kept.len() {
            break;
        }
        let left = without(alloc, kept.as_slice(), place, 1)?;
        if is_refuted_by(alloc, part, left.as_slice(), commands)? {
            kept = left;
        } else {
            place = place.saturating_add(1);
        }
    }
    Ok(kept)
}
