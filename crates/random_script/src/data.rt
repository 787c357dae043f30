//! Data of commands.

use crate::numbers::RandomNumbers;
use std::alloc::{AllocError as NoMemory, Global};
use step_core::Core;

// The bytes that most blocks are of.
const BYTES: [u8; 4] = [0x00, 0xA1, 0xB2, 0xC3];

// A block of one byte, or of two in one case in twelve.
fn drawn_block(random: &mut RandomNumbers) -> [u8; 512] {
    let mut block = [BYTES[random.below(4) as usize]; 512];
    if random.one_in(12) {
        let place = random.below(512) as usize;
        block[place] = random.below(256) as u8;
    }
    block
}

/// Blocks of this many.
pub(crate) fn drawn_data(
    alloc: Global,
    random: &mut RandomNumbers,
    blocks: u32,
) -> Result<Vec<u8>, NoMemory> {
    let mut data = Vec::new(alloc);
    for _ in 0..blocks {
        data.extend_from_slice(&drawn_block(random))?;
    }
    Ok(data)
}

/// These blocks as they lie in the volume, and zeros past its end.
pub(crate) fn held_data(
    alloc: Global,
    core: &Core,
    slba: u64,
    blocks: u32,
) -> Result<Vec<u8>, NoMemory> {
    let mut data = Vec::new(alloc);
    for k in 0..blocks {
        match core.medium(slba.saturating_add(u64::from(k))) {
            Some(block) => data.extend_from_slice(block)?,
            None => data.extend_from_slice(&[0; 512])?,
        }
    }
    Ok(data)
}
