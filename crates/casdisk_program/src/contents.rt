//! What the blocks of a history hold, and since which line.

use crate::culprit::Writer;
use line_text::BLOCK;
use std::alloc::{AllocError as NoMemory, Global};

// What was written to a block last.
#[derive(Drop)]
struct Written {
    writer: Option<Writer>,
    // zeros follow
    bytes: Vec<u8>,
}

/// What blocks hold; those that nobody wrote hold zeros.
#[derive(Drop)]
pub(crate) struct Contents {
    alloc: Global,
    blocks: Vec<Written>,
}

/// A byte of a block that isn't what is compared with it.
#[derive(Clone, Copy)]
pub(crate) struct UnlikeByte {
    pub(crate) place: usize,
    pub(crate) held: u8,
    pub(crate) compared: u8,
}

// A byte of a block, behind whose bytes zeros follow.
fn byte_at(bytes: &[u8], place: usize) -> u8 {
    match bytes.get(place) {
        Some(byte) => *byte,
        None => 0,
    }
}

// The first byte that differs.
fn first_unlike(held: &[u8], compared: &[u8]) -> Option<UnlikeByte> {
    for place in 0..BLOCK {
        let (held, compared) = (byte_at(held, place), byte_at(compared, place));
        if held != compared {
            return Some(UnlikeByte {
                place,
                held,
                compared,
            });
        }
    }
    None
}

impl Contents {
    pub(crate) fn new(alloc: Global) -> Contents {
        let blocks = Vec::new(alloc);
        Contents { alloc, blocks }
    }

    /// A block is written.
    pub(crate) fn write(&mut self, lba: u64, data: &[u8], writer: Writer) -> Result<(), NoMemory> {
        let place = lba as usize;
        for _block in self.blocks.len()..place.saturating_add(1) {
            let bytes = Vec::new(self.alloc);
            self.blocks.push(Written {
                writer: None,
                bytes,
            })?;
        }
        let mut bytes = Vec::with_capacity(self.alloc, data.len())?;
        bytes.extend_from_slice(data)?;
        if let Some(block) = self.blocks.get_mut(place) {
            block.writer = Some(writer);
            block.bytes = bytes;
        }
        Ok(())
    }

    /// The first byte of a block that isn't what is compared with it.
    pub(crate) fn unlike(&self, lba: u64, compared: &[u8]) -> Option<UnlikeByte> {
        match self.blocks.get(lba as usize) {
            Some(block) => first_unlike(block.bytes.as_slice(), compared),
            None => first_unlike(&[], compared),
        }
    }

    /// Who wrote a block last, if anybody did.
    pub(crate) fn writer(&self, lba: u64) -> Option<Writer> {
        self.blocks.get(lba as usize)?.writer
    }
}
