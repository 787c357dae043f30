//! Boxes of tickets that ended, for the blocks of later ones.

use std::alloc::{AllocError as NoMemory, Global};

/// How many boxes are kept: as many as the longest command has blocks.
const MOST: usize = 256;

/// Boxes with bytes that nobody needs. Once made it takes no memory but for a box that it lacks.
#[derive(Drop)]
pub(crate) struct SpareBoxes {
    boxes: Vec<Box<[u8; 512]>>,
}

impl SpareBoxes {
    /// None, and room for as many as are kept.
    pub(crate) fn new(alloc: Global) -> Result<SpareBoxes, NoMemory> {
        Ok(SpareBoxes {
            boxes: Vec::with_capacity(alloc, MOST)?,
        })
    }

    /// None, and room for none.
    pub(crate) fn none(alloc: Global) -> SpareBoxes {
        SpareBoxes {
            boxes: Vec::new(alloc),
        }
    }

    /// A box with any bytes: one that was kept, or else a new one.
    pub(crate) fn take(&mut self, alloc: Global) -> Result<Box<[u8; 512]>, NoMemory> {
        match self.boxes.pop() {
            Some(block) => Ok(block),
            None => Ok(Box::new(alloc, [0; 512])?),
        }
    }

    /// Keeps these boxes, as far as there is room for them.
    pub(crate) fn keep(&mut self, boxes: Vec<Box<[u8; 512]>>) {
        for block in boxes {
            if self.boxes.len() == self.boxes.capacity() {
                return;
            }
            self.boxes.push_reserved(block);
        }
    }
}
