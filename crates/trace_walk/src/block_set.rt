//! Sets of blocks, in one number.

/// A set of blocks. Blocks whose numbers differ by a multiple of 64 are in it together, or none of them is.
#[derive(Clone, Copy, PartialEq, Eq)]
pub struct BlockSet {
    bits: u64,
}

impl BlockSet {
    pub const NONE: BlockSet = BlockSet { bits: 0 };

    pub const ALL: BlockSet = BlockSet { bits: u64::MAX };

    /// These blocks.
    pub fn of(slba: u64, blocks: u32) -> BlockSet {
        let mut bits = 0u64;
        for k in 0..blocks.min(64) {
            let place = slba.wrapping_add(u64::from(k)) % 64;
            bits |= 1u64.wrapping_shl(place as u32);
        }
        BlockSet { bits }
    }

    /// The blocks of both.
    pub fn with(&self, other: BlockSet) -> BlockSet {
        BlockSet {
            bits: self.bits | other.bits,
        }
    }

    /// Whether a block is in both.
    pub fn meets(&self, other: BlockSet) -> bool {
        self.bits & other.bits != 0
    }

    /// Whether each of its blocks is in the other.
    pub fn is_within(&self, other: BlockSet) -> bool {
        self.bits | other.bits == other.bits
    }

    // A number that is its own.
    pub(crate) fn number(&self) -> u64 {
        self.bits
    }
}
