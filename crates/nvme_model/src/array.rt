//! Ranges of blocks, and how a unit holds them.

/// The `blocks` blocks from block `slba` on.
#[derive(Clone, Copy, Debug, PartialEq, Eq)]
pub struct Range {
    pub slba: u64,
    pub blocks: u32,
}

/// How a unit holds its blocks.
#[derive(Clone, Copy, Debug, PartialEq, Eq)]
pub enum Mode {
    /// Beside other Shared units.
    Shared,
    /// Alone.
    Exclusive,
}
