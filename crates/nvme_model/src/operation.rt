//! What a ticket does with its blocks, and what one Block step finds.

// A single command's operation is an `Op` too, and `IsSound` says that it isn't the pair's: a type
// of the other four would be turned into `Op` everywhere.
/// What a ticket does with its blocks.
#[derive(Clone, Copy, Debug, PartialEq, Eq)]
pub enum Op {
    Read,
    Compare,
    Write,
    WriteZeroes,
    /// A Compare and a Write fused into one.
    Pair,
}

/// What one Block step found.
#[derive(Clone, Copy, Debug, PartialEq, Eq)]
pub enum Found {
    /// The block was read.
    Read,
    /// The block is the Compare's data.
    Equal,
    /// The block isn't the Compare's data.
    Differs,
    /// The block was written.
    Written,
}
