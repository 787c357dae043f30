//! The CIDs that a ticket still owes a completion for.

use completions::AtMostTwo;

/// The CIDs that a ticket still owes a completion for, first to last: that of a single command, or the two of a fused
/// pair.
pub type OwedCids = AtMostTwo<u16>;
