//! How much output is kept before it goes out.

/// How many bytes of output wait before they go out.
pub const BUFFER: usize = 65_536;
