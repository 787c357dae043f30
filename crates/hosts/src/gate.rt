//! Where a test can hold a thread.

/// What a thread has just made, or is about to.
#[derive(Clone, Copy, Debug, PartialEq, Eq)]
pub enum Point {
    /// After a Fetch.
    Fetched,
    /// After a Grant.
    Granted,
    /// After a Block.
    Blocked,
    /// Before a Post.
    Posting,
}

/// A thread goes through it at each point of each ticket. It may wait there; the program's never does.
pub trait Gate {
    fn pass(&self, point: Point, ticket: u64);
}

/// The gate of the program.
#[derive(Clone, Copy)]
pub struct OpenGate;

impl Gate for OpenGate {
    fn pass(&self, _point: Point, _ticket: u64) {}
}
