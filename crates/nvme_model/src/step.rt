//! What a caller asks of a controller.

use crate::submission::Submissions;

/// What a caller asks for: queues are numbered from 1, and the n-th Fetch makes ticket n.
#[derive(Debug, Drop)]
pub enum Step {
    /// Put these entries at the end of a submission queue.
    Publish(u16, Submissions),
    /// Take the next command, or the next fused pair, of a submission queue, as a ticket.
    Fetch(u16),
    /// Begin the next unit of a ticket.
    Grant(u64),
    /// Make the next block of the ticket's open unit.
    Block(u64),
    /// Post the next completion of a ticket.
    Post(u64),
    /// Take the next completion of a completion queue.
    Reap(u16),
}
