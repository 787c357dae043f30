//! One thing that hosts saw.

use nvme_model::entry::PublishLine;
use nvme_model::submission::Payload;

/// One thing that hosts saw: a line of a trace.
#[derive(Drop)]
pub enum Seen {
    /// A doorbell was rung for these entries of a submission queue.
    Published(PublishLine),
    /// A completion was taken from a completion queue.
    Reaped(ReapedLine),
}

/// A completion queue entry taken from a completion queue, and what its Read read; no data for anything else.
#[derive(Drop)]
pub struct ReapedLine {
    pub queue: u16,
    pub cqe: [u8; 16],
    pub payload: Payload,
}
