//! What a port does for its driver, and what comes of a CID by that. No value of these types is made.

use nvme_model::submission::{Payload, Submissions};

/// What a port did.
pub enum PortEvent {
    /// It published these entries to this submission queue.
    Sent(u16, Submissions),
    /// It reaped this completion, with what a Read read.
    Got([u8; 16], Payload),
}

/// What the newest entry with a CID has come to.
pub enum CidState {
    /// There is none.
    Idle,
    /// No completion of it was reaped.
    Waiting,
    /// This one was, with this data.
    Answered([u8; 16], Payload),
}
