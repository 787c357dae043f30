//! What a CID is used for.

use nvme_model::status::Status;
use nvme_model::submission::Payload;

/// What a CID of a submission queue is used for.
#[derive(Drop)]
pub enum CidUse {
    /// By no command.
    Free,
    /// By a command whose completion hasn't come.
    Waiting,
    /// By a command that was answered: the completion's status, and what a Read read.
    Answered { status: Status, payload: Payload },
}
