//! The submission and completion queues, for a controller and for a checker: what waits, its places and phases, and the
//! CIDs in use.
#![tactic(auto)]

mod cids_of_queues;
mod completion_ring;
mod in_use;
mod of_queues;
mod slots;
mod submission_ring;

pub use crate::cids_of_queues::none_in_use;
pub use crate::completion_ring::{Completion, CqRing};
pub use crate::in_use::CidsInUse;
pub use crate::of_queues::{cq_rings, sq_rings};
pub use crate::submission_ring::SqRing;
pub use nvme_model::submission::{Payload, Submission, Submissions};
