//! The statuses that a ticket still owes.

use crate::list::AtMostTwo;
use nvme_model::status::Status;

/// The statuses that a ticket still owes, the first of them at the front: that of a single command, or the two of a
/// fused pair.
pub type Owed = AtMostTwo<Status>;
