//! Reads and writes submission queue entries and completion queue entries as bytes, for controllers, checkers and
//! drivers.
#![tactic(auto)]

mod cqe;
mod fuse;
pub mod laws;
mod little;
pub mod opcode;
mod sqe;

pub use crate::cqe::{Cqe, CqeFault, decode_cqe, encode_cqe};
pub use crate::fuse::Fuse;
pub use crate::sqe::{Sqe, decode_sqe, encode_sqe};
pub use nvme_model::status::Status;
