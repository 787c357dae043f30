//! What handles of C own, for `vandrexu_c`: boxes as pointers, configurations, pieces of a history, a disk and its
//! drivers.
#![tactic(auto)]

mod configuration;
mod disk;
mod disk_handle;
mod ended;
mod host_numbers;
mod looking;
mod making;
pub mod numbers;
mod owner;
mod parts;
mod pieces;

pub use crate::configuration::{GivenConfig, config_of};
pub use crate::disk::Disk;
pub use crate::disk_handle::DiskHandle;
pub use crate::ended::{EndedHost, keep_ended, place_to_end, take_ended};
pub use crate::making::{give_driver, note_host, take_back};
pub use crate::owner::Owner;
pub use crate::pieces::{Piece, piece_told};
