//! Laws for an allocator of slots: what it may conclude from what its driver's port did.
#![tactic(auto)]

pub mod history_laws;
pub mod log_laws;
