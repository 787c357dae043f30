//! Laws for programs of hosts and servers over one engine: what follows for their slots from what each of them did.
#![tactic(auto)]

mod closing;
pub mod driver_laws;
pub mod history_laws;

pub use crate::closing::{
    all_passes_keep_the_slots, each_host_claimed_so_often, what_a_hosts_pass_claimed,
    what_a_hosts_pass_did,
};
