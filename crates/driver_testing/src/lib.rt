//! What tests of drivers and slots share: hosts beside a server on one thread, hosts that claim slots, and a hostile
//! port. That port answers what it is told to.
#![tactic(auto)]

mod ask;
mod claimant;
mod desk;
mod fake;
mod host;
mod serve;
mod service;

pub use crate::ask::{
    AnswerWords, Ask, Fill, answers, asked, begins, hears, polled, polls, starts,
};
pub use crate::claimant::{
    Came, Claimant, ClaimantStage, asks, claimant_of, claimants_of, gives_back, leaves, polls_begun,
};
pub use crate::desk::{desk_of, served, small_system};
pub use crate::fake::{Did, Fake, Script, driver_of, good};
pub use crate::host::{TestHost, host_of};
pub use crate::serve::{ends, fetches, makes, serves};
pub use crate::service::{
    Contents, answered, begins_call, claims, hears_all, is_served, meets, meets_server, polls_call,
    reads, releases,
};
