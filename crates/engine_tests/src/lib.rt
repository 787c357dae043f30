//! Tests of a controller that callers share, for `meet_lock` and for an engine of `work_queue`. What its queues hold
//! and carry is tested in `queue_tests`, apart since the check of each takes minutes.
//!
//! - `rows`: worked runs by passes of a lock, and by works and notices on one thread.
//! - `forgets`: a controller that forgets under its lock, and what a look at it is told.
//! - `threads`: four threads write through one lock, and the history has what each was told.
#![tactic(auto)]

#[cfg(test)]
mod accounts;
#[cfg(test)]
mod crew;
#[cfg(test)]
mod forgets;
#[cfg(test)]
mod passes;
#[cfg(test)]
mod rows;
#[cfg(test)]
mod threads;
