//! Tests of queues of works and notices between callers of an engine, for `work_queue`. They are apart from
//! `engine_tests` since the check of each takes minutes.
//!
//! - `capacity`, `notices`: queues hold as many works and notices as they have places.
//! - `carries`: works through one queue, from four threads to four.
//! - `ends`: an engine is closed with all its passes.
//! - `travels`: a work ends on another thread than its fetcher's.
#![tactic(auto)]

#[cfg(test)]
mod capacity;
#[cfg(test)]
mod carries;
#[cfg(test)]
mod counts;
#[cfg(test)]
mod crowd;
#[cfg(test)]
mod ends;
#[cfg(test)]
mod notices;
#[cfg(test)]
mod travels;
