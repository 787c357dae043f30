//! Tests by calls of histories beside traces and beside slots, of searches for a history, and of what refutes a trace.
//! They show what is answered where there is memory enough, with queues that are full, and at limits.
#![tactic(auto)]

#[cfg(test)]
mod areas;
#[cfg(test)]
mod delayed;
#[cfg(test)]
mod effects;
#[cfg(test)]
mod finding;
#[cfg(test)]
mod limits;
#[cfg(test)]
mod lines;
#[cfg(test)]
mod options;
#[cfg(test)]
mod pieces;
#[cfg(test)]
mod reading;
#[cfg(test)]
mod refutation_texts;
#[cfg(test)]
mod refuting;
#[cfg(test)]
mod rows;
#[cfg(test)]
mod searches;
#[cfg(test)]
mod sessions;
#[cfg(test)]
mod shared_queue;
#[cfg(test)]
mod takeovers;
#[cfg(test)]
mod texts;
#[cfg(test)]
mod traces;
#[cfg(test)]
mod verdicts;
