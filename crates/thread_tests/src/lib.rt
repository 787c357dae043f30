//! Tests of a fetcher, workers and hosts on threads, and of races that are stopped, can't write, or go by a seed.
#![tactic(auto)]

#[cfg(test)]
mod calls;
#[cfg(test)]
mod faults;
#[cfg(test)]
mod full;
#[cfg(test)]
mod held;
#[cfg(test)]
mod played;
#[cfg(test)]
mod seeded;
#[cfg(test)]
mod served;
#[cfg(test)]
mod stopped;
#[cfg(test)]
mod stops;
