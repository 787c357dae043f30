//! Tests of a driver with many calls in flight: their CIDs, submission queues that are full, and what hosts learn of
//! others. They are apart from `driver_tests` since the check of each takes minutes.
#![tactic(auto)]

#[cfg(test)]
mod acts;
#[cfg(test)]
mod callers;
#[cfg(test)]
mod cids;
#[cfg(test)]
mod flights;
#[cfg(test)]
mod full;
#[cfg(test)]
mod learns;
#[cfg(test)]
mod sent;
#[cfg(test)]
mod turns;
#[cfg(test)]
mod under_way;
#[cfg(test)]
mod wide;
