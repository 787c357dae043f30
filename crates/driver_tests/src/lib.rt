//! Tests of what a driver's calls are answered, by a controller and by a hostile port, and of all calls in one run.
//! Those with many calls in flight are in `flight_tests`, apart since the check of each takes minutes.
#![tactic(auto)]

#[cfg(test)]
mod crews;
#[cfg(test)]
mod faults;
#[cfg(test)]
mod hostile;
#[cfg(test)]
mod large;
#[cfg(test)]
mod rows;
#[cfg(test)]
mod whole;
#[cfg(test)]
mod words;
