//! Tests of claims and releases of slots, by hosts on one thread and over ports that answer what they are told to.
#![tactic(auto)]

#[cfg(test)]
mod crowd;
#[cfg(test)]
mod disks;
#[cfg(test)]
mod fakes;
#[cfg(test)]
mod host;
#[cfg(test)]
mod rows;
