//! Tests by calls of the controller, its parts, its checker and their texts: of what no clause and no text shows.
//!
//! | Test | Shows |
//! |---|---|
//! | `entry_bytes` | that the definitions of entries and completions mean the standards' layouts: each bit of both |
//! | `ample` | that calls of the parts answer with memory enough, and the numbers of refusals that no text has |
//! | `entries` | that the entries of a driver's calls have the standards' layout |
//! | `steps`, `takes` | that calls of a controller and of a checker do what no text brings about |
//! | `faults`, `kinds` | what is answered when reading or writing fails; kinds of lines by their names and bits |
#![tactic(auto)]

#[cfg(test)]
mod ample;
#[cfg(test)]
mod entries;
#[cfg(test)]
mod entry_bytes;
#[cfg(test)]
mod failing;
#[cfg(test)]
mod faults;
#[cfg(test)]
mod files;
#[cfg(test)]
mod kinds;
#[cfg(test)]
mod steps;
#[cfg(test)]
mod takes;
