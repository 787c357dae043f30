//! The check of a list of entries.

ghost use Rattle.history_check.specs.Checks.{Checks};

use crate::checker::Checker;
use history::{Config, Entry};
use std::alloc::{AllocError, Global};
use thiserror::Error;

/// Why a list of entries is not said to be legal.
#[derive(Clone, Copy, Debug, Drop, Error, PartialEq, Eq)]
pub enum CheckFault {
    /// The entries up to this place, from 1, are not legal, and fewer are.
    #[error("bad at {0}")]
    BadAt(u64),
    /// A growth was refused; nothing is said of the entries.
    #[error("no memory")]
    NoMemory,
}

impl From<AllocError> for CheckFault {
    ghost use Rattle.std.specs.Prelude.{◌≡◌};
    ghost use Rattle.history_check.specs.declared.checking.CheckFault.TheVariants.{NoMemory};

    ghost from_gives = { λ _ fault. fault ≡ NoMemory };

    fn from(_error: AllocError) -> CheckFault {
        CheckFault::NoMemory
    }
}

/// Whether a list of entries, the oldest first, is a legal history of this configuration. It takes
/// any list, whoever made it.
///
/// # Errors
///
/// `BadAt` with the first place, from 1, at which the list is no longer legal; `NoMemory` where a
/// growth is refused.
pub fn check(alloc: Global, config: &Config, entries: &[Entry]) -> Result<(), CheckFault>
    ensures value { Checks config.now entries.now result }
{
    let mut checker = Checker::new(alloc, config)?;
    for place in 0..entries.len() {
        if !checker.take(&entries[place])? {
            return Err(CheckFault::BadAt(place as u64 + 1));
        }
    }
    Ok(())
}
