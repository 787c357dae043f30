//! A race of one seed, whose history is the same on every machine.

use race::{RaceFault, run_seeded_race};
use race_numbers::{Bias, Race};
use std::io::Write;
use std::sync::Wait;

const SEED: u64 = 47;

/// Writes the race's history.
pub(crate) fn show<R: AllocGlobal + Wait, W: Write>(
    rt: &R,
    writer: &mut W,
) -> Result<(), RaceFault> {
    let (Ok(race), Ok(bias)) = (Race::new(2, 2, 1, 2, 1), Bias::new(3, 1, 1)) else {
        return Err(RaceFault::NoMemory);
    };
    run_seeded_race(rt, rt.alloc(), &race, &bias, SEED, writer)
}
