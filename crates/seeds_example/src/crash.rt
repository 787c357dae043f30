//! A race of one seed, one of whose hosts dies; its history is the same on every machine.

use race::{CrashFault, run_crash_race};
use race_numbers::{Bias, Race};
use std::io::Write;
use std::sync::Wait;

const SEED: u64 = 1;

/// Writes the race's history.
pub(crate) fn show<R: AllocGlobal + Wait, W: Write>(
    rt: &R,
    writer: &mut W,
) -> Result<(), CrashFault> {
    let (Ok(race), Ok(bias)) = (Race::new(3, 2, 2, 2, 1), Bias::new(1, 1, 1)) else {
        return Err(CrashFault::NoMemory);
    };
    run_crash_race(rt, rt.alloc(), &race, &bias, 1, SEED, writer)
}
