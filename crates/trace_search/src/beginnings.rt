//! The fewest first lines of a trace for which no history is found.

use crate::searching::{End, ending};
use history::Config;
use std::alloc::{AllocError as NoMemory, Global};
use trace::{Seen, TraceOptions};
use trace_walk::read_tables;

// How a search for a history of so many first lines ends.
fn ending_of(
    alloc: Global,
    options: &TraceOptions,
    config: &Config,
    trace: &[Seen],
    lines: usize,
    steps: u64,
) -> Result<End, NoMemory> {
    match trace.get(..lines) {
        Some(front) => {
            let mut tables = read_tables(alloc, options, config, front)?;
            ending(alloc, &mut tables, steps)
        }
        None => Ok(End::Tried),
    }
}

/// The fewest first lines for which a search ended and found no history, where for `known` of them there is one. What
/// was given up says nothing of them: the fewest are then looked for among more lines, which may be too many.
///
/// # Errors
///
/// `NoMemory` alone.
pub(crate) fn least_beginning(
    alloc: Global,
    options: &TraceOptions,
    config: &Config,
    trace: &[Seen],
    known: usize,
    steps: u64,
) -> Result<usize, NoMemory> {
    let mut passed = known;
    let mut missing = trace.len();
    let mut stride = 1usize;
    for _ in 0..64 {
        if missing.saturating_sub(passed) <= 1 {
            return Ok(missing);
        }
        let next = passed.saturating_add(stride);
        if next >= missing {
            break;
        }
        match ending_of(alloc, options, config, trace, next, steps)? {
            End::Tried => missing = next,
            End::Found | End::StepsUsed => passed = next,
        }
        stride = stride.saturating_mul(2);
    }
    for _ in 0..64 {
        if missing.saturating_sub(passed) <= 1 {
            return Ok(missing);
        }
        let middle = passed.saturating_add(missing.saturating_sub(passed) / 2);
        match ending_of(alloc, options, config, trace, middle, steps)? {
            End::Tried => missing = middle,
            End::Found | End::StepsUsed => passed = middle,
        }
    }
    Ok(missing)
}
