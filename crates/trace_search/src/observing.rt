//! Whether a trace is explained, with a history that shows it.

ghost use Rattle.std.specs.Prelude.{IfOk, reverse};
ghost use Rattle.trace_search.specs.Observed.{IsExplained};

use crate::beginnings::least_beginning;
use crate::reason::Unexplained;
use crate::reasons::reason_of;
use crate::searching::{Outcome, search_all};
use crate::writing::write_witness;
use history::{Config, Entry};
use std::alloc::{AllocError as NoMemory, Global};
use trace::{Seen, TraceOptions};
use trace_walk::read_tables;
use witness_check::certify;

/// What is said of a trace.
#[derive(Drop)]
pub enum Observed {
    /// This history explains it, the oldest entry first. Where contents are unknown it has a queue pair more.
    Explained(Vec<Entry>),
    /// No history was found, in all that there is to try, and maybe this is why. Nothing is promised of it.
    NotFound(Unexplained),
    /// The steps were used up, or what was found explains something else.
    GaveUp,
}

// Why no history was found, where for so many first lines one was.
fn reason(
    alloc: Global,
    options: &TraceOptions,
    config: &Config,
    trace: &[Seen],
    known: usize,
    steps: u64,
) -> Result<Unexplained, NoMemory> {
    let lines = least_beginning(alloc, options, config, trace, known, steps)?;
    let front = match trace.get(..lines) {
        Some(front) => front,
        None => trace,
    };
    let tables = read_tables(alloc, options, config, front)?;
    Ok(reason_of(&tables, lines))
}

// What is said where this history was found.
fn certified(
    alloc: Global,
    options: &TraceOptions,
    history: &Config,
    trace: &[Seen],
    entries: Vec<Entry>,
) -> Result<Observed, NoMemory>
    ensures explained { IfOk result (IsExplained options.now history.now (reverse trace.now)) }
{
    if certify(alloc, options, history, trace, entries.as_slice())? {
        return Ok(Observed::Explained(entries));
    }
    Ok(Observed::GaveUp)
}

/// Looks for a history that explains this trace, the oldest first, as these options read it, in so many steps at most.
/// `config` is the trace's, `history` the configuration of a history of it: the same, or one with a queue pair more
/// where contents are unknown.
///
/// # Errors
///
/// `NoMemory` where a growth is refused; nothing is said.
pub fn observe(
    alloc: Global,
    options: &TraceOptions,
    config: &Config,
    history: &Config,
    trace: &[Seen],
    steps: u64,
) -> Result<Observed, NoMemory>
    ensures explained { IfOk result (IsExplained options.now history.now (reverse trace.now)) }
{
    let mut tables = read_tables(alloc, options, config, trace)?;
    match search_all(alloc, &mut tables, steps)? {
        Outcome::NotFound(known) => {
            let reason = reason(alloc, options, config, trace, known, steps)?;
            Ok(Observed::NotFound(reason))
        }
        Outcome::GaveUp => Ok(Observed::GaveUp),
        Outcome::History(walk) => {
            let entries = write_witness(alloc, &tables, trace, &walk)?;
            certified(alloc, options, history, trace, entries)
        }
    }
}
