//! Whether entries explain a trace.

ghost use Rattle.std.specs.Prelude.{◌≡◌, ◌↔◌, IfOk, reverse, true};
ghost use Rattle.trace.specs.Observed.{Explains};
ghost use Rattle.witness_check.specs.Compared.{IsVerdict};

use crate::comparison::{Comparison, TraceVerdict};
use history::{Config, Entry};
use std::alloc::{AllocError as NoMemory, Global};
use trace::{Seen, TraceOptions};

/// What is said of these entries and this trace, each the oldest first: that they explain it; or else the first bad
/// entry; or else, where they are a legal history, what hosts first saw of them that the trace doesn't say, or what it
/// says that hosts didn't see, as these options read it. It takes any entries and any trace, whoever made them.
///
/// The configuration is the history's: where contents are unknown, its last queue pair is one that the trace lacks.
///
/// # Errors
///
/// `NoMemory` where a growth is refused; nothing is said.
pub fn judge(
    alloc: Global,
    options: &TraceOptions,
    config: &Config,
    trace: &[Seen],
    entries: &[Entry],
) -> Result<TraceVerdict, NoMemory>
    ensures value { IfOk result (IsVerdict options.now config.now (reverse entries.now) trace.now) }
{
    let mut comparison = Comparison::new(alloc, options, config)?;
    for place in 0..entries.len() {
        comparison.take(trace, &entries[place])?;
    }
    Ok(comparison.verdict(trace))
}

/// Whether these entries, the oldest first, are a legal history of this configuration, and hosts saw it as this trace,
/// the oldest first, as these options read it. It takes any entries and any trace, whoever made them.
///
/// The configuration is the history's: where contents are unknown, its last queue pair is one that the trace lacks.
///
/// # Errors
///
/// `NoMemory` where a growth is refused; nothing is said.
pub fn certify(
    alloc: Global,
    options: &TraceOptions,
    config: &Config,
    trace: &[Seen],
    entries: &[Entry],
) -> Result<bool, NoMemory>
    ensures value { IfOk result
        (λ b. (b ≡ true) ↔ Explains options.now config.now (reverse entries.now) (reverse trace.now)) }
{
    match judge(alloc, options, config, trace, entries)? {
        TraceVerdict::Explained => Ok(true),
        TraceVerdict::Bad(_) => Ok(false),
        TraceVerdict::Unlike(_, _) => Ok(false),
    }
}
