//! Lines of a history and of a trace, as values.

use history::{Config, Entry, parse_line};
use std::alloc::Global;
use std::test::Fail;
use trace::{Seen, TraceOptions, parse_seen};
use witness_check::{TraceVerdict, certify, certify_delayed, judge, judge_delayed};

/// The entries of these lines.
pub(crate) fn entries_of(alloc: Global, lines: &[&[u8]]) -> Result<Vec<Entry>, Fail> {
    let mut entries = Vec::new(alloc);
    for line in lines {
        let Ok(entry) = parse_line(alloc, line) else {
            return Err(Fail::from("not read"));
        };
        entries.push(entry)?;
    }
    Ok(entries)
}

// What these lines of a trace say.
fn trace_of(alloc: Global, lines: &[&[u8]]) -> Result<Vec<Seen>, Fail> {
    let mut trace = Vec::new(alloc);
    for line in lines {
        let Ok(seen) = parse_seen(alloc, line) else {
            return Err(Fail::from("not read"));
        };
        trace.push(seen)?;
    }
    Ok(trace)
}

/// Whether the entries of these lines explain the trace of those.
pub(crate) fn explains(
    alloc: Global,
    config: &Config,
    history: &[&[u8]],
    trace: &[&[u8]],
) -> Result<bool, Fail> {
    let entries = entries_of(alloc, history)?;
    let trace = trace_of(alloc, trace)?;
    Ok(certify(alloc, &TraceOptions::none(), config, &trace, &entries)?)
}

/// What is said of the entries of these lines beside the trace of those.
pub(crate) fn verdict(
    alloc: Global,
    config: &Config,
    history: &[&[u8]],
    trace: &[&[u8]],
) -> Result<TraceVerdict, Fail> {
    let entries = entries_of(alloc, history)?;
    let trace = trace_of(alloc, trace)?;
    Ok(judge(alloc, &TraceOptions::none(), config, &trace, &entries)?)
}

/// The same, where lines were logged with delays.
pub(crate) fn delayed_verdict(
    alloc: Global,
    config: &Config,
    options: &TraceOptions,
    history: &[&[u8]],
    trace: &[&[u8]],
) -> Result<TraceVerdict, Fail> {
    let entries = entries_of(alloc, history)?;
    let trace = trace_of(alloc, trace)?;
    let verdict = judge_delayed(alloc, options, config, &trace, &entries)?;
    if certify_delayed(alloc, options, config, &trace, &entries)?
        != (verdict == TraceVerdict::Explained)
    {
        return Err(Fail::from("certified otherwise"));
    }
    Ok(verdict)
}
