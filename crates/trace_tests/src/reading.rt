//! Traces by their lines.

use history::Config;
use std::alloc::Global;
use std::test::Fail;
use trace::{Seen, TraceOptions, parse_seen};

/// Eight blocks and three queue pairs, with four slots a queue.
pub(crate) fn config() -> Result<Config, Fail> {
    Ok(Config::new(8, 1, 1, 0, 0, 3, 4, 4, 8)?)
}

/// The configuration of a history of such a trace: with one queue pair more, where contents are unknown.
pub(crate) fn history_config(options: &TraceOptions) -> Result<Config, Fail> {
    if options.contents_unknown {
        return Ok(Config::new(8, 1, 1, 0, 0, 4, 4, 4, 8)?);
    }
    config()
}

/// The trace of these lines.
pub(crate) fn read_trace(alloc: Global, lines: &[&[u8]]) -> Result<Vec<Seen>, Fail> {
    let mut trace: Vec<Seen> = Vec::new(alloc);
    for line in lines {
        let Ok(seen) = parse_seen(alloc, line) else {
            return Err(Fail::from("not read"));
        };
        trace.push(seen)?;
    }
    Ok(trace)
}
