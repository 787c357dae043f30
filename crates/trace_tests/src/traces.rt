//! What is answered where a history is looked for.

use crate::reading::read_trace;
use history::Config;
use std::alloc::Global;
use std::test::Fail;
use trace::TraceOptions;
use trace_search::{Observed, Obstacle, observe};
use trace_walk::Unfit;

// A Write of A1 to block 3 by queue 1, answered; a Read of it by queue 2, answered.
const TRACE: [&[u8]; 4] = [
    b"publish 1 01000100010000000000000000000000000000000000000000000000000000000000000000000000030000000000000000000000000000000000000000000000 A1",
    b"reap 1 00000000000000000100010001000100 -",
    b"publish 2 02000200010000000000000000000000000000000000000000000000000000000000000000000000030000000000000000000000000000000000000000000000 -",
    b"reap 2 00000000000000000100020002000100 A1",
];

// The Read's completion without data.
const STALE: &[u8] = b"reap 2 00000000000000000100020002000100 -";

// A Write of B2 to block 4; two Reads in one Publish, of which the second is answered first.
const SHARED: [&[u8]; 5] = [
    b"publish 1 01000300010000000000000000000000000000000000000000000000000000000000000000000000040000000000000000000000000000000000000000000000 B2",
    b"publish 2 02000100010000000000000000000000000000000000000000000000000000000000000000000000030000000000000000000000000000000000000000000000 - + 02000200010000000000000000000000000000000000000000000000000000000000000000000000040000000000000000000000000000000000000000000000 -",
    b"reap 1 00000000000000000100010003000100 -",
    b"reap 1 00000000000000000200020002000100 B2",
    b"reap 1 00000000000000000200020001000000 00",
];

// What is said: the fewest first lines for which none was found, and why.
#[derive(Clone, Copy, Debug, PartialEq, Eq)]
pub(crate) enum Said {
    Explained,
    NotFound(usize, Obstacle),
    GaveUp,
}

pub(crate) fn asked(
    alloc: Global,
    config: &Config,
    lines: &[&[u8]],
    steps: u64,
) -> Result<Said, Fail> {
    let trace = read_trace(alloc, lines)?;
    match observe(alloc, &TraceOptions::none(), config, config, &trace, steps)? {
        Observed::Explained(_) => Ok(Said::Explained),
        Observed::NotFound(reason) => Ok(Said::NotFound(reason.lines, reason.why)),
        Observed::GaveUp => Ok(Said::GaveUp),
    }
}

fn config() -> Result<Config, Fail> {
    Ok(Config::new(8, 1, 1, 0, 0, 2, 4, 4, 8)?)
}

#[test]
fn a_history_is_found_for_what_was_seen_of_one(rt: HostRuntime) -> Result<(), Fail> {
    let alloc = rt.alloc();
    assert_eq!(rt; asked(alloc, &config()?, &TRACE, 1000)?, Said::Explained);
    assert_eq!(rt;
        asked(alloc, &config()?, &TRACE[..0], 1000)?,
        Said::Explained
    );
    let shared = Config::with_cqs(8, 1, 1, 0, 0, 2, 4, 2, 8, 1)?;
    assert_eq!(rt; asked(alloc, &shared, &SHARED, 1000)?, Said::Explained);
    Ok(())
}

#[test]
fn none_is_found_for_what_no_controller_gives(rt: HostRuntime) -> Result<(), Fail> {
    let alloc = rt.alloc();
    let stale = [TRACE[0], TRACE[1], TRACE[2], STALE];
    assert_eq!(rt;
        asked(alloc, &config()?, &stale, 1000)?,
        Said::NotFound(4, Obstacle::Status)
    );
    let older: &[u8] = b"reap 2 00000000000000000100020002000100 00";
    let stale = [TRACE[0], TRACE[1], TRACE[2], older];
    assert_eq!(rt;
        asked(alloc, &config()?, &stale, 1000)?,
        Said::NotFound(4, Obstacle::Order)
    );
    let failed: &[u8] = b"reap 1 00000000000000000100010001000101 -";
    assert_eq!(rt;
        asked(alloc, &config()?, &[TRACE[0], failed], 1000)?,
        Said::NotFound(2, Obstacle::Status)
    );
    let phase: &[u8] = b"reap 1 00000000000000000100010001000000 -";
    assert_eq!(rt;
        asked(alloc, &config()?, &[TRACE[0], phase], 1000)?,
        Said::NotFound(2, Obstacle::Unfit(Unfit::Phase))
    );
    Ok(())
}

#[test]
fn it_ends_where_the_steps_are_used_up(rt: HostRuntime) -> Result<(), Fail> {
    assert_eq!(rt; asked(rt.alloc(), &config()?, &TRACE, 3)?, Said::GaveUp);
    Ok(())
}
