//! What differs first between a history and a trace: a Write of A1 to block 3 by queue 1, then a Read of it by queue 2.

use crate::sessions::HISTORY;
use crate::texts::verdict;
use history::Config;
use std::test::Fail;
use witness_check::{Difference, TraceVerdict};

const WRITE: &[u8] =
    b"publish 1 01000100010000000000000000000000000000000000000000000000000000000000000000000000030000000000000000000000000000000000000000000000 A1";

const WRITTEN: &[u8] = b"reap 1 00000000000000000100010001000100 -";

const READ: &[u8] =
    b"publish 2 02000200010000000000000000000000000000000000000000000000000000000000000000000000030000000000000000000000000000000000000000000000 -";

const FOUND: &[u8] = b"reap 2 00000000000000000100020002000100 A1";

// What is said of the history beside these lines.
fn said(alloc: std::alloc::Global, trace: &[&[u8]]) -> Result<TraceVerdict, Fail> {
    verdict(
        alloc,
        &Config::new(8, 1, 1, 0, 0, 2, 4, 4, 8)?,
        &HISTORY,
        trace,
    )
}

#[test]
fn the_trace_of_the_history_is_explained(rt: HostRuntime) -> Result<(), Fail> {
    let trace = [WRITE, WRITTEN, READ, FOUND];
    assert_eq!(rt; said(rt.alloc(), &trace)?, TraceVerdict::Explained);
    Ok(())
}

#[test]
fn one_of_them_ends_first(rt: HostRuntime) -> Result<(), Fail> {
    let alloc = rt.alloc();
    let ends = TraceVerdict::Unlike(4, Difference::TraceEnds);
    assert_eq!(rt; said(alloc, &[WRITE, WRITTEN, READ])?, ends);
    let ends = TraceVerdict::Unlike(5, Difference::HistoryEnds);
    assert_eq!(rt; said(alloc, &[WRITE, WRITTEN, READ, FOUND, READ])?, ends);
    Ok(())
}

#[test]
fn lines_are_of_other_kinds_or_queues(rt: HostRuntime) -> Result<(), Fail> {
    let alloc = rt.alloc();
    let kind = TraceVerdict::Unlike(2, Difference::Kind);
    assert_eq!(rt; said(alloc, &[WRITE, READ, WRITTEN, FOUND])?, kind);
    let queue = TraceVerdict::Unlike(2, Difference::Queue);
    assert_eq!(rt; said(alloc, &[WRITE, FOUND, READ, WRITTEN])?, queue);
    let queue = TraceVerdict::Unlike(1, Difference::Queue);
    assert_eq!(rt; said(alloc, &[READ, WRITTEN, WRITE, FOUND])?, queue);
    Ok(())
}

// A Write of A2.
const OTHER_WRITE: &[u8] =
    b"publish 1 01000100010000000000000000000000000000000000000000000000000000000000000000000000030000000000000000000000000000000000000000000000 A2";
// The completion of the Read with status 0/80, with phase 0, with SQHD 2, and with the data of before the Write.
const FAILED: &[u8] = b"reap 2 00000000000000000100020002000101 A1";

const OTHER_PHASE: &[u8] = b"reap 2 00000000000000000100020002000000 A1";

const OTHER_HEAD: &[u8] = b"reap 2 00000000000000000200020002000100 A1";

const STALE: &[u8] = b"reap 2 00000000000000000100020002000100 00";

#[test]
fn what_comes_with_a_line_differs(rt: HostRuntime) -> Result<(), Fail> {
    let alloc = rt.alloc();
    let batch = TraceVerdict::Unlike(1, Difference::Batch);
    assert_eq!(rt; said(alloc, &[OTHER_WRITE, WRITTEN, READ, STALE])?, batch);
    let completion = TraceVerdict::Unlike(4, Difference::Completion);
    for line in [FAILED, OTHER_PHASE, OTHER_HEAD] {
        assert_eq!(rt; said(alloc, &[WRITE, WRITTEN, READ, line])?, completion);
    }
    let data = TraceVerdict::Unlike(4, Difference::Data);
    assert_eq!(rt; said(alloc, &[WRITE, WRITTEN, READ, STALE])?, data);
    Ok(())
}

#[test]
fn a_bad_entry_is_told_first(rt: HostRuntime) -> Result<(), Fail> {
    let alloc = rt.alloc();
    let config = Config::new(8, 1, 1, 0, 0, 2, 4, 4, 8)?;
    let bad = verdict(alloc, &config, &HISTORY[1..], &[READ])?;
    assert_eq!(rt; bad, TraceVerdict::Bad(1));
    let front: [&[u8]; 3] = [HISTORY[0], HISTORY[1], HISTORY[3]];
    assert_eq!(rt;
        verdict(alloc, &config, &front, &[READ])?,
        TraceVerdict::Bad(3)
    );
    Ok(())
}
