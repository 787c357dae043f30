//! A history beside a trace that was logged with delays: a Write of A1 to block 3 by queue 1, then a Read of it by
//! queue 2.

use crate::sessions::HISTORY;
use crate::texts::delayed_verdict;
use history::Config;
use std::test::Fail;
use trace::TraceOptions;
use witness_check::{Difference, TraceVerdict};

const WRITE: &[u8] =
    b"publish 1 01000100010000000000000000000000000000000000000000000000000000000000000000000000030000000000000000000000000000000000000000000000 A1";

const WRITTEN: &[u8] = b"reap 1 00000000000000000100010001000100 -";

const READ: &[u8] =
    b"publish 2 02000200010000000000000000000000000000000000000000000000000000000000000000000000030000000000000000000000000000000000000000000000 -";

const FOUND: &[u8] = b"reap 2 00000000000000000100020002000100 A1";

// What is said of a history beside these lines.
fn said_of(
    alloc: std::alloc::Global,
    history: &[&[u8]],
    trace: &[&[u8]],
) -> Result<TraceVerdict, Fail> {
    delayed_verdict(
        alloc,
        &Config::new(8, 1, 1, 0, 0, 2, 4, 4, 8)?,
        &TraceOptions::none(),
        history,
        trace,
    )
}

// The same of the whole history.
fn said(alloc: std::alloc::Global, trace: &[&[u8]]) -> Result<TraceVerdict, Fail> {
    said_of(alloc, &HISTORY, trace)
}

#[test]
fn what_was_seen_is_explained(rt: HostRuntime) -> Result<(), Fail> {
    let alloc = rt.alloc();
    assert_eq!(rt;
        said(alloc, &[WRITE, WRITTEN, READ, FOUND])?,
        TraceVerdict::Explained
    );
    assert_eq!(rt; said_of(alloc, &[], &[])?, TraceVerdict::Explained);
    Ok(())
}

#[test]
fn a_publish_is_logged_before_what_came_before_it(rt: HostRuntime) -> Result<(), Fail> {
    let alloc = rt.alloc();
    assert_eq!(rt;
        said(alloc, &[WRITE, READ, WRITTEN, FOUND])?,
        TraceVerdict::Explained
    );
    assert_eq!(rt;
        said(alloc, &[READ, WRITE, WRITTEN, FOUND])?,
        TraceVerdict::Explained
    );
    Ok(())
}

#[test]
fn a_reap_is_logged_after_what_came_after_it(rt: HostRuntime) -> Result<(), Fail> {
    let alloc = rt.alloc();
    assert_eq!(rt;
        said(alloc, &[WRITE, READ, FOUND, WRITTEN])?,
        TraceVerdict::Explained
    );
    assert_eq!(rt;
        said(alloc, &[READ, WRITE, FOUND, WRITTEN])?,
        TraceVerdict::Explained
    );
    Ok(())
}

#[test]
fn no_reap_is_logged_before_a_publish_that_came_before_it(rt: HostRuntime) -> Result<(), Fail> {
    let alloc = rt.alloc();
    let first = TraceVerdict::Unlike(1, Difference::Order);
    assert_eq!(rt; said(alloc, &[WRITTEN, WRITE, READ, FOUND])?, first);
    let third = TraceVerdict::Unlike(3, Difference::Order);
    assert_eq!(rt; said(alloc, &[WRITE, WRITTEN, FOUND, READ])?, third);
    // not even where another Publish stands before it
    let second = TraceVerdict::Unlike(2, Difference::Order);
    assert_eq!(rt; said(alloc, &[READ, WRITTEN, WRITE, FOUND])?, second);
    Ok(())
}

#[test]
fn one_of_them_has_a_line_more(rt: HostRuntime) -> Result<(), Fail> {
    let alloc = rt.alloc();
    let ends = TraceVerdict::Unlike(4, Difference::TraceEnds);
    assert_eq!(rt; said(alloc, &[WRITE, READ, WRITTEN])?, ends);
    assert_eq!(rt; said(alloc, &[WRITE, READ, FOUND])?, ends);
    let more = TraceVerdict::Unlike(2, Difference::HistoryEnds);
    assert_eq!(rt; said_of(alloc, &HISTORY[..1], &[WRITE, READ])?, more);
    let first = TraceVerdict::Unlike(1, Difference::HistoryEnds);
    assert_eq!(rt;
        said_of(alloc, &HISTORY[..1], &[READ, WRITE, FOUND])?,
        first
    );
    let unread = TraceVerdict::Unlike(5, Difference::HistoryEnds);
    assert_eq!(rt;
        said(alloc, &[WRITE, READ, WRITTEN, FOUND, READ, FOUND])?,
        unread
    );
    Ok(())
}

// A Read of queue 9, which isn't there.
const ELSEWHERE: &[u8] =
    b"publish 9 02000200010000000000000000000000000000000000000000000000000000000000000000000000030000000000000000000000000000000000000000000000 -";

const ELSEWHERE_FOUND: &[u8] = b"reap 9 00000000000000000100020002000100 A1";

#[test]
fn a_line_of_a_queue_that_is_not_there_is_one_more(rt: HostRuntime) -> Result<(), Fail> {
    let alloc = rt.alloc();
    let third = TraceVerdict::Unlike(3, Difference::HistoryEnds);
    assert_eq!(rt;
        said(alloc, &[WRITE, READ, ELSEWHERE, WRITTEN, FOUND])?,
        third
    );
    let last = TraceVerdict::Unlike(5, Difference::HistoryEnds);
    assert_eq!(rt;
        said(alloc, &[WRITE, READ, WRITTEN, FOUND, ELSEWHERE_FOUND])?,
        last
    );
    Ok(())
}

// A Write of A2 to block 3, with CID 2, behind the first.
const SECOND: &[u8] =
    b"publish 1 01000200010000000000000000000000000000000000000000000000000000000000000000000000030000000000000000000000000000000000000000000000 A2";

#[test]
fn lines_of_a_queue_stand_in_its_order(rt: HostRuntime) -> Result<(), Fail> {
    let alloc = rt.alloc();
    let both: [&[u8]; 2] = [WRITE, SECOND];
    assert_eq!(rt;
        said_of(alloc, &both, &[WRITE, SECOND])?,
        TraceVerdict::Explained
    );
    let batch = TraceVerdict::Unlike(1, Difference::Batch);
    assert_eq!(rt; said_of(alloc, &both, &[SECOND, WRITE])?, batch);
    Ok(())
}

// The Read's completion with SQHD 2, and with the data of before the Write.
const OTHER_HEAD: &[u8] = b"reap 2 00000000000000000200020002000100 A1";

const STALE: &[u8] = b"reap 2 00000000000000000100020002000100 00";

#[test]
fn what_comes_with_a_line_differs(rt: HostRuntime) -> Result<(), Fail> {
    let alloc = rt.alloc();
    let completion = TraceVerdict::Unlike(3, Difference::Completion);
    assert_eq!(rt;
        said(alloc, &[WRITE, READ, OTHER_HEAD, WRITTEN])?,
        completion
    );
    let data = TraceVerdict::Unlike(3, Difference::Data);
    assert_eq!(rt; said(alloc, &[WRITE, READ, STALE, WRITTEN])?, data);
    let batch = TraceVerdict::Unlike(2, Difference::Batch);
    assert_eq!(rt; said(alloc, &[READ, SECOND, WRITTEN, STALE])?, batch);
    Ok(())
}

#[test]
fn a_bad_entry_is_told_first(rt: HostRuntime) -> Result<(), Fail> {
    let alloc = rt.alloc();
    assert_eq!(rt;
        said_of(alloc, &HISTORY[1..], &[READ])?,
        TraceVerdict::Bad(1)
    );
    let front: [&[u8]; 3] = [HISTORY[0], HISTORY[1], HISTORY[3]];
    assert_eq!(rt;
        said_of(alloc, &front, &[WRITTEN, WRITE])?,
        TraceVerdict::Bad(3)
    );
    Ok(())
}
