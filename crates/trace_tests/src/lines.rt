//! Lines behind one Flush with CID 5 on submission queue 1, and behind none.

use crate::reading::{history_config, read_trace};
use history::Config;
use refutation_check::is_bad_read_line;
use std::alloc::Global;
use std::test::Fail;
use trace::TraceOptions;

pub(crate) const FLUSH: &[u8] =
    b"publish 1 00000500010000000000000000000000000000000000000000000000000000000000000000000000000000000000000000000000000000000000000000000000 -";

const NO_QUEUE: &[u8] =
    b"publish 4 00000500010000000000000000000000000000000000000000000000000000000000000000000000000000000000000000000000000000000000000000000000 -";

const LACKED: &[u8] = b"reap 4 00000000000000000100040005000100 -";

const RIGHT: &[u8] = b"reap 1 00000000000000000100010005000100 -";

pub(crate) const PHASE: &[u8] = b"reap 1 00000000000000000100010005000000 -";

const CID: &[u8] = b"reap 1 00000000000000000100010006000100 -";

const HEAD_BEHIND: &[u8] = b"reap 1 00000000000000000000010005000100 -";

pub(crate) const HEAD_AHEAD: &[u8] = b"reap 1 00000000000000000200010005000100 -";

const NO_SLOT: &[u8] = b"reap 1 00000000000000000400010005000100 -";

const QUEUE: &[u8] = b"reap 2 00000000000000000100010005000100 -";

const BITS: &[u8] = b"reap 1 01000000000000000100010005000100 -";

const RETRY: &[u8] = b"reap 1 00000000000000000100010005000180 -";

const STATUS: &[u8] = b"reap 1 00000000000000000100010005000B05 -";

const FAULT: &[u8] = b"reap 1 00000000000000000100010005000300 -";

const FAULT_RETRY: &[u8] = b"reap 1 00000000000000000100010005000380 -";

const DATA: &[u8] = b"reap 1 00000000000000000100010005000100 A1";

// Whether the last of these lines is bad, as options read it.
fn is_bad_read(alloc: Global, options: &TraceOptions, lines: &[&[u8]]) -> Result<bool, Fail> {
    let config = history_config(options)?;
    let trace = read_trace(alloc, lines)?;
    Ok(is_bad_read_line(alloc, options, &config, trace.as_slice())?)
}

fn is_bad(alloc: Global, lines: &[&[u8]]) -> Result<bool, Fail> {
    is_bad_read(alloc, &TraceOptions::none(), lines)
}

#[test]
fn right_lines(rt: HostRuntime) -> Result<(), Fail> {
    let alloc = rt.alloc();
    assert!(rt; !is_bad(alloc, &[])?);
    assert!(rt; !is_bad(alloc, &[FLUSH])?);
    assert!(rt; !is_bad(alloc, &[FLUSH, RIGHT])?);
    assert!(rt; !is_bad(alloc, &[FLUSH, RIGHT, FLUSH])?);
    Ok(())
}

#[test]
fn lines_that_are_bad_by_themselves(rt: HostRuntime) -> Result<(), Fail> {
    let alloc = rt.alloc();
    assert!(rt; is_bad(alloc, &[NO_QUEUE])?);
    for line in [PHASE, QUEUE, BITS, RETRY] {
        assert!(rt; is_bad(alloc, &[FLUSH, line])?);
    }
    Ok(())
}

#[test]
fn lines_that_are_bad_by_their_entries(rt: HostRuntime) -> Result<(), Fail> {
    let alloc = rt.alloc();
    assert!(rt; is_bad(alloc, &[RIGHT])?);
    assert!(rt; is_bad(alloc, &[FLUSH, RIGHT, RIGHT])?);
    for line in [CID, HEAD_BEHIND, HEAD_AHEAD, NO_SLOT, STATUS, FAULT, DATA] {
        assert!(rt; is_bad(alloc, &[FLUSH, line])?);
    }
    Ok(())
}

#[test]
fn lines_where_sqhd_is_ignored(rt: HostRuntime) -> Result<(), Fail> {
    let alloc = rt.alloc();
    let mut options = TraceOptions::none();
    options.ignored.sqhd = true;
    for line in [RIGHT, HEAD_BEHIND, HEAD_AHEAD, NO_SLOT] {
        assert!(rt; !is_bad_read(alloc, &options, &[FLUSH, line])?);
    }
    for line in [PHASE, RETRY, CID, STATUS, DATA] {
        assert!(rt; is_bad_read(alloc, &options, &[FLUSH, line])?);
    }
    Ok(())
}

#[test]
fn lines_where_any_status_will_do(rt: HostRuntime) -> Result<(), Fail> {
    let alloc = rt.alloc();
    let mut options = TraceOptions::none();
    options.statuses_any = true;
    for line in [RIGHT, STATUS, FAULT, DATA] {
        assert!(rt; !is_bad_read(alloc, &options, &[FLUSH, line])?);
    }
    for line in [PHASE, BITS, FAULT_RETRY, CID, HEAD_AHEAD] {
        assert!(rt; is_bad_read(alloc, &options, &[FLUSH, line])?);
    }
    Ok(())
}

#[test]
fn lines_where_do_not_retry_is_ignored(rt: HostRuntime) -> Result<(), Fail> {
    let alloc = rt.alloc();
    let mut options = TraceOptions::none();
    options.ignored.dnr = true;
    assert!(rt; !is_bad_read(alloc, &options, &[FLUSH, RETRY])?);
    for line in [PHASE, BITS, FAULT_RETRY, HEAD_AHEAD] {
        assert!(rt; is_bad_read(alloc, &options, &[FLUSH, line])?);
    }
    Ok(())
}

#[test]
fn lines_where_contents_are_unknown(rt: HostRuntime) -> Result<(), Fail> {
    let alloc = rt.alloc();
    let mut options = TraceOptions::none();
    options.contents_unknown = true;
    assert!(rt; !is_bad_read(alloc, &options, &[FLUSH, RIGHT])?);
    for line in [
        PHASE,
        QUEUE,
        BITS,
        CID,
        HEAD_BEHIND,
        HEAD_AHEAD,
        STATUS,
        FAULT,
        DATA,
    ] {
        assert!(rt; is_bad_read(alloc, &options, &[FLUSH, line])?);
    }
    // (the fourth queue pair is the history's, and none of the trace's)
    assert!(rt; is_bad_read(alloc, &options, &[NO_QUEUE])?);
    assert!(rt; is_bad_read(alloc, &options, &[NO_QUEUE, LACKED])?);
    Ok(())
}

#[test]
fn lines_of_a_shared_completion_queue_where_contents_are_unknown(
    rt: HostRuntime,
) -> Result<(), Fail> {
    let alloc = rt.alloc();
    let mut options = TraceOptions::none();
    let shared = Config::with_cqs(8, 1, 1, 0, 0, 4, 4, 4, 8, 1)?;
    let trace = read_trace(alloc, &[FLUSH, PHASE])?;
    assert!(rt; is_bad_read_line(alloc, &options, &shared, trace.as_slice())?);
    options.contents_unknown = true;
    assert!(rt; !is_bad_read_line(alloc, &options, &shared, trace.as_slice())?);
    let trace = read_trace(alloc, &[FLUSH, BITS])?;
    assert!(rt; is_bad_read_line(alloc, &options, &shared, trace.as_slice())?);
    Ok(())
}
