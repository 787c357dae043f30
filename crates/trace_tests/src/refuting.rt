//! Refutations of traces of Writes, Reads and Compares of block 3, as they are worked out by hand.

use crate::lines::{FLUSH, HEAD_AHEAD, PHASE};
use crate::reading::{config, history_config, read_trace};
use refutation::{Refutation, read_refutation};
use refutation_check::refute;
use std::alloc::Global;
use std::test::Fail;
use trace::TraceOptions;

// Two Writes of one queue, and a Read of another, which finds one of these.
pub(crate) const FIRST_WRITE: &[u8] =
    b"publish 1 01000100010000000000000000000000000000000000000000000000000000000000000000000000030000000000000000000000000000000000000000000000 A1";

pub(crate) const FIRST_WRITTEN: &[u8] = b"reap 1 00000000000000000100010001000100 -";

pub(crate) const SECOND_WRITE: &[u8] =
    b"publish 1 01000200010000000000000000000000000000000000000000000000000000000000000000000000030000000000000000000000000000000000000000000000 A2";

pub(crate) const SECOND_WRITTEN: &[u8] = b"reap 1 00000000000000000200010002000100 -";

pub(crate) const READ: &[u8] =
    b"publish 3 02000300010000000000000000000000000000000000000000000000000000000000000000000000030000000000000000000000000000000000000000000000 -";

pub(crate) const FOUND_FIRST: &[u8] = b"reap 3 00000000000000000100030003000100 A1";

pub(crate) const FOUND_SECOND: &[u8] = b"reap 3 00000000000000000100030003000100 A2";

const FOUND_THIRD: &[u8] = b"reap 3 00000000000000000100030003000100 A3";

pub(crate) const FOUND_ZEROS: &[u8] = b"reap 3 00000000000000000100030003000100 00";

// The second Write on a queue of its own.
const OTHER_WRITE: &[u8] =
    b"publish 2 01000200010000000000000000000000000000000000000000000000000000000000000000000000030000000000000000000000000000000000000000000000 A2";

const OTHER_WRITTEN: &[u8] = b"reap 2 00000000000000000100020002000100 -";

// A Read behind that one, which finds what the second Write writes.
const READ_AGAIN: &[u8] =
    b"publish 3 02000400010000000000000000000000000000000000000000000000000000000000000000000000030000000000000000000000000000000000000000000000 -";

const FOUND_AGAIN: &[u8] = b"reap 3 00000000000000000200030004000100 A2";

// A Compare with what each of them writes.
const COMPARE_FIRST: &[u8] =
    b"publish 3 05000300010000000000000000000000000000000000000000000000000000000000000000000000030000000000000000000000000000000000000000000000 A1";

const COMPARE_SECOND: &[u8] =
    b"publish 3 05000300010000000000000000000000000000000000000000000000000000000000000000000000030000000000000000000000000000000000000000000000 A2";

const COMPARED: &[u8] = b"reap 3 00000000000000000100030003000100 -";

const DIFFERED: &[u8] = b"reap 3 00000000000000000100030003000B05 -";

// A Read and a Write of one line: when the Read is answered, SQHD says that the Write wasn't fetched.
const READ_AND_WRITE: &[u8] =
    b"publish 1 02000300010000000000000000000000000000000000000000000000000000000000000000000000030000000000000000000000000000000000000000000000 - + 01000200010000000000000000000000000000000000000000000000000000000000000000000000030000000000000000000000000000000000000000000000 A2";

const FOUND_EARLY: &[u8] = b"reap 1 00000000000000000100010003000100 A2";

// A Flush that isn't answered.
const OUT: &[u8] =
    b"publish 2 00000500010000000000000000000000000000000000000000000000000000000000000000000000000000000000000000000000000000000000000000000000 -";

const TWO_WRITES: &[u8] = b"refutation\nlines 6\nblock 3\ncommand 1 0\ncommand 1 1\ncommand 3 0\n";

const WRITES_AT_ONCE: &[u8] =
    b"refutation\nlines 6\nblock 3\ncommand 1 0\ncommand 2 0\ncommand 3 0\n";

const FIRST_AND_READ: &[u8] = b"refutation\nlines 6\nblock 3\ncommand 1 0\ncommand 3 0\n";

pub(crate) const READ_ALONE: &[u8] = b"refutation\nlines 6\nblock 3\ncommand 3 0\n";

// Whether the refutation of this text refutes these lines, as options read them.
fn is_refuted_read(
    alloc: Global,
    options: &TraceOptions,
    lines: &[&[u8]],
    text: &[u8],
) -> Result<bool, Fail> {
    let config = history_config(options)?;
    let trace = read_trace(alloc, lines)?;
    let Ok(refutation) = read_refutation(alloc, text) else {
        return Err(Fail::from("not read"));
    };
    Ok(refute(alloc, options, &config, trace.as_slice(), &refutation)?)
}

fn is_refuted(alloc: Global, lines: &[&[u8]], text: &[u8]) -> Result<bool, Fail> {
    is_refuted_read(alloc, &TraceOptions::none(), lines, text)
}

// Whether so many of these lines are refuted by the last of them.
fn is_bad_at(alloc: Global, lines: &[&[u8]], count: u64) -> Result<bool, Fail> {
    let config = config()?;
    let trace = read_trace(alloc, lines)?;
    let refutation = Refutation::of_lines(alloc, count);
    let options = TraceOptions::none();
    Ok(refute(alloc, &options, &config, trace.as_slice(), &refutation)?)
}

// The second Write is published behind the first one's answer, and the Read behind both.
fn of_two_writes(alloc: Global, found: &[u8], text: &[u8]) -> Result<bool, Fail> {
    let lines = [
        FIRST_WRITE,
        FIRST_WRITTEN,
        SECOND_WRITE,
        SECOND_WRITTEN,
        READ,
        found,
    ];
    is_refuted(alloc, &lines, text)
}

// Both Writes are published before one is answered, and the Read behind both.
fn of_writes_at_once(alloc: Global, found: &[u8], text: &[u8]) -> Result<bool, Fail> {
    let lines = [
        FIRST_WRITE,
        OTHER_WRITE,
        FIRST_WRITTEN,
        OTHER_WRITTEN,
        READ,
        found,
    ];
    is_refuted(alloc, &lines, text)
}

// Then one more Read.
fn of_two_reads(alloc: Global, found: &[u8], text: &[u8]) -> Result<bool, Fail> {
    let lines = [
        FIRST_WRITE,
        OTHER_WRITE,
        FIRST_WRITTEN,
        OTHER_WRITTEN,
        READ,
        found,
        READ_AGAIN,
        FOUND_AGAIN,
    ];
    is_refuted(alloc, &lines, text)
}

// A Compare behind the first Write.
fn of_a_compare(alloc: Global, compare: &[u8], answer: &[u8], text: &[u8]) -> Result<bool, Fail> {
    is_refuted(alloc, &[FIRST_WRITE, FIRST_WRITTEN, compare, answer], text)
}

#[test]
fn the_last_of_the_lines_is_bad(rt: HostRuntime) -> Result<(), Fail> {
    let alloc = rt.alloc();
    assert!(rt; !is_bad_at(alloc, &[], 0)?);
    assert!(rt; !is_bad_at(alloc, &[FLUSH, PHASE, FLUSH], 0)?);
    assert!(rt; !is_bad_at(alloc, &[FLUSH, PHASE, FLUSH], 1)?);
    assert!(rt; is_bad_at(alloc, &[FLUSH, PHASE, FLUSH], 2)?);
    assert!(rt; !is_bad_at(alloc, &[FLUSH, PHASE, FLUSH], 3)?);
    Ok(())
}

#[test]
fn lines_that_are_not_there(rt: HostRuntime) -> Result<(), Fail> {
    let alloc = rt.alloc();
    assert!(rt; !is_bad_at(alloc, &[], 1)?);
    assert!(rt; is_bad_at(alloc, &[FLUSH, PHASE], 2)?);
    assert!(rt; !is_bad_at(alloc, &[FLUSH, PHASE], 3)?);
    assert!(rt; !is_bad_at(alloc, &[FLUSH, PHASE], u64::MAX)?);
    let text = b"refutation\nlines 7\nblock 3\ncommand 3 0\n".as_slice();
    assert!(rt; !of_two_writes(alloc, FOUND_FIRST, text)?);
    Ok(())
}

#[test]
fn a_read_of_what_was_overwritten(rt: HostRuntime) -> Result<(), Fail> {
    let alloc = rt.alloc();
    assert!(rt; of_two_writes(alloc, FOUND_FIRST, TWO_WRITES)?);
    assert!(rt; of_two_writes(alloc, FOUND_FIRST, READ_ALONE)?);
    let text = b"refutation\nlines 6\nblock 3\ncommand 1 1\ncommand 3 0\n".as_slice();
    assert!(rt; of_two_writes(alloc, FOUND_FIRST, text)?);
    let text = b"refutation\nlines 6\nblock 3\ncommand 3 0\ncommand 9 7\n".as_slice();
    assert!(rt; of_two_writes(alloc, FOUND_FIRST, text)?);
    Ok(())
}

#[test]
fn the_overwriting_write_left_out(rt: HostRuntime) -> Result<(), Fail> {
    let alloc = rt.alloc();
    assert!(rt; !of_two_writes(alloc, FOUND_FIRST, FIRST_AND_READ)?);
    let text = b"refutation\nlines 6\nblock 3\ncommand 1 0\ncommand 1 1\n".as_slice();
    assert!(rt; !of_two_writes(alloc, FOUND_FIRST, text)?);
    Ok(())
}

#[test]
fn another_block_or_other_lines(rt: HostRuntime) -> Result<(), Fail> {
    let alloc = rt.alloc();
    let text = b"refutation\nlines 6\nblock 4\ncommand 3 0\n".as_slice();
    assert!(rt; !of_two_writes(alloc, FOUND_FIRST, text)?);
    let text = b"refutation\nlines 6\ncommand 3 0\n".as_slice();
    assert!(rt; !of_two_writes(alloc, FOUND_FIRST, text)?);
    let text = b"refutation\nlines 6\n".as_slice();
    assert!(rt; !of_two_writes(alloc, FOUND_FIRST, text)?);
    let text = b"refutation\nlines 5\nblock 3\ncommand 3 0\n".as_slice();
    assert!(rt; !of_two_writes(alloc, FOUND_FIRST, text)?);
    Ok(())
}

#[test]
fn a_read_of_what_was_written_last(rt: HostRuntime) -> Result<(), Fail> {
    let alloc = rt.alloc();
    assert!(rt; !of_two_writes(alloc, FOUND_SECOND, TWO_WRITES)?);
    assert!(rt; !of_two_writes(alloc, FOUND_SECOND, READ_ALONE)?);
    Ok(())
}

#[test]
fn writes_in_any_order(rt: HostRuntime) -> Result<(), Fail> {
    let alloc = rt.alloc();
    assert!(rt; !of_writes_at_once(alloc, FOUND_FIRST, WRITES_AT_ONCE)?);
    assert!(rt; !of_writes_at_once(alloc, FOUND_SECOND, WRITES_AT_ONCE)?);
    assert!(rt; !of_writes_at_once(alloc, FOUND_FIRST, READ_ALONE)?);
    Ok(())
}

#[test]
fn what_neither_wrote(rt: HostRuntime) -> Result<(), Fail> {
    let alloc = rt.alloc();
    assert!(rt; of_writes_at_once(alloc, FOUND_THIRD, WRITES_AT_ONCE)?);
    assert!(rt; of_writes_at_once(alloc, FOUND_THIRD, READ_ALONE)?);
    assert!(rt; of_writes_at_once(alloc, FOUND_ZEROS, WRITES_AT_ONCE)?);
    assert!(rt; of_writes_at_once(alloc, FOUND_ZEROS, FIRST_AND_READ)?);
    assert!(rt; !of_writes_at_once(alloc, FOUND_ZEROS, READ_ALONE)?);
    Ok(())
}

#[test]
fn reads_that_disagree(rt: HostRuntime) -> Result<(), Fail> {
    let alloc = rt.alloc();
    let all =
        b"refutation\nlines 8\nblock 3\ncommand 1 0\ncommand 2 0\ncommand 3 0\ncommand 3 1\n".as_slice();
    assert!(rt; of_two_reads(alloc, FOUND_FIRST, all)?);
    assert!(rt; !of_two_reads(alloc, FOUND_SECOND, all)?);
    let text = b"refutation\nlines 8\nblock 3\ncommand 3 1\n".as_slice();
    assert!(rt; !of_two_reads(alloc, FOUND_FIRST, text)?);
    Ok(())
}

#[test]
fn compares(rt: HostRuntime) -> Result<(), Fail> {
    let alloc = rt.alloc();
    let both = b"refutation\nlines 4\nblock 3\ncommand 1 0\ncommand 3 0\n".as_slice();
    assert!(rt; of_a_compare(alloc, COMPARE_FIRST, DIFFERED, both)?);
    assert!(rt; !of_a_compare(alloc, COMPARE_SECOND, DIFFERED, both)?);
    assert!(rt; !of_a_compare(alloc, COMPARE_FIRST, COMPARED, both)?);
    assert!(rt; of_a_compare(alloc, COMPARE_SECOND, COMPARED, both)?);
    let text = b"refutation\nlines 4\nblock 2\ncommand 1 0\ncommand 3 0\n".as_slice();
    assert!(rt; !of_a_compare(alloc, COMPARE_FIRST, DIFFERED, text)?);
    let text = b"refutation\nlines 4\nblock 3\ncommand 3 0\n".as_slice();
    assert!(rt; !of_a_compare(alloc, COMPARE_FIRST, DIFFERED, text)?);
    Ok(())
}

#[test]
fn contents_that_are_not_known(rt: HostRuntime) -> Result<(), Fail> {
    let alloc = rt.alloc();
    let mut options = TraceOptions::none();
    options.contents_unknown = true;
    let text = b"refutation\nlines 2\n".as_slice();
    assert!(rt; is_refuted_read(alloc, &options, &[FLUSH, PHASE], text)?);
    // (what nobody wrote was there before)
    let lines = [READ, FOUND_FIRST];
    let text = b"refutation\nlines 2\nblock 3\ncommand 3 0\n".as_slice();
    assert!(rt; is_refuted(alloc, &lines, text)?);
    assert!(rt; !is_refuted_read(alloc, &options, &lines, text)?);
    // (SQHD tells no order of effects)
    let lines = [READ_AND_WRITE, FOUND_EARLY];
    let text = b"refutation\nlines 2\nblock 3\ncommand 1 0\n".as_slice();
    assert!(rt; is_refuted(alloc, &lines, text)?);
    assert!(rt; !is_refuted_read(alloc, &options, &lines, text)?);
    Ok(())
}

#[test]
fn slices_of_contents_that_are_not_known(rt: HostRuntime) -> Result<(), Fail> {
    let alloc = rt.alloc();
    let mut options = TraceOptions::none();
    options.contents_unknown = true;
    // (a Write covered what was there)
    let lines = [FIRST_WRITE, FIRST_WRITTEN, READ, FOUND_ZEROS];
    let text = b"refutation\nlines 4\nblock 3\ncommand 1 0\ncommand 3 0\n".as_slice();
    assert!(rt; is_refuted_read(alloc, &options, &lines, text)?);
    let text = b"refutation\nlines 4\nblock 3\ncommand 3 0\n".as_slice();
    assert!(rt; !is_refuted_read(alloc, &options, &lines, text)?);
    // (the first Read fixed what was there)
    let lines = [READ, FOUND_FIRST, READ_AGAIN, FOUND_AGAIN];
    let text = b"refutation\nlines 4\nblock 3\ncommand 3 0\ncommand 3 1\n".as_slice();
    assert!(rt; is_refuted_read(alloc, &options, &lines, text)?);
    let text = b"refutation\nlines 4\nblock 3\ncommand 3 1\n".as_slice();
    assert!(rt; !is_refuted_read(alloc, &options, &lines, text)?);
    // (a Write may have come between)
    let lines = [
        FIRST_WRITE,
        FIRST_WRITTEN,
        OTHER_WRITE,
        READ,
        FOUND_FIRST,
        READ_AGAIN,
        FOUND_AGAIN,
    ];
    let text = b"refutation\nlines 7\nblock 3\ncommand 2 0\ncommand 3 0\ncommand 3 1\n".as_slice();
    assert!(rt; !is_refuted_read(alloc, &options, &lines, text)?);
    Ok(())
}

#[test]
fn what_sqhd_tells(rt: HostRuntime) -> Result<(), Fail> {
    let alloc = rt.alloc();
    let mut options = TraceOptions::none();
    options.ignored.sqhd = true;
    let text = b"refutation\nlines 2\n".as_slice();
    assert!(rt; is_refuted(alloc, &[FLUSH, HEAD_AHEAD], text)?);
    assert!(rt; !is_refuted_read(alloc, &options, &[FLUSH, HEAD_AHEAD], text)?);
    let lines = [READ_AND_WRITE, FOUND_EARLY];
    let text = b"refutation\nlines 2\nblock 3\ncommand 1 0\n".as_slice();
    assert!(rt; is_refuted(alloc, &lines, text)?);
    assert!(rt; !is_refuted_read(alloc, &options, &lines, text)?);
    Ok(())
}

#[test]
fn slices_of_tidy_traces_alone(rt: HostRuntime) -> Result<(), Fail> {
    let alloc = rt.alloc();
    let text = b"refutation\nlines 3\nblock 3\ncommand 3 0\n".as_slice();
    assert!(rt; is_refuted(alloc, &[OUT, READ, FOUND_FIRST], text)?);
    let text = b"refutation\nlines 4\nblock 3\ncommand 3 0\n".as_slice();
    assert!(rt; !is_refuted(alloc, &[OUT, OUT, READ, FOUND_FIRST], text)?);
    Ok(())
}
