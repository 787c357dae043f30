//! What is answered where the head of a trace has options.

use crate::reading::read_trace;
use history::Config;
use std::alloc::Global;
use std::test::Fail;
use trace::{TraceOption, TraceOptions, parse_option};
use trace_search::{Observed, observe};

// A Read of block 3 by queue 2 that finds A1, a Write of B2 there by queue 1, and a Read that finds B2.
const USED: [&[u8]; 6] = [
    b"publish 2 02000200010000000000000000000000000000000000000000000000000000000000000000000000030000000000000000000000000000000000000000000000 -",
    b"reap 2 00000000000000000100020002000100 A1",
    b"publish 1 01000100010000000000000000000000000000000000000000000000000000000000000000000000030000000000000000000000000000000000000000000000 B2",
    b"reap 1 00000000000000000100010001000100 -",
    b"publish 2 02000300010000000000000000000000000000000000000000000000000000000000000000000000030000000000000000000000000000000000000000000000 -",
    b"reap 2 00000000000000000200020003000100 B2",
];

// The second Read finds what the first one found.
const OLDER: &[u8] = b"reap 2 00000000000000000200020003000100 A1";

// The Write's completion says Data Transfer Error, and DNR.
const REFUSED: &[u8] = b"reap 1 00000000000000000100010001000980 -";

// Two Reads with CID 0 from a queue of two slots, both answered with LBA Out of Range behind the second Fetch.
const TWICE: [&[u8]; 4] = [
    b"publish 1 02000000010000000000000000000000000000000000000000000000000000000000000000000000010000000000000001000000000000000000000000000000 -",
    b"publish 1 02000000010000000000000000000000000000000000000000000000000000000000000000000000020000000000000000000000000000000000000000000000 -",
    b"reap 1 00000000000000000000010000000101 -",
    b"reap 1 00000000000000000000010000000101 -",
];

const UNKNOWN: &[u8] = b"observe contents unknown";

const ANY: &[u8] = b"observe statuses any";

const NO_DNR: &[u8] = b"observe ignore DNR";

// The options of these lines of a head.
fn options_of(lines: &[&[u8]]) -> Result<TraceOptions, Fail> {
    let mut options = TraceOptions::none();
    for line in lines {
        match parse_option(line) {
            Some(TraceOption::ContentsUnknown) => options.contents_unknown = true,
            Some(TraceOption::StatusesAny) => options.statuses_any = true,
            Some(TraceOption::Ignore(ignored)) => options.ignored = ignored,
            None => return Err(Fail::from("no option")),
        }
    }
    Ok(options)
}

// Whether a history is found, with a queue pair more where contents are unknown.
fn is_explained(alloc: Global, head: &[&[u8]], lines: &[&[u8]]) -> Result<bool, Fail> {
    let options = options_of(head)?;
    let config = Config::new(8, 1, 1, 0, 0, 2, 4, 4, 8)?;
    let mut history = config;
    if options.contents_unknown {
        history = Config::new(8, 1, 1, 0, 0, 3, 4, 4, 8)?;
    }
    let trace = read_trace(alloc, lines)?;
    match observe(alloc, &options, &config, &history, &trace, 1000)? {
        Observed::Explained(_) => Ok(true),
        Observed::NotFound(_) => Ok(false),
        Observed::GaveUp => Err(Fail::from("gave up")),
    }
}

#[test]
fn the_first_answer_fixes_what_was_there(rt: HostRuntime) -> Result<(), Fail> {
    let alloc = rt.alloc();
    assert!(rt; !is_explained(alloc, &[], &USED)?);
    assert!(rt; is_explained(alloc, &[UNKNOWN], &USED)?);
    let older = [USED[0], USED[1], USED[2], USED[3], USED[4], OLDER];
    assert!(rt; !is_explained(alloc, &[UNKNOWN], &older)?);
    Ok(())
}

#[test]
fn any_status_says_that_nothing_was_done(rt: HostRuntime) -> Result<(), Fail> {
    let alloc = rt.alloc();
    let refused = [USED[0], USED[1], USED[2], REFUSED, USED[4], OLDER];
    assert!(rt; is_explained(alloc, &[UNKNOWN, ANY, NO_DNR], &refused)?);
    assert!(rt; !is_explained(alloc, &[UNKNOWN, ANY], &refused)?);
    assert!(rt; !is_explained(alloc, &[UNKNOWN, NO_DNR], &refused)?);
    let written = [USED[0], USED[1], USED[2], REFUSED, USED[4], USED[5]];
    assert!(rt; !is_explained(alloc, &[UNKNOWN, ANY, NO_DNR], &written)?);
    Ok(())
}

#[test]
fn either_of_two_with_one_identifier_may_have_been_refused(rt: HostRuntime) -> Result<(), Fail> {
    let alloc = rt.alloc();
    let options = options_of(&[ANY])?;
    let config = Config::new(3, 2, 2, 2, 2, 1, 2, 4, 3)?;
    let trace = read_trace(alloc, &TWICE)?;
    let said = observe(alloc, &options, &config, &config, &trace, 1000)?;
    assert!(rt; matches!(said, Observed::Explained(_)));
    Ok(())
}
