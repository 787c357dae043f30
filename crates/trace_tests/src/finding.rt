//! What is found to refute traces: the fewest commands, as they are worked out by hand.

use crate::lines::{FLUSH, PHASE};
use crate::reading::{config, history_config, read_trace};
use crate::refuting::{
    FIRST_WRITE, FIRST_WRITTEN, FOUND_FIRST, FOUND_SECOND, FOUND_ZEROS, READ, READ_ALONE,
    SECOND_WRITE, SECOND_WRITTEN,
};
use refutation::write_refutation;
use std::alloc::Global;
use std::test::Fail;
use trace::TraceOptions;
use trace_search::{find_bad_line, find_on_blocks, find_refutation};

// The text of what is found to refute so many of these lines; no text where nothing is.
fn found_read(
    alloc: Global,
    options: &TraceOptions,
    lines: &[&[u8]],
    count: usize,
) -> Result<Vec<u8>, Fail> {
    let config = history_config(options)?;
    let trace = read_trace(alloc, lines)?;
    let mut text = Vec::new(alloc);
    if let Some(refutation) = find_refutation(alloc, options, &config, trace.as_slice(), count)? {
        write_refutation(&refutation, &mut text)?;
    }
    Ok(text)
}

fn found(alloc: Global, lines: &[&[u8]], count: usize) -> Result<Vec<u8>, Fail> {
    found_read(alloc, &TraceOptions::none(), lines, count)
}

#[test]
fn a_read_of_what_was_covered(rt: HostRuntime) -> Result<(), Fail> {
    let alloc = rt.alloc();
    let lines = [
        FIRST_WRITE,
        FIRST_WRITTEN,
        SECOND_WRITE,
        SECOND_WRITTEN,
        READ,
        FOUND_FIRST,
    ];
    assert!(rt; found(alloc, &lines, 6)?.as_slice() == READ_ALONE);
    // (the Read isn't answered before the last line, and behind the trace are no more)
    assert!(rt; found(alloc, &lines, 5)?.is_empty());
    assert!(rt; found(alloc, &lines, 7)?.as_slice() == READ_ALONE);
    Ok(())
}

#[test]
fn a_write_that_has_to_be_named(rt: HostRuntime) -> Result<(), Fail> {
    let alloc = rt.alloc();
    let lines = [FIRST_WRITE, FIRST_WRITTEN, READ, FOUND_ZEROS];
    let wanted = b"refutation\nlines 4\nblock 3\ncommand 1 0\ncommand 3 0\n".as_slice();
    assert!(rt; found(alloc, &lines, 4)?.as_slice() == wanted);
    let mut options = TraceOptions::none();
    options.contents_unknown = true;
    assert!(rt; found_read(alloc, &options, &lines, 4)?.as_slice() == wanted);
    let lines = [READ, FOUND_ZEROS];
    assert!(rt; found_read(alloc, &options, &lines, 2)?.is_empty());
    Ok(())
}

#[test]
fn each_block_of_a_trace(rt: HostRuntime) -> Result<(), Fail> {
    let alloc = rt.alloc();
    let config = config()?;
    let options = TraceOptions::none();
    // (a line behind the Read's answer isn't needed)
    let lines = [FIRST_WRITE, FIRST_WRITTEN, READ, FOUND_ZEROS, FLUSH];
    let wanted = b"refutation\nlines 4\nblock 3\ncommand 1 0\ncommand 3 0\n".as_slice();
    let trace = read_trace(alloc, &lines)?;
    let mut text = Vec::new(alloc);
    let Some(refutation) = find_on_blocks(alloc, &options, &config, trace.as_slice())? else {
        return Err(Fail::from("nothing refutes it"));
    };
    write_refutation(&refutation, &mut text)?;
    assert!(rt; text.as_slice() == wanted);
    let right = read_trace(alloc, &[FIRST_WRITE, FIRST_WRITTEN, READ, FOUND_FIRST])?;
    assert!(rt; find_on_blocks(alloc, &options, &config, right.as_slice())?.is_none());
    Ok(())
}

#[test]
fn a_bad_line(rt: HostRuntime) -> Result<(), Fail> {
    let alloc = rt.alloc();
    assert!(rt;
        found(alloc, &[FLUSH, PHASE], 2)?.as_slice() == b"refutation\nlines 2\n".as_slice()
    );
    assert!(rt; found(alloc, &[FLUSH, PHASE], 1)?.is_empty());
    assert!(rt; found(alloc, &[FLUSH, PHASE], 0)?.is_empty());
    Ok(())
}

#[test]
fn the_first_bad_line(rt: HostRuntime) -> Result<(), Fail> {
    let alloc = rt.alloc();
    let config = config()?;
    let mut options = TraceOptions::none();
    let wrong = read_trace(alloc, &[FLUSH, PHASE, FLUSH, PHASE])?;
    let mut text = Vec::new(alloc);
    let Some(refutation) = find_bad_line(alloc, &options, &config, wrong.as_slice())? else {
        return Err(Fail::from("no line is bad"));
    };
    write_refutation(&refutation, &mut text)?;
    assert!(rt; text.as_slice() == b"refutation\nlines 2\n".as_slice());
    let right = read_trace(alloc, &[FIRST_WRITE, FIRST_WRITTEN, READ, FOUND_ZEROS])?;
    assert!(rt; find_bad_line(alloc, &options, &config, right.as_slice())?.is_none());
    options.contents_unknown = true;
    assert!(rt; find_bad_line(alloc, &options, &config, wrong.as_slice())?.is_some());
    assert!(rt; find_bad_line(alloc, &options, &config, right.as_slice())?.is_some());
    let config = history_config(&options)?;
    assert!(rt; find_bad_line(alloc, &options, &config, right.as_slice())?.is_none());
    Ok(())
}

#[test]
fn a_trace_that_is_right(rt: HostRuntime) -> Result<(), Fail> {
    let alloc = rt.alloc();
    let lines = [
        FIRST_WRITE,
        FIRST_WRITTEN,
        SECOND_WRITE,
        SECOND_WRITTEN,
        READ,
        FOUND_SECOND,
    ];
    assert!(rt; found(alloc, &lines, 6)?.is_empty());
    assert!(rt; found(alloc, &[], 0)?.is_empty());
    Ok(())
}
