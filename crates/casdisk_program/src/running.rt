//! The command `run`, of a history and not of a trace.

use crate::failure::{Failure, failure_of};
use crate::input::opened;
use crate::output_buffer::BUFFER;
use casdisk_texts::{RunFault, run_checked, run_script};
use file_commands::Grammar;
use history::Kinds;
use std::io;
use std::io::{BufWriter, Read, Write};
use std::rt::Files;

// How a run ended that reached the end of its script.
#[derive(Clone, Copy)]
enum Ran {
    Unjudged,
    // with the first place at which what it made isn't legal, where there is one
    Judged(Option<u64>),
}

// Runs a script into this writer, and judges what it makes where that is asked.
fn run_into<R: AllocGlobal, I: Read, W: Write>(
    rt: &R,
    kinds: Kinds,
    check: bool,
    input: &mut I,
    output: &mut W,
) -> Result<Ran, RunFault> {
    if check {
        return match run_checked(rt.alloc(), input, output, kinds) {
            Ok(bad) => Ok(Ran::Judged(bad)),
            Err(fault) => Err(fault),
        };
    }
    match run_script(rt.alloc(), input, output, kinds) {
        Ok(()) => Ok(Ran::Unjudged),
        Err(fault) => Err(fault),
    }
}

// The same, in pieces, the last of which goes out before anything is told.
fn run_buffered<R: Print + AllocGlobal, I: Read>(
    rt: &R,
    kinds: Kinds,
    check: bool,
    input: &mut I,
) -> Result<Ran, RunFault> {
    let Ok(mut output) = BufWriter::with_capacity(rt.alloc(), BUFFER, io::writer(rt)) else {
        return Err(RunFault::NoMemory);
    };
    let done = run_into(rt, kinds, check, input, &mut output);
    if output.flush().is_err() {
        return Err(RunFault::Output);
    }
    done
}

// Says on standard error what a check of the history says, where it was judged, and gives the status of that: where
// standard error takes no words, that alone.
fn end_run<R: Eprint>(rt: &R, ran: Ran) -> u8 {
    match ran {
        Ran::Unjudged => 0,
        Ran::Judged(None) => {
            let _ = rt.eprintln("legal");
            0
        }
        Ran::Judged(Some(place)) => {
            let _ = rt.eprintln(format_args!("bad at {place}"));
            1
        }
    }
}

/// Runs a script, and then gives the status 0, or 1 where it is asked to judge what it makes, and that isn't legal. Its
/// text goes out in pieces, the last of them before a fault is told; where it flushes, each line's as soon as it is
/// made.
pub(crate) fn run_file<R: Files + Input + Print + Eprint + AllocGlobal>(
    rt: &R,
    kinds: Kinds,
    check: bool,
    flush: bool,
    why: bool,
    file: &str,
) -> Result<u8, Failure> {
    let mut input = opened(rt, file, why)?;
    let done = if flush {
        run_into(rt, kinds, check, &mut input, &mut io::writer(rt))
    } else {
        run_buffered(rt, kinds, check, &mut input)
    };
    match done {
        Ok(ran) => Ok(end_run(rt, ran)),
        Err(fault) => Err(failure_of(rt.alloc(), file, &input, Grammar::Script, fault)),
    }
}
