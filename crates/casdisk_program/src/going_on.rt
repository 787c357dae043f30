//! The command `run`, of a script that goes on from a history.

use crate::failure::{Failed, Failure, end_fault, failure_of};
use crate::input::opened;
use crate::output_buffer::BUFFER;
use casdisk_texts::{FromFault, RunFault, run_from};
use file_commands::Grammar;
use history::Kinds;
use std::io;
use std::io::{BufWriter, Read, Write};
use std::rt::Files;

// The failure of the history.
fn of_history(failure: Failure) -> Failed<FromFault> {
    let fault = FromFault::History(failure.fault);
    failure.told_as(fault)
}

// The failure of the script.
fn of_script(failure: Failure) -> Failed<FromFault> {
    let fault = FromFault::Script(failure.fault);
    failure.told_as(fault)
}

// Goes on in pieces, the last of which goes out before anything is told.
fn run_buffered<R: Print + AllocGlobal, H: Read, I: Read>(
    rt: &R,
    kinds: Kinds,
    history: &mut H,
    input: &mut I,
) -> Result<(), FromFault> {
    let Ok(mut output) = BufWriter::with_capacity(rt.alloc(), BUFFER, io::writer(rt)) else {
        return Err(FromFault::History(RunFault::NoMemory));
    };
    let done = run_from(rt.alloc(), history, input, &mut output, kinds);
    if output.flush().is_err() {
        return Err(FromFault::Script(RunFault::Output));
    }
    done
}

// Goes on from the history in one file by the script in another.
fn go_on<R: Files + Input + Print + AllocGlobal>(
    rt: &R,
    kinds: Kinds,
    flush: bool,
    why: bool,
    history_file: &str,
    file: &str,
) -> Result<(), Failed<FromFault>> {
    let alloc = rt.alloc();
    let mut history = opened(rt, history_file, why).map_err(of_history)?;
    let mut input = opened(rt, file, why).map_err(of_script)?;
    let done = if flush {
        run_from(alloc, &mut history, &mut input, &mut io::writer(rt), kinds)
    } else {
        run_buffered(rt, kinds, &mut history, &mut input)
    };
    match done {
        Ok(()) => Ok(()),
        Err(FromFault::History(fault)) => Err(of_history(failure_of(
            alloc,
            history_file,
            &history,
            Grammar::History,
            fault,
        ))),
        Err(FromFault::Script(fault)) => Err(of_script(failure_of(
            alloc,
            file,
            &input,
            Grammar::Script,
            fault,
        ))),
        Err(fault) => Err(Failed { fault, why: None }),
    }
}

/// Goes on from the history in one file by the script in another, and gives the status 0, or 1 where a controller of
/// this kind does something else than the history says, else that of the fault, whose words go to standard error.
pub(crate) fn run_from_files<R: Files + Input + Print + Eprint + AllocGlobal>(
    rt: &R,
    kinds: Kinds,
    flush: bool,
    why: bool,
    history: &str,
    file: &str,
) -> u8 {
    match go_on(rt, kinds, flush, why, history, file) {
        Ok(()) => 0,
        Err(Failed { fault, why }) => end_fault(rt, fault, fault.status(), why),
    }
}
