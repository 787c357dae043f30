//! What hosts see of a script's run, in place of the history.

ghost use Rattle.std.specs.Prelude.{IfErr};
ghost use Rattle.casdisk_program.specs.Kept.{FailsKept};

use crate::failure::{Failure, failure_of};
use crate::input::opened;
use crate::race_tracing::print_trace;
use casdisk_texts::{RunFault, kinds_of, run_script};
use file_commands::Grammar;
use history::{Kinds, all_kinds};
use std::alloc::Global;
use std::io::Read;
use std::rt::Files;

// The kinds of lines of a history.
fn steps() -> Kinds {
    match kinds_of("publish,fetch,grant,block,post,reap") {
        Some(kinds) => kinds,
        None => all_kinds(),
    }
}

// Runs a script, and keeps what it prints.
fn kept_run<I: Read>(alloc: Global, input: &mut I, history: &mut Vec<u8>) -> Result<(), RunFault>
    ensures memory { IfErr result FailsKept }
{
    match run_script(alloc, input, history, steps()) {
        Ok(()) => Ok(()),
        Err(RunFault::Output) => Err(RunFault::NoMemory),
        Err(fault) => Err(fault),
    }
}

/// Runs a script, prints what hosts saw of what it did, also up to its first bad line, and then gives the status 0.
pub(crate) fn trace_run<R: Files + Input + Print + AllocGlobal>(
    rt: &R,
    why: bool,
    file: &str,
) -> Result<u8, Failure> {
    let alloc = rt.alloc();
    let mut input = opened(rt, file, why)?;
    let mut history: Vec<u8> = Vec::new(alloc);
    let done = kept_run(alloc, &mut input, &mut history);
    // (where memory ends, the newest line may be kept in part)
    if !matches!(done, Err(RunFault::NoMemory)) {
        print_trace(rt, history.as_slice())?;
    }
    match done {
        Ok(()) => Ok(0),
        Err(fault) => Err(failure_of(alloc, file, &input, Grammar::Script, fault)),
    }
}
