//! The command `refute`.

use crate::failure::{Failed, Failure, end_fault, failure_of};
use crate::input::opened;
use file_commands::{Grammar, RefuteFault, refute_object, refute_text};
use std::io;
use std::process::ExitCode;
use std::rt::Files;

// The failure of the trace.
fn of_trace(failure: Failure) -> Failed<RefuteFault> {
    let fault = RefuteFault::Trace(failure.fault);
    failure.told_as(fault)
}

// The failure of the refutation.
fn of_refutation(failure: Failure) -> Failed<RefuteFault> {
    let fault = RefuteFault::Refutation(failure.fault);
    failure.told_as(fault)
}

// Compares a refutation with a trace, and says whether the trace is refuted.
fn refuted<R: Files + Input + Print + AllocGlobal>(
    rt: &R,
    json: bool,
    why: bool,
    trace_file: &str,
    refutation_file: &str,
) -> Result<bool, Failed<RefuteFault>> {
    let mut trace = opened(rt, trace_file, why).map_err(of_trace)?;
    let mut refutation = opened(rt, refutation_file, why)
        .map_err(of_refutation)?
        .whole();
    let mut output = io::writer(rt);
    let done = if json {
        refute_object(rt.alloc(), &mut trace, &mut refutation, &mut output)
    } else {
        refute_text(rt.alloc(), &mut trace, &mut refutation, &mut output)
    };
    match done {
        Ok(answer) => Ok(answer),
        Err(RefuteFault::Trace(fault)) => Err(of_trace(failure_of(
            rt.alloc(),
            trace_file,
            &mut trace,
            Grammar::Trace,
            fault,
        ))),
        Err(RefuteFault::Refutation(fault)) => Err(of_refutation(failure_of(
            rt.alloc(),
            refutation_file,
            &refutation,
            Grammar::Slice,
            fault,
        ))),
        Err(RefuteFault::Output) => Err(Failed {
            fault: RefuteFault::Output,
            why: None,
        }),
    }
}

/// Compares a refutation with a trace, and gives the status 0 where it refutes it, 1 where not, else that of the fault.
pub(crate) fn refute_files<R: Files + Input + Print + Eprint + AllocGlobal>(
    rt: &R,
    json: bool,
    why: bool,
    trace: &str,
    refutation: &str,
) -> ExitCode {
    match refuted(rt, json, why, trace, refutation) {
        Ok(true) => ExitCode::from(0),
        Ok(false) => ExitCode::from(1),
        Err(Failed { fault, why }) => { ExitCode::from(end_fault(rt, fault, fault.status(), why)) }
    }
}
