//! The command `certify`.

use crate::failure::{Failed, Failure, end_fault, failure_of};
use crate::input::opened;
use crate::kept::Kept;
use crate::objects::print_object;
use casdisk_texts::{
    CertifyFault, Logged, RunFault, certify_text, certify_verdict, verdict_object,
};
use file_commands::Grammar;
use std::alloc::Global;
use std::io;
use std::io::{Read, Write};
use std::process::ExitCode;
use std::rt::Files;
use witness_check::TraceVerdict;

/// Why a history wasn't compared with a trace.
pub(crate) type CertifyFailure = Failed<CertifyFault>;

/// The failure of the trace.
pub(crate) fn of_trace(failure: Failure) -> CertifyFailure {
    let fault = CertifyFault::Trace(failure.fault);
    failure.told_as(fault)
}

/// The failure of the history.
pub(crate) fn of_history(failure: Failure) -> CertifyFailure {
    let fault = CertifyFault::History(failure.fault);
    failure.told_as(fault)
}

// What came of comparing a history with a trace, with the reason where they weren't compared.
fn failed_so<T: Read + Drop, H: Read + Drop>(
    alloc: Global,
    trace_file: &str,
    trace: &Kept<T>,
    history_file: &str,
    history: &Kept<H>,
    done: Result<bool, CertifyFault>,
) -> Result<bool, CertifyFailure> {
    match done {
        Ok(answer) => Ok(answer),
        Err(CertifyFault::Trace(fault)) => Err(of_trace(failure_of(
            alloc,
            trace_file,
            trace,
            Grammar::Trace,
            fault,
        ))),
        Err(CertifyFault::History(fault)) => Err(of_history(failure_of(
            alloc,
            history_file,
            history,
            Grammar::History,
            fault,
        ))),
        Err(fault) => Err(CertifyFailure { fault, why: None }),
    }
}

/// Compares a history with a trace, which were opened, writes what is said of that, and says whether it explains it.
pub(crate) fn compared<T: Read + Drop, H: Read + Drop, W: Write>(
    alloc: Global,
    logged: Logged,
    trace_file: &str,
    trace: &mut Kept<T>,
    history_file: &str,
    history: &mut Kept<H>,
    writer: &mut W,
) -> Result<bool, CertifyFailure> {
    let done = certify_text(alloc, logged, trace, history, writer);
    failed_so(alloc, trace_file, trace, history_file, history, done)
}

// Compares a history with a trace, and says whether it explains it.
fn certified<R: Files + Input + Print + AllocGlobal>(
    rt: &R,
    logged: Logged,
    json: bool,
    why: bool,
    trace_file: &str,
    history_file: &str,
) -> Result<bool, CertifyFailure> {
    let mut trace = opened(rt, trace_file, why).map_err(of_trace)?;
    let mut history = opened(rt, history_file, why).map_err(of_history)?;
    let done = if json {
        certify_as_object(rt, logged, &mut trace, &mut history)
    } else {
        certify_text(
            rt.alloc(),
            logged,
            &mut trace,
            &mut history,
            &mut io::writer(rt),
        )
    };
    failed_so(rt.alloc(), trace_file, &trace, history_file, &history, done)
}

// Compares a history with a trace, writes the verdict as an object, and says whether the trace is explained.
fn certify_as_object<R: Print + AllocGlobal, T: Read, H: Read>(
    rt: &R,
    logged: Logged,
    trace: &mut T,
    history: &mut H,
) -> Result<bool, CertifyFault> {
    let verdict = certify_verdict(rt.alloc(), logged, trace, history)?;
    match print_object(rt, verdict_object(rt.alloc(), verdict)) {
        Ok(()) => Ok(verdict == TraceVerdict::Explained),
        Err(RunFault::Output) => Err(CertifyFault::Output),
        Err(fault) => Err(CertifyFault::History(fault)),
    }
}

/// Says why a history wasn't compared with a trace, and gives the status of that.
pub(crate) fn end_certify<R: Eprint>(rt: &R, failure: CertifyFailure) -> u8 {
    let CertifyFailure { fault, why } = failure;
    end_fault(rt, fault, fault.status(), why)
}

/// How the lines of a trace were logged, as the command line says it.
pub(crate) fn logged_so(delayed: bool) -> Logged {
    if delayed {
        Logged::WithDelays
    } else {
        Logged::AsSeen
    }
}

// Compares a history with a trace, and gives the status 0 where it explains it, 1 where not, else that of the fault.
pub(crate) fn certify_files<R: Files + Input + Print + Eprint + AllocGlobal>(
    rt: &R,
    logged: Logged,
    json: bool,
    why: bool,
    trace: &str,
    history: &str,
) -> ExitCode {
    match certified(rt, logged, json, why, trace, history) {
        Ok(true) => ExitCode::from(0),
        Ok(false) => ExitCode::from(1),
        Err(failure) => ExitCode::from(end_certify(rt, failure)),
    }
}
