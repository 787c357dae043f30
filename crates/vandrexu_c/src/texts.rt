//! Whole texts, from memory to memory: scripts, histories and traces, as the program takes them.

ghost use Rattle.std.specs.Prelude.{◌≡◌};
ghost use Rattle.vandrexu_c.specs.TextCalls.{CertifiesInMemory, ChecksInMemory, GivesText};
ghost use Rattle.vandrexu_c.specs.TextCalls.{ObservesInMemory, RefutesInMemory, RunsInMemory};
ghost use Rattle.vandrexu_c.specs.TextCalls.{told_certify, told_certify_fault, told_check, told_fault};
ghost use Rattle.vandrexu_c.specs.TextCalls.{told_history_fault, told_observe, told_refute, told_run};

use crate::copying::fits;
use crate::numbers::{BAD_LINE, NOT_LEGAL, TOO_SMALL};
use bitflags::Flags;
use c_handles::numbers::NO_MEMORY;
use casdisk_texts::{CertifyFault, Logged, RunFault, certify_text, check_text, run_script};
use file_commands::{RefuteFault, TraceAnswer, observe_text, refute_text};
use history::Kinds;
use std::alloc::Global;

const NOT_EXPLAINED: u32 = 109;

const BAD_HISTORY: u32 = 110;

const OTHER_CONFIG: u32 = 111;

const GAVE_UP: u32 = 112;

const NOT_FOUND: u32 = 126;

const NOT_REFUTED: u32 = 127;

/// What a call answers: its number, and the line that this is about, from 1; 0 for none.
#[derive(Clone, Copy)]
pub(crate) struct TextAnswer {
    pub(crate) number: u32,
    pub(crate) line: u64,
}

// No line is told.
fn plain(number: u32) -> TextAnswer
    ensures { (result.number ≡ number) × (result.line ≡ 0) }
{
    TextAnswer { number, line: 0 }
}

// Why a text wasn't read to its end.
fn told_fault(fault: RunFault) -> TextAnswer
    ensures { result ≡ told_fault fault }
{
    match fault {
        RunFault::BadLine(line) => TextAnswer {
            number: BAD_LINE,
            line,
        },
        RunFault::BadConfig(number) => plain(u32::from(number)),
        RunFault::Input | RunFault::Output | RunFault::NoMemory => plain(NO_MEMORY),
    }
}

// What a run answered.
fn told_run(done: Result<(), RunFault>) -> TextAnswer
    ensures { result ≡ told_run done }
{
    match done {
        Ok(()) => plain(0),
        Err(fault) => told_fault(fault),
    }
}

// What a check answered.
fn told_check(done: Result<bool, RunFault>) -> TextAnswer
    ensures { result ≡ told_check done }
{
    match done {
        Ok(true) => plain(0),
        Ok(false) => plain(NOT_LEGAL),
        Err(fault) => told_fault(fault),
    }
}

// Why the text of a history or of a refutation wasn't read, beside a trace's.
fn told_history_fault(fault: RunFault) -> TextAnswer
    ensures { result ≡ told_history_fault fault }
{
    match fault {
        RunFault::BadLine(line) => TextAnswer {
            number: BAD_HISTORY,
            line,
        },
        RunFault::BadConfig(_) => TextAnswer {
            number: BAD_HISTORY,
            line: 1,
        },
        RunFault::Input | RunFault::Output | RunFault::NoMemory => plain(NO_MEMORY),
    }
}

// Why a trace and a history weren't compared.
fn told_certify_fault(fault: CertifyFault) -> TextAnswer
    ensures { result ≡ told_certify_fault fault }
{
    match fault {
        CertifyFault::Trace(fault) => told_fault(fault),
        CertifyFault::History(fault) => told_history_fault(fault),
        CertifyFault::OtherConfig => plain(OTHER_CONFIG),
        CertifyFault::Output => plain(NO_MEMORY),
    }
}

// What was answered about a trace and a history.
fn told_certify(done: Result<bool, CertifyFault>) -> TextAnswer
    ensures { result ≡ told_certify done }
{
    match done {
        Ok(true) => plain(0),
        Ok(false) => plain(NOT_EXPLAINED),
        Err(fault) => told_certify_fault(fault),
    }
}

// What was answered about a trace.
fn told_observe(done: Result<TraceAnswer, RunFault>) -> TextAnswer
    ensures { result ≡ told_observe done }
{
    match done {
        Ok(TraceAnswer::Explained) => plain(0),
        Ok(TraceAnswer::Refuted) => plain(NOT_EXPLAINED),
        Ok(TraceAnswer::NotFound) => plain(NOT_FOUND),
        Ok(TraceAnswer::GaveUp) => plain(GAVE_UP),
        Err(fault) => told_fault(fault),
    }
}

// What was answered about a trace and what is said to refute it.
fn told_refute(done: Result<bool, RefuteFault>) -> TextAnswer
    ensures { result ≡ told_refute done }
{
    match done {
        Ok(true) => plain(0),
        Ok(false) => plain(NOT_REFUTED),
        Err(RefuteFault::Trace(fault)) => told_fault(fault),
        Err(RefuteFault::Refutation(fault)) => told_history_fault(fault),
        Err(RefuteFault::Output) => plain(NO_MEMORY),
    }
}

// Gives a text, with what is told; where the room is too short for it, that is told alone.
fn give(what: TextAnswer, text: &[u8], out: &mut [u8], needed: &mut usize, line: &mut u64) -> u32
    ensures { GivesText what text.now out.old out.new needed.new line.new result }
{
    *line = what.line;
    if fits(text, out, needed) {
        return what.number;
    }
    TOO_SMALL
}

/// Runs a script, and gives what a run of it prints, the lines of these kinds: 0; or 107 with the first bad line, and
/// the text of the lines before it; or 21 to 30 for its configuration; or 11 where memory is refused, with a beginning
/// of the text; or 103 where `out` is too short, and nothing is written there. `needed` is the text's length.
#[unsafe(no_mangle)]
pub extern "C" fn vandrexu_run_text(
    alloc: Global,
    script: &[u8],
    kinds: u8,
    out: &mut [u8],
    needed: &mut usize,
    line: &mut u64,
) -> u32
    ensures runs { RunsInMemory kinds script.now out.old out.new needed.new line.new result }
{
    let mut reader = script;
    let mut text = Vec::new(alloc);
    let done = run_script(
        alloc,
        &mut reader,
        &mut text,
        Kinds::from_bits_retain(kinds),
    );
    give(told_run(done), text.as_slice(), out, needed, line)
}

/// Checks a history, and gives the line that a check of it prints: 0 where it is legal, 108 where it isn't; or 107 with
/// the first bad line, 21 to 30 for its configuration, and 11 where memory is refused, with no text or a beginning of
/// it; or 103 where `out` is too short, and nothing is written there. `needed` is the text's length.
#[unsafe(no_mangle)]
pub extern "C" fn vandrexu_check_text(
    alloc: Global,
    history: &[u8],
    out: &mut [u8],
    needed: &mut usize,
    line: &mut u64,
) -> u32
    ensures checks { ChecksInMemory history.now out.old out.new needed.new line.new result }
{
    let mut reader = history;
    let mut text = Vec::new(alloc);
    let done = check_text(alloc, &mut reader, &mut text);
    give(told_check(done), text.as_slice(), out, needed, line)
}

/// Says whether a history explains a trace, and gives the line that says so: 0 where it does, 109 where it doesn't; or
/// 107 with the first bad line of the trace, and 21 to 30 for its configuration; or 110 with the first bad line of the
/// history; or 111 where their configurations don't belong together; or 11 where memory is refused, with no text or a
/// beginning of it; or 103 where `out` is too short, and nothing is written there. `needed` is the text's length.
#[unsafe(no_mangle)]
pub extern "C" fn vandrexu_certify_text(
    alloc: Global,
    trace: &[u8],
    history: &[u8],
    out: &mut [u8],
    needed: &mut usize,
    line: &mut u64,
) -> u32
    ensures certifies { CertifiesInMemory trace.now history.now out.old out.new needed.new line.new result }
{
    let mut seen = trace;
    let mut told = history;
    let mut text = Vec::new(alloc);
    let done = certify_text(alloc, Logged::AsSeen, &mut seen, &mut told, &mut text);
    give(told_certify(done), text.as_slice(), out, needed, line)
}

/// Says whether a trace is refuted, and gives the line that says so: 0 where it is, so that no legal history explains
/// it, 127 where it isn't by this; or 107 with the first bad line of the trace, and 21 to 30 for its configuration; or
/// 110 with the first bad line of the refutation; or 11 where memory is refused, with no text or a beginning of it; or
/// 103 where `out` is too short, and nothing is written there. `needed` is the text's length.
#[unsafe(no_mangle)]
pub extern "C" fn vandrexu_refute_text(
    alloc: Global,
    trace: &[u8],
    refutation: &[u8],
    out: &mut [u8],
    needed: &mut usize,
    line: &mut u64,
) -> u32
    ensures refutes { RefutesInMemory trace.now refutation.now out.old out.new needed.new line.new result }
{
    let mut seen = trace;
    let mut said = refutation;
    let mut text = Vec::new(alloc);
    let done = refute_text(alloc, &mut seen, &mut said, &mut text);
    give(told_refute(done), text.as_slice(), out, needed, line)
}

/// Looks for a history that explains a trace, in so many steps at most, and gives it, or what refutes the trace, and
/// the line that says what was found: 0 where there is a history, 109 where there is none and `history` begins with a
/// refutation, 126 where neither was found, 112 where the steps were used up; or 107 with the first bad line of the
/// trace, 21 to 30 for its configuration, and 11 where memory is refused; or 103 where `history` or `out` is too short,
/// and nothing is written there. `found` and `needed` are their lengths.
#[unsafe(no_mangle)]
pub extern "C" fn vandrexu_observe_text(
    alloc: Global,
    trace: &[u8],
    steps: u64,
    history: &mut [u8],
    found: &mut usize,
    out: &mut [u8],
    needed: &mut usize,
    line: &mut u64,
) -> u32
    ensures observes { ObservesInMemory trace.now history.old history.new found.new out.old out.new needed.new line.new
        result }
{
    let mut seen = trace;
    let mut witness = Vec::new(alloc);
    let mut text = Vec::new(alloc);
    let done = observe_text(alloc, &mut seen, &mut witness, &mut text, steps);
    let number = give(told_observe(done), text.as_slice(), out, needed, line);
    if fits(witness.as_slice(), history, found) {
        return number;
    }
    TOO_SMALL
}
