//! The text of a trace, and a history that explains it, or what refutes it.

ghost use Rattle.std.specs.Prelude.{◌≡◌, ◌⊎◌, IfErr, IfOk, IfSome, OnOk, reverse};
ghost use Rattle.std.specs.Io.KnownBytes.{Appends};
ghost use Rattle.casdisk_texts.specs.declared.fault.RunFault.{RunFault as Fault};
ghost use Rattle.history.specs.Texts.{history_text};
ghost use Rattle.refutation.specs.Texts.{refutation_text};
ghost use Rattle.trace_search.specs.Found.{Refutes};
ghost use Rattle.trace.specs.Observed.{Explains};
ghost use Rattle.trace_search.specs.Observed.{IsExplained};
ghost use Rattle.file_commands.specs.Observing.{AnswersTrace, ObservesText};

use crate::answer::TraceAnswer;
use crate::slice_words::{Told, send_slice};
use crate::words::send_reason;
use casdisk_texts::{RunFault, Trace, read_trace};
use history::{Config, Entry, PrintFault, print_history};
use line_text::{Word, send, send_words};
use refutation::{Refutation, write_refutation};
use std::alloc::Global;
use std::io::{Read, Result as IoResult, Write};
use trace::{Seen, TraceOptions};
use trace_search::{
    Observed, Unexplained, find_bad_line, find_on_blocks, find_refutation, observe,
};

// How many steps of search come first.
const FEW_STEPS: u64 = 200_000;

// Writes the history that was found.
fn write_witness<V: Write>(
    alloc: Global,
    config: &Config,
    entries: &[Entry],
    witness: &mut V,
) -> Result<(), RunFault>
    ensures whole { OnOk result
        (Appends (V.contents witness.old) (V.contents witness.new) (history_text config.now entries.now)) }
    ensures fault { IfErr result (λ f. (f ≡ Fault.Output) ⊎ (f ≡ Fault.NoMemory)) }
{
    match print_history(alloc, config, entries, witness) {
        Ok(()) => Ok(()),
        Err(PrintFault::Output) => Err(RunFault::Output),
        Err(PrintFault::NoMemory) => Err(RunFault::NoMemory),
    }
}

// Writes the line of an answer.
fn send_answer<W: Write>(line: &[u8], writer: &mut W) -> Result<(), RunFault>
    ensures whole { OnOk result (Appends (W.contents writer.old) (W.contents writer.new) line.now) }
    ensures fault { IfErr result (λ f. f ≡ Fault.Output) }
{
    match send(writer, line) {
        Ok(()) => Ok(()),
        Err(_) => Err(RunFault::Output),
    }
}

// Writes a history that explains what was seen, and that it does.
fn tell_explained<V: Write, W: Write>(
    alloc: Global,
    options: &TraceOptions,
    config: &Config,
    things: &[Seen],
    entries: &[Entry],
    witness: &mut V,
    writer: &mut W,
) -> Result<TraceAnswer, RunFault>
    requires explains { Explains options.now config.now (reverse entries.now) (reverse things.now) }
    ensures told { AnswersTrace options.now config.now things.now result (V.contents witness.old)
        (V.contents witness.new) (W.contents writer.old) (W.contents writer.new) }
{
    let _ = options;
    let _ = things;
    write_witness(alloc, config, entries, witness)?;
    send_answer(b"explained\n", writer)?;
    Ok(TraceAnswer::Explained)
}

// Writes the text of a refutation.
fn put_refutation<V: Write>(refutation: &Refutation, witness: &mut V) -> Result<(), RunFault>
    ensures whole { OnOk result
        (Appends (V.contents witness.old) (V.contents witness.new) (refutation_text refutation.now)) }
    ensures fault { IfErr result (λ f. f ≡ Fault.Output) }
{
    match write_refutation(refutation, witness) {
        Ok(()) => Ok(()),
        Err(_) => Err(RunFault::Output),
    }
}

// How many lines of the file stand before what was seen.
fn lines_before(options: &TraceOptions) -> usize {
    let mut lines = 1;
    if options.contents_unknown {
        lines += 1;
    }
    if options.statuses_any {
        lines += 1;
    }
    if options.ignored != TraceOptions::none().ignored {
        lines += 1;
    }
    lines
}

// The same reason, with the lines numbered as in the file.
fn in_file(options: &TraceOptions, reason: Unexplained) -> Unexplained {
    let before = lines_before(options);
    Unexplained {
        lines: reason.lines.saturating_add(before),
        published: reason.published.saturating_add(before),
        ..reason
    }
}

// Of which things a refutation is told, behind this reason.
fn told_of<'a>(trace: &'a Trace, reason: Option<&'a Unexplained>) -> Told<'a> {
    Told {
        things: trace.things.as_slice(),
        head: lines_before(&trace.options),
        reason,
    }
}

// Writes up to which line there is no history, and why; the commands of a refutation, where there is one.
fn tell_reason<W: Write>(
    trace: &Trace,
    reason: Unexplained,
    refutation: Option<&Refutation>,
    writer: &mut W,
) -> IoResult<()> {
    let reason = in_file(&trace.options, reason);
    match refutation {
        Some(refutation) => {
            send_reason(b"refuted:", &reason, writer)?;
            send_slice(refutation, &told_of(trace, Some(&reason)), writer)?;
        }
        None => send_reason(b"not found:", &reason, writer)?,
    }
    send(writer, b"\n")
}

// Writes up to which line there is no history, and which commands' effects have no order.
fn tell_slice<W: Write>(trace: &Trace, refutation: &Refutation, writer: &mut W) -> IoResult<()> {
    let head = lines_before(&trace.options);
    let line = refutation.lines().saturating_add(head as u64);
    send_words(
        writer,
        &[Word::Text(b"refuted: up to line"), Word::Number(line)],
    )?;
    send(writer, b": ")?;
    send_slice(refutation, &told_of(trace, None), writer)?;
    send(writer, b"\n")
}

// Writes what refutes things, and what is said.
fn tell_refuted<V: Write, W: Write>(
    trace: &Trace,
    refutation: &Refutation,
    witness: &mut V,
    writer: &mut W,
) -> Result<TraceAnswer, RunFault>
    requires refutes { Refutes trace.now.options trace.now.history (reverse trace.now.things.items) refutation.now }
    ensures told { AnswersTrace trace.now.options trace.now.history trace.now.things.items result
        (V.contents witness.old) (V.contents witness.new) (W.contents writer.old) (W.contents writer.new) }
{
    put_refutation(refutation, witness)?;
    match tell_slice(trace, refutation, writer) {
        Ok(()) => Ok(TraceAnswer::Refuted),
        Err(_) => Err(RunFault::Output),
    }
}

// Looks for what refutes things: a line that breaks a rule by itself, or what happened to a few blocks.
fn find_any(alloc: Global, trace: &Trace) -> Result<Option<Refutation>, RunFault>
    ensures found { IfOk result (λ found. IfSome found
        (Refutes trace.now.options trace.now.history (reverse trace.now.things.items))) }
    ensures fault { IfErr result (λ f. f ≡ Fault.NoMemory) }
{
    let things = trace.things.as_slice();
    let Ok(bad) = find_bad_line(alloc, &trace.options, &trace.history, things) else {
        return Err(RunFault::NoMemory);
    };
    if bad.is_some() {
        return Ok(bad);
    }
    match find_on_blocks(alloc, &trace.options, &trace.history, things) {
        Ok(found) => Ok(found),
        Err(_) => Err(RunFault::NoMemory),
    }
}

// Looks further for what refutes things of which no history was found, and writes what was found and what is said.
fn tell_open<V: Write, W: Write>(
    alloc: Global,
    trace: &Trace,
    reason: Unexplained,
    witness: &mut V,
    writer: &mut W,
) -> Result<TraceAnswer, RunFault>
    ensures told { AnswersTrace trace.now.options trace.now.history trace.now.things.items result
        (V.contents witness.old) (V.contents witness.new) (W.contents writer.old) (W.contents writer.new) }
{
    match find_any(alloc, trace)? {
        Some(refutation) => tell_refuted(trace, &refutation, witness, writer),
        None => match tell_reason(trace, reason, None, writer) {
            Ok(()) => Ok(TraceAnswer::NotFound),
            Err(_) => Err(RunFault::Output),
        },
    }
}

// Looks for what refutes things of which no history was found, and writes it and what is said.
fn tell_unfound<V: Write, W: Write>(
    alloc: Global,
    trace: &Trace,
    reason: Unexplained,
    witness: &mut V,
    writer: &mut W,
) -> Result<TraceAnswer, RunFault>
    ensures told { AnswersTrace trace.now.options trace.now.history trace.now.things.items result
        (V.contents witness.old) (V.contents witness.new) (W.contents writer.old) (W.contents writer.new) }
{
    let options = &trace.options;
    let things = trace.things.as_slice();
    let Ok(found) = find_refutation(alloc, options, &trace.history, things, reason.lines) else {
        return Err(RunFault::NoMemory);
    };
    let Some(refutation) = found else {
        return tell_open(alloc, trace, reason, witness, writer);
    };
    put_refutation(&refutation, witness)?;
    match tell_reason(trace, reason, Some(&refutation), writer) {
        Ok(()) => Ok(TraceAnswer::Refuted),
        Err(_) => Err(RunFault::Output),
    }
}

// Writes what a search found of what was seen, and what is said.
fn tell_found<V: Write, W: Write>(
    alloc: Global,
    trace: &Trace,
    found: Observed,
    witness: &mut V,
    writer: &mut W,
) -> Result<TraceAnswer, RunFault>
    requires explained { IsExplained trace.now.options trace.now.history (reverse trace.now.things.items) found }
    ensures told { AnswersTrace trace.now.options trace.now.history trace.now.things.items result
        (V.contents witness.old) (V.contents witness.new) (W.contents writer.old) (W.contents writer.new) }
{
    match found {
        Observed::Explained(entries) => tell_explained(
            alloc,
            &trace.options,
            &trace.history,
            trace.things.as_slice(),
            entries.as_slice(),
            witness,
            writer,
        ),
        Observed::NotFound(reason) => tell_unfound(alloc, trace, reason, witness, writer),
        Observed::GaveUp => {
            send_answer(b"gave up\n", writer)?;
            Ok(TraceAnswer::GaveUp)
        }
    }
}

// Looks for a history that explains what was seen, in so many steps at most.
fn search(alloc: Global, trace: &Trace, steps: u64) -> Result<Observed, RunFault>
    ensures explained { IfOk result
        (IsExplained trace.now.options trace.now.history (reverse trace.now.things.items)) }
    ensures fault { IfErr result (λ f. f ≡ Fault.NoMemory) }
{
    let things = trace.things.as_slice();
    match observe(
        alloc,
        &trace.options,
        &trace.config,
        &trace.history,
        things,
        steps,
    ) {
        Ok(observed) => Ok(observed),
        Err(_) => Err(RunFault::NoMemory),
    }
}

// Looks for what refutes things, and then for a history in all steps, and writes what was found and what is said.
fn tell_hard<V: Write, W: Write>(
    alloc: Global,
    trace: &Trace,
    steps: u64,
    witness: &mut V,
    writer: &mut W,
) -> Result<TraceAnswer, RunFault>
    ensures told { AnswersTrace trace.now.options trace.now.history trace.now.things.items result
        (V.contents witness.old) (V.contents witness.new) (W.contents writer.old) (W.contents writer.new) }
{
    match find_any(alloc, trace)? {
        Some(refutation) => tell_refuted(trace, &refutation, witness, writer),
        None => {
            let found = search(alloc, trace, steps)?;
            tell_found(alloc, trace, found, witness, writer)
        }
    }
}

// Looks for a history that explains what was seen, in a few steps first, and writes what was found and what is said.
fn tell_trace<V: Write, W: Write>(
    alloc: Global,
    trace: &Trace,
    steps: u64,
    witness: &mut V,
    writer: &mut W,
) -> Result<TraceAnswer, RunFault>
    ensures told { AnswersTrace trace.now.options trace.now.history trace.now.things.items result
        (V.contents witness.old) (V.contents witness.new) (W.contents writer.old) (W.contents writer.new) }
{
    match search(alloc, trace, steps.min(FEW_STEPS))? {
        Observed::GaveUp => tell_hard(alloc, trace, steps, witness, writer),
        found => tell_found(alloc, trace, found, witness, writer),
    }
}

/// Reads a trace to its reader's end, looks in so many steps at most for a history that explains it, writes that one's
/// text as a witness, or the text of what refutes the trace, and then one line: `explained` where a history was written
/// that is legal and was seen as the trace; `refuted: ` and why, where a refutation was written, so that there is no
/// such history; `not found: ` and why, where neither was found; or `gave up`. Of the words of a reason nothing is
/// promised.
///
/// # Errors
///
/// Why the trace wasn't read, as `check_text` says it, after nothing was written; `Output` after a beginning of what
/// there is to write; `NoMemory` after a beginning of the witness.
pub fn observe_text<T: Read, V: Write, W: Write>(
    alloc: Global,
    trace: &mut T,
    witness: &mut V,
    writer: &mut W,
    steps: u64,
) -> Result<TraceAnswer, RunFault>
    ensures observes { ObservesText result (T.remaining trace.old) (T.remaining trace.new)
        (V.contents witness.old) (V.contents witness.new) (W.contents writer.old) (W.contents writer.new) }
{
    let seen = read_trace(alloc, trace)?;
    tell_trace(alloc, &seen, steps, witness, writer)
}
