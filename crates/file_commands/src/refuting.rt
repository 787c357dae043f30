//! The text of a trace, and of what is said to refute it.

ghost use Rattle.std.specs.Prelude.{◌≡◌, IfErr, IfOk, IfSome, OnErr, OnOk, false, true};
ghost use Rattle.std.specs.Io.KnownBytes.{Appends, IsAtEnd};
ghost use Rattle.line_text.specs.Known.{AppendsFront};
ghost use Rattle.casdisk_texts.specs.Objects.{object_text};
ghost use Rattle.file_commands.specs.Refuting.{HasRefutation, IsRefutationUnread, RefutesAs, RefutesText, RefutesTrace};
ghost use Rattle.file_commands.specs.Refuting.{TellsRefuted, counted_text, refute_fields, refute_line, refute_text};
ghost use Rattle.file_commands.specs.Refuting.{verdict_of as the_verdict};

use crate::refute_fault::RefuteFault;
use casdisk_texts::{Fields, RunFault, Trace, object_line, read_trace};
use line_text::{Word, send, send_words};
use refutation::{Refutation, RefutationFault, read_refutation};
use refutation_check::refute;
use std::alloc::{AllocError as NoMemory, Global};
use std::io::{ErrorKind, Read, Result as IoResult, Write};

/// What is said of a trace and of what is said to refute it.
#[derive(Clone, Copy, Debug, PartialEq, Eq)]
pub enum RefuteVerdict {
    /// The first so many lines are refuted.
    Refuted(u64),
    /// The trace has so many lines, which are fewer.
    Fewer(usize),
    /// This line breaks no rule.
    Right(u64),
    /// The effects may have been in some order.
    Ordered,
}

// Reads a refutation to its reader's end.
fn read_certificate<R: Read>(alloc: Global, reader: &mut R) -> Result<Refutation, RunFault>
    ensures whole { IfOk result (λ r. IsAtEnd (R.remaining reader.new)
        × IfSome (R.remaining reader.old) (HasRefutation (λ s. s ≡ r))) }
    ensures unread { IfErr result (λ fault. IsRefutationUnread fault (R.remaining reader.old)) }
{
    let mut text = Vec::new(alloc);
    if let Err(error) = reader.read_to_end(&mut text) {
        if error.kind() == ErrorKind::OutOfMemory {
            return Err(RunFault::NoMemory);
        }
        return Err(RunFault::Input);
    }
    match read_refutation(alloc, text.as_slice()) {
        Ok(refutation) => Ok(refutation),
        Err(RefutationFault::BadLine(line)) => Err(RunFault::BadLine(line)),
        Err(RefutationFault::NoMemory) => Err(RunFault::NoMemory),
    }
}

// What is said where a refutation refutes a trace, or doesn't.
fn verdict_of(refuted: bool, trace: &Trace, refutation: &Refutation) -> RefuteVerdict
    ensures value { result ≡ the_verdict refuted trace.now.things.items refutation.now }
{
    let lines = refutation.lines();
    if refuted {
        RefuteVerdict::Refuted(lines)
    } else if (trace.things.len() as u64) < lines {
        RefuteVerdict::Fewer(trace.things.len())
    } else if refutation.blocks().is_empty() && refutation.commands().is_empty() {
        RefuteVerdict::Right(lines)
    } else {
        RefuteVerdict::Ordered
    }
}

// Writes a number behind these words, and these behind it.
fn send_counted<W: Write>(before: &[u8], number: u64, behind: &[u8], writer: &mut W) -> IoResult<()>
    ensures whole { OnOk result (Appends (W.contents writer.old) (W.contents writer.new)
        (counted_text before.now number behind.now)) }
    ensures front { OnErr result (AppendsFront (W.contents writer.old) (W.contents writer.new)
        (counted_text before.now number behind.now)) }
{
    send_words(writer, &[Word::Text(before), Word::Number(number)])?;
    send(writer, behind)
}

// Writes the line of a verdict.
fn send_verdict<W: Write>(verdict: RefuteVerdict, writer: &mut W) -> IoResult<()>
    ensures whole { OnOk result (Appends (W.contents writer.old) (W.contents writer.new) (refute_text verdict)) }
    ensures front { OnErr result
        (AppendsFront (W.contents writer.old) (W.contents writer.new) (refute_text verdict)) }
{
    match verdict {
        RefuteVerdict::Refuted(lines) => {
            send_counted(b"refuted: the first", lines, b" lines\n", writer)
        }
        RefuteVerdict::Fewer(lines) => send_counted(
            b"not refuted: the trace has",
            lines as u64,
            b" lines\n",
            writer,
        ),
        RefuteVerdict::Right(line) => {
            send_counted(b"not refuted: line", line, b" may be right\n", writer)
        }
        RefuteVerdict::Ordered => send(
            writer,
            b"not refuted: the effects may have been in some order\n",
        ),
    }
}

// The object of a verdict, with this line for its words.
fn verdict_object(alloc: Global, verdict: RefuteVerdict, words: &[u8]) -> Result<Vec<u8>, NoMemory>
    ensures value { IfOk result (λ object. object.items ≡ object_text (refute_fields verdict) words.now) }
{
    let not = Fields::plain("not refuted");
    match verdict {
        RefuteVerdict::Refuted(lines) => {
            let fields = Fields {
                place: Some(lines),
                ..Fields::plain("refuted")
            };
            object_line(alloc, &fields, words)
        }
        RefuteVerdict::Fewer(lines) => {
            let numbers = [lines as u64];
            object_line(alloc, &not.with_rule(Some("lines"), &numbers), words)
        }
        RefuteVerdict::Right(line) => {
            let fields = Fields {
                place: Some(line),
                ..not.with_rule(Some("right"), &[])
            };
            object_line(alloc, &fields, words)
        }
        RefuteVerdict::Ordered => object_line(alloc, &not.with_rule(Some("order"), &[]), words),
    }
}

// The object in place of the line of a verdict.
fn line_object(alloc: Global, verdict: RefuteVerdict) -> Result<Vec<u8>, NoMemory>
    ensures value { IfOk result (λ object. object.items ≡ refute_line true verdict) }
{
    let mut words = Vec::new(alloc);
    match send_verdict(verdict, &mut words) {
        Ok(()) => verdict_object(alloc, verdict, words.as_slice()),
        Err(_) => Err(NoMemory),
    }
}

// Writes the object of a verdict, and gives the answer.
fn tell_object<W: Write>(
    alloc: Global,
    verdict: RefuteVerdict,
    refuted: bool,
    writer: &mut W,
) -> Result<bool, RefuteFault>
    ensures told { TellsRefuted true verdict refuted result (W.contents writer.old) (W.contents writer.new) }
{
    let Ok(object) = line_object(alloc, verdict) else {
        return Err(RefuteFault::Trace(RunFault::NoMemory));
    };
    match send(writer, object.as_slice()) {
        Ok(()) => Ok(refuted),
        Err(_) => Err(RefuteFault::Output),
    }
}

// Writes the line of a verdict, and gives the answer.
fn tell_line<W: Write>(
    verdict: RefuteVerdict,
    refuted: bool,
    writer: &mut W,
) -> Result<bool, RefuteFault>
    ensures told { TellsRefuted false verdict refuted result (W.contents writer.old) (W.contents writer.new) }
{
    match send_verdict(verdict, writer) {
        Ok(()) => Ok(refuted),
        Err(_) => Err(RefuteFault::Output),
    }
}

// Writes the line of a verdict, or where that is asked its object, and gives the answer.
fn tell_verdict<W: Write>(
    alloc: Global,
    json: bool,
    verdict: RefuteVerdict,
    refuted: bool,
    writer: &mut W,
) -> Result<bool, RefuteFault>
    ensures told { TellsRefuted json verdict refuted result (W.contents writer.old) (W.contents writer.new) }
{
    if json {
        tell_object(alloc, verdict, refuted, writer)
    } else {
        tell_line(verdict, refuted, writer)
    }
}

// Whether a refutation refutes a trace.
fn is_refuted(alloc: Global, trace: &Trace, refutation: &Refutation) -> Result<bool, RefuteFault>
    ensures answer { IfOk result
        (λ answer. RefutesTrace trace.now.options trace.now.history trace.now.things.items refutation.now answer) }
    ensures fault { IfErr result (λ f. f ≡ RefuteFault.Trace RunFault.NoMemory) }
{
    let done = refute(
        alloc,
        &trace.options,
        &trace.history,
        trace.things.as_slice(),
        refutation,
    );
    match done {
        Ok(refuted) => Ok(refuted),
        Err(_) => Err(RefuteFault::Trace(RunFault::NoMemory)),
    }
}

// Reads a trace, and then what is said to refute it, and writes the line of the answer, or its object.
fn refute_as<T: Read, R: Read, W: Write>(
    alloc: Global,
    json: bool,
    trace: &mut T,
    refutation: &mut R,
    writer: &mut W,
) -> Result<bool, RefuteFault>
    ensures refutes { RefutesAs json result (T.remaining trace.old) (T.remaining trace.new)
        (R.remaining refutation.old) (R.remaining refutation.new) (W.contents writer.old) (W.contents writer.new) }
{
    let seen = match read_trace(alloc, trace) {
        Ok(seen) => seen,
        Err(fault) => return Err(RefuteFault::Trace(fault)),
    };
    let certificate = match read_certificate(alloc, refutation) {
        Ok(certificate) => certificate,
        Err(fault) => return Err(RefuteFault::Refutation(fault)),
    };
    let refuted = is_refuted(alloc, &seen, &certificate)?;
    let verdict = verdict_of(refuted, &seen, &certificate);
    tell_verdict(alloc, json, verdict, refuted, writer)
}

/// Reads a trace to its reader's end, and then what is said to refute it to its own, and writes one line: `refuted: the
/// first K lines` where it refutes them, so that no legal history explains the trace; or `not refuted: ` and what fails
/// first. Answers whether the trace is refuted.
///
/// # Errors
///
/// `Trace` and `Refutation` with why that text wasn't read, after nothing was written; `Output` after a beginning of
/// the line.
pub fn refute_text<T: Read, R: Read, W: Write>(
    alloc: Global,
    trace: &mut T,
    refutation: &mut R,
    writer: &mut W,
) -> Result<bool, RefuteFault>
    ensures refutes { RefutesText result (T.remaining trace.old) (T.remaining trace.new)
        (R.remaining refutation.old) (R.remaining refutation.new) (W.contents writer.old) (W.contents writer.new) }
{
    refute_as(alloc, false, trace, refutation, writer)
}

/// Does the same, and writes in place of the line its object.
///
/// # Errors
///
/// Those of `refute_text`.
pub fn refute_object<T: Read, R: Read, W: Write>(
    alloc: Global,
    trace: &mut T,
    refutation: &mut R,
    writer: &mut W,
) -> Result<bool, RefuteFault>
    ensures refutes { RefutesAs true result (T.remaining trace.old) (T.remaining trace.new)
        (R.remaining refutation.old) (R.remaining refutation.new) (W.contents writer.old) (W.contents writer.new) }
{
    refute_as(alloc, true, trace, refutation, writer)
}
