//! Files of a trace and of a history that may explain it.

ghost use Rattle.std.specs.Prelude.{◌≡◌, ◌↔◌, IfErr, IfOk, OnErr, OnOk, reverse, true};
ghost use Rattle.std.specs.Io.KnownBytes.{Appends};
ghost use Rattle.line_text.specs.Known.{AppendsFront};
ghost use Rattle.witness_check.specs.declared.comparison.TraceVerdict.TheVariants.{Unlike};
ghost use Rattle.casdisk_texts.specs.Certified.{CertifiesText, GivesVerdict, IsUncompared, IsVerdictAs, TellsVerdict};
ghost use Rattle.casdisk_texts.specs.Certified.{verdict_text};
ghost use Rattle.casdisk_texts.specs.Certified.{difference_text as the_difference_text};

use crate::certify_fault::CertifyFault;
use crate::checking::send_bad;
use crate::fault::RunFault;
use crate::history_reading::{ReadHistory, read_history};
use crate::logged::Logged;
use crate::trace_reading::{Trace, read_trace};
use history::{Config, Entry};
use line_text::{Word, send, send_words};
use std::alloc::{AllocError as NoMemory, Global};
use std::io::{Read, Result as IoResult, Write};
use trace::{Seen, TraceOptions};
use witness_check::{Difference, TraceVerdict, judge, judge_delayed};

pub(crate) fn same_config(one: &Config, other: &Config) -> bool
    ensures value { (result ≡ true) ↔ (one.now ≡ other.now) }
{
    one.numbers() == other.numbers()
}

// What is said of entries beside a trace that was logged so.
fn judge_logged(
    alloc: Global,
    logged: Logged,
    options: &TraceOptions,
    config: &Config,
    trace: &[Seen],
    entries: &[Entry],
) -> Result<TraceVerdict, NoMemory>
    ensures value { IfOk result (IsVerdictAs logged options.now config.now (reverse entries.now) trace.now) }
{
    match logged {
        Logged::AsSeen => judge(alloc, options, config, trace, entries),
        Logged::WithDelays => judge_delayed(alloc, options, config, trace, entries),
    }
}

// Compares a history with a trace that was logged so.
fn compare(
    alloc: Global,
    logged: Logged,
    trace: &Trace,
    told: &ReadHistory,
) -> Result<TraceVerdict, CertifyFault>
    ensures whole { IfOk result (λ v. (trace.now.history ≡ told.now.config) × IsVerdictAs logged trace.now.options
        trace.now.history (reverse told.now.entries.items) trace.now.things.items v) }
    ensures failed { IfErr result (IsUncompared trace.now.history told.now.config) }
{
    if !same_config(&trace.history, &told.config) {
        return Err(CertifyFault::OtherConfig);
    }
    match judge_logged(
        alloc,
        logged,
        &trace.options,
        &trace.history,
        trace.things.as_slice(),
        told.entries.as_slice(),
    ) {
        Ok(verdict) => Ok(verdict),
        Err(_) => Err(CertifyFault::History(RunFault::NoMemory)),
    }
}

// What differs, in words, with the line feed.
fn difference_text(difference: Difference) -> &'static [u8]
    ensures value { result.now ≡ the_difference_text difference }
{
    match difference {
        Difference::TraceEnds => b": the trace ends before it\n",
        Difference::HistoryEnds => b": the history ends before it\n",
        Difference::Kind => b": one is a publish, the other a reap\n",
        Difference::Queue => b": the queue\n",
        Difference::Batch => b": the entries\n",
        Difference::Completion => b": the completion\n",
        Difference::Data => b": the data\n",
        Difference::Contents => b": what was there isn't written before it\n",
        Difference::Order => b": a publish that came before it is logged behind it\n",
    }
}

// Writes `seen K: ` and what differs.
fn send_unlike<W: Write>(place: u64, difference: Difference, writer: &mut W) -> IoResult<()>
    ensures whole { OnOk result
        (Appends (W.contents writer.old) (W.contents writer.new) (verdict_text (Unlike place difference))) }
    ensures front { OnErr result
        (AppendsFront (W.contents writer.old) (W.contents writer.new) (verdict_text (Unlike place difference))) }
{
    send_words(writer, &[Word::Text(b"seen"), Word::Number(place)])?;
    send(writer, difference_text(difference))
}

// Writes the line of a verdict.
pub(crate) fn send_verdict<W: Write>(verdict: TraceVerdict, writer: &mut W) -> IoResult<()>
    ensures whole { OnOk result (Appends (W.contents writer.old) (W.contents writer.new) (verdict_text verdict)) }
    ensures front { OnErr result
        (AppendsFront (W.contents writer.old) (W.contents writer.new) (verdict_text verdict)) }
{
    match verdict {
        TraceVerdict::Explained => send(writer, b"explained\n"),
        TraceVerdict::Bad(place) => send_bad(place, writer),
        TraceVerdict::Unlike(place, difference) => send_unlike(place, difference, writer),
    }
}

// Writes the line of a verdict, and says whether the trace is explained.
fn tell_verdict<W: Write>(verdict: TraceVerdict, writer: &mut W) -> Result<bool, CertifyFault>
    ensures told { TellsVerdict verdict result (W.contents writer.old) (W.contents writer.new) }
{
    match send_verdict(verdict, writer) {
        Ok(()) => match verdict {
            TraceVerdict::Explained => Ok(true),
            TraceVerdict::Bad(_) => Ok(false),
            TraceVerdict::Unlike(_, _) => Ok(false),
        },
        Err(_) => Err(CertifyFault::Output),
    }
}

/// Reads a trace to its reader's end, and then a history to its own, and gives the verdict whose line `certify_text`
/// writes.
///
/// # Errors
///
/// Those of `certify_text`, but for `Output`.
pub fn certify_verdict<T: Read, R: Read>(
    alloc: Global,
    logged: Logged,
    trace: &mut T,
    history: &mut R,
) -> Result<TraceVerdict, CertifyFault>
    ensures gives { GivesVerdict logged result (T.remaining trace.old) (T.remaining trace.new)
        (R.remaining history.old) (R.remaining history.new) }
{
    let seen = match read_trace(alloc, trace) {
        Ok(seen) => seen,
        Err(fault) => return Err(CertifyFault::Trace(fault)),
    };

    // The history is kept, where a `Comparison` keeps none: what a line means to the loop over
    // lines is said of a configuration and a history alone, and a trace is neither.
    let told = match read_history(alloc, history) {
        Ok(told) => told,
        Err(fault) => return Err(CertifyFault::History(fault)),
    };
    compare(alloc, logged, &seen, &told)
}

/// Reads a trace to its reader's end, and then a history to its own, of the configuration that a history of that trace
/// has: the same, or one with a queue pair more where the trace says that contents are unknown. It writes one line:
/// `explained` where the history is legal and was seen as the trace; `bad at K` where it isn't legal, with the first
/// place K, from 1, at which it isn't; or `seen K: ` and what differs, with the number K, from 1, of the first thing
/// seen that differs. Answers whether the trace is explained. Where it was logged with delays, a `publish` of it may
/// have come later, and a `reap` earlier; K of `seen K` then is the number of a line of the trace, or one more than it
/// has.
///
/// # Errors
///
/// `Trace` and `History` with why that text wasn't read, as `check_text` says it, and `OtherConfig` where both were and
/// their configurations aren't so, all after nothing was written; `Output` after a beginning of the line.
pub fn certify_text<T: Read, R: Read, W: Write>(
    alloc: Global,
    logged: Logged,
    trace: &mut T,
    history: &mut R,
    writer: &mut W,
) -> Result<bool, CertifyFault>
    ensures certifies { CertifiesText logged result (T.remaining trace.old) (T.remaining trace.new)
        (R.remaining history.old) (R.remaining history.new) (W.contents writer.old) (W.contents writer.new) }
{
    let verdict = certify_verdict(alloc, logged, trace, history)?;
    tell_verdict(verdict, writer)
}
