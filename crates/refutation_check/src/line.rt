//! Whether the newest line of a trace is bad, as options read it.

ghost use Rattle.std.specs.Prelude.{◌≡◌, ◌&&◌, ◌∷◌, ◌||◌, IfOk, not, reverse};
ghost use Rattle.trace.specs.declared.seen.Seen.{Seen};
ghost use Rattle.refutation.specs.Apart.{is_apart, is_lacked};
ghost use Rattle.refutation.specs.LineRules.{has_wrong_head, has_wrong_phase, names_no_entry, names_wrong_queue};
ghost use Rattle.refutation.specs.Lines.{is_tidy};
ghost use Rattle.refutation.specs.ReadRules.{breaks_read_rules, has_wrong_answer, is_bad_read_line};
ghost use Rattle.refutation.specs.ReadRules.{sets_read_bits};
ghost use Rattle.refutation_check.specs.Answers.{KnowsAnswers, answers_in};

use crate::apart::{is_apart, is_lacked_publish, is_lacked_reap};
use crate::completions::{has_wrong_phase, names_wrong_queue, sets_read_bits};
use crate::entries::{has_early_second, has_wrong_data, has_wrong_second, names_no_entry};
use crate::heads::has_wrong_head;
use crate::publishes::has_wrong_batch;
use crate::statuses::has_wrong_status;
use crate::tables::TraceAnswers;
use history::Config;
use std::alloc::{AllocError as NoMemory, Global};
use trace::{ReapedLine, Seen, TraceOptions};

fn has_wrong_answer(
    config: &Config,
    tables: &TraceAnswers,
    trace: &[Seen],
    line: &ReapedLine,
) -> bool
    ensures value { KnowsAnswers (reverse trace.now) (answers_in tables.now) →
        result ≡ has_wrong_answer config.now (reverse trace.now) line.now }
{
    let status = has_wrong_status(config, tables, trace, line);
    let second = has_wrong_second(tables, trace, line);
    let early = has_early_second(tables, trace, line);
    let payload = has_wrong_data(tables, trace, line);
    status || second || early || payload
}

// Whether it answers no entry, or its entry otherwise than it may be answered, where that is asked.
fn answers_wrongly(
    options: &TraceOptions,
    config: &Config,
    tables: &TraceAnswers,
    trace: &[Seen],
    line: &ReapedLine,
) -> bool
    ensures value { KnowsAnswers (reverse trace.now) (answers_in tables.now) →
        result ≡ (names_no_entry (reverse trace.now) line.now
        || (not options.now.statuses_any && has_wrong_answer config.now (reverse trace.now) line.now)) }
{
    names_no_entry(tables, line)
        || (!options.statuses_any && has_wrong_answer(config, tables, trace, line))
}

// Whether its SQHD is wrong, where that is asked.
fn has_wrong_read_head(
    alloc: Global,
    options: &TraceOptions,
    config: &Config,
    tables: &TraceAnswers,
    trace: &[Seen],
    line: &ReapedLine,
) -> Result<bool, NoMemory>
    ensures value { KnowsAnswers (reverse trace.now) (answers_in tables.now) → IfOk result (λ bad. bad ≡
        (not options.now.ignored.sqhd && has_wrong_head config.now (reverse trace.now) line.now)) }
{
    if options.ignored.sqhd {
        return Ok(false);
    }
    has_wrong_head(alloc, config, tables, trace, line)
}

// SQHD is asked last: it takes a pass over the lines.
fn breaks_read_rules(
    alloc: Global,
    options: &TraceOptions,
    config: &Config,
    tables: &TraceAnswers,
    trace: &[Seen],
    line: &ReapedLine,
) -> Result<bool, NoMemory>
    ensures value { KnowsAnswers (reverse trace.now) (answers_in tables.now) → IfOk result
        (λ bad. bad ≡ breaks_read_rules options.now config.now (reverse trace.now) line.now) }
{
    if answers_wrongly(options, config, tables, trace, line) {
        return Ok(true);
    }
    has_wrong_read_head(alloc, options, config, tables, trace, line)
}

fn is_bad_by_itself(
    options: &TraceOptions,
    config: &Config,
    trace: &[Seen],
    line: &ReapedLine,
) -> bool
    ensures value { result ≡ (is_lacked options.now config.now (Seen.Reaped line.now)
        || sets_read_bits options.now line.now
        || (is_apart options.now config.now && has_wrong_phase config.now (reverse trace.now) line.now)
        || names_wrong_queue config.now line.now) }
{
    is_lacked_reap(options, config, line)
        || sets_read_bits(options, line)
        || (is_apart(options, config) && has_wrong_phase(config, trace, line))
        || names_wrong_queue(config, line)
}

fn is_bad_by_tables(
    alloc: Global,
    options: &TraceOptions,
    config: &Config,
    trace: &[Seen],
    line: &ReapedLine,
) -> Result<bool, NoMemory>
    ensures value { IfOk result (λ bad. bad ≡ (is_tidy (reverse trace.now)
        && breaks_read_rules options.now config.now (reverse trace.now) line.now)) }
{
    let tables = TraceAnswers::of_trace(alloc, trace)?;
    if !tables.tidy {
        return Ok(false);
    }
    breaks_read_rules(alloc, options, config, &tables, trace, line)
}

fn is_bad_reap(
    alloc: Global,
    options: &TraceOptions,
    config: &Config,
    trace: &[Seen],
    line: &ReapedLine,
) -> Result<bool, NoMemory>
    ensures value { IfOk result (λ bad. bad ≡
        is_bad_read_line options.now config.now (Seen.Reaped line.now ∷ reverse trace.now)) }
{
    if is_bad_by_itself(options, config, trace, line) {
        return Ok(true);
    }
    is_bad_by_tables(alloc, options, config, trace, line)
}

fn is_bad_behind(
    alloc: Global,
    options: &TraceOptions,
    config: &Config,
    trace: &[Seen],
    line: &Seen,
) -> Result<bool, NoMemory>
    ensures value { IfOk result
        (λ bad. bad ≡ is_bad_read_line options.now config.now (line.now ∷ reverse trace.now)) }
{
    match line {
        Seen::Published(line) => {
            Ok(is_lacked_publish(options, config, line) || has_wrong_batch(config, line))
        }
        Seen::Reaped(line) => is_bad_reap(alloc, options, config, trace, line),
    }
}

/// Whether the newest line of a trace is bad, as options read it: no history explains it, whatever the controller did
/// unseen. The trace is given the oldest line first.
///
/// # Errors
///
/// `NoMemory` alone.
pub fn is_bad_read_line(
    alloc: Global,
    options: &TraceOptions,
    config: &Config,
    trace: &[Seen],
) -> Result<bool, NoMemory>
    ensures value { IfOk result (λ bad. bad ≡ is_bad_read_line options.now config.now (reverse trace.now)) }
{
    match trace.split_last() {
        Some((last, earlier)) => is_bad_behind(alloc, options, config, earlier, last),
        None => Ok(false),
    }
}
