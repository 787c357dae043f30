//! Whether a trace is refuted.

ghost use Rattle.std.specs.Prelude.{◌≡◌, ◌||◌, ◌<◌, ◌≤◌, IfOk, MatchOption, length, reverse, take, true};
ghost use Rattle.nvme_model.specs.Config.{is_accepted};
ghost use Rattle.nvme_model.specs.History.{Past};
ghost use Rattle.trace.specs.Observed.{Explains};
ghost use Rattle.refutation.specs.Layers.{has_no_order};
ghost use Rattle.refutation.specs.Apart.{asks_heads, held_at_first};
ghost use Rattle.refutation.specs.ReadRules.{is_bad_read_line};
ghost use Rattle.refutation.specs.Refuted.{is_refuted, lacks_order};
ghost use Rattle.refutation.specs.Slices.{slice_of};
ghost use Rattle.refutation_check.specs.Answers.{KnowsAnswers, answers_in};
ghost use Rattle.refutation_check.specs.Known.{IsKnown, config_of, options_of, trace_of};
ghost use Rattle.refutation_check.specs.ToldHeads.{heads_in};

use crate::apart::{asks_heads, held_at_first};
use crate::known::Known;
use crate::line::is_bad_read_line;
use crate::pieces::slice_of;
use crate::tables::TraceAnswers;
use crate::told_heads::{ToldHead, heads_in};
use history::Config;
use refutation::{Refutation, has_no_order};
use std::alloc::{AllocError as NoMemory, Global};
use trace::{Seen, TraceOptions};

// What the completions of a trace tell by SQHD, where that is asked.
fn heads_told(
    alloc: Global,
    options: &TraceOptions,
    config: &Config,
    trace: &[Seen],
) -> Result<Vec<ToldHead>, NoMemory>
    ensures value { asks_heads options.now ≡ true →
        IfOk result (λ heads. heads.items ≡ heads_in config.now (reverse trace.now)) }
{
    if !asks_heads(options) {
        return Ok(Vec::new(alloc));
    }
    heads_in(alloc, config, trace)
}

// Whether the slice of a refutation has no order.
fn slice_lacks_order(
    alloc: Global,
    known: &Known<'_>,
    refutation: &Refutation,
) -> Result<bool, NoMemory>
    ensures value { IsKnown known.now → IfOk result (λ none. none ≡ has_no_order
        (held_at_first (options_of known.now))
        (slice_of (options_of known.now) (config_of known.now) (trace_of known.now)
        refutation.now.commands refutation.now.blocks)) }
{
    let slice = slice_of(alloc, known, refutation.commands(), refutation.blocks())?;
    has_no_order(alloc, held_at_first(known.options), slice.as_slice())
}

// The same by the tables of a trace.
fn lacks_order_by(
    alloc: Global,
    options: &TraceOptions,
    config: &Config,
    tables: &TraceAnswers,
    trace: &[Seen],
    refutation: &Refutation,
) -> Result<bool, NoMemory>
    ensures value { KnowsAnswers (reverse trace.now) (answers_in tables.now) →
        IfOk result (λ none. none ≡ has_no_order (held_at_first options.now)
        (slice_of options.now config.now (reverse trace.now)
        refutation.now.commands refutation.now.blocks)) }
{
    let heads = heads_told(alloc, options, config, trace)?;
    let known = Known {
        options,
        config,
        trace,
        tables,
        heads: heads.as_slice(),
    };
    slice_lacks_order(alloc, &known, refutation)
}

fn lacks_order(
    alloc: Global,
    options: &TraceOptions,
    config: &Config,
    trace: &[Seen],
    refutation: &Refutation,
) -> Result<bool, NoMemory>
    ensures value { IfOk result (λ none. none ≡ lacks_order options.now config.now (reverse trace.now)
        refutation.now.commands refutation.now.blocks) }
{
    let tables = TraceAnswers::of_trace(alloc, trace)?;
    if !tables.tidy {
        return Ok(false);
    }
    lacks_order_by(alloc, options, config, &tables, trace, refutation)
}

// Whether all these lines are refuted: by the last of them, or by the slice.
fn refutes_lines(
    alloc: Global,
    options: &TraceOptions,
    config: &Config,
    trace: &[Seen],
    refutation: &Refutation,
) -> Result<bool, NoMemory>
    ensures value { IfOk result (λ refuted. refuted ≡ (is_bad_read_line options.now config.now (reverse trace.now)
        || lacks_order options.now config.now (reverse trace.now)
        refutation.now.commands refutation.now.blocks)) }
{
    if is_bad_read_line(alloc, options, config, trace)? {
        return Ok(true);
    }
    lacks_order(alloc, options, config, trace, refutation)
}

// The first so many lines of a trace, where it has them.
fn first_lines(trace: &[Seen], lines: u64) -> Option<&[Seen]>
    ensures value { MatchOption result (length trace.now < lines)
        (λ first. (lines ≤ length trace.now) × (first.now ≡ take lines trace.now)) }
{
    if lines > trace.len() as u64 {
        return None;
    }
    Some(&trace[..lines as usize])
}

// The same of the first so many lines, where they are there.
fn is_refuted(
    alloc: Global,
    options: &TraceOptions,
    config: &Config,
    trace: &[Seen],
    refutation: &Refutation,
) -> Result<bool, NoMemory>
    ensures value { IfOk result (λ refuted. refuted ≡ is_refuted options.now config.now (reverse trace.now)
        refutation.now.lines refutation.now.commands refutation.now.blocks) }
{
    match first_lines(trace, refutation.lines()) {
        Some(first) => refutes_lines(alloc, options, config, first, refutation),
        None => Ok(false),
    }
}

// Each configuration is accepted.
fn accepted(config: &Config)
    ensures { is_accepted config.now ≡ true }
{
    let _ = config.numbers();
}

/// Whether a refutation refutes a trace, the oldest line first, as options read it: no legal history explains it then.
///
/// # Errors
///
/// `NoMemory` alone.
#[tactic(auto, using(refutation::proofs::Refuted::none_refuted))]
pub fn refute(
    alloc: Global,
    options: &TraceOptions,
    config: &Config,
    trace: &[Seen],
    refutation: &Refutation,
) -> Result<bool, NoMemory>
    ensures value { IfOk result (λ refuted. refuted ≡ is_refuted options.now config.now (reverse trace.now)
        refutation.now.lines refutation.now.commands refutation.now.blocks) }
    ensures none { IfOk result (λ refuted. refuted ≡ true →
        (past : Past) → Explains options.now config.now past (reverse trace.now) → ⊥) }
{
    accepted(config);
    is_refuted(alloc, options, config, trace, refutation)
}
