//! SQ Head Pointers that don't fit what is published, what was said before, and the entry that is answered.

ghost use Rattle.std.specs.Prelude.{◌≡◌, ◌<◌, ◌∷◌, IfOk, List, IfSome, length, max, option_copied, reverse, suc};
ghost use Rattle.nvme_model.specs.EntryBytes.{cqe_fields};
ghost use Rattle.trace.specs.declared.seen.Seen.{Seen};
ghost use Rattle.refutation.specs.LineRules.{count_to, has_wrong_head, least_fetched, next_at, next_whole};
ghost use Rattle.refutation.specs.Lines.{answered, published_in};
ghost use Rattle.refutation_check.specs.Answers.{KnowsAnswers, answers_in};

use crate::bytes::queue_of;
use crate::entries::answered;
use crate::fields::head_of;
use crate::statuses::parts_pair;
use crate::tables::TraceAnswers;
use history::Config;
use std::alloc::{AllocError as NoMemory, Global};
use trace::{ReapedLine, Seen};

fn next_at(slots: u16, low: u64, head: u16) -> Option<u64>
    requires some { 0 < slots }
    ensures value { IfSome result (λ n. n ≡ next_at slots low head) }
{
    let n = u64::from(slots);
    low.checked_add((u64::from(head) + (n - low % n)) % n)
}

fn count_to(number: Option<u64>) -> Option<u64>
    ensures value { IfSome result (λ n. n ≡ count_to number) }
{
    match number {
        Some(number) => number.checked_add(1),
        None => Some(0),
    }
}

fn next_behind(slots: u16, count: u64, head: u16) -> Option<u64>
    requires some { 0 < slots }
    ensures value { IfSome result (λ n. n ≡ next_at slots (suc count) head) }
{
    next_at(slots, count.checked_add(1)?, head)
}

fn next_whole(
    config: &Config,
    tables: &TraceAnswers,
    trace: &[Seen],
    queue: u16,
    head: u16,
    count: u64,
) -> Option<u64>
    ensures value { KnowsAnswers (reverse trace.now) (answers_in tables.now) →
        IfSome result (λ n. n ≡ next_whole config.now (reverse trace.now) queue head count) }
{
    if parts_pair(tables, trace, queue, count) {
        next_behind(config.numbers().sq_size, count, head)
    } else {
        Some(count)
    }
}

fn least_of(config: &Config, tables: &TraceAnswers, line: &ReapedLine, least: u64) -> Option<u64>
    ensures value { (trace : List Seen) → KnowsAnswers trace (answers_in tables.now) →
        IfSome result (λ n. n ≡ next_at config.now.sq_size
        (max least (count_to (answered trace line.now.cqe))) (cqe_fields line.now.cqe).sqhd) }
{
    let own = count_to(answered(tables, &line.cqe))?;
    next_at(config.numbers().sq_size, least.max(own), head_of(&line.cqe))
}

/// How many entries of a queue were fetched at least, behind one more completion.
pub(crate) fn least_behind(
    config: &Config,
    tables: &TraceAnswers,
    trace: &[Seen],
    line: &ReapedLine,
    queue: u16,
    least: u64,
) -> Option<u64>
    ensures value { KnowsAnswers (reverse trace.now) (answers_in tables.now) →
        least ≡ least_fetched config.now (reverse trace.now) queue →
        IfSome result (λ n. n ≡ least_fetched config.now (Seen.Reaped line.now ∷ reverse trace.now) queue) }
{
    if queue_of(&line.cqe) != queue {
        return Some(least);
    }
    let count = least_of(config, tables, line, least)?;
    next_whole(config, tables, trace, queue, head_of(&line.cqe), count)
}

fn least_with(
    config: &Config,
    tables: &TraceAnswers,
    trace: &[Seen],
    line: &Seen,
    queue: u16,
    least: u64,
) -> Option<u64>
    ensures value { KnowsAnswers (reverse trace.now) (answers_in tables.now) →
        least ≡ least_fetched config.now (reverse trace.now) queue →
        IfSome result (λ n. n ≡ least_fetched config.now (line.now ∷ reverse trace.now) queue) }
{
    match line {
        Seen::Published(_) => Some(least),
        Seen::Reaped(line) => least_behind(config, tables, trace, line, queue, least),
    }
}

// How many entries of a queue were fetched at least, behind these lines: one pass over them.
fn least_fetched(
    alloc: Global,
    config: &Config,
    trace: &[Seen],
    queue: u16,
) -> Result<u64, NoMemory>
    ensures value { IfOk result (λ n. n ≡ least_fetched config.now (reverse trace.now) queue) }
{
    let mut tables = TraceAnswers::new(alloc);
    let mut least = 0;
    for (place, line) in trace.iter().enumerate() {
        let before = &trace[..place];
        let Some(more) = least_with(config, &tables, before, line, queue, least) else {
            return Err(NoMemory);
        };
        least = more;
        tables.take(line, place)?;
    }
    Ok(least)
}

/// Whether its SQHD is no slot, or more entries were fetched than are published.
///
/// # Errors
///
/// `NoMemory` alone.
pub(crate) fn has_wrong_head(
    alloc: Global,
    config: &Config,
    tables: &TraceAnswers,
    trace: &[Seen],
    line: &ReapedLine,
) -> Result<bool, NoMemory>
    ensures value { KnowsAnswers (reverse trace.now) (answers_in tables.now) →
        IfOk result (λ bad. bad ≡ has_wrong_head config.now (reverse trace.now) line.now) }
{
    let queue = queue_of(&line.cqe);
    let least = least_fetched(alloc, config, trace, queue)?;
    let Some(fetched) = least_behind(config, tables, trace, line, queue, least) else {
        return Err(NoMemory);
    };
    let slots = config.numbers().sq_size;
    Ok(head_of(&line.cqe) >= slots || tables.count(queue) < fetched)
}
