//! What a trace tells of its commands, by tables of its lines, the oldest first.

ghost use Rattle.std.specs.Prelude.{◌≡◌, IfOk, option_copied, reverse};
ghost use Rattle.refutation.specs.Told.{is_sure, says_differs, says_done, told_units};
ghost use Rattle.refutation_check.specs.Answers.{KnowsAnswers, answers_in};

use crate::commands::units_of;
use crate::fields::{is_success, same_status, status_of};
use crate::tables::TraceAnswers;
use history::Config;
use nvme_model::array::Range;
use nvme_model::status::Status;
use std::alloc::{AllocError as NoMemory, Global};
use trace::{ReapedLine, Seen};

pub(crate) fn says_done(answer: Option<&ReapedLine>) -> bool
    ensures value { result ≡ says_done (option_copied answer.entry) }
{
    match answer {
        Some(line) => is_success(status_of(&line.cqe)),
        None => false,
    }
}

/// Whether Compare Failure was seen.
pub(crate) fn says_differs(answer: Option<&ReapedLine>) -> bool
    ensures value { result ≡ says_differs (option_copied answer.entry) }
{
    match answer {
        Some(line) => same_status(status_of(&line.cqe), Status::COMPARE_FAILURE),
        None => false,
    }
}

/// The units of a command: of the entry of a submission queue with this number.
///
/// # Errors
///
/// `NoMemory` alone.
#[tactic(auto, using(crate::proofs::Units::told_by_entry))]
pub fn told_units(
    alloc: Global,
    config: &Config,
    tables: &TraceAnswers,
    trace: &[Seen],
    queue: u16,
    number: u64,
) -> Result<Vec<Range>, NoMemory>
    ensures value { KnowsAnswers (reverse trace.now) (answers_in tables.now) →
        IfOk result (λ us. us.items ≡ told_units config.now (reverse trace.now) queue number) }
{
    match tables.entry(trace, queue, number) {
        Some(entry) => units_of(alloc, config, entry),
        None => Ok(Vec::new(alloc)),
    }
}

/// Whether each history of the trace has the effect of a command's unit.
///
/// # Errors
///
/// `NoMemory` alone.
pub fn is_sure(
    alloc: Global,
    config: &Config,
    tables: &TraceAnswers,
    trace: &[Seen],
    queue: u16,
    number: u64,
    unit: usize,
) -> Result<bool, NoMemory>
    ensures value { KnowsAnswers (reverse trace.now) (answers_in tables.now) →
        IfOk result (λ b. b ≡ is_sure config.now (reverse trace.now) queue number unit) }
{
    let units = told_units(alloc, config, tables, trace, queue, number)?;
    let answer = tables.completion(trace, queue, number);
    Ok(unit < units.len() && (says_done(answer) || says_differs(answer) && units.len() == 1))
}
