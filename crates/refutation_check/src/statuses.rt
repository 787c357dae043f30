//! Statuses that an entry can't be answered with, by its own fields and its neighbours'.

ghost use Rattle.std.specs.Prelude.{◌≡◌, ◌&&◌, None, Some, option_copied, reverse, slice_get, suc};
ghost use Rattle.nvme_model.specs.EntryBytes.{sqe_fields};
ghost use Rattle.host_laws.specs.Calls.{cqe_status};
ghost use Rattle.refutation.specs.LineRules.{has_wrong_status, may_not_answer, number_may_not};
ghost use Rattle.refutation.specs.Lines.{published_in};
ghost use Rattle.refutation.specs.MayAnswer.{answers_first, answers_second, are_together, has_fuse, may_answer};
ghost use Rattle.refutation.specs.MayAnswer.{may_answer_behind, may_answer_first, may_answer_second, parts_pair};
ghost use Rattle.refutation.specs.MayAnswer.{verdict_at};
ghost use Rattle.refutation_check.specs.Answers.{KnowsAnswers, answers_in};

use crate::bytes::queue_of;
use crate::entries::{answered, entry_has_fuse, has_fuse};
use crate::fields::{is_success, same_status, status_of};
use crate::tables::TraceAnswers;
use entry_codec::decode_sqe;
use fused_match::{Item, judge};
use history::Config;
use nvme_model::status::{Status, Verdict};
use nvme_model::submission::Submission;
use trace::{ReapedLine, Seen};

// What a Fetch says of two entries, where no CID is in use.
fn verdict_of_two(config: &Config, first: &Submission, next: &Submission) -> Verdict
    ensures value { result ≡ verdict_at config.now first.now (Some next.now) }
{
    let item = Item::of(first);
    let second = Item::of(next);
    let units = config.units();
    judge(&item, Some(&second), &[], &units, config.numbers().blocks).verdict()
}

fn verdict_of_one(config: &Config, first: &Submission) -> Verdict
    ensures value { result ≡ verdict_at config.now first.now None }
{
    let item = Item::of(first);
    let units = config.units();
    judge(&item, None, &[], &units, config.numbers().blocks).verdict()
}

fn verdict_at(config: &Config, first: &Submission, next: Option<&Submission>) -> Verdict
    ensures value { result ≡ verdict_at config.now first.now (option_copied next.entry) }
{
    match next {
        Some(next) => verdict_of_two(config, first, next),
        None => verdict_of_one(config, first),
    }
}

fn answers_first(verdict: Verdict, first: &Submission, status: Status) -> bool
    ensures value { result ≡ answers_first verdict (sqe_fields first.now.entry) status }
{
    match verdict {
        Verdict::Single => {
            is_success(status)
                || (decode_sqe(&first.entry).is_compare()
                    && same_status(status, Status::COMPARE_FAILURE))
        }
        Verdict::SingleFailed(fault) => same_status(status, fault),
        Verdict::Pair => is_success(status) || same_status(status, Status::COMPARE_FAILURE),
        Verdict::PairFailed(fault, _) => same_status(status, fault),
    }
}

fn answers_second(verdict: Verdict, status: Status) -> bool
    ensures value { result ≡ answers_second verdict status }
{
    match verdict {
        Verdict::Pair => is_success(status) || same_status(status, Status::FAILED_FUSED),
        Verdict::PairFailed(_, fault) => same_status(status, fault),
        Verdict::Single | Verdict::SingleFailed(_) => false,
    }
}

// Whether these entries, one behind the other, are a pair that one line published.
fn is_pair_at(tables: &TraceAnswers, trace: &[Seen], queue: u16, first: u64) -> bool
    ensures value { KnowsAnswers (reverse trace.now) (answers_in tables.now) → result ≡
        (has_fuse 1 (slice_get (published_in (reverse trace.now) queue) first)
        && has_fuse 2 (slice_get (published_in (reverse trace.now) queue) (suc first))
        && are_together (reverse trace.now) queue first) }
{
    let begins = entry_has_fuse(tables, trace, queue, first, 1);
    let ends = behind_has_fuse(tables, trace, queue, first, 2);
    let together = tables.are_together(queue, first);
    begins && ends && together
}

fn behind_has_fuse(tables: &TraceAnswers, trace: &[Seen], queue: u16, number: u64, fuse: u8) -> bool
    ensures value { KnowsAnswers (reverse trace.now) (answers_in tables.now) →
        result ≡ has_fuse fuse (slice_get (published_in (reverse trace.now) queue) (suc number)) }
{
    has_fuse(fuse, tables.entry_behind(trace, queue, number))
}

/// Whether so many entries end with the first of a pair, whose second the same line published.
pub(crate) fn parts_pair(tables: &TraceAnswers, trace: &[Seen], queue: u16, count: u64) -> bool
    ensures value { KnowsAnswers (reverse trace.now) (answers_in tables.now) →
        result ≡ parts_pair (reverse trace.now) queue count }
{
    if count == 0 {
        return false;
    }
    is_pair_at(tables, trace, queue, count - 1)
}

fn answers_with_next(
    config: &Config,
    tables: &TraceAnswers,
    trace: &[Seen],
    queue: u16,
    number: u64,
    first: &Submission,
    status: Status,
) -> bool
    ensures value { KnowsAnswers (reverse trace.now) (answers_in tables.now) → result ≡
        answers_first (verdict_at config.now first.now
        (slice_get (published_in (reverse trace.now) queue) (suc number))) (sqe_fields first.now.entry) status }
{
    let verdict = verdict_at(config, first, tables.entry_behind(trace, queue, number));
    answers_first(verdict, first, status)
}

fn may_answer_first(
    config: &Config,
    tables: &TraceAnswers,
    trace: &[Seen],
    queue: u16,
    number: u64,
    first: &Submission,
    status: Status,
) -> bool
    ensures value { KnowsAnswers (reverse trace.now) (answers_in tables.now) →
        result ≡ may_answer_first config.now (reverse trace.now) queue number first.now status }
{
    let parts = parts_pair(tables, trace, queue, number);
    let with_next = answers_with_next(config, tables, trace, queue, number, first, status);
    let together = tables.are_together(queue, number);
    let alone = answers_first(verdict_of_one(config, first), first, status);
    !parts && (with_next || (!together && alone))
}

fn may_answer_behind(
    config: &Config,
    first: Option<&Submission>,
    second: &Submission,
    status: Status,
) -> bool
    ensures value { result ≡ may_answer_behind config.now (option_copied first.entry) second.now status }
{
    match first {
        Some(first) => answers_second(verdict_of_two(config, first, second), status),
        None => false,
    }
}

// The same of the entry in front of it.
fn may_answer_behind_at(
    config: &Config,
    tables: &TraceAnswers,
    trace: &[Seen],
    queue: u16,
    first: u64,
    second: &Submission,
    status: Status,
) -> bool
    ensures value { KnowsAnswers (reverse trace.now) (answers_in tables.now) → result ≡
        may_answer_behind config.now (slice_get (published_in (reverse trace.now) queue) first) second.now status }
{
    may_answer_behind(config, tables.entry(trace, queue, first), second, status)
}

fn may_answer_second(
    config: &Config,
    tables: &TraceAnswers,
    trace: &[Seen],
    queue: u16,
    number: u64,
    second: &Submission,
    status: Status,
) -> bool
    ensures value { KnowsAnswers (reverse trace.now) (answers_in tables.now) →
        result ≡ may_answer_second config.now (reverse trace.now) queue number second.now status }
{
    if number == 0 {
        return false;
    }
    may_answer_behind_at(config, tables, trace, queue, number - 1, second, status)
}

fn may_answer(
    config: &Config,
    tables: &TraceAnswers,
    trace: &[Seen],
    queue: u16,
    number: u64,
    entry: &Submission,
    status: Status,
) -> bool
    ensures value { KnowsAnswers (reverse trace.now) (answers_in tables.now) →
        result ≡ may_answer config.now (reverse trace.now) queue number entry.now status }
{
    let first = may_answer_first(config, tables, trace, queue, number, entry, status);
    let second = may_answer_second(config, tables, trace, queue, number, entry, status);
    first || second
}

fn may_not_answer(
    config: &Config,
    tables: &TraceAnswers,
    trace: &[Seen],
    queue: u16,
    number: u64,
    entry: Option<&Submission>,
    status: Status,
) -> bool
    ensures value { KnowsAnswers (reverse trace.now) (answers_in tables.now) → result ≡
        may_not_answer config.now (reverse trace.now) queue number (option_copied entry.entry) status }
{
    match entry {
        Some(entry) => !may_answer(config, tables, trace, queue, number, entry, status),
        None => false,
    }
}

fn number_may_not(
    config: &Config,
    tables: &TraceAnswers,
    trace: &[Seen],
    queue: u16,
    number: u64,
    status: Status,
) -> bool
    ensures value { KnowsAnswers (reverse trace.now) (answers_in tables.now) →
        result ≡ number_may_not config.now (reverse trace.now) queue (Some number) status }
{
    let entry = tables.entry(trace, queue, number);
    may_not_answer(config, tables, trace, queue, number, entry, status)
}

/// Whether its status isn't one that the entry that it answers may be answered.
pub(crate) fn has_wrong_status(
    config: &Config,
    tables: &TraceAnswers,
    trace: &[Seen],
    line: &ReapedLine,
) -> bool
    ensures value { KnowsAnswers (reverse trace.now) (answers_in tables.now) →
        result ≡ has_wrong_status config.now (reverse trace.now) line.now }
{
    let queue = queue_of(&line.cqe);
    match answered(tables, &line.cqe) {
        Some(number) => {
            number_may_not(config, tables, trace, queue, number, status_of(&line.cqe))
        }
        None => false,
    }
}
