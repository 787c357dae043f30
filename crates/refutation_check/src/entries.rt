//! Completions that don't go with the entry that they answer: by tables of the lines before them, the oldest first.

ghost use Rattle.std.specs.Prelude.{◌≡◌, ◌&&◌, List, is_none, length, not, option_copied, reverse, slice_get};
ghost use Rattle.nvme_model.specs.Commands.{is_read};
ghost use Rattle.nvme_model.specs.EntryBytes.{block_count, sqe_fields};
ghost use Rattle.nvme_model.specs.Statuses.{missing_fused, same_status};
ghost use Rattle.host_laws.specs.Calls.{cqe_status};
ghost use Rattle.trace.specs.declared.seen.Seen.{Seen};
ghost use Rattle.refutation.specs.LineRules.{answers_apart, has_early_second, has_wrong_data, has_wrong_second};
ghost use Rattle.refutation.specs.LineRules.{is_apart_from, is_second_apart, is_second_early, names_no_entry};
ghost use Rattle.refutation.specs.LineRules.{number_owes_other, owes_other_data};
ghost use Rattle.refutation.specs.Lines.{answer_in, answered, published_in};
ghost use Rattle.refutation.specs.MayAnswer.{data_owed, has_fuse};
ghost use Rattle.refutation_check.specs.Answers.{KnowsAnswers, answers_in};

use crate::bytes::{cid_named, queue_of};
use crate::fields::{is_success, same_status, status_of};
use crate::tables::TraceAnswers;
use byteorder::{ByteOrder, LittleEndian};
use nvme_model::status::Status;
use nvme_model::submission::Submission;
use trace::{ReapedLine, Seen};

// The number of the entry that a completion answers.
pub(crate) fn answered(tables: &TraceAnswers, cqe: &[u8; 16]) -> Option<u64>
    ensures value { (trace : List Seen) → KnowsAnswers trace (answers_in tables.now) →
        result ≡ answered trace cqe.now }
{
    tables.waiting(queue_of(cqe), cid_named(cqe))
}

/// Whether no entry waits under the submission queue and the CID that it names.
pub(crate) fn names_no_entry(tables: &TraceAnswers, line: &ReapedLine) -> bool
    ensures value { (trace : List Seen) → KnowsAnswers trace (answers_in tables.now) →
        result ≡ names_no_entry trace line.now }
{
    answered(tables, &line.cqe).is_none()
}

fn is_read(entry: &Submission) -> bool
    ensures value { result ≡ is_read (sqe_fields entry.now.entry) }
{
    entry.entry[0] == 2
}

fn block_count(entry: &Submission) -> u32
    ensures value { result ≡ block_count (sqe_fields entry.now.entry) }
{
    LittleEndian::read_u32(&entry.entry[48..52]) % 65536 + 1
}

fn data_owed(entry: &Submission, status: Status) -> usize
    ensures value { result ≡ data_owed entry.now status }
{
    if is_success(status) && is_read(entry) {
        512 * block_count(entry) as usize
    } else {
        0
    }
}

fn owes_other_data(entry: Option<&Submission>, line: &ReapedLine) -> bool
    ensures value { result ≡
        owes_other_data (option_copied entry.entry) (cqe_status line.now.cqe) (length line.now.payload) }
{
    match entry {
        Some(entry) => line.payload.as_slice().len() != data_owed(entry, status_of(&line.cqe)),
        None => false,
    }
}

/// Whether the data beside it isn't that of a Read that succeeded, or there is some beside another completion.
pub(crate) fn has_wrong_data(tables: &TraceAnswers, trace: &[Seen], line: &ReapedLine) -> bool
    ensures value { KnowsAnswers (reverse trace.now) (answers_in tables.now) →
        result ≡ has_wrong_data (reverse trace.now) line.now }
{
    match answered(tables, &line.cqe) {
        Some(number) => owes_other_data(tables.entry(trace, queue_of(&line.cqe), number), line),
        None => false,
    }
}

pub(crate) fn has_fuse(fuse: u8, entry: Option<&Submission>) -> bool
    ensures value { result ≡ has_fuse fuse (option_copied entry.entry) }
{
    match entry {
        Some(entry) => entry.entry[1] % 4 == fuse,
        None => false,
    }
}

fn answers_apart(first: Status, second: Status) -> bool
    ensures value { result ≡ answers_apart first second }
{
    (is_success(first) && !is_success(second))
        || (same_status(first, Status::COMPARE_FAILURE)
            && !same_status(second, Status::FAILED_FUSED))
}

fn is_apart_from(first: Option<&ReapedLine>, line: &ReapedLine) -> bool
    ensures value { result ≡ is_apart_from (option_copied first.entry) (cqe_status line.now.cqe) }
{
    match first {
        Some(first) => answers_apart(status_of(&first.cqe), status_of(&line.cqe)),
        None => false,
    }
}

pub(crate) fn entry_has_fuse(
    tables: &TraceAnswers,
    trace: &[Seen],
    queue: u16,
    number: u64,
    fuse: u8,
) -> bool
    ensures value { KnowsAnswers (reverse trace.now) (answers_in tables.now) →
        result ≡ has_fuse fuse (slice_get (published_in (reverse trace.now) queue) number) }
{
    has_fuse(fuse, tables.entry(trace, queue, number))
}

fn answered_apart(
    tables: &TraceAnswers,
    trace: &[Seen],
    queue: u16,
    number: u64,
    line: &ReapedLine,
) -> bool
    ensures value { KnowsAnswers (reverse trace.now) (answers_in tables.now) →
        result ≡ is_apart_from (answer_in (reverse trace.now) queue number) (cqe_status line.now.cqe) }
{
    is_apart_from(tables.completion(trace, queue, number), line)
}

// The same of these two entries.
fn are_apart(
    tables: &TraceAnswers,
    trace: &[Seen],
    queue: u16,
    first: u64,
    second: u64,
    line: &ReapedLine,
) -> bool
    ensures value { KnowsAnswers (reverse trace.now) (answers_in tables.now) → result ≡
        (has_fuse 1 (slice_get (published_in (reverse trace.now) queue) first)
        && has_fuse 2 (slice_get (published_in (reverse trace.now) queue) second)
        && is_apart_from (answer_in (reverse trace.now) queue first) (cqe_status line.now.cqe)) }
{
    let begins = entry_has_fuse(tables, trace, queue, first, 1);
    let ends = entry_has_fuse(tables, trace, queue, second, 2);
    let apart = answered_apart(tables, trace, queue, first, line);
    begins && ends && apart
}

fn is_second_apart(
    tables: &TraceAnswers,
    trace: &[Seen],
    queue: u16,
    number: Option<u64>,
    line: &ReapedLine,
) -> bool
    ensures value { KnowsAnswers (reverse trace.now) (answers_in tables.now) →
        result ≡ is_second_apart (reverse trace.now) queue number (cqe_status line.now.cqe) }
{
    match number {
        Some(second) => {
            if second == 0 {
                return false;
            }
            are_apart(tables, trace, queue, second - 1, second, line)
        }
        None => false,
    }
}

/// Whether it answers the second command of a pair, and its status doesn't go with what the first was answered.
pub(crate) fn has_wrong_second(tables: &TraceAnswers, trace: &[Seen], line: &ReapedLine) -> bool
    ensures value { KnowsAnswers (reverse trace.now) (answers_in tables.now) →
        result ≡ has_wrong_second (reverse trace.now) line.now }
{
    let number = answered(tables, &line.cqe);
    is_second_apart(tables, trace, queue_of(&line.cqe), number, line)
}

fn answers_early(first: Option<&ReapedLine>, line: &ReapedLine) -> bool
    ensures value { result ≡ (is_none (option_copied first.entry)
        && not (same_status (cqe_status line.now.cqe) missing_fused)) }
{
    match first {
        Some(_) => false,
        None => !same_status(status_of(&line.cqe), Status::MISSING_FUSED),
    }
}

fn answered_early(
    tables: &TraceAnswers,
    trace: &[Seen],
    queue: u16,
    number: u64,
    line: &ReapedLine,
) -> bool
    ensures value { KnowsAnswers (reverse trace.now) (answers_in tables.now) → result ≡
        (is_none (answer_in (reverse trace.now) queue number)
        && not (same_status (cqe_status line.now.cqe) missing_fused)) }
{
    answers_early(tables.completion(trace, queue, number), line)
}

// Whether these entries are a pair, and the first isn't answered.
fn are_early(
    tables: &TraceAnswers,
    trace: &[Seen],
    queue: u16,
    first: u64,
    second: u64,
    line: &ReapedLine,
) -> bool
    ensures value { KnowsAnswers (reverse trace.now) (answers_in tables.now) → result ≡
        (has_fuse 1 (slice_get (published_in (reverse trace.now) queue) first)
        && has_fuse 2 (slice_get (published_in (reverse trace.now) queue) second)
        && is_none (answer_in (reverse trace.now) queue first)
        && not (same_status (cqe_status line.now.cqe) missing_fused)) }
{
    let begins = entry_has_fuse(tables, trace, queue, first, 1);
    let ends = entry_has_fuse(tables, trace, queue, second, 2);
    let early = answered_early(tables, trace, queue, first, line);
    begins && ends && early
}

fn is_second_early(
    tables: &TraceAnswers,
    trace: &[Seen],
    queue: u16,
    number: Option<u64>,
    line: &ReapedLine,
) -> bool
    ensures value { KnowsAnswers (reverse trace.now) (answers_in tables.now) →
        result ≡ is_second_early (reverse trace.now) queue number (cqe_status line.now.cqe) }
{
    match number {
        Some(second) => {
            if second == 0 {
                return false;
            }
            are_early(tables, trace, queue, second - 1, second, line)
        }
        None => false,
    }
}

/// Whether it answers the second command of a pair before its first.
pub(crate) fn has_early_second(tables: &TraceAnswers, trace: &[Seen], line: &ReapedLine) -> bool
    ensures value { KnowsAnswers (reverse trace.now) (answers_in tables.now) →
        result ≡ has_early_second (reverse trace.now) line.now }
{
    let number = answered(tables, &line.cqe);
    is_second_early(tables, trace, queue_of(&line.cqe), number, line)
}
