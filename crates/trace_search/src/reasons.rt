//! What is the matter with the last of so many lines.

use crate::reason::{CommandName, Obstacle, Unexplained};
use entry_codec::{Sqe, Status};
use fused_match::{Judged, judge};
use nvme_model::operation::Op;
use trace_walk::{Awaited, Line, Published, TraceTables};

fn command_of(sqe: &Sqe) -> CommandName {
    if sqe.is_flush() {
        CommandName::Flush
    } else if sqe.is_write() {
        CommandName::Write
    } else if sqe.is_read() {
        CommandName::Read
    } else if sqe.is_compare() {
        CommandName::Compare
    } else if sqe.is_write_zeroes() {
        CommandName::WriteZeroes
    } else {
        CommandName::Other
    }
}

// Whether a command that is judged so can end with this status, and so many bytes of data.
fn can_end(judged: &Judged, second: bool, status: Status, length: usize) -> bool {
    let success = status == Status::SUCCESS;
    match judged {
        Judged::Flush => success && length == 0,
        Judged::Single(Op::Read, range) => success
            && length == (range.blocks as usize).saturating_mul(512),
        Judged::Single(Op::Compare, _) => (success || status == Status::COMPARE_FAILURE)
            && length == 0,
        Judged::Single(_, _) => success && length == 0,
        Judged::Pair(_) => {
            let failed = if second {
                Status::FAILED_FUSED
            } else {
                Status::COMPARE_FAILURE
            };
            (success || status == failed) && length == 0
        }
        Judged::SingleFailed(due) => status == *due && length == 0,
        Judged::PairFailed(first, other) => status == (if second { *other } else { *first })
            && length == 0,
    }
}

// What becomes of the entry of this number, or of the pair that it is the second of.
fn judged_at(tables: &TraceTables, queue: usize, number: usize) -> Option<(Judged, bool)> {
    let entry = tables.entry(queue, number)?;
    let before = number.checked_sub(1);
    if entry.item.sqe().fuse() == 2 {
        if let Some(first) = before.and_then(|before| tables.entry(queue, before)) {
            if first.item.sqe().fuse() == 1 {
                let judged = judge(
                    &first.item,
                    Some(&entry.item),
                    &[],
                    &tables.units,
                    tables.numbers.blocks,
                );
                return Some((judged, true));
            }
        }
    }
    let next = tables
        .entry(queue, number.saturating_add(1))
        .map(|next| next.item);
    let judged = judge(
        &entry.item,
        next.as_ref(),
        &[],
        &tables.units,
        tables.numbers.blocks,
    );
    Some((judged, false))
}

// Whether a status can only come of which identifiers were in use, or of which entries were published.
fn is_of_the_moment(status: Status) -> bool {
    status == Status::CID_CONFLICT
        || status == Status::MISSING_FUSED
        || status == Status::FAILED_FUSED
}

// Whether a status says that nothing was done.
fn is_nothing(status: Status) -> bool {
    status != Status::SUCCESS && status != Status::COMPARE_FAILURE
}

// Whether an entry writes this value to a block.
fn writes(tables: &TraceTables, entry: &Published, block: u64, value: u64) -> bool {
    let sqe = entry.item.sqe();
    let place = block.saturating_sub(sqe.slba());
    sqe.is_write()
        && !entry.refused
        && block >= sqe.slba()
        && place < u64::from(sqe.blocks())
        && tables.value(entry.values.saturating_add(place.min(65_535) as usize)) == value
}

// Whether any entry writes this value to a block.
fn is_written(tables: &TraceTables, block: u64, value: u64) -> bool {
    if value == 0 {
        return true;
    }
    for entries in tables.entries.as_slice() {
        for entry in entries.as_slice() {
            if writes(tables, entry, block, value) {
                return true;
            }
        }
    }
    false
}

// The first block of a Read whose value nobody writes.
fn unwritten(tables: &TraceTables, sqe: &Sqe, completion: &Awaited) -> Option<u64> {
    let unknown = tables.options.contents_unknown;
    if unknown || !sqe.is_read() || completion.cqe.status != Status::SUCCESS {
        return None;
    }
    for k in 0..completion.length / 512 {
        let block = sqe.slba().saturating_add(k as u64);
        let value = tables.value(completion.values.saturating_add(k));
        if !is_written(tables, block, value) {
            return Some(block);
        }
    }
    None
}

// The least number, this or a greater one, of entries fetched that an SQHD can mean.
fn next_at(number: usize, head: usize, size: usize) -> usize {
    let Some(place) = number.checked_rem(size) else {
        return number;
    };
    if place <= head {
        number.saturating_add(head - place)
    } else {
        number
            .saturating_add(size.saturating_sub(place))
            .saturating_add(head)
    }
}

// Whether the SQHD of a completion, the last one, can mean a number of entries that were published.
fn has_head(tables: &TraceTables, completion: &Awaited) -> bool {
    let size = usize::from(tables.numbers.sq_size);
    let mut fetched = 0usize;
    let count = match tables.awaited.get(completion.queue) {
        Some(awaited) => awaited.len(),
        None => 0,
    };
    for number in 0..count {
        if let Some(one) = tables.awaited(completion.queue, number) {
            let head = usize::from(one.cqe.sqhd);
            if head >= size {
                return false;
            }
            fetched = next_at(fetched, head, size);
        }
    }
    match tables.entries.get(completion.queue) {
        Some(entries) => fetched <= entries.len(),
        None => false,
    }
}

fn why_of(tables: &TraceTables, completion: &Awaited, entry: &Published) -> Obstacle {
    let sqe = entry.item.sqe();
    let status = completion.cqe.status;
    if let Some((judged, second)) = judged_at(tables, completion.queue, completion.entry) {
        let any = tables.options.statuses_any && is_nothing(status);
        if !any
            && !can_end(&judged, second, status, completion.length)
            && !is_of_the_moment(status)
        {
            return Obstacle::Status;
        }
    }
    if !tables.options.ignored.sqhd && !has_head(tables, completion) {
        return Obstacle::Head;
    }
    match unwritten(tables, &sqe, completion) {
        Some(block) => Obstacle::Value(block),
        None => Obstacle::Order,
    }
}

// What is the matter with a completion, the last line.
fn completion_reason(tables: &TraceTables, lines: usize, completion: &Awaited) -> Unexplained {
    let mut reason = Unexplained {
        lines,
        why: Obstacle::NoCommand,
        queue: completion.cqe.sqid,
        cid: completion.cqe.cid,
        command: CommandName::Other,
        published: 0,
    };
    if let Some(entry) = tables.entry(completion.queue, completion.entry) {
        if entry.line < completion.line {
            reason.why = why_of(tables, completion, &entry);
            reason.command = command_of(&entry.item.sqe());
            reason.published = entry.line.saturating_add(1);
        }
    }
    reason
}

/// What is the matter with the last of so many lines, which these tables are of.
pub(crate) fn reason_of(tables: &TraceTables, lines: usize) -> Unexplained {
    let plain = Unexplained {
        lines,
        why: Obstacle::NoRoom,
        queue: 0,
        cid: 0,
        command: CommandName::Other,
        published: 0,
    };
    if let Some(unfit) = tables.unfit {
        return Unexplained {
            why: Obstacle::Unfit(unfit),
            ..plain
        };
    }
    match (tables.lines.last(), tables.completions.last()) {
        (Some(Line::Reap(_)), Some(completion)) => completion_reason(tables, lines, completion),
        (Some(Line::Reap(_)), None) | (Some(Line::Publish(_, _, _)) | None, _) => plain,
    }
}
