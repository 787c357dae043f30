//! What entries wait for that are published and not fetched, and which of them write.

use crate::forced::{FetchDue, fetching, is_at_head, users};
use trace_walk::{Need, Published, TraceTables, Walk, number_at};

/// What has to end before an entry can be fetched.
pub(crate) enum Gate {
    /// This ticket, whose completion comes first in its completion queue.
    Ticket(usize),
    /// Something that can't end before the next line.
    Never,
    /// Nothing that is sure.
    Unsure,
}

/// What has to end before the next entry of a submission queue can be fetched.
pub(crate) fn gate_of(walk: &Walk, tables: &TraceTables, queue: usize) -> Gate {
    if !tables.tidy || fetching(walk, tables, queue) != FetchDue::Never {
        return Gate::Unsure;
    }
    let cq = tables.cq_of(queue);
    let Some((_, completion)) = tables.wanted(cq, number_at(&walk.posted, cq)) else {
        return Gate::Unsure;
    };
    let sure = is_at_head(walk, tables, &completion).1;
    if !sure || fetching(walk, tables, completion.queue) == FetchDue::Maybe {
        return Gate::Unsure;
    }
    match users(walk, completion.queue, completion.cqe.cid) {
        (1, number) => Gate::Ticket(number),
        _ => Gate::Never,
    }
}

/// The ticket that has to end before the next entry of a submission queue can be fetched, where there is one.
pub(crate) fn gate_ticket(walk: &Walk, tables: &TraceTables, queue: usize) -> Option<usize> {
    match gate_of(walk, tables, queue) {
        Gate::Ticket(number) => Some(number),
        Gate::Never | Gate::Unsure => None,
    }
}

// The place of what an entry writes to a block, where it would write it; that of zeros is `usize::MAX`.
fn place_waiting(entry: &Published, block: u64) -> Option<usize> {
    let sqe = entry.item.sqe();
    let behind = block.checked_sub(sqe.slba())?;
    if behind >= u64::from(sqe.blocks()) || entry.refused {
        return None;
    }
    if sqe.is_write() {
        Some(entry.values.saturating_add(behind.min(65_535) as usize))
    } else if sqe.is_write_zeroes() {
        Some(usize::MAX)
    } else {
        None
    }
}

/// What is to be written to a block.
#[derive(Clone, Copy)]
pub(crate) enum Wanted {
    /// This value.
    Value(u64),
    /// What has to be written before a value around which this has to happen.
    Before(Need),
}

// The line before which an entry has written what lies at this place, or that was found.
fn due_of(tables: &TraceTables, entry: &Published, place: usize) -> usize {
    let need = tables.need(place);
    if need.alone && entry.succeeded != usize::MAX {
        entry.succeeded.min(need.due)
    } else {
        entry.succeeded
    }
}

// Whether an entry writes so what lies at this place.
fn is_wanted(tables: &TraceTables, entry: &Published, place: usize, wanted: Wanted) -> bool {
    match wanted {
        Wanted::Value(value) => tables.value(place) == value,
        Wanted::Before(need) => {
            let chain = tables.need(place).chain;
            chain != need.chain && due_of(tables, entry, place) < need.until
        }
    }
}

/// A submission queue in which an entry waits that writes this to a block.
pub(crate) fn queue_waiting(
    walk: &Walk,
    tables: &TraceTables,
    block: u64,
    wanted: Wanted,
) -> Option<usize> {
    for queue in 0..walk.fetched.len() {
        let first = number_at(&walk.fetched, queue);
        for number in first..number_at(&walk.published, queue) {
            let entry = tables.entry(queue, number)?;
            if let Some(place) = place_waiting(&entry, block) {
                if is_wanted(tables, &entry, place, wanted) {
                    return Some(queue);
                }
            }
        }
    }
    None
}
