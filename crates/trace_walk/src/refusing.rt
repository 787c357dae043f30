//! Entries that a controller refused though they pass their checks, where any status will do.

use crate::tables::{Awaited, Published, TraceTables};
use entry_codec::Status;
use fused_match::{Item, Judged, judge};
use std::alloc::{AllocError as NoMemory, Global};
use std::collections::HashSet;

impl Published {
    /// The entry as one that was refused: it is one of namespace 0.
    pub fn refused(&self) -> Published {
        let mut refused = *self;
        let mut sqe = self.item.sqe();
        sqe.nsid = 0;
        refused.item = Item::new(sqe, self.item.length());
        refused.refused = true;
        refused.doubtful = false;
        refused
    }
}

impl TraceTables {
    // Notes whose identifiers later entries of a submission queue have.
    pub(crate) fn note_reused(&mut self, queue: usize, by_cid: &[(u16, usize)]) {
        let mut later: Option<u16> = None;
        for (cid, number) in by_cid.iter().rev() {
            if later == Some(*cid) {
                if let Some(entries) = self.entries.get_mut(queue) {
                    if let Some(entry) = entries.get_mut(*number) {
                        entry.reused = true;
                    }
                }
            }
            later = Some(*cid);
        }
    }

    /// Has an entry be one that was refused.
    pub fn refuse(&mut self, queue: usize, number: usize) {
        if let Some(entries) = self.entries.get_mut(queue) {
            if let Some(known) = entries.get_mut(number) {
                *known = known.refused();
            }
        }
    }
}

// Whether a completion says that nothing was done.
fn says_nothing_done(completion: &Awaited) -> bool {
    let status = completion.cqe.status;
    status != Status::SUCCESS && status != Status::COMPARE_FAILURE
}

// Whether an entry, or the pair that it is the first of, passes its checks where no identifier is in use.
fn passes(tables: &TraceTables, queue: usize, number: usize, entry: &Published) -> bool {
    let next = tables
        .entry(queue, number.saturating_add(1))
        .map(|next| next.item);
    let judged = judge(
        &entry.item,
        next.as_ref(),
        &[],
        &tables.units,
        tables.numbers.blocks,
    );
    match judged {
        Judged::Flush | Judged::Single(_, _) | Judged::Pair(_) => true,
        Judged::SingleFailed(_) | Judged::PairFailed(_, _) => false,
    }
}

// An entry whose completion says that it did nothing, though it passes its checks, was refused.
fn refuse_entry(tables: &mut TraceTables, completion: &Awaited) {
    let Some(entry) = tables.entry(completion.queue, completion.entry) else {
        return;
    };
    if passes(tables, completion.queue, completion.entry, &entry) {
        tables.refuse(completion.queue, completion.entry);
    }
}

// Whether it can matter that an entry which isn't answered was refused: it then has ended without an effect, so that
// its ticket and its identifiers are free for others.
fn matters(tables: &TraceTables, queue: usize, number: usize, entry: &Published) -> bool {
    if tables.crowded || entry.reused {
        return true;
    }
    match tables.entry(queue, number.saturating_add(1)) {
        Some(second) => entry.item.sqe().fuse() == 1 && second.reused,
        None => false,
    }
}

// An entry that passes its checks may have been refused, where a completion that says that nothing was done may be its
// own, or where it may have ended unseen.
fn doubt_entry(tables: &mut TraceTables, doubts: &HashSet<u64>, queue: usize, number: usize) {
    let Some(entry) = tables.entry(queue, number) else {
        return;
    };
    let is_sure = entry.answered != usize::MAX || entry.refused;
    let may_be = doubts.contains(&user_of(queue, entry.item.sqe().cid));
    if is_sure || !may_be && !matters(tables, queue, number, &entry) {
        return;
    }
    if !passes(tables, queue, number, &entry) {
        return;
    }
    if let Some(entries) = tables.entries.get_mut(queue) {
        if let Some(known) = entries.get_mut(number) {
            known.doubtful = true;
        }
    }
}

// A submission queue with an identifier, as one number.
fn user_of(queue: usize, cid: u16) -> u64 {
    (queue as u64)
        .wrapping_mul(65_536)
        .wrapping_add(u64::from(cid))
}

/// Notes which entries were refused, as their completions say, and which may have been.
pub(crate) fn refuse_entries(alloc: Global, tables: &mut TraceTables) -> Result<(), NoMemory> {
    let mut doubts = HashSet::new(alloc);
    for number in 0..tables.completions.len() {
        let Some(completion) = tables.completion(number) else {
            continue;
        };
        if says_nothing_done(&completion) {
            if completion.sure {
                refuse_entry(tables, &completion);
            } else {
                let _ = doubts.insert(user_of(completion.queue, completion.cqe.cid))?;
            }
        }
    }
    for queue in 0..tables.entries.len() {
        let count = match tables.entries.get(queue) {
            Some(entries) => entries.len(),
            None => 0,
        };
        for number in 0..count {
            doubt_entry(tables, &doubts, queue, number);
        }
    }
    Ok(())
}
