//! Which completion seems to be for which entry, and what that says of the values of blocks.

use crate::refusing::refuse_entries;
use crate::tables::{Awaited, NOBODYS, Need, Published, TraceTables};
use crate::values::{blocks_of, mixed};
use entry_codec::Status;
use std::alloc::{AllocError as NoMemory, Global};
use std::collections::HashMap;

// The places of values by block and value, and the first lines at which they are published.
#[derive(Drop)]
struct Sources {
    places: HashMap<u64, usize>,
    lines: HashMap<u64, usize>,
}

// The identifiers of the entries of a submission queue beside their numbers, in order.
fn entries_by_cid(alloc: Global, entries: &[Published]) -> Result<Vec<(u16, usize)>, NoMemory> {
    let mut by_cid = Vec::new(alloc);
    let mut number = 0usize;
    for entry in entries {
        by_cid.push((entry.item.sqe().cid, number))?;
        number = number.saturating_add(1);
    }
    by_cid.sort()?;
    Ok(by_cid)
}

impl TraceTables {
    // The line at which an entry with this identifier is published, or none ever.
    fn line_of(&self, queue: usize, cid: u16, known: Option<&(u16, usize)>) -> usize {
        let Some((other, number)) = known else {
            return usize::MAX;
        };
        if *other != cid {
            return usize::MAX;
        }
        match self.entry(queue, *number) {
            Some(entry) => entry.line,
            None => usize::MAX,
        }
    }

    // Notes that a completion for this queue is for this entry, and whether that is sure: the completion before it with
    // its identifier, and the entry behind, have these lines. Answers the line of this completion.
    fn note_match(
        &mut self,
        queue: usize,
        number: usize,
        which: usize,
        before: usize,
        next: usize,
    ) -> usize {
        let Some(entry) = self.entry(queue, number) else {
            return 0;
        };
        let Some(known) = self.completions.get_mut(which) else {
            return 0;
        };
        let line = known.line;
        let sure = before <= entry.line && entry.line < line && line < next;
        known.entry = number;
        known.sure = sure;
        if let Some(entries) = self.entries.get_mut(queue) {
            if let Some(entry) = entries.get_mut(number) {
                entry.answered = if sure { line } else { usize::MAX };
            }
        }
        line
    }

    // The next completion for a submission queue, in the order of identifiers: its identifier, and which of all.
    fn next_by_cid(&self, queue: usize, place: usize) -> Option<(u16, usize)> {
        let (cid, number) = self.by_cid.get(queue)?.get(place).copied()?;
        let which = self.awaited.get(queue)?.get(number).copied()?;
        Some((cid, which))
    }

    // Matches completions and entries of a submission queue by their identifiers, each in their order.
    fn match_queue(&mut self, queue: usize, by_cid: &[(u16, usize)]) {
        let mut one = 0usize;
        let mut other = 0usize;
        let mut before = (0u16, 0usize);
        for _ in 0..usize::MAX {
            let Some((cid, number)) = by_cid.get(one).copied() else {
                return;
            };
            let Some((known, which)) = self.next_by_cid(queue, other) else {
                return;
            };
            if before.0 != cid {
                before = (cid, 0);
            }
            if cid == known {
                let next = self.line_of(queue, cid, by_cid.get(one.saturating_add(1)));
                let line = self.note_match(queue, number, which, before.1, next);
                before = (cid, line);
            }
            if cid <= known {
                one = one.saturating_add(1);
            }
            if known <= cid {
                other = other.saturating_add(1);
            }
        }
    }
}

impl Sources {
    // Notes that a value is published at this line, where that matters.
    fn note_line(&mut self, tables: &TraceTables, what: u64, line: usize) -> Result<(), NoMemory> {
        if tables.first.is_empty() {
            return Ok(());
        }
        let known = self.lines.get(&what).copied().unwrap_or(usize::MAX);
        if line < known {
            let _ = self.lines.insert(what, line)?;
        }
        Ok(())
    }

    // Notes that a block held this value, where nobody can have written what a completion found there.
    fn note_first(&self, tables: &mut TraceTables, block: u64, value: u64, line: usize) {
        let published = self.lines.get(&mixed(block, value)).copied();
        if published.unwrap_or(usize::MAX) < line {
            return;
        }
        if let Some(known) = tables.first.get_mut(block.min(65_536) as usize) {
            if *known == NOBODYS {
                *known = value;
            }
        }
    }

    // Notes what blocks held, by what the command of a completion found.
    fn note_firsts(&self, tables: &mut TraceTables, completion: &Awaited) {
        let Some((_, slba, blocks, values)) = found_by(tables, completion) else {
            return;
        };
        for k in 0..blocks {
            let value = tables.value(values.saturating_add(k));
            let block = slba.saturating_add(k as u64);
            self.note_first(tables, block, value, completion.line);
        }
    }

    fn place(&self, block: u64, value: u64) -> Option<usize> {
        self.places.get(&mixed(block, value)).copied()
    }

    // Notes what an entry would write zeros to.
    fn note_zeros(&mut self, tables: &TraceTables, entry: &Published) -> Result<(), NoMemory> {
        let Some((slba, blocks)) = blocks_of(&entry.item.sqe(), tables.numbers.blocks) else {
            return Ok(());
        };
        for k in 0..blocks {
            let block = slba.saturating_add(k as u64);
            self.note_line(tables, mixed(block, 0), entry.line)?;
        }
        Ok(())
    }

    // Notes what an entry would write.
    fn note_writes(&mut self, tables: &mut TraceTables, entry: &Published) -> Result<(), NoMemory> {
        let sqe = entry.item.sqe();
        if !entry.refused && sqe.is_write_zeroes() {
            return self.note_zeros(tables, entry);
        }
        if entry.refused || !sqe.is_write() || entry.item.length() != sqe.data_length() {
            return Ok(());
        }
        let Some((slba, blocks)) = blocks_of(&sqe, tables.numbers.blocks) else {
            return Ok(());
        };
        for k in 0..blocks {
            let place = entry.values.saturating_add(k);
            let value = tables.value(place);
            let block = slba.saturating_add(k as u64);
            let known = self.places.insert(mixed(block, value), place)?;
            self.note_line(tables, mixed(block, value), entry.line)?;
            let alone = known.is_none() && value != 0;
            if let Some(need) = tables.needs.get_mut(place) {
                need.alone = alone;
                need.due = entry.answered;
            }
            if let Some(known) = known {
                if let Some(need) = tables.needs.get_mut(known) {
                    need.alone = false;
                }
            }
        }
        Ok(())
    }

    // Notes that a command found this value in this block.
    fn note_found(
        &self,
        tables: &mut TraceTables,
        block: u64,
        value: u64,
        line: usize,
        due: usize,
    ) {
        let Some(place) = self.place(block, value) else {
            return;
        };
        if !tables.first.is_empty() && tables.first(block) == value {
            if let Some(need) = tables.needs.get_mut(place) {
                need.alone = false;
            }
            return;
        }
        if let Some(need) = tables.needs.get_mut(place) {
            need.finders = need.finders.saturating_add(1);
            need.until = need.until.max(line);
            need.due = need.due.min(due);
        }
    }

    // Notes what the command of a completion found.
    fn note_completion(&self, tables: &mut TraceTables, completion: &Awaited) {
        let Some((entry, slba, blocks, values)) = found_by(tables, completion) else {
            return;
        };
        for k in 0..blocks {
            let value = tables.value(values.saturating_add(k));
            let block = slba.saturating_add(k as u64);
            self.note_found(tables, block, value, entry.line, completion.line);
        }
    }

    // Links what a pair found to what it wrote.
    fn link_pair(&self, tables: &mut TraceTables, heads: &mut Vec<bool>, completion: &Awaited) {
        let Some((entry, slba, blocks, values)) = found_by(tables, completion) else {
            return;
        };
        if entry.item.sqe().fuse() != 1 {
            return;
        }
        let number = completion.entry.saturating_add(1);
        let Some(second) = tables.entry(completion.queue, number) else {
            return;
        };
        for k in 0..blocks {
            let value = tables.value(values.saturating_add(k));
            let block = slba.saturating_add(k as u64);
            if let Some(from) = self.place(block, value) {
                link(tables, heads, from, second.values.saturating_add(k));
            }
        }
    }
}

// A pair found what lies at one place, and wrote what lies at another one.
fn link(tables: &mut TraceTables, heads: &mut Vec<bool>, from: usize, to: usize) {
    if !tables.need(from).alone || !tables.need(to).alone {
        return;
    }
    if let Some(need) = tables.needs.get_mut(from) {
        need.next = to;
    }
    if let Some(head) = heads.get_mut(to) {
        *head = false;
    }
}

// What holds of a chain holds of each of its places.
fn join_chain(tables: &mut TraceTables, head: usize) {
    let mut place = head;
    let mut until = 0usize;
    let mut due = usize::MAX;
    for _ in 0..tables.needs.len() {
        let need = tables.need(place);
        until = until.max(need.until);
        due = due.min(need.due);
        place = need.next;
        if place == usize::MAX {
            break;
        }
    }
    place = head;
    for _ in 0..tables.needs.len() {
        let mut next = usize::MAX;
        if let Some(need) = tables.needs.get_mut(place) {
            need.until = until;
            need.due = due;
            need.chain = head;
            next = need.next;
        }
        place = next;
        if place == usize::MAX {
            break;
        }
    }
}

// Links pairs to what they found, and joins the chains that come of it.
fn join_chains(alloc: Global, sources: &Sources, tables: &mut TraceTables) -> Result<(), NoMemory> {
    let mut heads = Vec::new(alloc);
    for _ in 0..tables.needs.len() {
        heads.push(true)?;
    }
    for number in 0..tables.completions.len() {
        if let Some(completion) = tables.completion(number) {
            sources.link_pair(tables, &mut heads, &completion);
        }
    }
    for place in 0..heads.len() {
        let is_head = heads.get(place).copied().unwrap_or(false);
        if is_head && tables.need(place).next != usize::MAX {
            join_chain(tables, place);
        }
    }
    Ok(())
}

// The entry of a completion that says that all values were found, its blocks, and where the values lie.
fn found_by(tables: &TraceTables, completion: &Awaited) -> Option<(Published, u64, usize, usize)> {
    if !completion.sure || completion.cqe.status != Status::SUCCESS {
        return None;
    }
    let entry = tables.entry(completion.queue, completion.entry)?;
    let sqe = entry.item.sqe();
    let (slba, blocks) = blocks_of(&sqe, tables.numbers.blocks)?;
    if sqe.is_read() {
        if completion.length != blocks.saturating_mul(512) {
            return None;
        }
        return Some((entry, slba, blocks, completion.values));
    }
    if sqe.is_compare() && entry.item.length() == sqe.data_length() {
        return Some((entry, slba, blocks, entry.values));
    }
    None
}

// No need at any place.
fn no_needs(alloc: Global, count: usize) -> Result<Vec<Need>, NoMemory> {
    let mut needs = Vec::new(alloc);
    for place in 0..count {
        needs.push(Need::none(place))?;
    }
    Ok(needs)
}

// Notes what all entries would write.
fn note_all_writes(sources: &mut Sources, tables: &mut TraceTables) -> Result<(), NoMemory> {
    for queue in 0..tables.entries.len() {
        let count = match tables.entries.get(queue) {
            Some(entries) => entries.len(),
            None => 0,
        };
        for number in 0..count {
            if let Some(entry) = tables.entry(queue, number) {
                sources.note_writes(tables, &entry)?;
            }
        }
    }
    Ok(())
}

/// Matches completions and entries, and fills in what has to happen around the values of blocks.
pub(crate) fn match_completions(alloc: Global, tables: &mut TraceTables) -> Result<(), NoMemory> {
    for queue in 0..tables.entries.len() {
        if let Some(by_cid) = tables.by_cid.get_mut(queue) {
            by_cid.sort()?;
        }
        let by_cid = match tables.entries.get(queue) {
            Some(entries) => entries_by_cid(alloc, entries)?,
            None => Vec::new(alloc),
        };
        tables.note_reused(queue, &by_cid);
        tables.match_queue(queue, &by_cid);
    }
    if tables.options.statuses_any {
        refuse_entries(alloc, tables)?;
    }
    tables.needs = no_needs(alloc, tables.values.len())?;
    let mut sources = Sources {
        places: HashMap::new(alloc),
        lines: HashMap::new(alloc),
    };
    note_all_writes(&mut sources, tables)?;
    let count = tables.completions.len();
    if !tables.first.is_empty() {
        for number in 0..count {
            if let Some(completion) = tables.completion(number) {
                sources.note_firsts(tables, &completion);
            }
        }
    }
    for number in 0..count {
        if let Some(completion) = tables.completion(number) {
            sources.note_completion(tables, &completion);
        }
    }
    join_chains(alloc, &sources, tables)
}
