//! A trace, read into tables.

use crate::matching::match_completions;
use crate::tables::{Awaited, Line, NOBODYS, Published, TraceTables, Unfit};
use crate::values::{add_values, empty_lists};
use entry_codec::{Cqe, Status, decode_cqe};
use fused_match::Item;
use history::Config;
use nvme_model::entry::PublishLine;
use std::alloc::{AllocError as NoMemory, Global};
use trace::{ReapedLine, Seen, TraceOptions, read_completion};

fn empty_tables(
    alloc: Global,
    options: &TraceOptions,
    config: &Config,
) -> Result<TraceTables, NoMemory> {
    let numbers = config.numbers();
    let mut first = Vec::new(alloc);
    if options.contents_unknown {
        for _ in 0..numbers.blocks {
            first.push(NOBODYS)?;
        }
    }
    Ok(TraceTables {
        options: *options,
        numbers,
        units: config.units(),
        lines: Vec::new(alloc),
        entries: empty_lists(alloc, numbers.pairs)?,
        completions: Vec::new(alloc),
        wanted: empty_lists(alloc, numbers.cqs)?,
        awaited: empty_lists(alloc, numbers.pairs)?,
        by_cid: empty_lists(alloc, numbers.pairs)?,
        values: Vec::new(alloc),
        needs: Vec::new(alloc),
        first,
        unfit: None,
        crowded: false,
        tidy: false,
    })
}

impl TraceTables {
    // Adds the entries of a Publish.
    fn add_entries(&mut self, queue: usize, line: &PublishLine) -> Result<(), NoMemory> {
        let number = self.lines.len();
        let mut place = 0usize;
        for submission in line.batch.as_slice() {
            let values = self.values.len();
            add_values(&mut self.values, submission.payload.as_slice())?;
            if let Some(entries) = self.entries.get_mut(queue) {
                entries.push(Published {
                    line: number,
                    place,
                    item: Item::of(submission),
                    values,
                    answered: usize::MAX,
                    succeeded: usize::MAX,
                    refused: false,
                    doubtful: false,
                    reused: false,
                })?;
            }
            place = place.saturating_add(1);
        }
        Ok(())
    }

    fn published(&self, queue: usize) -> usize {
        match self.entries.get(queue) {
            Some(entries) => entries.len(),
            None => 0,
        }
    }

    // Adds a line of a Publish, or says why it can't be.
    fn add_publish(&mut self, line: &PublishLine) -> Result<Option<Unfit>, NoMemory> {
        if line.queue == 0 || line.queue > self.numbers.pairs {
            return Ok(Some(Unfit::Queue));
        }
        let queue = usize::from(line.queue - 1);
        let before = self.published(queue);
        self.add_entries(queue, line)?;
        let after = self.published(queue);
        self.lines.push(Line::Publish(queue, before, after))?;
        Ok(None)
    }

    // Why a completion that is the next of this completion queue can't be so.
    fn misfit(&self, cq: usize, cqe: &Cqe) -> Option<Unfit> {
        let number = match self.wanted.get(cq) {
            Some(wanted) => wanted.len(),
            None => 0,
        };
        let round = number.checked_div(usize::from(self.numbers.cq_size));
        if cqe.phase != (round.unwrap_or(0) % 2 == 0) {
            return Some(Unfit::Phase);
        }
        if cqe.sqid == 0 || cqe.sqid > self.numbers.pairs {
            return Some(Unfit::OtherQueue);
        }
        if self.cq_of(usize::from(cqe.sqid - 1)) != cq {
            return Some(Unfit::OtherQueue);
        }
        None
    }

    // Adds a completion of a completion queue.
    fn add_completion(&mut self, cq: usize, cqe: Cqe, data: &[u8]) -> Result<(), NoMemory> {
        let which = self.completions.len();
        let cid = cqe.cid;
        let queue = usize::from(cqe.sqid.saturating_sub(1));
        let line = self.lines.len();
        let values = self.values.len();
        add_values(&mut self.values, data)?;
        self.completions.push(Awaited {
            line,
            queue,
            cqe,
            values,
            length: data.len(),
            entry: usize::MAX,
            sure: false,
        })?;
        if let Some(wanted) = self.wanted.get_mut(cq) {
            wanted.push(which)?;
        }
        if let Some(awaited) = self.awaited.get_mut(queue) {
            let place = awaited.len();
            awaited.push(which)?;
            if let Some(by_cid) = self.by_cid.get_mut(queue) {
                by_cid.push((cid, place))?;
            }
        }
        self.lines.push(Line::Reap(cq))?;
        Ok(())
    }

    // Adds a line of a Reap, or says why it can't be.
    fn add_reap(&mut self, line: &ReapedLine) -> Result<Option<Unfit>, NoMemory> {
        if line.queue == 0 || line.queue > self.numbers.cqs {
            return Ok(Some(Unfit::Queue));
        }
        let cq = usize::from(line.queue - 1);
        let Ok(cqe) = decode_cqe(&read_completion(&self.options, &line.cqe)) else {
            return Ok(Some(Unfit::Reserved));
        };
        let unfit = self.misfit(cq, &cqe);
        if unfit.is_none() {
            self.add_completion(cq, cqe, line.payload.as_slice())?;
        }
        Ok(unfit)
    }

    fn add_line(&mut self, seen: &Seen) -> Result<Option<Unfit>, NoMemory> {
        match seen {
            Seen::Published(line) => self.add_publish(line),
            Seen::Reaped(line) => self.add_reap(line),
        }
    }

    // Whether more entries than tickets may be are published and not answered somewhere.
    fn is_crowded(&self) -> bool {
        let mut out = 0usize;
        for line in self.lines.as_slice() {
            match line {
                Line::Publish(_, before, after) => {
                    out = out.saturating_add(after.saturating_sub(*before));
                }
                Line::Reap(_) => out = out.saturating_sub(1),
            }
            if out > usize::from(self.numbers.jobs) {
                return true;
            }
        }
        false
    }

    // Notes which entries succeeded.
    fn note_successes(&mut self) {
        for completion in self.completions.as_slice() {
            if completion.sure && completion.cqe.status == Status::SUCCESS {
                if let Some(entries) = self.entries.get_mut(completion.queue) {
                    if let Some(entry) = entries.get_mut(completion.entry) {
                        entry.succeeded = completion.line;
                    }
                }
            }
        }
    }

    // Whether it is sure what each completion is for, and nothing is open or short.
    fn is_tidy(&self) -> bool {
        for completion in self.completions.as_slice() {
            if !completion.sure {
                return false;
            }
        }
        !self.crowded && !self.options.statuses_any && self.first.is_empty()
    }
}

/// The tables of a trace that these options read, up to the first line that can't be so.
///
/// # Errors
///
/// `NoMemory` alone.
pub fn read_tables(
    alloc: Global,
    options: &TraceOptions,
    config: &Config,
    trace: &[Seen],
) -> Result<TraceTables, NoMemory> {
    let mut tables = empty_tables(alloc, options, config)?;
    for seen in trace {
        let unfit = tables.add_line(seen)?;
        if unfit.is_some() {
            tables.unfit = unfit;
            break;
        }
    }
    tables.crowded = tables.is_crowded();
    match_completions(alloc, &mut tables)?;
    tables.note_successes();
    tables.tidy = tables.is_tidy();
    Ok(tables)
}
