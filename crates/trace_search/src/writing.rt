//! The history whose steps a search found.

use crate::beginning::{Source, ZEROS, add_block, first_sources, write_beginning};
use crate::units::UnitWriter;
use entry_codec::{Cqe, encode_cqe};
use history::{Entry, FetchLine, PostLine, PublishLine, ReapLine};
use nvme_model::array::Range;
use nvme_model::status::Verdict;
use nvme_model::submission::{Batch, Payload, copies_of};
use std::alloc::{AllocError as NoMemory, Global};
use trace::{ReapedLine, Seen, TraceOptions, refused};
use trace_walk::{
    Gives, Line, Move, SoughtTicket, TraceTables, Walk, number_at, set_number, status_of, zeros,
};

#[derive(Drop)]
struct Writer {
    alloc: Global,
    units: UnitWriter,
    // how many lines of the trace, how many Reaps of it, and how many Fetches, were written; and how many tickets stand
    // for what was there
    lines: usize,
    reaped: usize,
    tickets: u64,
    before: u64,
    // by completion, the line of its Reap, and its bytes, where they aren't the trace's
    reaps: Vec<usize>,
    cqes: Vec<Option<[u8; 16]>>,
    // by submission queue, how many entries were fetched; by completion queue, how many completions were posted
    fetched: Vec<usize>,
    posted: Vec<usize>,
    // by block: the line, the entry there, and the block of its data that was written last
    sources: Vec<Source>,
    // by ticket, what a Read read whose completion isn't reaped
    reads: Vec<(u64, Vec<u8>)>,
}

// The entries of a Publish, those that were refused as a history has them.
fn copy_publish(
    alloc: Global,
    tables: &TraceTables,
    place: usize,
    line: &PublishLine,
) -> Result<Entry, NoMemory> {
    let mut batch = copies_of(alloc, line.batch.as_slice())?;
    if let Some(Line::Publish(queue, before, _)) = tables.lines.get(place).copied() {
        for k in 0..batch.len() {
            let known = tables.entry(queue, before.saturating_add(k));
            if known.is_some_and(|known| known.refused) {
                let bytes = refused(&batch[k].entry);
                batch[k].entry = bytes;
            }
        }
    }
    Ok(Entry::Publish(PublishLine {
        queue: line.queue,
        batch: Batch::new(batch),
    }))
}

fn reap_of(line: &ReapedLine, cqe: Option<[u8; 16]>) -> Entry {
    Entry::Reap(ReapLine {
        queue: line.queue,
        cqe: cqe.unwrap_or(line.cqe),
    })
}

fn post_of(
    alloc: Global,
    ticket: u64,
    line: &ReapedLine,
    cqe: [u8; 16],
) -> Result<Entry, NoMemory> {
    let payload = Payload::copy_of(alloc, line.payload.as_slice())?;
    Ok(Entry::Post(PostLine {
        ticket,
        cqe,
        payload,
    }))
}

// By completion, the line of its Reap.
fn reaps_of(alloc: Global, trace: &[Seen]) -> Result<Vec<usize>, NoMemory> {
    let mut reaps = Vec::new(alloc);
    let mut place = 0usize;
    for seen in trace {
        match seen {
            Seen::Published(_) => {}
            Seen::Reaped(_) => reaps.push(place)?,
        }
        place = place.saturating_add(1);
    }
    Ok(reaps)
}

impl Writer {
    fn line(&mut self, tables: &TraceTables, trace: &[Seen]) -> Result<(), NoMemory> {
        if let Some(seen) = trace.get(self.lines) {
            let entry = match seen {
                Seen::Published(line) => copy_publish(self.alloc, tables, self.lines, line)?,
                Seen::Reaped(line) => {
                    let cqe = self.cqes.get(self.reaped).copied().flatten();
                    self.reaped = self.reaped.saturating_add(1);
                    reap_of(line, cqe)
                }
            };
            self.units.entries.push(entry)?;
        }
        self.lines = self.lines.saturating_add(1);
        Ok(())
    }

    fn fetch(&mut self, queue: usize, walk: &Walk) -> Result<(), NoMemory> {
        let place = self.tickets.min(u64::from(u32::MAX)) as usize;
        let Some(known) = walk.ticket(place) else {
            return Ok(());
        };
        self.tickets = self.tickets.saturating_add(1);
        let ticket = self.before.saturating_add(self.tickets);
        let fetched = number_at(&self.fetched, queue).saturating_add(usize::from(known.taken));
        set_number(&mut self.fetched, queue, fetched);
        self.units.entries.push(Entry::Fetch(FetchLine {
            queue: wire_number(queue),
            ticket,
            verdict: verdict_of(&known),
        }))?;
        Ok(())
    }

    // The bytes of the next completion of a ticket that owes the status of this number.
    fn cqe_of(&self, tables: &TraceTables, known: &SoughtTicket, code: u16) -> [u8; 16] {
        let cq = tables.cq_of(known.queue);
        let fetched = number_at(&self.fetched, known.queue);
        let head = fetched.checked_rem(usize::from(tables.numbers.sq_size));
        let round = number_at(&self.posted, cq).checked_div(usize::from(tables.numbers.cq_size));
        encode_cqe(&Cqe {
            sqhd: head.unwrap_or(0).min(65_535) as u16,
            sqid: wire_number(known.queue),
            cid: known.cid(),
            phase: round.unwrap_or(0) % 2 == 0,
            status: status_of(code),
        })
    }

    // A completion that isn't reaped.
    fn post_unseen(
        &mut self,
        tables: &TraceTables,
        ticket: u64,
        known: &SoughtTicket,
    ) -> Result<(), NoMemory> {
        let Some(code) = known.owes() else {
            return Ok(());
        };
        let cqe = self.cqe_of(tables, known, code);
        let payload = self.payload_of(ticket, code)?;
        self.units.entries.push(Entry::Post(PostLine {
            ticket,
            cqe,
            payload,
        }))?;
        Ok(())
    }

    // What a Read read whose completion isn't reaped.
    fn payload_of(&self, ticket: u64, code: u16) -> Result<Payload, NoMemory> {
        for (known, bytes) in self.reads.as_slice() {
            if *known == ticket && code == 0 {
                return Payload::copy_of(self.alloc, bytes.as_slice());
            }
        }
        Ok(Payload::new(Vec::new(self.alloc)))
    }

    fn post(
        &mut self,
        tables: &TraceTables,
        trace: &[Seen],
        which: usize,
        ticket: u64,
        known: &SoughtTicket,
    ) -> Result<(), NoMemory> {
        let line = self.reaps.get(which).copied().unwrap_or(usize::MAX);
        match trace.get(line) {
            Some(Seen::Reaped(line)) => {
                let mut cqe = line.cqe;
                if tables.options != TraceOptions::none() {
                    cqe = self.cqe_of(tables, known, known.owes().unwrap_or(0));
                }
                if let Some(told) = self.cqes.get_mut(which) {
                    *told = Some(cqe);
                }
                let entry = post_of(self.alloc, ticket, line, cqe)?;
                self.units.entries.push(entry)?;
            }
            Some(Seen::Published(_)) | None => self.post_unseen(tables, ticket, known)?,
        }
        let cq = tables.cq_of(known.queue);
        let posted = number_at(&self.posted, cq).saturating_add(1);
        set_number(&mut self.posted, cq, posted);
        Ok(())
    }

    // The bytes of a block as it was written last.
    fn add_block(&self, trace: &[Seen], block: u64, bytes: &mut Vec<u8>) -> Result<(), NoMemory> {
        let place = block.min(65_536) as usize;
        let source = self.sources.get(place).copied().unwrap_or(ZEROS);
        add_block(trace, source, bytes)
    }

    // Notes what a unit reads whose ticket's completion isn't reaped.
    fn note_read(&mut self, trace: &[Seen], ticket: u64, range: &Range) -> Result<(), NoMemory> {
        let mut bytes = Vec::new(self.alloc);
        let known = self.reads.iter().position(|read| read.0 == ticket);
        if let Some(place) = known {
            if place < self.reads.len() {
                bytes = self.reads.swap_remove(place).1;
            }
        }
        for k in 0..range.blocks {
            self.add_block(trace, range.slba.saturating_add(u64::from(k)), &mut bytes)?;
        }
        self.reads.push((ticket, bytes))?;
        Ok(())
    }

    // Notes who wrote these blocks.
    fn note_written(&mut self, tables: &TraceTables, range: &Range, known: &SoughtTicket) {
        let mut entry = known.first;
        if known.compares() {
            entry = entry.saturating_add(1);
        }
        let mut line = ZEROS.0;
        let mut item = ZEROS.1;
        if let (Gives::Values(_), Some(published)) = (
            known.gives,
            tables.entry(known.queue, entry),
        ) {
            line = published.line;
            item = published.place;
        }
        for k in 0..range.blocks {
            let block = range.slba.saturating_add(u64::from(k));
            if let Some(source) = self.sources.get_mut(block.min(65_536) as usize) {
                *source = (line, item, known.behind(block));
            }
        }
    }

    fn note_unit(
        &mut self,
        tables: &TraceTables,
        trace: &[Seen],
        ticket: u64,
        range: &Range,
        equal: u32,
        known: &SoughtTicket,
    ) -> Result<(), NoMemory> {
        if known.writes() && (!known.compares() || equal >= range.blocks) {
            self.note_written(tables, range, known);
            return Ok(());
        }
        if known.want.is_none() && !known.writes() && !known.compares() {
            return self.note_read(trace, ticket, range);
        }
        Ok(())
    }

    fn known_step(
        &mut self,
        tables: &TraceTables,
        trace: &[Seen],
        step: Move,
        known: &mut SoughtTicket,
    ) -> Result<(), NoMemory> {
        match step {
            Move::Line | Move::Fetch(_) => Ok(()),
            Move::Post(which, number, posts, _) => {
                known.posts = posts;
                let ticket = self.before.saturating_add(number_of(number));
                self.post(tables, trace, which, ticket, known)
            }
            Move::Unit(number, unit, range, equal) => {
                let ticket = self.before.saturating_add(number_of(number));
                self.note_unit(tables, trace, ticket, &range, equal, known)?;
                self.units.unit(ticket, unit, &range, equal, known)
            }
        }
    }

    fn step(
        &mut self,
        tables: &TraceTables,
        trace: &[Seen],
        walk: &Walk,
        step: Move,
    ) -> Result<(), NoMemory> {
        let number = match step {
            Move::Line => return self.line(tables, trace),
            Move::Fetch(queue) => return self.fetch(queue, walk),
            Move::Post(_, number, _, _) => number,
            Move::Unit(number, _, _, _) => number,
        };
        match walk.ticket(number) {
            Some(mut known) => self.known_step(tables, trace, step, &mut known),
            None => Ok(()),
        }
    }
}

// What a history says of a ticket's checks.
fn verdict_of(known: &SoughtTicket) -> Verdict {
    let first = status_of(known.codes[0]);
    let second = status_of(known.codes[1]);
    match (known.taken == 2, known.failed) {
        (false, false) => Verdict::Single,
        (false, true) => Verdict::SingleFailed(first),
        (true, false) => Verdict::Pair,
        (true, true) => Verdict::PairFailed(first, second),
    }
}

// The number of a queue, from 1.
fn wire_number(queue: usize) -> u16 {
    queue.min(65_534) as u16 + 1
}

// As many completions as are reaped, without bytes.
fn no_cqes(alloc: Global, count: usize) -> Result<Vec<Option<[u8; 16]>>, NoMemory> {
    let mut cqes = Vec::new(alloc);
    for _ in 0..count {
        cqes.push(None)?;
    }
    Ok(cqes)
}

fn new_writer(
    alloc: Global,
    tables: &TraceTables,
    trace: &[Seen],
    walk: &Walk,
) -> Result<Writer, NoMemory> {
    let sources = first_sources(alloc, tables, walk)?;
    let mut entries = Vec::new(alloc);
    let before = write_beginning(alloc, tables, trace, &sources, &mut entries)?;
    let reaps = reaps_of(alloc, trace)?;
    let cqes = no_cqes(alloc, reaps.len())?;
    Ok(Writer {
        alloc,
        units: UnitWriter { entries },
        lines: 0,
        reaped: 0,
        tickets: 0,
        before,
        reaps,
        cqes,
        fetched: zeros(alloc, usize::from(tables.numbers.pairs))?,
        posted: zeros(alloc, usize::from(tables.numbers.cqs))?,
        sources,
        reads: Vec::new(alloc),
    })
}

// The number of a ticket in a history, from 1.
fn number_of(number: usize) -> u64 {
    (number as u64).saturating_add(1)
}

/// The entries of the history whose steps were found for this trace, the oldest first. They are right only as far as
/// the search was. Where contents are unknown they begin with the Writes that stand for what was there.
///
/// # Errors
///
/// `NoMemory` where a growth is refused.
pub fn write_witness(
    alloc: Global,
    tables: &TraceTables,
    trace: &[Seen],
    walk: &Walk,
) -> Result<Vec<Entry>, NoMemory> {
    let mut writer = new_writer(alloc, tables, trace, walk)?;
    for step in walk.moves() {
        writer.step(tables, trace, walk, *step)?;
    }
    Ok(writer.units.entries)
}
