//! The entries of the submission queues, as they are published, fetched, served, posted and reaped.

ghost use Rattle.std.specs.Prelude.{◌≡◌, ◌+◌, ◌<◌, ◌≤◌, IfSome, OnOk, length};
ghost use Rattle.nvme_model.specs.Config.{completion_queue};
ghost use Rattle.nvme_model.specs.EntryBytes.{field};
ghost use Rattle.picture_shapes.specs.Bars.{as_fetched, bar_freed, bar_place_of_block, bar_published, bars_after};
ghost use Rattle.picture_shapes.specs.Bars.{bars_fetched, bars_made, bars_posted, bars_published, bars_reaped};
ghost use Rattle.picture_shapes.specs.Bars.{either_place, first_fetched};
ghost use Rattle.picture_shapes.specs.Bars.{no_bars, status_of};

use crate::bar::{Bar, BarStage, Cell, EntryFetch, OpenBar, Posting, stage_place};
use crate::picture_words::PictureWords;
use crate::rows::{LaneRow, Rows};
use byteorder::{ByteOrder, LittleEndian};
use history::{BlockLine, Config, Entry, FetchLine, PostLine, PublishLine, ReapLine};
use history_words::{command_words, completion_words};
use nvme_model::operation::Found;
use nvme_model::status::Status;
use nvme_model::submission::Submission;
use std::alloc::{AllocError as NoMemory, Global};
use std::marker::Model;

/// The entries that aren't reaped yet, those that were, and the cells of their blocks.
#[derive(Drop)]
pub struct Bars {
    alloc: Global,
    /// The rows of the submission queues.
    rows: Rows,
    /// The rows of the completion queues.
    waits: Rows,
    pending: Vec<OpenBar>,
    done: Vec<Bar>,
    cells: Vec<Cell>,
}

impl Model for Bars {
    ghost use Rattle.picture_shapes.specs.Bars.{BarsState};

    ghost Value = { BarsState };

    ghost view = { λ b. record {
      rows = b.rows;
      waits = b.waits;
      pending = b.pending.items;
      done = b.done.items;
      cells = b.cells.items;
    } };
}

// The number in the two bytes from `first` on.
fn u16_at(cqe: &[u8; 16], first: usize) -> u16
    requires { first + 2 ≤ 16 }
    ensures value { result ≡ field first 2 cqe.now }
{
    LittleEndian::read_u16(&cqe[first..first + 2])
}

// The status of a completion.
fn status_of(cqe: &[u8; 16]) -> Status
    ensures value { result ≡ status_of cqe.now }
{
    let word = u16_at(cqe, 14);
    Status::new((word / 512 % 8) as u8, (word / 2 % 256) as u8)
}

// The completion queue that a submission queue uses.
fn completions_of(config: &Config, queue: u16) -> u16
    ensures value { result ≡ completion_queue config.now queue }
{
    queue.saturating_sub(1) % config.numbers().cqs + 1
}

// An entry is fetched.
fn mark_fetched(one: &mut OpenBar, place: u64, ticket: u64, stage: BarStage)
    ensures value { one.new ≡ as_fetched place ticket stage one.old }
{
    one.stage = stage;
    one.bar.fetched = Some(EntryFetch { place, ticket });
}

// The entry that waits first in a submission queue is fetched.
fn fetch_first(pending: &mut Vec<OpenBar>, queue: u16, place: u64, ticket: u64, stage: BarStage)
    ensures value { pending.new.items ≡ first_fetched queue place ticket stage pending.old.items }
{
    let Some(i) = stage_place(pending.as_slice(), BarStage::Published(queue)) else {
        return;
    };
    mark_fetched(&mut pending[i], place, ticket, stage);
}

// Where the entry of a ticket is, of two that may be it.
fn either_place(pending: &[OpenBar], one: BarStage, other: BarStage) -> Option<usize>
    ensures value { result ≡ either_place one other pending.now }
    ensures bound { IfSome result (λ i. i < length pending.now) }
{
    match stage_place(pending, one) {
        Some(i) => Some(i),
        None => stage_place(pending, other),
    }
}

// Where the entry of a Block is: what is written is the second's of a pair.
fn bar_place_of_block(pending: &[OpenBar], line: &BlockLine) -> Option<usize>
    ensures value { result ≡ bar_place_of_block line.now pending.now }
    ensures bound { IfSome result (λ i. i < length pending.now) }
{
    let first = BarStage::Fetched(line.ticket);
    let second = BarStage::Second(line.ticket);
    match line.found {
        Found::Written => either_place(pending, second, first),
        Found::Read | Found::Equal | Found::Differs => either_place(pending, first, second),
    }
}

impl Bars {
    /// None.
    pub fn new(alloc: Global) -> Bars
        ensures none { result ≡ no_bars }
    {
        Bars {
            alloc,
            rows: Rows::new(alloc),
            waits: Rows::new(alloc),
            pending: Vec::new(alloc),
            done: Vec::new(alloc),
            cells: Vec::new(alloc),
        }
    }

    // An entry is published.
    fn publish_one(
        &mut self,
        config: &Config,
        place: u64,
        queue: u16,
        item: &Submission,
    ) -> Result<(), NoMemory>
        ensures value { OnOk result
            (self.new ≡ bar_published config.now place queue item.now self.old) }
    {
        let words = command_words(self.alloc, &item.entry)?;
        let row = self.rows.take(queue)?;
        let bar = Bar {
            queue,
            completions: completions_of(config, queue),
            row,
            words: PictureWords::new(words),
            published: place,
            fetched: None,
            posted: None,
            reaped: None,
        };
        let stage = BarStage::Published(queue);
        if self.pending.push(OpenBar { stage, bar }).is_err() {
            return Err(NoMemory);
        }
        Ok(())
    }

    fn publish(&mut self, config: &Config, place: u64, line: &PublishLine) -> Result<(), NoMemory>
        ensures value { OnOk result
            (self.new ≡ bars_published config.now place line.now.queue line.now.batch self.old) }
    {
        let items = line.batch.as_slice();
        for item in items {
            self.publish_one(config, place, line.queue, item)?;
        }
        Ok(())
    }

    fn fetch(&mut self, place: u64, line: &FetchLine)
        ensures value { self.new ≡ bars_fetched place line.now self.old }
    {
        let ticket = line.ticket;
        fetch_first(
            &mut self.pending,
            line.queue,
            place,
            ticket,
            BarStage::Fetched(ticket),
        );
        if line.verdict.taken() == 2 {
            fetch_first(
                &mut self.pending,
                line.queue,
                place,
                ticket,
                BarStage::Second(ticket),
            );
        }
    }

    fn block(&mut self, from: u64, place: u64, line: &BlockLine) -> Result<(), NoMemory>
        ensures value { OnOk result (self.new ≡ bars_made from place line.now self.old) }
    {
        if place < from {
            return Ok(());
        }
        let Some(i) = bar_place_of_block(self.pending.as_slice(), line) else {
            return Ok(());
        };
        self.cells.push(Cell {
            row: self.pending[i].bar.row,
            place,
            lba: line.lba,
            found: line.found,
            effect: line.effect,
        })?;
        Ok(())
    }

    fn post(&mut self, place: u64, line: &PostLine) -> Result<(), NoMemory>
        ensures value { OnOk result (self.new ≡ bars_posted place line.now self.old) }
    {
        let first = BarStage::Fetched(line.ticket);
        let second = BarStage::Second(line.ticket);
        let Some(i) = either_place(self.pending.as_slice(), first, second) else {
            return Ok(());
        };
        let words = completion_words(self.alloc, &line.cqe)?;
        let OpenBar { stage: _, mut bar } = self.pending.remove(i);
        let row = self.waits.take(bar.completions)?;
        bar.posted = Some(Posting {
            place,
            row,
            cid: u16_at(&line.cqe, 12),
            status: status_of(&line.cqe),
            words: PictureWords::new(words),
        });
        let stage = BarStage::Posted(bar.completions);
        if self.pending.push(OpenBar { stage, bar }).is_err() {
            return Err(NoMemory);
        }
        Ok(())
    }

    // Gives back the rows of an entry that is reaped.
    fn free_rows(&mut self, bar: &Bar)
        ensures value { self.new ≡ bar_freed bar.now self.old }
    {
        self.rows.free(bar.queue, bar.row);
        if let Some(posted) = &bar.posted {
            self.waits.free(bar.completions, posted.row);
        }
    }

    fn reap(&mut self, from: u64, place: u64, line: &ReapLine) -> Result<(), NoMemory>
        ensures value { OnOk result (self.new ≡ bars_reaped from place line.now self.old) }
    {
        let Some(i) = stage_place(self.pending.as_slice(), BarStage::Posted(line.queue)) else {
            return Ok(());
        };
        let OpenBar { stage: _, mut bar } = self.pending.remove(i);
        self.free_rows(&bar);
        if place < from {
            return Ok(());
        }
        bar.reaped = Some(place);
        if self.done.push(bar).is_err() {
            return Err(NoMemory);
        }
        Ok(())
    }

    /// Takes the entry at this place, which may follow. Of an entry before `from` that is reaped nothing is kept.
    ///
    /// # Errors
    ///
    /// `NoMemory` where a growth is refused.
    pub fn take(
        &mut self,
        config: &Config,
        from: u64,
        place: u64,
        entry: &Entry,
    ) -> Result<(), NoMemory>
        ensures value { OnOk result (self.new ≡ bars_after config.now from place entry.now self.old) }
    {
        match entry {
            Entry::Publish(line) => self.publish(config, place, line),
            Entry::Fetch(line) => {
                self.fetch(place, line);
                Ok(())
            }
            Entry::Grant(_) => Ok(()),
            Entry::Block(line) => self.block(from, place, line),
            Entry::Post(line) => self.post(place, line),
            Entry::Reap(line) => self.reap(from, place, line),
        }
    }

    /// The rows of the submission queues.
    pub fn rows(&self) -> &[LaneRow]
        ensures { result.now ≡ self.now.rows }
    {
        self.rows.as_slice()
    }

    /// The rows of the completion queues.
    pub fn waits(&self) -> &[LaneRow]
        ensures { result.now ≡ self.now.waits }
    {
        self.waits.as_slice()
    }

    /// The entries that aren't reaped.
    pub fn pending(&self) -> &[OpenBar]
        ensures { result.now ≡ self.now.pending }
    {
        self.pending.as_slice()
    }

    /// The entries that were reaped.
    pub fn done(&self) -> &[Bar]
        ensures { result.now ≡ self.now.done }
    {
        self.done.as_slice()
    }

    pub fn cells(&self) -> &[Cell]
        ensures { result.now ≡ self.now.cells }
    {
        self.cells.as_slice()
    }
}
