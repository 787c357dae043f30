//! Tables of a trace.

ghost use Rattle.std.specs.Prelude.{◌≡◌, ◌&&◌, ◌+◌, ◌==◌, [], Bool, List, OnOk, Some, if◌then◌else◌, is_none, ℕ};
ghost use Rattle.std.specs.Prelude.{nat_eq, unwrap_or};
ghost use Rattle.std.specs.Prelude.{◌<◌, ◌^◌, ◌∷◌, IfOk, length, reverse};
ghost use Rattle.std.specs.HashMap.{get};
ghost use Rattle.host_laws.specs.Book.{cid_of, with_entry, without_entry};
ghost use Rattle.trace.specs.declared.seen.Seen.{Seen};
ghost use Rattle.refutation_check.specs.Answers.{KnowsAnswers, answers_in};

use crate::bytes::{cid_named, cid_of, queue_of};
use nvme_model::entry::PublishLine;
use nvme_model::submission::Submission;
use std::alloc::{AllocError as NoMemory, Global};
use std::collections::HashMap;
use trace::{ReapedLine, Seen};

/// A CID of a submission queue.
#[derive(Clone, Copy, Debug, Drop, PartialEq, Eq, Hash)]
pub struct EntryCid {
    pub queue: u16,
    pub cid: u16,
}

/// An entry of a submission queue, by its number there.
#[derive(Clone, Copy, Debug, Drop, PartialEq, Eq, Hash)]
pub struct EntryNumber {
    pub queue: u16,
    pub number: u64,
}

/// Where an entry is published: the line, from 0, and the place there.
#[derive(Clone, Copy, Debug, Drop, PartialEq, Eq)]
pub struct EntryPlace {
    pub line: usize,
    pub place: usize,
}

/// Tables of a trace: its entries, those that wait, and the lines that answer them.
#[derive(Drop)]
pub struct TraceAnswers {
    /// How many entries were published, by submission queue.
    pub published: HashMap<u16, u64>,
    /// Where each is.
    pub entries: HashMap<EntryNumber, EntryPlace>,
    /// The numbers of the entries that wait.
    pub waiting: HashMap<EntryCid, u64>,
    /// The lines that answer entries, from 0.
    pub answers: HashMap<EntryNumber, usize>,
    /// Whether no CID was published again while it waited.
    pub tidy: bool,
}

/// How many are counted of a queue.
pub(crate) fn count_of(counts: &HashMap<u16, u64>, queue: u16) -> u64
    ensures value { result ≡ unwrap_or (get nat_eq counts.now queue) 0 }
{
    counts.get(&queue).copied().unwrap_or(0)
}

/// Counts one more of a queue.
///
/// # Errors
///
/// `NoMemory` alone.
pub(crate) fn add_one(counts: &mut HashMap<u16, u64>, queue: u16) -> Result<(), NoMemory>
    ensures ok { OnOk result ((q : ℕ) →
        unwrap_or (get nat_eq counts.new q) 0 ≡ unwrap_or (get nat_eq counts.old q) 0 + (if queue == q then 1 else 0)) }
    ensures few { OnOk result (unwrap_or (get nat_eq counts.new queue) 0 < 2 ^ 64) }
{
    let Some(more) = count_of(counts, queue).checked_add(1) else {
        return Err(NoMemory);
    };
    counts.insert(queue, more)?;
    Ok(())
}

// A number of 16 bits.
fn short_fits(number: u16)
    ensures { number < 2 ^ 16 }
{
    let _ = number;
}

impl TraceAnswers {
    /// The tables of no lines.
    pub fn new(alloc: Global) -> TraceAnswers
        ensures knows { KnowsAnswers [] (answers_in result) }
    {
        TraceAnswers {
            published: HashMap::new(alloc),
            entries: HashMap::new(alloc),
            waiting: HashMap::new(alloc),
            answers: HashMap::new(alloc),
            tidy: true,
        }
    }

    fn publish_one(
        &mut self,
        queue: u16,
        entry: &Submission,
        at: EntryPlace,
    ) -> Result<(), NoMemory>
        ensures published { OnOk result ((q : ℕ) → (answers_in self.new).published q ≡
            (answers_in self.old).published q + (if queue == q then 1 else 0)) }
        ensures entries { OnOk result ((q j : ℕ) → (answers_in self.new).entries q j ≡
            (if (queue == q) && ((answers_in self.old).published queue == j) then Some at
            else (answers_in self.old).entries q j)) }
        ensures waiting { OnOk result ((q cid : ℕ) → (answers_in self.new).waiting q cid ≡
            with_entry (answers_in self.old).waiting queue (cid_of entry.now)
            ((answers_in self.old).published queue) q cid) }
        ensures answers { OnOk result ((q j : ℕ) →
            (answers_in self.new).answers q j ≡ (answers_in self.old).answers q j) }
        ensures tidy { OnOk result ((answers_in self.new).tidy ≡
            ((answers_in self.old).tidy && is_none ((answers_in self.old).waiting queue (cid_of entry.now)))) }
        ensures fits { cid_of entry.now < 2 ^ 16 }
        ensures few { OnOk result ((answers_in self.new).published queue < 2 ^ 64) }
    {
        let cid = cid_of(entry);
        let number = count_of(&self.published, queue);
        let before = self.waiting.insert(EntryCid { queue, cid }, number)?;
        self.tidy = self.tidy && before.is_none();
        self.entries.insert(EntryNumber { queue, number }, at)?;
        add_one(&mut self.published, queue)
    }

    fn publish(&mut self, line: &PublishLine, number: usize) -> Result<(), NoMemory>
        ensures { (trace : List Seen) → KnowsAnswers trace (answers_in self.old) → number ≡ length trace →
            OnOk result (KnowsAnswers (Seen.Published line.now ∷ trace) (answers_in self.new)) }
    {
        short_fits(line.queue);
        let batch = line.batch.as_slice();
        for (place, entry) in batch.iter().enumerate() {
            self.publish_one(
                line.queue,
                entry,
                EntryPlace {
                    line: number,
                    place,
                },
            )?;
        }
        Ok(())
    }

    fn take_waiting(&mut self, queue: u16, cid: u16) -> Option<u64>
        ensures value { result ≡ (answers_in self.old).waiting queue cid }
        ensures published { (r : ℕ) → (answers_in self.new).published r ≡ (answers_in self.old).published r }
        ensures entries { (r j : ℕ) → (answers_in self.new).entries r j ≡ (answers_in self.old).entries r j }
        ensures waiting { (r i : ℕ) → (answers_in self.new).waiting r i ≡
            without_entry (answers_in self.old).waiting queue cid r i }
        ensures answers { (r j : ℕ) → (answers_in self.new).answers r j ≡ (answers_in self.old).answers r j }
        ensures tidy { (answers_in self.new).tidy ≡ (answers_in self.old).tidy }
    {
        self.waiting.remove(&EntryCid { queue, cid })
    }

    fn note(&mut self, queue: u16, number: u64, place: usize) -> Result<(), NoMemory>
        ensures published { (r : ℕ) → (answers_in self.new).published r ≡ (answers_in self.old).published r }
        ensures entries { (r j : ℕ) → (answers_in self.new).entries r j ≡ (answers_in self.old).entries r j }
        ensures waiting { (r i : ℕ) → (answers_in self.new).waiting r i ≡ (answers_in self.old).waiting r i }
        ensures answers { OnOk result ((r j : ℕ) → (answers_in self.new).answers r j ≡
            (if (queue == r) && (number == j) then Some place else (answers_in self.old).answers r j)) }
        ensures tidy { (answers_in self.new).tidy ≡ (answers_in self.old).tidy }
    {
        self.answers.insert(EntryNumber { queue, number }, place)?;
        Ok(())
    }

    fn reap(&mut self, line: &ReapedLine, place: usize) -> Result<(), NoMemory>
        ensures { (trace : List Seen) → KnowsAnswers trace (answers_in self.old) → place ≡ length trace →
            OnOk result (KnowsAnswers (Seen.Reaped line.now ∷ trace) (answers_in self.new)) }
    {
        let queue = queue_of(&line.cqe);
        match self.take_waiting(queue, cid_named(&line.cqe)) {
            Some(number) => self.note(queue, number, place),
            None => Ok(()),
        }
    }

    /// Takes the next line, which has this number, from 0.
    ///
    /// # Errors
    ///
    /// `NoMemory` alone; the tables are then of no use.
    pub fn take(&mut self, line: &Seen, place: usize) -> Result<(), NoMemory>
        ensures { (trace : List Seen) → KnowsAnswers trace (answers_in self.old) → place ≡ length trace →
            OnOk result (KnowsAnswers (line.now ∷ trace) (answers_in self.new)) }
    {
        match line {
            Seen::Published(line) => self.publish(line, place),
            Seen::Reaped(line) => self.reap(line, place),
        }
    }

    /// The tables of a trace, the oldest line first: one pass over it.
    ///
    /// # Errors
    ///
    /// `NoMemory` alone.
    pub fn of_trace(alloc: Global, trace: &[Seen]) -> Result<TraceAnswers, NoMemory>
        ensures knows { IfOk result (λ t. KnowsAnswers (reverse trace.now) (answers_in t)) }
    {
        let mut tables = TraceAnswers::new(alloc);
        for (place, line) in trace.iter().enumerate() {
            tables.take(line, place)?;
        }
        Ok(tables)
    }
}
