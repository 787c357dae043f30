//! How far the queues and the tickets have come.

ghost use Rattle.std.specs.Prelude.{IfOk, List, None, OnErr, OnOk, Option, Some, [], if◌then◌else◌, length, nat_eq};
ghost use Rattle.std.specs.Prelude.{slice_get};
ghost use Rattle.std.specs.Prelude.{true, unwrap_or, ℕ, ◌&&◌, ◌+◌, ◌==◌, ◌≡◌, ◌∷◌};
ghost use Rattle.std.specs.HashMap.{get};
ghost use Rattle.nvme_model.specs.History.{Past};
ghost use Rattle.nvme_model.specs.Legal.{IsLegal};
ghost use Rattle.nvme_model.specs.Slots.{says_success};
ghost use Rattle.nvme_model.specs.declared.config.ConfigNumbers.{ConfigNumbers};
ghost use Rattle.nvme_model.specs.declared.entry.Entry.{Entry};
ghost use Rattle.slot_check.specs.Progress.{KnowsProgress, after_completion, progress_in};

use crate::queue::completion_queue;
use byteorder::{ByteOrder, LittleEndian};
use history::Config;
use nvme_model::entry::{FetchLine, PostLine, PublishLine, ReapLine};
use std::alloc::{AllocError as NoMemory, Global};
use std::collections::HashMap;

/// A ticket in flight: its submission queue, the number there of the entry that its next completion is for, and how
/// many of its completions aren't posted yet.
#[derive(Clone, Copy, Debug, Drop, PartialEq, Eq)]
pub struct Flying {
    pub queue: u16,
    pub next: u64,
    pub left: u64,
}

/// A completion: the submission queue and the number there of the entry that it is for, and whether it says success.
#[derive(Clone, Copy, Debug, Drop, PartialEq, Eq)]
pub struct Completed {
    pub queue: u16,
    pub number: u64,
    pub success: bool,
}

/// A place in a completion queue, counted from 0 and never reused.
#[derive(Clone, Copy, Debug, Drop, PartialEq, Eq, Hash)]
pub struct CompletionPlace {
    pub queue: u16,
    pub index: u64,
}

/// How far the queues and the tickets have come. Nothing is kept of a ticket behind its last completion, nor of a
/// completion that was reaped.
#[derive(Drop)]
pub struct QueueProgress {
    /// Entries, by submission queue.
    pub published: HashMap<u16, u64>,
    /// The same.
    pub fetched: HashMap<u16, u64>,
    /// Completions, by completion queue.
    pub posted: HashMap<u16, u64>,
    /// The same.
    pub reaped: HashMap<u16, u64>,
    /// By ticket.
    pub flying: HashMap<u64, Flying>,
    /// The completions that weren't reaped yet.
    pub waiting: HashMap<CompletionPlace, Completed>,
}

// How many are counted of a queue.
fn count_of(counts: &HashMap<u16, u64>, queue: u16) -> u64
    ensures value { result ≡ unwrap_or (get nat_eq counts.now queue) 0 }
{
    counts.get(&queue).copied().unwrap_or(0)
}

// Counts n more of a queue.
fn add_count(counts: &mut HashMap<u16, u64>, queue: u16, n: u64) -> Result<(), NoMemory>
    ensures ok { OnOk result ((q : ℕ) →
        unwrap_or (get nat_eq counts.new q) 0 ≡ unwrap_or (get nat_eq counts.old q) 0 + (if queue == q then n else 0)) }
    ensures err { (q : ℕ) → OnErr result (
        unwrap_or (get nat_eq counts.new q) 0 ≡ unwrap_or (get nat_eq counts.old q) 0) }
{
    let Some(more) = count_of(counts, queue).checked_add(n) else {
        return Err(NoMemory);
    };
    if counts.insert(queue, more).is_err() {
        return Err(NoMemory);
    }
    Ok(())
}

// Whether a completion says success.
fn says_success(cqe: &[u8; 16]) -> bool
    ensures value { result ≡ says_success cqe.now }
{
    LittleEndian::read_u16(&cqe[14..16]) / 2 == 0
}

impl QueueProgress {
    /// No step was made.
    pub fn new(alloc: Global) -> QueueProgress
        ensures knows { (c : ConfigNumbers) → KnowsProgress c [] (progress_in result) }
    {
        QueueProgress {
            published: HashMap::new(alloc),
            fetched: HashMap::new(alloc),
            posted: HashMap::new(alloc),
            reaped: HashMap::new(alloc),
            flying: HashMap::new(alloc),
            waiting: HashMap::new(alloc),
        }
    }

    /// How many entries were published to a submission queue.
    pub fn published(&self, queue: u16) -> u64
        ensures value { result ≡ (progress_in self.now).published queue }
    {
        count_of(&self.published, queue)
    }

    /// A ticket in flight.
    pub fn flying(&self, ticket: u64) -> Option<Flying>
        ensures value { result ≡ (progress_in self.now).flying ticket }
    {
        self.flying.get(&ticket).copied()
    }

    /// Takes a Publish.
    ///
    /// # Errors
    ///
    /// `NoMemory` where a growth is refused; what was known is still known.
    pub fn publish(&mut self, line: &PublishLine) -> Result<(), NoMemory>
        ensures ok { (c : ConfigNumbers) (past : Past) → KnowsProgress c past (progress_in self.old) →
            OnOk result (KnowsProgress c (Entry.Publish line.now ∷ past) (progress_in self.new)) }
        ensures err { (c : ConfigNumbers) (past : Past) → KnowsProgress c past (progress_in self.old) →
            OnErr result (KnowsProgress c past (progress_in self.new)) }
    {
        let count = line.batch.as_slice().len() as u64;
        add_count(&mut self.published, line.queue, count)?;
        Ok(())
    }

    /// Takes a Fetch that may follow.
    ///
    /// # Errors
    ///
    /// `NoMemory` where a growth is refused; what was known is still known.
    pub fn fetch(&mut self, line: &FetchLine) -> Result<(), NoMemory>
        ensures ok { (c : ConfigNumbers) (past : Past) → KnowsProgress c past (progress_in self.old) →
            IsLegal c (Entry.Fetch line.now ∷ past) →
            OnOk result (KnowsProgress c (Entry.Fetch line.now ∷ past) (progress_in self.new)) }
        ensures err { (c : ConfigNumbers) (past : Past) → KnowsProgress c past (progress_in self.old) →
            OnErr result (KnowsProgress c past (progress_in self.new)) }
    {
        self.flying.reserve(1)?;
        let next = count_of(&self.fetched, line.queue);
        let taken = u64::from(line.verdict.taken());
        add_count(&mut self.fetched, line.queue, taken)?;
        let flying = Flying {
            queue: line.queue,
            next,
            left: taken,
        };
        let put: Result<_, _> = self.flying.insert(line.ticket, flying);
        put.unwrap();
        Ok(())
    }

    // Adds a completion of a ticket in flight, and moves the ticket on.
    fn complete(
        &mut self,
        queue: u16,
        ticket: u64,
        flying: Flying,
        success: bool,
    ) -> Result<(), NoMemory>
        requires there { (progress_in self.old).flying ticket ≡ Some flying }
        ensures published { (q : ℕ) → (progress_in self.new).published q ≡ (progress_in self.old).published q }
        ensures fetched { (q : ℕ) → (progress_in self.new).fetched q ≡ (progress_in self.old).fetched q }
        ensures reaped { (q : ℕ) → (progress_in self.new).reaped q ≡ (progress_in self.old).reaped q }
        ensures posted { OnOk result ((q : ℕ) →
            (progress_in self.new).posted q ≡ (progress_in self.old).posted q + (if queue == q then 1 else 0)) }
        ensures flying { OnOk result ((t : ℕ) → (progress_in self.new).flying t ≡
            (if ticket == t then after_completion flying else (progress_in self.old).flying t)) }
        ensures waiting { OnOk result ((q i : ℕ) → (progress_in self.new).waiting q i ≡
            (if (queue == q) && ((progress_in self.old).posted queue == i)
            then Some (record { queue = flying.queue; number = flying.next; success = success })
            else (progress_in self.old).waiting q i)) }
        ensures no_post { OnErr result ((q : ℕ) →
            (progress_in self.new).posted q ≡ (progress_in self.old).posted q) }
        ensures no_move { OnErr result ((t : ℕ) →
            (progress_in self.new).flying t ≡ (progress_in self.old).flying t) }
        ensures none_waits { OnErr result ((q i : ℕ) →
            (progress_in self.new).waiting q i ≡ (progress_in self.old).waiting q i) }
    {
        let Some(next) = flying.next.checked_add(1) else {
            return Err(NoMemory);
        };
        self.waiting.reserve(1)?;
        let index = count_of(&self.posted, queue);
        add_count(&mut self.posted, queue, 1)?;
        let completed = Completed {
            queue: flying.queue,
            number: flying.next,
            success,
        };
        let place = CompletionPlace { queue, index };
        let added: Result<_, _> = self.waiting.insert(place, completed);
        added.unwrap();
        if flying.left <= 1 {
            self.flying.remove(&ticket);
            return Ok(());
        }
        let moved = Flying {
            queue: flying.queue,
            next,
            left: flying.left - 1,
        };
        let put: Result<_, _> = self.flying.insert(ticket, moved);
        put.unwrap();
        Ok(())
    }

    /// Takes a Post that may follow.
    ///
    /// # Errors
    ///
    /// `NoMemory` where a growth is refused; what was known is still known.
    pub fn post(&mut self, config: &Config, line: &PostLine) -> Result<(), NoMemory>
        ensures ok { (past : Past) → KnowsProgress config.now past (progress_in self.old) →
            IsLegal config.now (Entry.Post line.now ∷ past) →
            OnOk result (KnowsProgress config.now (Entry.Post line.now ∷ past) (progress_in self.new)) }
        ensures err { (past : Past) → KnowsProgress config.now past (progress_in self.old) →
            OnErr result (KnowsProgress config.now past (progress_in self.new)) }
    {
        let Some(flying) = self.flying.get(&line.ticket).copied() else {
            return Ok(());
        };
        let queue = completion_queue(config, flying.queue);
        self.complete(queue, line.ticket, flying, says_success(&line.cqe))?;
        Ok(())
    }

    /// Takes a Reap, and gives the completion that it takes.
    ///
    /// # Errors
    ///
    /// `NoMemory` where a growth is refused; what was known is still known.
    pub fn reap(&mut self, line: &ReapLine) -> Result<Option<Completed>, NoMemory>
        ensures value { IfOk result (λ o. o ≡ (progress_in self.old).waiting line.now.queue
            ((progress_in self.old).reaped line.now.queue)) }
        ensures ok { (c : ConfigNumbers) (past : Past) → KnowsProgress c past (progress_in self.old) →
            OnOk result (KnowsProgress c (Entry.Reap line.now ∷ past) (progress_in self.new)) }
        ensures err { (c : ConfigNumbers) (past : Past) → KnowsProgress c past (progress_in self.old) →
            OnErr result (KnowsProgress c past (progress_in self.new)) }
    {
        let index = count_of(&self.reaped, line.queue);
        add_count(&mut self.reaped, line.queue, 1)?;
        let place = CompletionPlace {
            queue: line.queue,
            index,
        };
        Ok(self.waiting.remove(&place))
    }
}
