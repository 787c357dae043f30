//! The tickets in flight.

ghost use Rattle.std.specs.Option.{option_copied_mut};
ghost use Rattle.std.specs.Borrow.{sem};
ghost use Rattle.std.specs.Prelude.{◌≡◌, ◌<◌, ◌≤◌, ◌==◌, ◌++◌, ◌↔◌, [], ◌∷◌, IfErr, IfNone, IfOk, IfSome, IsTrue};
ghost use Rattle.std.specs.Prelude.{MatchOption, None, OnErr, OnOk, Some, false, is_some, length, option_copied};
ghost use Rattle.std.specs.Prelude.{slice_get, true};
ghost use Rattle.job_table.specs.Jobs.{AreTicketsRising, all_jobs_below, has_job_of, job_of, jobs_beside};
ghost use Rattle.slab.specs.Slab.{ContainsKey, get};

use crate::index::JobIndex;
use crate::job::Job;
use crate::uncounted::{find, remove};
use slab::Slab;
use std::alloc::{AllocError as NoMemory, Global};
use std::marker::Model;

/// One ticket in flight.
#[derive(Drop)]
pub struct InFlight {
    pub ticket: u64,
    pub job: Job,
}

/// The tickets in flight, by rising number, at most as many as it was made for. Once made it takes no memory. A job
/// stays where it is while its ticket is in flight; where it lies is looked up by halves.
#[derive(Drop)]
pub struct Jobs {
    limit: usize,
    index: JobIndex,
    // Each has its ticket beside its job, so that no two tickets have one key without a word about
    // keys. A ticket that ends moves 16 bytes of the index for each one behind it, and no job.
    jobs: Slab<InFlight>,
}

impl Model for Jobs {
    ghost use Rattle.job_table.specs.Jobs.{JobTable};
    ghost use Rattle.job_table.specs.Slots.{IsJobTable, jobs_in};

    ghost Value = { JobTable };

    ghost view = { λ t. record { limit = t.limit; jobs = jobs_in t.jobs t.index.keyed } };

    ghost invariant = { λ t. IsJobTable t.limit t.index t.jobs };
}

impl Jobs {
    ghost use Rattle.job_table.specs.Lends.{LendsJobIf};

    /// Room for that many tickets, none in flight.
    ///
    /// # Errors
    ///
    /// `NoMemory` where the room for them is refused.
    pub fn new(alloc: Global, limit: usize) -> Result<Jobs, NoMemory>
        ensures empty { IfOk result (λ table. table ≡ record { limit = limit; jobs = [] }) }
    {
        Ok(Jobs {
            limit,
            index: JobIndex::new(alloc, limit)?,
            jobs: Slab::with_capacity(alloc, limit)?,
        })
    }

    /// How many tickets are in flight.
    pub fn len(&self) -> usize
        ensures value { result ≡ length self.now.jobs }
        ensures most { result ≤ self.now.limit }
        ensures law { AreTicketsRising self.now.jobs }
    {
        self.index.len()
    }

    /// Whether no ticket is in flight.
    pub fn is_empty(&self) -> bool
        ensures value { IsTrue result ↔ (self.now.jobs ≡ []) }
    {
        self.index.is_empty()
    }

    /// Whether as many tickets are in flight as may be.
    pub fn is_full(&self) -> bool
        ensures value { result ≡ (length self.now.jobs == self.now.limit) }
        ensures most { length self.now.jobs ≤ self.now.limit }
    {
        self.index.len() == self.limit
    }

    /// Puts a ticket, above all that are there, in flight.
    ///
    /// # Errors
    ///
    /// The job, exactly where as many as the limit are in flight; nothing has changed.
    pub fn insert(&mut self, ticket: u64, job: Job) -> Result<(), Job>
        requires above { all_jobs_below ticket self.old.jobs ≡ true }
        ensures ok { OnOk result
            (self.new ≡ record self.old { jobs = self.old.jobs ++ record { ticket = ticket; job = job } ∷ [] }) }
        ensures err { OnErr result (self.new ≡ self.old) }
        ensures room { OnOk result (length self.old.jobs < self.old.limit) }
        ensures full { OnErr result (length self.old.jobs ≡ self.old.limit) }
        ensures back { IfErr result (λ j. j ≡ job) }
    {
        if self.is_full() {
            return Err(job);
        }
        let key = self.jobs.insert_reserved(InFlight { ticket, job });
        self.index.push(ticket, key);
        Ok(())
    }

    /// Whether the ticket is in flight.
    pub fn contains(&self, ticket: u64) -> bool
        ensures value { result ≡ has_job_of self.now.jobs ticket }
        ensures law { AreTicketsRising self.now.jobs }
    {
        find(&self.index, ticket).is_some()
    }

    /// The job of a ticket, where it is in flight.
    pub fn get(&self, ticket: u64) -> Option<&Job>
        ensures value { option_copied result ≡ job_of self.now.jobs ticket }
        ensures any { is_some result ≡ has_job_of self.now.jobs ticket }
        ensures law { AreTicketsRising self.now.jobs }
    {
        match find(&self.index, ticket) {
            Some(key) => Some(&one(&self.jobs, key).job),
            None => None,
        }
    }

    /// The same, to be changed.
    pub fn get_mut(&mut self, ticket: u64) -> Option<&mut Job>
        ensures* writes_back { sem 𝓛 (LendsJobIf self.entry ticket result) }
        ensures value { option_copied_mut result ≡ job_of self.old.jobs ticket }
        ensures any { is_some result ≡ has_job_of self.old.jobs ticket }
        ensures law { AreTicketsRising self.old.jobs }
    {
        match find(&self.index, ticket) {
            Some(key) => Some(&mut self.jobs[key].job),
            None => None,
        }
    }

    /// Takes a ticket out of flight.
    pub fn remove(&mut self, ticket: u64) -> Option<Job>
        ensures value { result ≡ job_of self.old.jobs ticket }
        ensures rest { self.new ≡ record self.old { jobs = jobs_beside self.old.jobs ticket } }
    {
        match remove(&mut self.index, ticket) {
            Some(key) => {
                let InFlight { ticket: _, job } = self.jobs.remove(key);
                Some(job)
            }
            None => None,
        }
    }

    /// The ticket in flight with `place` lower ones in flight, and its job.
    pub fn nth(&self, place: usize) -> Option<(u64, &Job)>
        ensures value { MatchOption result (slice_get self.now.jobs place ≡ None) (λ e.
            slice_get self.now.jobs place ≡ Some (record { ticket = e.0; job = e.1.now })) }
        ensures any { IsTrue (is_some result) ↔ (place < length self.now.jobs) }
        ensures law { AreTicketsRising self.now.jobs }
    {
        if place >= self.index.len() {
            return None;
        }
        let one = one(&self.jobs, self.index.key(place));
        Some((one.ticket, &one.job))
    }
}

// What is at a key.
fn one(jobs: &Slab<InFlight>, key: usize) -> &InFlight
    requires there { ContainsKey jobs.now key }
    ensures value { get jobs.now key ≡ Some result.now }
{
    jobs.get(key).unwrap()
}
