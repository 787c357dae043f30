//! The tickets in flight by rising number, and the key of each one's job.

ghost use Rattle.std.specs.Prelude.{◌≡◌, ◌<◌, ◌≤◌, ◌+◌, ◌-◌, ◌*◌, ◌^◌, ◌++◌, ◌↔◌, [], ◌∷◌, IfOk, IfSome, IsTrue, Some};
ghost use Rattle.std.specs.Prelude.{is_some, length, slice_get, true};
ghost use Rattle.job_table.specs.Keyed.{IsAtPlace, AreKeyedRising, all_below, has_ticket, key_of, keyed_beside};
ghost use Rattle.job_table.specs.Keyed.{keys_of};

use crate::steps::ProbeCount;
use crate::tickets::Tickets;
use std::alloc::{AllocError as NoMemory, Global};
use std::marker::Model;
use std::sync::ledger::Ledger;

/// Tickets by rising number, each with the key of its job, at most as many as room was made for.
#[derive(Drop)]
pub struct JobIndex {
    tickets: Tickets,
}

impl Model for JobIndex {
    ghost use Rattle.job_table.specs.Keyed.{AreKeyedRising, KeyedTickets};

    ghost Value = { KeyedTickets };

    ghost view = { λ x. x.tickets };

    ghost invariant = { λ x. AreKeyedRising x.tickets.keyed };
}

impl JobIndex {
    /// Room for that many tickets, none of them there.
    ///
    /// # Errors
    ///
    /// `NoMemory` where the room is refused.
    pub fn new(alloc: Global, limit: usize) -> Result<JobIndex, NoMemory>
        ensures empty { IfOk result (λ index. index ≡ record { limit = limit; keyed = [] }) }
    {
        Ok(JobIndex {
            tickets: Tickets::new(alloc, limit)?,
        })
    }

    /// How many tickets are there.
    pub fn len(&self) -> usize
        ensures value { result ≡ length self.now.keyed }
        ensures most { result ≤ self.now.limit }
    {
        self.tickets.len()
    }

    /// Whether no ticket is there.
    pub fn is_empty(&self) -> bool
        ensures value { IsTrue result ↔ (self.now.keyed ≡ []) }
    {
        self.tickets.is_empty()
    }

    /// The key of a ticket, where it is there. It takes no more steps than the count of tickets has binary digits.
    pub fn find<L: Ledger>(&self, t: u64, steps: &mut ProbeCount<L>) -> Option<usize>
        ensures key { result ≡ key_of self.now.keyed t }
        ensures any { is_some result ≡ has_ticket self.now.keyed t }
        ensures counted { steps.old ≤ steps.new }
        ensures cost { 2 ^ (steps.new - steps.old) ≤ 2 * length self.now.keyed + 1 }
    {
        match self.place(t, steps) {
            Some(place) => Some(self.tickets.key(place)),
            None => None,
        }
    }

    /// The key at a place.
    pub fn key(&self, i: usize) -> usize
        requires within { i < length self.now.keyed }
        ensures key { slice_get (keys_of self.now.keyed) i ≡ Some result }
    {
        self.tickets.key(i)
    }

    /// Puts a ticket, above all that are there, behind them with its key.
    pub fn push(&mut self, ticket: u64, key: usize)
        requires above { all_below ticket self.old.keyed ≡ true }
        requires room { length self.old.keyed < self.old.limit }
        ensures pushed { self.new ≡
            record self.old { keyed = self.old.keyed ++ record { ticket = ticket; key = key } ∷ [] } }
    {
        self.tickets.push(ticket, key);
    }

    /// Takes a ticket out, where it is there, and gives its key. It takes no more steps than the count of tickets has
    /// binary digits.
    pub fn remove<L: Ledger>(&mut self, t: u64, steps: &mut ProbeCount<L>) -> Option<usize>
        ensures key { result ≡ key_of self.old.keyed t }
        ensures rest { self.new ≡ record self.old { keyed = keyed_beside self.old.keyed t } }
        ensures counted { steps.old ≤ steps.new }
        ensures cost { 2 ^ (steps.new - steps.old) ≤ 2 * length self.old.keyed + 1 }
    {
        match self.place(t, steps) {
            Some(place) => Some(self.tickets.remove(place)),
            None => None,
        }
    }

    // Where a ticket is.
    fn place<L: Ledger>(&self, t: u64, steps: &mut ProbeCount<L>) -> Option<usize>
        ensures found { IfSome result (IsAtPlace self.now.keyed t) }
        ensures any { is_some result ≡ has_ticket self.now.keyed t }
        ensures law { AreKeyedRising self.now.keyed }
        ensures counted { steps.old ≤ steps.new }
        ensures cost { 2 ^ (steps.new - steps.old) ≤ 2 * length self.now.keyed + 1 }
    {
        let mut from = 0;
        let mut to = self.tickets.len();
        while from < to {
            let middle = from + (to - from) / 2;
            let ticket = self.tickets.probe(middle, steps);
            if ticket == t {
                return Some(middle);
            }
            if ticket < t {
                from = middle + 1;
            } else {
                to = middle;
            }
        }
        None
    }
}
