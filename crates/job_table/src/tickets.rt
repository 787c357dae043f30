//! The tickets that are kept by their number, each with the key of its job.

ghost use Rattle.std.specs.List.{remove};
ghost use Rattle.std.specs.Prelude.{◌≡◌, ◌<◌, ◌≤◌, ◌+◌, ◌++◌, ◌↔◌, [], ◌∷◌, IfOk, IsTrue, Some, length, slice_get};
ghost use Rattle.job_table.specs.Keyed.{keys_of, tickets_of};

use crate::steps::ProbeCount;
use std::alloc::{AllocError as NoMemory, Global};
use std::marker::Model;
use std::sync::ledger::Ledger;

/// A ticket, and the key of its job.
#[derive(Clone, Copy)]
pub struct Keyed {
    ticket: u64,
    key: usize,
}

/// Tickets with their keys, at most as many as room was made for. A ticket is read by `probe` alone.
#[derive(Drop)]
pub struct Tickets {
    limit: usize,
    keyed: Vec<Keyed>,
}

impl Model for Tickets {
    ghost use Rattle.std.specs.Prelude.{◌≤◌, vec_capacity, vec_len};
    ghost use Rattle.job_table.specs.Keyed.{KeyedTickets};

    ghost Value = { KeyedTickets };

    ghost view = { λ t. record { limit = t.limit; keyed = t.keyed.items } };

    ghost invariant = { λ t. (vec_len t.keyed ≤ t.limit) × (t.limit ≤ vec_capacity t.keyed) };
}

impl Tickets {
    /// Room for that many, and none of them yet.
    ///
    /// # Errors
    ///
    /// `NoMemory` where the room is refused.
    pub fn new(alloc: Global, limit: usize) -> Result<Tickets, NoMemory>
        ensures empty { IfOk result (λ tickets. tickets ≡ record { limit = limit; keyed = [] }) }
    {
        Ok(Tickets {
            limit,
            keyed: Vec::with_capacity(alloc, limit)?,
        })
    }

    /// How many there are.
    pub fn len(&self) -> usize
        ensures value { result ≡ length self.now.keyed }
        ensures most { result ≤ self.now.limit }
    {
        self.keyed.len()
    }

    /// Whether there are none.
    pub fn is_empty(&self) -> bool
        ensures value { IsTrue result ↔ (self.now.keyed ≡ []) }
    {
        self.keyed.is_empty()
    }

    /// The ticket at a place, which counts as one step.
    pub fn probe<L: Ledger>(&self, i: usize, steps: &mut ProbeCount<L>) -> u64
        requires within { i < length self.now.keyed }
        ensures ticket { slice_get (tickets_of self.now.keyed) i ≡ Some result }
        ensures one { steps.new ≡ steps.old + 1 }
    {
        steps.add_one();
        self.keyed[i].ticket
    }

    /// The key at a place.
    pub fn key(&self, i: usize) -> usize
        requires within { i < length self.now.keyed }
        ensures key { slice_get (keys_of self.now.keyed) i ≡ Some result }
    {
        self.keyed[i].key
    }

    /// Puts a ticket with its key behind the others.
    pub fn push(&mut self, ticket: u64, key: usize)
        requires room { length self.old.keyed < self.old.limit }
        ensures pushed { self.new ≡
            record self.old { keyed = self.old.keyed ++ record { ticket = ticket; key = key } ∷ [] } }
    {
        self.keyed.push_reserved(Keyed { ticket, key });
    }

    /// Takes out what is at a place, and gives its key.
    pub fn remove(&mut self, i: usize) -> usize
        requires within { i < length self.old.keyed }
        ensures key { slice_get (keys_of self.old.keyed) i ≡ Some result }
        ensures removed { self.new ≡ record self.old { keyed = remove self.old.keyed i } }
    {
        self.keyed.remove(i).key
    }
}
