//! The entries of a run, one after the other.

ghost use Rattle.std.specs.Prelude.{◌≡◌, ◌==◌, ◌<◌, ◌≤◌, ◌+◌, ◌-◌, ◌^◌, [], ◌∷◌, Err, None, OnOk, OnErr, MatchOption};
ghost use Rattle.std.specs.Prelude.{drop, length, max, min, reverse, slice_get, Some};
ghost use Rattle.std.specs.Option.{option_copied};
ghost use Rattle.nvme_model.specs.declared.entry.Entry.{Entry};

use crate::gone::Gone;
use crate::part::Part;
use nvme_model::entry::Entry;
use std::alloc::{AllocError as NoMemory, Global};
use std::marker::Model;
use std::snapshot::Snapshot;

/// The entries of a run in their order. The oldest can be forgotten: they leave memory, and the places of the others
/// stay.
#[derive(Drop)]
pub struct History {
    forgotten: usize,
    gone: Gone,
    // Those behind them.
    entries: Vec<Entry>,
}

// Contracts see all entries, the newest first, how many were forgotten, and the room for more.
impl Model for History {
    ghost use Rattle.std.specs.Prelude.{◌++◌, ◌+◌, ◌-◌, ◌^◌, ◌<◌, ◌≡◌, length, min, reverse, vec_len};
    ghost use Rattle.std.specs.Vec.{vec_capacity};
    ghost use Rattle.history.specs.Kept.{HistoryRoom};

    ghost Value = { HistoryRoom };

    ghost view = { λ h. record {
      past = reverse h.entries.items ++ h.gone.past;
      forgotten = h.forgotten;
      room = min (vec_capacity h.entries - vec_len h.entries) (2 ^ 64 - 1 - (h.forgotten + vec_len h.entries));
    } };

    ghost invariant = { λ h. (h.forgotten ≡ length (h.gone.past))
        × (h.forgotten + vec_len h.entries < 2 ^ 64) };
}

impl History {
    /// No entry.
    pub fn new(alloc: Global) -> History
        ensures past { result.past ≡ [] }
        ensures forgotten { result.forgotten ≡ 0 }
    {
        History {
            forgotten: 0,
            gone: Part::Nothing.gone(),
            entries: Vec::new(alloc),
        }
    }

    /// Makes room for `more` entries.
    ///
    /// # Errors
    ///
    /// `NoMemory` where the room was less and a growth is refused, or there would be 2^64 entries in all.
    pub fn reserve(&mut self, more: usize) -> Result<(), NoMemory>
        ensures past { self.new.past ≡ self.old.past }
        ensures forgotten { self.new.forgotten ≡ self.old.forgotten }
        ensures room { OnOk result (more ≤ self.new.room) }
        ensures kept { self.old.room ≤ self.new.room }
        ensures full { OnErr result (self.old.room < more) }
        ensures few { OnOk result (length self.new.past + more < 2 ^ 64) }
    {
        if more > usize::MAX - self.len() {
            return Err(NoMemory);
        }
        self.entries.reserve(more)?;
        // A read tells the proof that the room fits a number of 64 bits.
        let _most = self.entries.capacity();
        Ok(())
    }

    /// Adds an entry for which there is room.
    pub fn push_reserved(&mut self, entry: Entry)
        requires { 0 < self.old.room }
        ensures past { self.new.past ≡ entry ∷ self.old.past }
        ensures forgotten { self.new.forgotten ≡ self.old.forgotten }
        ensures room { self.old.room ≡ self.new.room + 1 }
    {
        self.entries.push_reserved(entry);
    }

    /// Adds an entry, or gives it back where a growth was refused.
    ///
    /// # Errors
    ///
    /// The entry, where a growth is refused, or there would be 2^64 entries in all.
    pub fn push(&mut self, entry: Entry) -> Result<(), Entry>
        ensures ok { OnOk result (self.new.past ≡ entry ∷ self.old.past) }
        ensures forgotten { self.new.forgotten ≡ self.old.forgotten }
        ensures room { OnOk result (self.old.room ≤ self.new.room + 1) }
        ensures err { OnErr result ((self.new.past ≡ self.old.past) × (self.old.room ≡ 0)) }
        ensures back { (e : Entry) → result ≡ Err e → e ≡ entry }
    {
        if self.reserve(1).is_err() {
            return Err(entry);
        }
        self.push_reserved(entry);
        Ok(())
    }

    /// Forgets the entries before this place, from 0, the oldest first: their memory is free for others. Behind the end
    /// all are forgotten; what was forgotten before stays so.
    ///
    /// It costs what it drops and what it leaves, and nothing for what was forgotten before.
    pub fn forget(&mut self, place: usize)
        ensures past { self.new.past ≡ self.old.past }
        ensures forgotten { self.new.forgotten ≡ max self.old.forgotten (min place (length self.old.past)) }
        ensures room { self.old.room ≤ self.new.room }
    {
        let count = place.saturating_sub(self.forgotten).min(self.entries.len());
        let left = self.entries.len() - count;
        let part = Part::Front(Snapshot::of(&self.gone), count, Snapshot::of(&self.entries));
        self.gone = part.gone();
        self.forgotten += count;
        self.entries.rotate_left(count);
        self.entries.truncate(left);
    }

    /// How many of the oldest entries were forgotten: the place of the oldest that is kept.
    pub fn forgotten(&self) -> usize
        ensures value { result ≡ self.now.forgotten }
        ensures few { result ≤ length self.now.past }
    {
        self.len() - self.entries.len()
    }

    /// How many entries there are, with those that were forgotten.
    pub fn len(&self) -> usize
        ensures { result ≡ length self.now.past }
    {
        self.forgotten + self.entries.len()
    }

    /// Whether there is none, and none was forgotten.
    pub fn is_empty(&self) -> bool
        ensures { result ≡ (length self.now.past == 0) }
    {
        self.len() == 0
    }

    /// The entries that weren't forgotten, the oldest first.
    pub fn as_slice(&self) -> &[Entry]
        ensures { result.now ≡ drop self.now.forgotten (reverse self.now.past) }
    {
        self.entries.as_slice()
    }

    /// All entries, the oldest first. None where some were forgotten.
    pub fn whole(&self) -> Option<&[Entry]>
        ensures { MatchOption result (0 < self.now.forgotten) (λ entries. entries.now ≡ reverse self.now.past) }
    {
        if self.forgotten > 0 {
            return None;
        }
        Some(self.entries.as_slice())
    }

    /// The newest entry. None where there is none, or where it was forgotten.
    pub fn last(&self) -> Option<&Entry>
        ensures { MatchOption result (self.now.forgotten ≡ length self.now.past)
            (λ e. slice_get self.now.past 0 ≡ Some e.now) }
    {
        self.entries.last()
    }

    /// The entry at this place, from 0, the oldest first. None past the end, or where it was forgotten.
    pub fn get(&self, place: usize) -> Option<&Entry>
        ensures there { self.now.forgotten ≤ place →
            option_copied result ≡ slice_get (reverse self.now.past) place }
        ensures gone { place < self.now.forgotten → result ≡ None }
    {
        self.entries.get(place.checked_sub(self.forgotten)?)
    }
}
