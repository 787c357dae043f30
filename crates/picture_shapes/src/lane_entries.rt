//! The entries in flight, with what they write, and the completions that wait.

ghost use Rattle.std.specs.Prelude.{◌≡◌, OnOk, option_map};
ghost use Rattle.nvme_model.specs.Config.{completion_queue};
ghost use Rattle.nvme_model.specs.Slots.{says_success};
ghost use Rattle.picture_shapes.specs.LaneEntries.{claim_reaped, claim_with, claim_won, entry_before, first_flying};
ghost use Rattle.picture_shapes.specs.LaneEntries.{lane_entries_fetched, lane_entries_granted, lane_entries_posted};
ghost use Rattle.picture_shapes.specs.LaneEntries.{lane_entries_reaped, lane_entry_published, no_lane_entries};
ghost use Rattle.picture_shapes.specs.LaneEntries.{release_with, writer_of};

use crate::lane_entry::{
    LaneEntry, LaneEntryStage, SlotName, Win, claimed_slot_name, lane_entry_place,
    released_slot_name, win_place, writer_place,
};
use byteorder::{ByteOrder, LittleEndian};
use history::{Config, FetchLine, GrantLine, PostLine};
use nvme_model::array::Range;
use nvme_model::submission::{Payload, Submission};
use std::alloc::{AllocError as NoMemory, Global};
use std::marker::Model;

/// The entries that aren't posted, and the completions that wait.
#[derive(Drop)]
pub struct LaneEntries {
    alloc: Global,
    entries: Vec<LaneEntry>,
    wins: Vec<Win>,
}

impl Model for LaneEntries {
    ghost use Rattle.picture_shapes.specs.LaneEntries.{LaneEntriesState};

    ghost Value = { LaneEntriesState };

    ghost view = { λ s. record { entries = s.entries.items; wins = s.wins.items } };
}

// The completion queue that a submission queue uses.
fn completions_of(config: &Config, queue: u16) -> u16
    ensures value { result ≡ completion_queue config.now queue }
{
    queue.saturating_sub(1) % config.numbers().cqs + 1
}

// Whether a completion says success.
fn says_success(cqe: &[u8; 16]) -> bool
    ensures value { result ≡ says_success cqe.now }
{
    LittleEndian::read_u16(&cqe[14..16]) / 2 == 0
}

// The claim that a completion tells of, where it says success.
fn claim_won(line: &PostLine, claim: Option<SlotName>) -> Option<SlotName>
    ensures value { result ≡ claim_won line.now claim }
{
    if says_success(&line.cqe) { claim } else { None }
}

// The entry that waits first in a submission queue is in flight.
fn first_flying(entries: &mut Vec<LaneEntry>, queue: u16, ticket: u64)
    ensures value { entries.new.items ≡ first_flying queue ticket entries.old.items }
{
    let Some(i) = lane_entry_place(entries.as_slice(), LaneEntryStage::Waiting(queue)) else {
        return;
    };
    entries[i].stage = LaneEntryStage::InFlight(ticket);
}

// The claim that an entry ends, behind the one before it.
fn claim_with(before: Option<&LaneEntry>, item: &Submission) -> Option<SlotName>
    ensures value { result ≡ claim_with (option_map (λ x. x.now) before.entry) item.now }
{
    match before {
        Some(before) => claimed_slot_name(&before.item, item),
        None => None,
    }
}

// The release that an entry ends, behind the one before it.
fn release_with(before: Option<&LaneEntry>, item: &Submission) -> Option<SlotName>
    ensures value { result ≡ release_with (option_map (λ x. x.now) before.entry) item.now }
{
    match before {
        Some(before) => released_slot_name(&before.item, item),
        None => None,
    }
}

impl LaneEntries {
    /// None.
    pub(crate) fn new(alloc: Global) -> LaneEntries
        ensures none { result ≡ no_lane_entries }
    {
        LaneEntries {
            alloc,
            entries: Vec::new(alloc),
            wins: Vec::new(alloc),
        }
    }

    // The entry before one that is published at this place, where it is of the same batch.
    fn entry_before(&self, place: u64) -> Option<&LaneEntry>
        ensures value { option_map (λ x. x.now) result ≡ entry_before place self.now.entries }
    {
        let last = self.entries.as_slice().last()?;
        if last.published == place {
            Some(last)
        } else {
            None
        }
    }

    /// The release that an entry ends which is published at this place.
    pub(crate) fn release_at(&self, place: u64, item: &Submission) -> Option<SlotName>
        ensures value { result ≡ release_with (entry_before place self.now.entries) item.now }
    {
        release_with(self.entry_before(place), item)
    }

    // The claim that an entry ends which is published at this place.
    fn claim_at(&self, place: u64, item: &Submission) -> Option<SlotName>
        ensures value { result ≡ claim_with (entry_before place self.now.entries) item.now }
    {
        claim_with(self.entry_before(place), item)
    }

    /// An entry is published at this place.
    pub(crate) fn publish(
        &mut self,
        place: u64,
        queue: u16,
        item: &Submission,
    ) -> Result<(), NoMemory>
        ensures value { OnOk result (self.new ≡ lane_entry_published place queue item.now self.old) }
    {
        let claim = self.claim_at(place, item);
        let copy = Submission {
            entry: item.entry,
            payload: Payload::copy_of(self.alloc, item.payload.as_slice())?,
        };
        let lane_entry = LaneEntry {
            published: place,
            queue,
            stage: LaneEntryStage::Waiting(queue),
            item: copy,
            claim,
            unit: Range { slba: 0, blocks: 0 },
        };
        if self.entries.push(lane_entry).is_err() {
            return Err(NoMemory);
        }
        Ok(())
    }

    /// A ticket is fetched.
    pub(crate) fn fetch(&mut self, line: &FetchLine)
        ensures value { self.new ≡ lane_entries_fetched line.now self.old }
    {
        first_flying(&mut self.entries, line.queue, line.ticket);
        if line.verdict.taken() == 2 {
            first_flying(&mut self.entries, line.queue, line.ticket);
        }
    }

    /// A unit begins.
    pub(crate) fn grant(&mut self, line: &GrantLine)
        ensures value { self.new ≡ lane_entries_granted line.now self.old }
    {
        let Some(i) = writer_place(self.entries.as_slice(), line.ticket) else {
            return;
        };
        self.entries[i].unit = line.range.get();
    }

    /// The entry of a ticket that writes.
    pub(crate) fn writer(&self, ticket: u64) -> Option<&LaneEntry>
        ensures value { option_map (λ x. x.now) result ≡ writer_of ticket self.now.entries }
    {
        let i = writer_place(self.entries.as_slice(), ticket)?;
        Some(&self.entries[i])
    }

    /// An entry is posted.
    pub(crate) fn post(&mut self, config: &Config, line: &PostLine) -> Result<(), NoMemory>
        ensures value { OnOk result (self.new ≡ lane_entries_posted config.now line.now self.old) }
    {
        let Some(i) = lane_entry_place(
            self.entries.as_slice(),
            LaneEntryStage::InFlight(line.ticket),
        ) else {
            return Ok(());
        };
        let win = Win {
            queue: completions_of(config, self.entries[i].queue),
            claim: claim_won(line, self.entries[i].claim),
        };
        self.wins.push(win)?;
        let _ = self.entries.remove(i);
        Ok(())
    }

    /// A completion is reaped from this completion queue; gives the claim of whose success it tells.
    pub(crate) fn reap(&mut self, queue: u16) -> Option<SlotName>
        ensures claim { result ≡ claim_reaped queue self.old }
        ensures value { self.new ≡ lane_entries_reaped queue self.old }
    {
        let i = win_place(self.wins.as_slice(), queue)?;
        let win = self.wins.remove(i);
        win.claim
    }
}
