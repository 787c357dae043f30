//! The ring of a submission queue.

ghost use Rattle.std.specs.Prelude.{◌≡◌, ◌+◌, ◌-◌, ◌%◌, ◌≤◌, ◌<◌, ◌++◌, ◌==◌, ◌∷◌, [], IfErr, IfOk, OnErr};
ghost use Rattle.std.specs.Prelude.{None, OnOk, Some, length, option_copied, option_to_list, slice_get, take};
ghost use Rattle.nvme_model.specs.Tables.{first_row};
ghost use Rattle.rings.specs.Slots.{IsSize};
ghost use Rattle.rings.specs.Submissions.{ShowsSubmitted, Submitted, advanced, batch_fault, batch_faults};

use crate::slots::RingSlots;
use nvme_model::refusal::Why;
use nvme_model::submission::{Submission, Submissions};
use std::alloc::{AllocError as NoMemory, Global};
use std::marker::Model;

/// The ring of a submission queue, over slots with wrapping head and tail, seen as the entries that wait.
///
/// It holds at most one entry less than it has slots. Once made it takes no memory.
#[derive(Drop)]
pub struct SqRing {
    slots: RingSlots<Submission>,
}

impl Model for SqRing {
    ghost use Rattle.std.specs.Prelude.{◌<◌};
    ghost use Rattle.rings.specs.Submissions.{SubmissionRing};

    ghost Value = { SubmissionRing };

    ghost view = { λ r. record { size = r.slots.size; head = r.slots.head; waiting = r.slots.items } };

    ghost invariant = { λ r. r.slots.head < r.slots.size };
}

impl SqRing {
    /// A ring of that many slots, in which no entry waits.
    ///
    /// # Errors
    ///
    /// `NoMemory` where a growth is refused.
    pub fn new(alloc: Global, size: u16) -> Result<SqRing, NoMemory>
        requires size { IsSize size }
        ensures empty { IfOk result (λ ring. ring ≡ record { size = size; head = 0; waiting = [] }) }
        ensures counts { IfOk result (λ ring. ShowsSubmitted (record { published = []; fetched = 0 }) ring) }
    {
        let slots = RingSlots::new(alloc, size)?;
        Ok(SqRing { slots })
    }

    /// How many slots there are.
    pub fn size(&self) -> u16
        ensures value { result ≡ self.now.size }
        ensures law { IsSize self.now.size }
    {
        self.slots.size()
    }

    /// How many entries wait.
    pub fn len(&self) -> usize
        ensures value { result ≡ length self.now.waiting }
        ensures most { result < self.now.size }
        ensures counts { (s : Submitted) → ShowsSubmitted s self.now → result + s.fetched ≡ length s.published }
    {
        self.slots.len()
    }

    /// Whether no entry waits.
    pub fn is_empty(&self) -> bool
        ensures value { result ≡ (length self.now.waiting == 0) }
        ensures counts { (s : Submitted) → ShowsSubmitted s self.now → result ≡ (length s.published == s.fetched) }
    {
        self.len() == 0
    }

    /// The slot of the entry that is fetched next, from 0: the count of the fetched, modulo the size.
    pub fn head(&self) -> u16
        ensures value { result ≡ self.now.head }
        ensures counts { (s : Submitted) → ShowsSubmitted s self.now → result ≡ s.fetched % self.now.size }
        ensures within { result < self.now.size }
    {
        self.slots.head()
    }

    /// Why this batch would not be taken.
    pub fn refuses(&self, batch: &[Submission]) -> Option<Why>
        ensures value { result ≡ batch_fault self.now batch.now }
        ensures counts { (s : Submitted) → ShowsSubmitted s self.now →
            result ≡ first_row (batch_faults self.now.size (length s.published - s.fetched) batch.now) }
    {
        if batch.is_empty() {
            return Some(Why::BadBatch);
        }
        let free = usize::from(self.slots.size()) - 1 - self.slots.len();
        if free < batch.len() {
            return Some(Why::NoRoom);
        }
        None
    }

    /// Puts these entries behind those that wait, all or none.
    ///
    /// # Errors
    ///
    /// `BadBatch` where there is none, else `NoRoom` where they and those that wait are more than the size less one;
    /// with the batch, and the ring is as before.
    pub fn publish(&mut self, batch: Submissions) -> Result<(), (Why, Submissions)>
        ensures ok { OnOk result (self.new ≡ record self.old { waiting = self.old.waiting ++ batch }) }
        ensures err { OnErr result (self.new ≡ self.old) }
        ensures accepted { OnOk result (batch_fault self.old batch ≡ None) }
        ensures refused { IfErr result (λ e. batch_fault self.old batch ≡ Some e.0) }
        ensures back { IfErr result (λ e. e.1 ≡ batch) }
        ensures counts { (s : Submitted) → ShowsSubmitted s self.old →
            OnOk result (ShowsSubmitted (record s { published = s.published ++ batch }) self.new) }
    {
        if let Some(why) = self.refuses(batch.as_slice()) {
            return Err((why, batch));
        }
        for submission in batch.into_vec() {
            self.slots.push(submission);
        }
        Ok(())
    }

    /// Puts one entry behind those that wait, where there is room for it.
    pub fn push(&mut self, one: Submission)
        requires room { length self.old.waiting + 1 < self.old.size }
        ensures more { self.new ≡ record self.old { waiting = self.old.waiting ++ one ∷ [] } }
        ensures counts { (s : Submitted) → ShowsSubmitted s self.old →
            ShowsSubmitted (record s { published = s.published ++ one ∷ [] }) self.new }
    {
        self.slots.push(one);
    }

    /// The entry that waits with `k` before it.
    pub fn peek(&self, k: usize) -> Option<&Submission>
        ensures value { option_copied result ≡ slice_get self.now.waiting k }
        ensures counts { (s : Submitted) →
            ShowsSubmitted s self.now → option_copied result ≡ slice_get s.published (s.fetched + k) }
    {
        self.slots.get(k)
    }

    // Takes the next entry out.
    fn take(&mut self) -> Submission
        requires some { 0 < length self.old.waiting }
        ensures taken { slice_get self.old.waiting 0 ≡ Some result }
        ensures rest { self.new ≡ advanced self.old 1 }
        ensures counts { (s : Submitted) →
            ShowsSubmitted s self.old → ShowsSubmitted (record s { fetched = s.fetched + 1 }) self.new }
    {
        self.slots.pop()
    }

    /// Takes the next one or two entries out, of which as many have to wait.
    pub fn take_commands(&mut self, count: u8) -> (Submission, Option<Submission>)
        requires some { 1 ≤ count }
        requires few { count ≤ 2 }
        requires within { count ≤ length self.old.waiting }
        ensures taken { result.0 ∷ option_to_list result.1 ≡ take count self.old.waiting }
        ensures rest { self.new ≡ advanced self.old count }
        ensures counts { (s : Submitted) →
            ShowsSubmitted s self.old → ShowsSubmitted (record s { fetched = s.fetched + count }) self.new }
    {
        let first = self.take();
        if count == 1 {
            return (first, None);
        }
        let second = self.take();
        (first, Some(second))
    }

    /// Drops the next `k` entries.
    pub fn advance(&mut self, k: usize)
        requires some { k ≤ length self.old.waiting }
        ensures rest { self.new ≡ advanced self.old k }
        ensures counts { (s : Submitted) →
            ShowsSubmitted s self.old → ShowsSubmitted (record s { fetched = s.fetched + k }) self.new }
    {
        for _ in 0..k {
            let _entry = self.slots.pop();
        }
    }
}
