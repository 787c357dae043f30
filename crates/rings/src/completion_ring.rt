//! The ring of a completion queue.

ghost use Rattle.std.specs.Prelude.{◌≡◌, ◌+◌, ◌-◌, ◌%◌, ◌<◌, ◌++◌, ◌∷◌, ◌==◌, [], IfErr, IfOk, OnErr, OnOk, Some, drop};
ghost use Rattle.std.specs.Prelude.{false, length, option_copied, slice_get, true};
ghost use Rattle.nvme_model.specs.Bits.{bit};
ghost use Rattle.nvme_model.specs.Completions.{phase};
ghost use Rattle.rings.specs.Completions.{QueueCompletions, ShowsCompleted, is_full, posted_ring};
ghost use Rattle.rings.specs.Slots.{IsSize};

use crate::slots::RingSlots;
use nvme_model::refusal::Why;
use nvme_model::submission::Payload;
use std::alloc::{AllocError as NoMemory, Global};
use std::marker::Model;

/// A completion of 16 bytes, and what a successful Read read.
#[derive(Drop)]
pub struct Completion {
    pub cqe: [u8; 16],
    pub payload: Payload,
}

/// The ring of a completion queue, over slots with wrapping head and tail and a phase register,
/// seen as the completions that wait.
///
/// It holds at most one completion less than it has slots. Once made it takes no memory.
#[derive(Drop)]
pub struct CqRing {
    slots: RingSlots<Completion>,
    phase: bool,
}

impl Model for CqRing {
    ghost use Rattle.rings.specs.Completions.{CompletionRing};

    ghost Value = { CompletionRing };

    ghost view = { λ r. record { size = r.slots.size; tail = r.slots.tail; phase = r.phase; waiting = r.slots.items } };
}

impl CqRing {
    /// A ring of that many slots, in which no completion waits; the phase tag of the first is 1.
    ///
    /// # Errors
    ///
    /// `NoMemory` where a growth is refused.
    pub fn new(alloc: Global, size: u16) -> Result<CqRing, NoMemory>
        requires size { IsSize size }
        ensures empty { IfOk result (λ ring. ring ≡ record { size = size; tail = 0; phase = true; waiting = [] }) }
        ensures counts { IfOk result (λ ring. ShowsCompleted (record { posted = []; reaped = 0 }) ring) }
    {
        let slots = RingSlots::new(alloc, size)?;
        Ok(CqRing { slots, phase: true })
    }

    /// How many slots there are.
    pub fn size(&self) -> u16
        ensures value { result ≡ self.now.size }
        ensures law { IsSize self.now.size }
    {
        self.slots.size()
    }

    /// How many completions wait.
    pub fn len(&self) -> usize
        ensures value { result ≡ length self.now.waiting }
        ensures most { result < self.now.size }
        ensures counts { (s : QueueCompletions) → ShowsCompleted s self.now → result + s.reaped ≡ length s.posted }
    {
        self.slots.len()
    }

    /// Whether no completion waits.
    pub fn is_empty(&self) -> bool
        ensures value { result ≡ (length self.now.waiting == 0) }
        ensures counts { (s : QueueCompletions) → ShowsCompleted s self.now → result ≡ (length s.posted == s.reaped) }
    {
        self.len() == 0
    }

    /// Whether it takes no further completion: one slot stays free.
    pub fn is_full(&self) -> bool
        ensures value { result ≡ is_full self.now }
        ensures most { length self.now.waiting < self.now.size }
        ensures counts { (s : QueueCompletions) →
            ShowsCompleted s self.now → result ≡ (length s.posted - s.reaped == self.now.size - 1) }
    {
        self.len() == usize::from(self.size()) - 1
    }

    /// The phase tag of the completion that is posted next: 1 in the first pass through the slots,
    /// and inverted in each further one.
    pub fn phase(&self) -> bool
        ensures value { result ≡ self.now.phase }
        ensures counts { (s : QueueCompletions) →
            ShowsCompleted s self.now → bit result ≡ phase (length s.posted) self.now.size }
    {
        self.phase
    }

    /// Puts a completion behind those that wait.
    ///
    /// # Errors
    ///
    /// `CqFull` exactly where the ring is full; with the payload, and the ring is as before.
    pub fn post(&mut self, cqe: [u8; 16], payload: Payload) -> Result<(), (Why, Payload)>
        ensures ok { OnOk result (self.new ≡ posted_ring self.old (record { cqe = cqe; payload = payload })) }
        ensures err { OnErr result (self.new ≡ self.old) }
        ensures room { OnOk result (is_full self.old ≡ false) }
        ensures full { OnErr result (is_full self.old ≡ true) }
        ensures why { IfErr result (λ e. e.0 ≡ Why.CqFull) }
        ensures back { IfErr result (λ e. e.1 ≡ payload) }
        ensures counts { (s : QueueCompletions) → ShowsCompleted s self.old →
            OnOk result (ShowsCompleted
            (record s { posted = s.posted ++ record { cqe = cqe; payload = payload } ∷ [] }) self.new) }
    {
        if self.is_full() {
            return Err((Why::CqFull, payload));
        }
        let tail = self.slots.tail();
        self.slots.push(Completion { cqe, payload });
        // The pass ends with the last slot, and in the next the phase tag is inverted (Base 2.0, Phase Tag).
        if tail == self.slots.size() - 1 {
            self.phase = !self.phase;
        }
        Ok(())
    }

    /// The completion that is reaped next.
    pub fn front(&self) -> Option<&Completion>
        ensures value { option_copied result ≡ slice_get self.now.waiting 0 }
        ensures counts { (s : QueueCompletions) →
            ShowsCompleted s self.now → option_copied result ≡ slice_get s.posted s.reaped }
    {
        self.slots.get(0)
    }

    /// Takes the next completion out.
    ///
    /// # Errors
    ///
    /// `NoCompletion` exactly where none waits; the ring is as before.
    pub fn reap(&mut self) -> Result<Completion, Why>
        ensures ok { IfOk result (λ c. slice_get self.old.waiting 0 ≡ Some c) }
        ensures rest { OnOk result (self.new ≡ record self.old { waiting = drop 1 self.old.waiting }) }
        ensures err { OnErr result ((self.new ≡ self.old) × (self.old.waiting ≡ [])) }
        ensures why { IfErr result (λ why. why ≡ Why.NoCompletion) }
        ensures counts { (s : QueueCompletions) → ShowsCompleted s self.old →
            OnOk result (ShowsCompleted (record s { reaped = s.reaped + 1 }) self.new) }
        ensures numbered { (s : QueueCompletions) →
            ShowsCompleted s self.old → IfOk result (λ c. slice_get s.posted s.reaped ≡ Some c) }
    {
        if self.is_empty() {
            return Err(Why::NoCompletion);
        }
        Ok(self.slots.pop())
    }
}
