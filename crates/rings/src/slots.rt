//! The slots of a ring.

ghost use Rattle.std.specs.Prelude.{◌≡◌, ◌+◌, ◌%◌, ◌<◌, [], IfOk, Some, length, option_copied, slice_get};
ghost use Rattle.rings.specs.Slots.{IsSize, popped, pushed};

use std::alloc::{AllocError as NoMemory, Global};
use std::marker::Model;

/// Slots, filled one after the other and emptied in that order, round the end, with the registers of the next of each.
///
/// One slot stays free, so that the registers tell a full ring from an empty one (Base 2.0, Full Queue).
#[derive(Drop)]
pub struct RingSlots<T> {
    slots: Vec<Option<T>>,
    head: u16,
    tail: u16,
}

impl<T> Model for RingSlots<T> {
    ghost use Rattle.std.specs.Prelude.{length};
    ghost use Rattle.rings.specs.Slots.{IsQueue, Queued, items_from, queued_code};

    ghost Value = { Queued T };

    ghost coded = { queued_code T.code };

    ghost view = { λ s. record {
      size = length s.slots.items;
      head = s.head;
      tail = s.tail;
      items = items_from s.head s.slots.items;
    } };

    ghost invariant = { λ s. IsQueue s.slots.items s.head s.tail (items_from s.head s.slots.items) };
}

impl<T: Drop> RingSlots<T> {
    /// That many slots, all free.
    ///
    /// # Errors
    ///
    /// `NoMemory` where a growth is refused.
    pub fn new(alloc: Global, size: u16) -> Result<RingSlots<T>, NoMemory>
        requires size { IsSize size }
        ensures empty { IfOk result (λ slots. slots ≡ record { size = size; head = 0; tail = 0; items = [] }) }
    {
        let mut slots = Vec::with_capacity(alloc, usize::from(size))?;
        for _ in 0..size {
            slots.push_reserved(None);
        }
        Ok(RingSlots {
            slots,
            head: 0,
            tail: 0,
        })
    }

    /// How many slots there are.
    pub fn size(&self) -> u16
        ensures value { result ≡ self.now.size }
        ensures law { IsSize self.now.size }
    {
        self.slots.len() as u16
    }

    /// The slot of the item that comes out next.
    pub fn head(&self) -> u16
        ensures value { result ≡ self.now.head }
        ensures within { result < self.now.size }
    {
        self.head
    }

    /// The slot of the item that comes in next.
    pub fn tail(&self) -> u16
        ensures value { result ≡ self.now.tail }
        ensures within { result < self.now.size }
    {
        self.tail
    }

    /// How many items are held.
    pub fn len(&self) -> usize
        ensures value { result ≡ length self.now.items }
        ensures most { result < self.now.size }
    {
        let head = usize::from(self.head);
        let tail = usize::from(self.tail);
        if head <= tail {
            tail - head
        } else {
            tail + self.slots.len() - head
        }
    }

    /// The item that is held with `k` before it.
    pub fn get(&self, k: usize) -> Option<&T>
        ensures value { option_copied result ≡ slice_get self.now.items k }
    {
        if k >= self.len() {
            return None;
        }
        let place = remainder(usize::from(self.head) + k, self.slots.len());
        self.slots[place].as_ref()
    }

    /// Puts an item behind those that are held.
    pub fn push(&mut self, item: T)
        requires room { length self.old.items + 1 < self.old.size }
        ensures pushed { self.new ≡ pushed self.old item }
    {
        let place = usize::from(self.tail);
        self.slots[place] = Some(item);
        self.tail = next_slot(self.tail, self.slots.len() as u16);
    }

    /// Takes the next item out.
    pub fn pop(&mut self) -> T
        requires some { 0 < length self.old.items }
        ensures first { slice_get self.old.items 0 ≡ Some result }
        ensures rest { self.new ≡ popped self.old }
    {
        let place = usize::from(self.head);
        let item = self.slots[place].take();
        self.head = next_slot(self.head, self.slots.len() as u16);
        item.unwrap()
    }
}

// What is left of a number that is mostly below twice the size: no division is made there.
fn remainder(n: usize, size: usize) -> usize
    requires some { 0 < size }
    ensures value { result ≡ n % size }
{
    if n < size {
        return n;
    }
    let over = n - size;
    if over < size {
        return over;
    }
    over % size
}

// The slot behind this one, round the end.
fn next_slot(slot: u16, size: u16) -> u16
    requires within { slot < size }
    ensures value { result ≡ (slot + 1) % size }
{
    let next = slot + 1;
    if next == size { 0 } else { next }
}
