//! The ranges that tickets hold.

ghost use Rattle.std.specs.Prelude.{◌≡◌, ◌+◌, ◌-◌, ◌/◌, ◌≤◌, ◌<◌, ◌↔◌, ◌⊎◌, [], ◌∷◌, IfErr, IsTrue, OnErr, OnOk, false};
ghost use Rattle.std.specs.Prelude.{is_some, vec_capacity};
ghost use Rattle.nvme_model.specs.Array.{IsRange};
ghost use Rattle.range_reserve.specs.Reserved.{AreApart, AreHoldersRising, has_conflict, holds_range, held_beside};
ghost use Rattle.range_reserve.specs.Reserved.{held_by, insert_held};

use crate::conflicts::has_conflict_before_end;
use crate::held::{HeldRange, held_at, held_by, let_go};
use crate::living::{put_by_start, put_by_ticket};
use crate::places::{start_place, ticket_place};
use nvme_model::array::{Mode, Range};
use nvme_model::refusal::Why;
use std::alloc::{AllocError as NoMemory, Global};
use std::marker::Model;

/// The ranges that tickets hold, seen as the list of them by rising ticket, with how many grants need no memory.
///
/// Each ticket holds one range at most, and no two ranges conflict: they share no block, or both are Shared.
#[derive(Drop)]
pub struct Ranges {
    // To take an entry out would move all behind it, and the next grant would move them back. One
    // without blocks conflicts with none, so nothing else has to know of it.
    /// By rising ticket. What was let go stays here and in the other list, with no blocks, until a grant takes its
    /// place.
    tickets: Vec<HeldRange>,
    /// The same by rising start, and by ticket where starts are equal.
    starts: Vec<HeldRange>,
    /// No range that was ever granted is longer.
    longest: u32,
    /// How many are held.
    live: usize,
}

impl Model for Ranges {
    ghost use Rattle.std.specs.Prelude.{◌≡◌, ◌-◌, ◌/◌, length, min, vec_capacity};
    ghost use Rattle.range_reserve.specs.Reserved.{Reserved};
    ghost use Rattle.range_reserve.specs.Sorted.{AreBoth, living};

    ghost Value = { Reserved };

    // A grant needs no memory where what is held is less than half of what each list has room for.
    ghost view = { λ r. record {
      held = living r.tickets.items;
      room = min (vec_capacity r.tickets / 2) (vec_capacity r.starts / 2) - r.live;
    } };

    ghost invariant = { λ r. AreBoth r.longest r.starts.items r.tickets.items
        × (r.live ≡ length (living r.tickets.items)) };
}

impl Ranges {
    /// No range is held. Takes no memory.
    pub fn new(alloc: Global) -> Ranges
        ensures held { result.held ≡ [] }
    {
        Ranges {
            tickets: Vec::new(alloc),
            starts: Vec::new(alloc),
            longest: 0,
            live: 0,
        }
    }

    /// Makes room, so that the next `more` grants need no memory.
    ///
    /// # Errors
    ///
    /// `NoMemory` where there was less room and a growth is refused. What is held is the same in both outcomes, and the
    /// room is no less.
    pub fn reserve(&mut self, more: usize) -> Result<(), NoMemory>
        ensures ok { OnOk result (more ≤ self.new.room) }
        ensures full { OnErr result (self.old.room < more) }
        ensures room { self.old.room ≤ self.new.room }
        ensures held { self.new.held ≡ self.old.held }
    {
        reserve_twice(&mut self.tickets, self.live, more)?;
        reserve_twice(&mut self.starts, self.live, more)
    }

    /// Whether a grant of this range would be a conflict with one that is held.
    pub fn conflicts(&self, range: Range, mode: Mode) -> bool
        ensures conflicts { result ≡ has_conflict self.now.held range mode }
        ensures law { AreApart self.now.held }
    {
        let from = range.slba.saturating_sub(u64::from(self.longest));
        let first = start_place(self.starts.as_slice(), from, 0);
        has_conflict_before_end(&self.starts.as_slice()[first..], range, mode)
    }

    /// What the ticket holds.
    pub fn holds(&self, ticket: u64) -> Option<(Range, Mode)>
        ensures holds { result ≡ held_by self.now.held ticket }
        ensures any { is_some result ≡ holds_range self.now.held ticket }
        ensures law { AreApart self.now.held }
        ensures rising { AreHoldersRising self.now.held }
    {
        held_by(self.tickets.as_slice(), ticket).map(|one| (one.range, one.mode))
    }

    /// Makes the ticket, which holds no range, hold this one.
    ///
    /// # Errors
    ///
    /// `Conflict` where one that is held conflicts with it; else `NoMemory` where there was no room and a growth is
    /// refused. What is held is then as before.
    pub fn grant(&mut self, ticket: u64, range: Range, mode: Mode) -> Result<(), Why>
        requires free { holds_range self.old.held ticket ≡ false }
        requires range { IsRange range }
        ensures ok { OnOk result
            (self.new.held ≡ insert_held (record { ticket = ticket; range = range; mode = mode }) self.old.held) }
        ensures err { OnErr result (self.new.held ≡ self.old.held) }
        ensures law { AreApart self.new.held }

        // Which error it is.
        ensures errors { IfErr result (λ why. (why ≡ Why.Conflict) ⊎ (why ≡ Why.NoMemory)) }
        ensures conflict { (result ≡ Err Why.Conflict) ↔ IsTrue (has_conflict self.old.held range mode) }
        ensures memory { result ≡ Err Why.NoMemory → self.old.room ≡ 0 }

        // One grant takes room for one.
        ensures room { OnOk result (self.old.room ≤ self.new.room + 1) }
        ensures room_kept { OnErr result (self.old.room ≤ self.new.room) }
    {
        if self.conflicts(range, mode) {
            return Err(Why::Conflict);
        }
        if self.reserve(1).is_err() {
            return Err(Why::NoMemory);
        }
        let held = HeldRange {
            ticket,
            range,
            mode,
        };
        self.put(held);
        Ok(())
    }

    /// Makes the ticket hold nothing; where it holds nothing, this changes nothing.
    pub fn release(&mut self, ticket: u64)
        ensures released { self.new.held ≡ held_beside self.old.held ticket }
        ensures absent { holds_range self.old.held ticket ≡ false → self.new.held ≡ self.old.held }
        ensures free { holds_range self.new.held ticket ≡ false }
        ensures room { self.old.room ≤ self.new.room }
        ensures law { AreApart self.new.held }
    {
        let place = ticket_place(self.tickets.as_slice(), ticket);
        match held_at(self.tickets.as_slice(), place, ticket) {
            Some(held) => {
                let start = start_place(self.starts.as_slice(), held.range.slba, ticket);
                self.tickets[place] = let_go(held);
                self.starts[start] = let_go(held);
                self.live -= 1;
            }
            None => {}
        }
    }

    // Keeps what its ticket is to hold in both orders; there is room, so neither is refused.
    fn put(&mut self, held: HeldRange)
        requires room { 1 ≤ self.old.room }
        requires free { holds_range self.old.held held.ticket ≡ false }
        requires range { IsRange held.range }
        requires apart { has_conflict self.old.held held.range held.mode ≡ false }
        ensures held { self.new.held ≡ insert_held held self.old.held }
        ensures law { AreApart self.new.held }
        ensures room { self.old.room ≤ self.new.room + 1 }
    {
        put_by_ticket(&mut self.tickets, self.live, held);
        put_by_start(&mut self.starts, self.live, held);
        self.longest = self.longest.max(held.range.blocks);
        self.live += 1;
    }
}

// Makes the list twice as long as those that live and `more` need: so many may die before it is full.
fn reserve_twice(list: &mut Vec<HeldRange>, live: usize, more: usize) -> Result<(), NoMemory>
    ensures ok { OnOk result (more ≤ vec_capacity list.new / 2 - live) }
    ensures full { OnErr result (vec_capacity list.old / 2 - live < more) }
    ensures capacity { vec_capacity list.old ≤ vec_capacity list.new }
    ensures items { list.new.items ≡ list.old.items }
{
    if more <= (list.capacity() / 2).saturating_sub(live) {
        return Ok(());
    }
    let all = live.checked_add(more).ok_or(NoMemory)?;
    let twice = all.checked_mul(2).ok_or(NoMemory)?;
    list.reserve(twice.saturating_sub(list.len()))
}
