//! The names that were claimed and released.

ghost use Rattle.std.specs.Prelude.{Bool, List, OnErr, OnOk, Some, [], false, if◌then◌else◌, is_some, length, true};
ghost use Rattle.std.specs.Prelude.{unwrap_or, ℕ};
ghost use Rattle.std.specs.Prelude.{◌&&◌, ◌++◌, ◌+◌, ◌<◌, ◌==◌, ◌||◌, ◌≡◌, ◌≤◌};
ghost use Rattle.std.specs.HashMap.{spare};
ghost use Rattle.std.specs.HashSet as set;
ghost use Rattle.nvme_model.specs.Slots.{releases, same_name};
ghost use Rattle.slot_check.specs.Batch.{fresh_in};
ghost use Rattle.slot_check.specs.Names.{AreUnwon, KnowsNames, believes, claims_by, keeps_queue, names_in};

use crate::queue::completion_queue;
use crate::swap::Swap;
use history::Config;
use nvme_model::Name;
use std::alloc::{AllocError as NoMemory, Global};
use std::collections::{HashMap, HashSet};

/// An entry of a submission queue, by its number there.
#[derive(Clone, Copy, Debug, Drop, PartialEq, Eq, Hash)]
pub struct EntryNumber {
    pub queue: u16,
    pub number: u64,
}

/// A name of a slot.
#[derive(Clone, Copy, Debug, Drop, PartialEq, Eq, Hash)]
pub struct SlotName {
    pub lba: u64,
    pub name: Name,
}

/// The names that were claimed and released in the area.
#[derive(Drop)]
pub struct Names {
    /// The claim of each name.
    pub claims: HashMap<Name, Swap>,
    /// Whether the success of a claim's second entry was reaped.
    pub won: HashMap<EntryNumber, bool>,
    pub released: HashSet<SlotName>,
}

impl Names {
    /// No name.
    pub fn new(alloc: Global) -> Names
        ensures knows { (r : ℕ → ℕ → Bool) → KnowsNames r [] (names_in result) }
    {
        Names {
            claims: HashMap::new(alloc),
            won: HashMap::new(alloc),
            released: HashSet::new(alloc),
        }
    }

    /// The claim of a name.
    pub fn claim(&self, name: Name) -> Option<Swap>
        ensures value { result ≡ (names_in self.now).claim name }
    {
        self.claims.get(&name).copied()
    }

    /// Whether success was reaped of an entry that is a claim's second.
    pub fn is_won(&self, queue: u16, number: u64) -> bool
        ensures value { result ≡ unwrap_or ((names_in self.now).won queue number) false }
    {
        let entry = EntryNumber { queue, number };
        self.won.get(&entry).copied().unwrap_or(false)
    }

    /// Whether a name was released from the slot at this block.
    pub fn is_released(&self, lba: u64, name: Name) -> bool
        ensures value { result ≡ (names_in self.now).released lba name }
    {
        self.released.contains(&SlotName { lba, name })
    }

    /// Whether a name is believed of the slot at this block.
    pub fn believes(&self, lba: u64, name: Name) -> bool
        ensures value { result ≡ believes (names_in self.now) lba name }
    {
        let Some(claim) = self.claim(name) else {
            return false;
        };
        claim.lba() == lba
            && self.is_won(claim.queue(), claim.second())
            && !self.is_released(lba, name)
    }

    /// Whether a release stands on the completion queue of the claim of its name.
    pub fn keeps_queue(&self, config: &Config, release: &Swap) -> bool
        ensures value { result ≡ keeps_queue config.now (names_in self.now) release.now }
    {
        let Some(claim) = self.claim(release.name()) else {
            return false;
        };
        claim.lba() == release.lba()
            && completion_queue(config, claim.queue()) == completion_queue(config, release.queue())
    }

    /// Notes that the success of an entry was reaped.
    pub fn win(&mut self, queue: u16, number: u64)
        ensures claims { (n : Name) → (names_in self.new).claim n ≡ (names_in self.old).claim n }
        ensures won { (q j : ℕ) → (names_in self.new).won q j ≡
            (if ((queue == q) && (number == j)) && is_some ((names_in self.old).won queue number)
            then Some true else (names_in self.old).won q j) }
        ensures released { (l : ℕ) (n : Name) → (names_in self.new).released l n ≡ (names_in self.old).released l n }
    {
        let entry = EntryNumber { queue, number };
        if self.won.contains_key(&entry) {
            let put: Result<_, _> = self.won.insert(entry, true);
            put.unwrap();
        }
    }

    /// Makes room for that many claims and releases.
    ///
    /// # Errors
    ///
    /// `NoMemory` where a growth is refused; the names stay.
    pub fn reserve(&mut self, count: usize) -> Result<(), NoMemory>
        ensures claims { (n : Name) → (names_in self.new).claim n ≡ (names_in self.old).claim n }
        ensures won { (q j : ℕ) → (names_in self.new).won q j ≡ (names_in self.old).won q j }
        ensures released { (l : ℕ) (n : Name) → (names_in self.new).released l n ≡ (names_in self.old).released l n }
        ensures claims_room { OnOk result (count ≤ spare self.new.claims) }
        ensures won_room { OnOk result (count ≤ spare self.new.won) }
        ensures released_room { OnOk result (count ≤ set.spare self.new.released) }
    {
        self.claims.reserve(count)?;
        self.won.reserve(count)?;
        self.released.reserve(count)
    }

    // Adds a claim or a release, where there is room.
    fn add(&mut self, swap: Swap)
        requires claims_room { 0 < spare self.old.claims }
        requires won_room { 0 < spare self.old.won }
        requires released_room { 0 < set.spare self.old.released }
        ensures claims { (n : Name) → (names_in self.new).claim n ≡
            (if swap.claims && same_name swap.name n then Some swap else (names_in self.old).claim n) }
        ensures won { (q j : ℕ) → (names_in self.new).won q j ≡
            (if claims_by q j swap then Some false else (names_in self.old).won q j) }
        ensures released { (l : ℕ) (n : Name) → (names_in self.new).released l n ≡
            (releases swap l n || (names_in self.old).released l n) }
        ensures claims_left { spare self.old.claims ≤ spare self.new.claims + 1 }
        ensures won_left { spare self.old.won ≤ spare self.new.won + 1 }
        ensures released_left { set.spare self.old.released ≤ set.spare self.new.released + 1 }
    {
        if swap.claims() {
            let claimed: Result<_, _> = self.claims.insert(swap.name(), swap);
            claimed.unwrap();
            let entry = EntryNumber {
                queue: swap.queue(),
                number: swap.second(),
            };
            let awaited: Result<_, _> = self.won.insert(entry, false);
            awaited.unwrap();
        } else {
            let released = SlotName {
                lba: swap.lba(),
                name: swap.name(),
            };
            let put: Result<_, _> = self.released.insert(released);
            put.unwrap();
        }
    }

    /// Adds the claims and releases of a batch, where there is room for them.
    pub fn add_all(&mut self, swaps: &[Swap])
        requires claims_room { length swaps.now ≤ spare self.old.claims }
        requires won_room { length swaps.now ≤ spare self.old.won }
        requires released_room { length swaps.now ≤ set.spare self.old.released }
        ensures knows { (r : ℕ → ℕ → Bool) (of : List Swap) → KnowsNames r of (names_in self.old) →
            fresh_in (names_in self.old) swaps.now ≡ true → AreUnwon r swaps.now →
            KnowsNames r (swaps.now ++ of) (names_in self.new) }
    {
        let mut left = swaps.len();
        while left > 0 {
            left -= 1;
            self.add(swaps[left]);
        }
    }
}
