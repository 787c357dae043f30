//! The takeovers that were published, and what they did.

ghost use Rattle.std.specs.Prelude.{OnErr, OnOk, Some, if◌then◌else◌, length, [], ℕ, ◌+◌, ◌<◌, ◌||◌, ◌≡◌, ◌≤◌};
ghost use Rattle.std.specs.HashMap.{spare};
ghost use Rattle.nvme_model.specs.Slots as slots;
ghost use Rattle.nvme_model.specs.declared.array.Range.{Range};
ghost use Rattle.nvme_model.specs.declared.config.ConfigNumbers.{ConfigNumbers};
ghost use Rattle.slot_check.specs.Names.{names_in};
ghost use Rattle.slot_check.specs.Takeovers.{KnowsTakeovers, begins_at, begun_by, cut_by, cuts_in, takeovers_kept};
ghost use Rattle.slot_check.specs.Takeovers.{takes_name};

use crate::names::{EntryNumber, Names, SlotName};
use crate::queue::completion_queue;
use crate::takeover::Takeover;
use history::Config;
use nvme_model::Name;
use std::alloc::{AllocError as NoMemory, Global};
use std::collections::{HashMap, HashSet};

/// The takeovers of the area, and what they did.
#[derive(Drop)]
pub struct Takeovers {
    /// All that were published, by their first entry.
    pub begun: HashMap<EntryNumber, Takeover>,
    /// The names that were taken over.
    pub taken: HashSet<SlotName>,
    // Of several takeovers from one host the newest is named, of several slots in one Publish the
    // first: so one slot for each completion queue is enough.
    /// For each completion queue that was cut off the block of the slot whose takeover did so.
    pub cut: HashMap<u16, u64>,
}

impl Takeovers {
    /// No takeover.
    pub fn new(alloc: Global) -> Takeovers
        ensures knows { (c : ConfigNumbers) (area : Range) → KnowsTakeovers c area [] (takeovers_kept result) }
    {
        Takeovers {
            begun: HashMap::new(alloc),
            taken: HashSet::new(alloc),
            cut: HashMap::new(alloc),
        }
    }

    /// Whether a takeover of this name from the slot at this block took effect.
    pub fn is_taken(&self, lba: u64, name: Name) -> bool
        ensures value { result ≡ (takeovers_kept self.now).taken lba name }
    {
        self.taken.contains(&SlotName { lba, name })
    }

    /// The block of the slot whose takeover cut this completion queue off, if one did.
    pub fn cut_at(&self, queue: u16) -> Option<u64>
        ensures value { result ≡ (takeovers_kept self.now).cut queue }
    {
        self.cut.get(&queue).copied()
    }

    /// Makes room for that many takeovers.
    ///
    /// # Errors
    ///
    /// `NoMemory` where a growth is refused; the takeovers stay.
    pub fn reserve(&mut self, count: usize) -> Result<(), NoMemory>
        ensures begun { (q j : ℕ) → (takeovers_kept self.new).begun q j ≡ (takeovers_kept self.old).begun q j }
        ensures taken { (l : ℕ) (n : slots.Name) →
            (takeovers_kept self.new).taken l n ≡ (takeovers_kept self.old).taken l n }
        ensures cut { (q : ℕ) → (takeovers_kept self.new).cut q ≡ (takeovers_kept self.old).cut q }
        ensures begun_room { OnOk result (count ≤ spare self.new.begun) }
        ensures cut_room { OnOk result (count ≤ spare self.new.cut) }
    {
        self.begun.reserve(count)?;
        self.cut.reserve(count)
    }

    // Adds a takeover, where there is room.
    fn add(&mut self, config: &Config, names: &Names, takeover: Takeover)
        requires begun_room { 0 < spare self.old.begun }
        requires cut_room { 0 < spare self.old.cut }
        ensures begun { (q j : ℕ) → (takeovers_kept self.new).begun q j ≡
            (if begins_at q j takeover then Some takeover else (takeovers_kept self.old).begun q j) }
        ensures taken { (l : ℕ) (n : slots.Name) →
            (takeovers_kept self.new).taken l n ≡ (takeovers_kept self.old).taken l n }
        ensures cut { (q : ℕ) → (takeovers_kept self.new).cut q ≡
            (if cuts_in config.now (names_in names.now) q takeover then Some takeover.lba
            else (takeovers_kept self.old).cut q) }
        ensures begun_left { spare self.old.begun ≤ spare self.new.begun + 1 }
        ensures cut_left { spare self.old.cut ≤ spare self.new.cut + 1 }
    {
        let entry = EntryNumber {
            queue: takeover.queue(),
            number: takeover.number(),
        };
        let begun: Result<_, _> = self.begun.insert(entry, takeover);
        begun.unwrap();
        let Some(claim) = names.claim(takeover.dead()) else {
            return;
        };
        if claim.lba() == takeover.lba() {
            let queue = completion_queue(config, claim.queue());
            let cut: Result<_, _> = self.cut.insert(queue, takeover.lba());
            cut.unwrap();
        }
    }

    /// Adds the takeovers of a batch, where there is room for them. The names are those before the batch.
    pub fn add_all(&mut self, config: &Config, names: &Names, takeovers: &[Takeover])
        requires begun_room { length takeovers.now ≤ spare self.old.begun }
        requires cut_room { length takeovers.now ≤ spare self.old.cut }
        ensures begun { (q j : ℕ) → (takeovers_kept self.new).begun q j ≡
            begun_by takeovers.now (takeovers_kept self.old).begun q j }
        ensures taken { (l : ℕ) (n : slots.Name) →
            (takeovers_kept self.new).taken l n ≡ (takeovers_kept self.old).taken l n }
        ensures cut { (q : ℕ) → (takeovers_kept self.new).cut q ≡
            cut_by config.now (names_in names.now) takeovers.now (takeovers_kept self.old).cut q }
    {
        let mut left = takeovers.len();
        while left > 0 {
            left -= 1;
            self.add(config, names, takeovers[left]);
        }
    }

    /// The pair whose first entry has this number on this queue took effect, and it said yes.
    ///
    /// # Errors
    ///
    /// `NoMemory` where a growth is refused; the takeovers stay.
    pub fn take_effect(&mut self, queue: u16, number: u64) -> Result<(), NoMemory>
        ensures begun { (q j : ℕ) → (takeovers_kept self.new).begun q j ≡ (takeovers_kept self.old).begun q j }
        ensures cut { (q : ℕ) → (takeovers_kept self.new).cut q ≡ (takeovers_kept self.old).cut q }
        ensures taken { OnOk result ((l : ℕ) (n : slots.Name) → (takeovers_kept self.new).taken l n ≡
            (takes_name l n ((takeovers_kept self.old).begun queue number) || (takeovers_kept self.old).taken l n)) }
        ensures err { (l : ℕ) (n : slots.Name) → OnErr result (
            (takeovers_kept self.new).taken l n ≡ (takeovers_kept self.old).taken l n) }
    {
        let entry = EntryNumber { queue, number };

        // At the marked Block of its pair, unless that says `differs`: the mark may stand behind
        // the compare, which then said `equal`.
        let Some(takeover) = self.begun.get(&entry).copied() else {
            return Ok(());
        };
        let taken = SlotName {
            lba: takeover.lba(),
            name: takeover.dead(),
        };
        let Ok(_) = self.taken.insert(taken) else {
            return Err(NoMemory);
        };
        Ok(())
    }
}
