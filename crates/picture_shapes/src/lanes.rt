//! The lanes of blocks and of slots, made entry by entry.

ghost use Rattle.std.specs.Prelude.{◌≡◌, OnOk};
ghost use Rattle.nvme_model.specs.Array.{has_block};
ghost use Rattle.picture_shapes.specs.Lanes.{has_slot, is_block_lane, is_slot_lane, lane_published, lanes_after};
ghost use Rattle.picture_shapes.specs.Lanes.{lanes_block, lanes_published, lanes_reaped, lanes_with, no_lanes};
ghost use Rattle.picture_shapes.specs.Lanes.{shows_lanes};

use crate::belief::Beliefs;
use crate::block::BlockNow;
use crate::blocks::Blocks;
use crate::lane_entries::LaneEntries;
use history::{BlockLine, Config, Entry, PublishLine, ReapLine};
use nvme_model::array::Range;
use nvme_model::submission::Submission;
use std::alloc::{AllocError as NoMemory, Global};
use std::marker::Model;

/// Which lanes are shown: of the blocks that are touched, and of the slots of an area, where there is one.
#[derive(Clone, Copy, Debug, PartialEq, Eq)]
pub struct LanesShown {
    pub blocks: bool,
    pub slots: Option<Range>,
}

/// What lies in blocks and who is believed of slots, entry by entry. Of the entries before those that are drawn nothing
/// is kept but what each block is and who is believed.
#[derive(Drop)]
pub struct Lanes {
    shown: LanesShown,
    entries: LaneEntries,
    blocks: Blocks,
    beliefs: Beliefs,
}

impl Model for Lanes {
    ghost use Rattle.picture_shapes.specs.Lanes.{LanesState};

    ghost Value = { LanesState };

    ghost view = { λ s. record { shown = s.shown; entries = s.entries; blocks = s.blocks; beliefs = s.beliefs } };
}

// Whether an area has a block.
fn has_block(slots: Range, lba: u64) -> bool
    ensures value { result ≡ has_block slots lba }
{
    slots.slba <= lba && u128::from(lba) < u128::from(slots.slba) + u128::from(slots.blocks)
}

impl LanesShown {
    /// Whether there is a lane at all.
    pub fn any(&self) -> bool
        ensures value { result ≡ shows_lanes self.now }
    {
        self.blocks || self.slots.is_some()
    }

    /// Whether the area has this block, where there is an area.
    pub fn has_slot(&self, lba: u64) -> bool
        ensures value { result ≡ has_slot self.now.slots lba }
    {
        match self.slots {
            Some(slots) => has_block(slots, lba),
            None => false,
        }
    }

    /// Whether a block has a lane of its value.
    pub fn is_block_lane(&self, block: &BlockNow) -> bool
        ensures value { result ≡ is_block_lane self.now block.now }
    {
        self.blocks && block.touched
    }

    /// Whether a block has a lane of a slot.
    pub fn is_slot_lane(&self, block: &BlockNow) -> bool
        ensures value { result ≡ is_slot_lane self.now block.now }
    {
        self.has_slot(block.lba)
    }
}

impl Lanes {
    /// Lanes of which these are shown, with no entry taken yet.
    pub fn new(alloc: Global, shown: LanesShown) -> Lanes
        ensures none { result ≡ no_lanes shown }
    {
        Lanes {
            shown,
            entries: LaneEntries::new(alloc),
            blocks: Blocks::new(alloc),
            beliefs: Beliefs::new(alloc),
        }
    }

    // An entry is published.
    fn publish_one(
        &mut self,
        from: u64,
        place: u64,
        queue: u16,
        item: &Submission,
    ) -> Result<(), NoMemory>
        ensures value { OnOk result (self.new ≡ lane_published from place queue item.now self.old) }
    {
        let release = self.entries.release_at(place, item);
        self.entries.publish(place, queue, item)?;
        self.beliefs.end(from, place, release)?;
        Ok(())
    }

    fn publish(&mut self, from: u64, place: u64, line: &PublishLine) -> Result<(), NoMemory>
        ensures value { OnOk result
            (self.new ≡ lanes_published from place line.now.queue line.now.batch self.old) }
    {
        let items = line.batch.as_slice();
        for item in items {
            self.publish_one(from, place, line.queue, item)?;
        }
        Ok(())
    }

    fn block(&mut self, from: u64, place: u64, line: &BlockLine) -> Result<(), NoMemory>
        ensures value { OnOk result (self.new ≡ lanes_block from place line.now self.old) }
    {
        let writer = self.entries.writer(line.ticket);
        self.blocks.make(from, place, line, writer)
    }

    fn reap(&mut self, place: u64, line: &ReapLine) -> Result<(), NoMemory>
        ensures value { OnOk result (self.new ≡ lanes_reaped place line.now self.old) }
    {
        let claim = self.entries.reap(line.queue);
        self.beliefs.begin(place, claim)
    }

    // Takes the entry at this place, where a lane is shown.
    fn take_entry(
        &mut self,
        config: &Config,
        from: u64,
        place: u64,
        entry: &Entry,
    ) -> Result<(), NoMemory>
        ensures value { OnOk result (self.new ≡ lanes_with config.now from place entry.now self.old) }
    {
        match entry {
            Entry::Publish(line) => self.publish(from, place, line),
            Entry::Fetch(line) => {
                self.entries.fetch(line);
                Ok(())
            }
            Entry::Grant(line) => {
                self.entries.grant(line);
                Ok(())
            }
            Entry::Block(line) => self.block(from, place, line),
            Entry::Post(line) => self.entries.post(config, line),
            Entry::Reap(line) => self.reap(place, line),
        }
    }

    /// Takes the entry at this place, which may follow.
    ///
    /// # Errors
    ///
    /// `NoMemory` where a growth is refused.
    pub fn take(
        &mut self,
        config: &Config,
        from: u64,
        place: u64,
        entry: &Entry,
    ) -> Result<(), NoMemory>
        ensures value { OnOk result (self.new ≡ lanes_after config.now from place entry.now self.old) }
    {
        if !self.shown.any() {
            return Ok(());
        }
        self.take_entry(config, from, place, entry)
    }

    /// Which lanes are shown.
    pub fn shown(&self) -> LanesShown
        ensures { result ≡ self.now.shown }
    {
        self.shown
    }

    /// The blocks that were touched.
    pub fn blocks(&self) -> &Blocks
        ensures { result.now ≡ self.now.blocks }
    {
        &self.blocks
    }

    /// Who is believed of slots.
    pub fn beliefs(&self) -> &Beliefs
        ensures { result.now ≡ self.now.beliefs }
    {
        &self.beliefs
    }
}
