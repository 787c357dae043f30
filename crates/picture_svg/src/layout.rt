//! Where the lanes lie.

ghost use Rattle.std.specs.Prelude.{◌≡◌, ◌==◌, ◌≤◌, IfOk, flat_map, nat_lt};
ghost use Rattle.std.specs.List.{count_by, list_any};
ghost use Rattle.picture_svg.specs.Layout.{block_lane, block_top, has_lane, layout_of, rows_below};
ghost use Rattle.picture_svg.specs.Layout.{slot_lane, slot_top};

use crate::columns::{Columns, top_of};
use picture_shapes::{BlockNow, Lanes, LanesShown};
use std::alloc::{AllocError as NoMemory, Global};
use std::marker::Model;

/// Where the lanes of blocks and of slots lie: below so many rows, each in the order of the blocks.
#[derive(Debug, Drop)]
pub struct Layout {
    columns: Columns,
    above: u64,
    blocks: Vec<u64>,
    slots: Vec<u64>,
}

impl Model for Layout {
    ghost use Rattle.picture_svg.specs.Layout.{LayoutState};

    ghost Value = { LayoutState };

    ghost view = { λ y. record {
      columns = y.columns;
      above = y.above;
      blocks = y.blocks.items;
      slots = y.slots.items;
    } };
}

// The blocks that have a lane of their value.
fn block_lanes(alloc: Global, shown: LanesShown, blocks: &[BlockNow]) -> Result<Vec<u64>, NoMemory>
    ensures value { IfOk result (λ list. list.items ≡ flat_map (block_lane shown) blocks.now) }
{
    let mut list = Vec::new(alloc);
    for block in blocks {
        if shown.is_block_lane(block) {
            list.push(block.lba)?;
        }
    }
    Ok(list)
}

// The blocks that have a lane of a slot.
fn slot_lanes(alloc: Global, shown: LanesShown, blocks: &[BlockNow]) -> Result<Vec<u64>, NoMemory>
    ensures value { IfOk result (λ list. list.items ≡ flat_map (slot_lane shown) blocks.now) }
{
    let mut list = Vec::new(alloc);
    for block in blocks {
        if shown.is_slot_lane(block) {
            list.push(block.lba)?;
        }
    }
    Ok(list)
}

// How many of these are lower.
fn lower(lba: u64, blocks: &[u64]) -> u64
    ensures value { result ≡ count_by (λ k. nat_lt k lba) blocks.now }
{
    let mut count = 0;
    for block in blocks {
        if *block < lba {
            count += 1;
        }
    }
    count
}

// Whether a block is one of these.
fn has_lane(lba: u64, blocks: &[u64]) -> bool
    ensures value { result ≡ list_any (λ k. k == lba) blocks.now }
{
    blocks.iter().any(|block| *block == lba)
}

impl Layout {
    /// The layout of lanes below so many rows.
    ///
    /// # Errors
    ///
    /// `NoMemory` where a growth is refused.
    pub fn new(
        alloc: Global,
        columns: Columns,
        above: u64,
        lanes: &Lanes,
    ) -> Result<Layout, NoMemory>
        ensures value { IfOk result (λ layout. layout ≡ layout_of columns above lanes.now) }
    {
        let shown = lanes.shown();
        let blocks = lanes.blocks().now();
        Ok(Layout {
            columns,
            above,
            blocks: block_lanes(alloc, shown, blocks)?,
            slots: slot_lanes(alloc, shown, blocks)?,
        })
    }

    /// How many rows there are down to the last lane.
    pub fn rows_below(&self) -> u64
        ensures value { result ≡ rows_below self.now }
        ensures bound { result ≤ 5000000 }
    {
        let blocks = (self.blocks.len() as u64).min(1_000_000);
        let slots = (self.slots.len() as u64).min(1_000_000);
        self.above.min(3_000_000) + (blocks + slots)
    }

    /// Where the columns lie.
    pub(crate) fn columns(&self) -> Columns
        ensures { result ≡ self.now.columns }
    {
        self.columns
    }

    /// The blocks that have a lane of their value.
    pub(crate) fn blocks(&self) -> &[u64]
        ensures { result.now ≡ self.now.blocks }
    {
        self.blocks.as_slice()
    }

    /// The blocks that have a lane of a slot.
    pub(crate) fn slots(&self) -> &[u64]
        ensures { result.now ≡ self.now.slots }
    {
        self.slots.as_slice()
    }

    /// Whether a block has a lane of its value.
    pub(crate) fn has_block(&self, lba: u64) -> bool
        ensures value { result ≡ has_lane lba self.now.blocks }
    {
        has_lane(lba, self.blocks.as_slice())
    }

    /// Whether a block has a lane of a slot.
    pub(crate) fn has_slot(&self, lba: u64) -> bool
        ensures value { result ≡ has_lane lba self.now.slots }
    {
        has_lane(lba, self.slots.as_slice())
    }

    /// The top of the lane of a block's value.
    pub(crate) fn block_top(&self, lba: u64) -> u64
        ensures value { result ≡ block_top self.now lba }
        ensures bound { result ≤ 46000066 }
    {
        top_of(
            self.above
                .saturating_add(lower(lba, self.blocks.as_slice())),
        )
    }

    /// The top of the lane of a slot.
    pub(crate) fn slot_top(&self, lba: u64) -> u64
        ensures value { result ≡ slot_top self.now lba }
        ensures bound { result ≤ 46000066 }
    {
        let blocks = self.blocks.len() as u64;
        let rank = blocks.saturating_add(lower(lba, self.slots.as_slice()));
        top_of(self.above.saturating_add(rank))
    }
}
