//! The units of a range of blocks, one after another.

ghost use Rattle.std.specs.Prelude.{◌≡◌, ◌+◌, ◌≤◌, List};
ghost use Rattle.std.specs.Iterator.{YieldsFirst, item_count};
ghost use Rattle.nvme_model.specs.Cut.{cut};
ghost use Rattle.nvme_model.specs.declared.array.Range.{Range};

use crate::cells::longest;
use nvme_model::array::Range;
use nvme_model::config::AtomicParameters;
use std::marker::Model;

/// The units of a range of blocks that are still to come, seen as the list of them.
#[derive(Drop)]
pub struct UnitIter {
    parameters: AtomicParameters,
    slba: u64,
    blocks: u32,
}

impl Model for UnitIter {
    ghost Value = { List Range };

    ghost view = { λ i. cut i.parameters i.slba i.blocks };

    ghost invariant = { λ i. i.slba + i.blocks ≤ 65536 };
}

impl UnitIter {
    /// The units of the `blocks` blocks from `slba` on.
    pub(crate) fn new(parameters: AtomicParameters, slba: u64, blocks: u32) -> UnitIter
        requires within { slba + blocks ≤ 65536 }
        ensures units { result ≡ cut parameters slba blocks }
    {
        UnitIter {
            parameters,
            slba,
            blocks,
        }
    }
}

impl Iterator for UnitIter {
    type Item = Range;

    ghost next_gives = { YieldsFirst (λ units. units) };

    ghost remaining = { item_count (λ units. units) };

    #[tactic(auto, using(crate::proofs::Steps::cut_step, crate::proofs::Steps::longest_within))]
    fn next(&mut self) -> Option<Range> {
        if self.blocks == 0 {
            return None;
        }
        let unit = Range {
            slba: self.slba,
            blocks: longest(&self.parameters, self.slba, self.blocks),
        };
        self.slba += u64::from(unit.blocks);
        self.blocks -= unit.blocks;
        Some(unit)
    }
}
