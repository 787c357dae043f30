//! What is wrong with a Block or a Post of a ticket in flight.

ghost use Rattle.std.specs.Prelude.{◌≡◌, ◌≤◌, ◌<◌, ◌+◌, ◌^◌, IfOk, IfSome, length, slice_get};
ghost use Rattle.nvme_model.specs.Bits.{bit};
ghost use Rattle.nvme_model.specs.Operations.{units};
ghost use Rattle.nvme_model.specs.declared.config.ConfigNumbers.{ConfigNumbers};
ghost use Rattle.history_check.specs.Judged.{checked_owed};
ghost use Rattle.history_check.specs.Contents.{contents_in};
ghost use Rattle.history_check.specs.Explained.{block_wrong_by, post_wrong_at};

use crate::flight::CheckedTicket;
use crate::unit::{answers_at, block_due};
use block_array::Volume;
use broken_rules::{Broken, block_broken, post_broken};
use nvme_model::entry::{BlockLine, PostLine};
use nvme_model::refusal::Why;
use std::alloc::{AllocError as NoMemory, Global};

impl CheckedTicket {
    /// What is wrong with a Block of its open unit, where the blocks are these.
    ///
    /// # Errors
    ///
    /// `NoMemory` where a growth is refused.
    pub fn block_wrong(
        &self,
        alloc: Global,
        volume: &Volume,
        block: &BlockLine,
    ) -> Result<Option<Broken>, NoMemory>
        requires within { IfSome self.now.unit (λ u. u.line.range.slba + u.line.range.blocks ≤ length volume.now) }
        requires some { IfSome self.now.unit (λ u. 1 ≤ u.line.range.blocks) }
        ensures value { IfOk result
            (λ b. b ≡ block_wrong_by (contents_in volume.now) self.now block.now self.now.unit) }
    {
        let Some(unit) = self.unit() else {
            return Ok(Some(Broken::Refused(Why::WrongState)));
        };
        // A read tells the proof that the blocks are few enough for their numbers.
        let _count = volume.len();
        let (_posts, placed) = self.counts();
        if block.effect {
            let right = answers_at(alloc, volume, self.ticket(), unit.range())?;
            let right = Some(right.as_slice());
            let due = block_due(self.ticket(), placed, unit, right, block);
            return Ok(block_broken(block, &due));
        }
        let due = block_due(self.ticket(), placed, unit, unit.right(), block);
        Ok(block_broken(block, &due))
    }

    /// What is wrong with a Post, where the ticket has so many units, by the head and the phase of its queues' rings.
    pub fn post_wrong(&self, count: u64, head: u16, phase: bool, line: &PostLine) -> Option<Broken>
        ensures value { (c : ConfigNumbers) → count ≡ length (units c self.now.ticket) →
            result ≡
            post_wrong_at head (bit phase) self.now line.now
            (slice_get (checked_owed c self.now) self.now.posts) }
    {
        let (posts, _placed) = self.counts();
        let Some(status) = self.owed(count).get(usize::from(posts)) else {
            return Some(Broken::NothingOwed {
                ticket: line.ticket,
            });
        };
        let wanted = self.completion(status, head, phase);
        post_broken(line, &wanted, self.data(status))
    }
}
