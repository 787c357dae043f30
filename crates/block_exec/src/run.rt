//! The unit that is open of a ticket, as it goes on block by block.

ghost use Rattle.std.specs.Prelude.{◌≡◌, ◌≤◌, ◌<◌, ◌+◌, ◌%◌, Some, false, length, suc, true};
ghost use Rattle.nvme_model.specs.Open.{is_differs};
ghost use Rattle.nvme_model.specs.Steps.{marked};
ghost use Rattle.block_array.specs.Blocks.{contents_of};
ghost use Rattle.block_exec.specs.Bytes.{block_at, boxes_after, compare_length, needs_box, next_equal, read_after};
ghost use Rattle.block_exec.specs.Bytes.{read_length, volume_after, volume_with, write_count};
ghost use Rattle.nvme_model.specs.Array.{IsRange};
ghost use Rattle.block_exec.specs.Progress.{unit_has_ended, needed, next_block, next_found, next_place};

use crate::blocks::{block_of, clear_block, compared, hand_over, put_block};
use block_array::Volume;
use nvme_model::array::Range;
use nvme_model::operation::{Found, Op};
use std::marker::Model;

/// An open unit: what it does, its blocks, and how many of its Block steps are made.
#[derive(Clone, Copy, Debug, PartialEq, Eq)]
pub struct Run {
    op: Op,
    range: Range,
    made: u32,
    differed: bool,
}

impl Model for Run {
    ghost use Rattle.std.specs.Prelude.{◌≤◌};
    ghost use Rattle.nvme_model.specs.Array.{IsRange};
    ghost use Rattle.block_exec.specs.Progress.{UnitProgress, needed};

    ghost Value = { UnitProgress };

    ghost view = { λ r. record { op = r.op; range = r.range; made = r.made; differed = r.differed } };

    ghost invariant = { λ r. IsRange r.range × (r.made ≤ needed r.op r.range.blocks) };

    ghost inverse = { λ v. record { op = v.op; range = v.range; made = v.made; differed = v.differed } };
}

/// What one Block step did.
#[derive(Clone, Copy, Debug, PartialEq, Eq)]
pub struct Done {
    pub lba: u64,
    pub found: Found,
    /// The unit takes effect with this step.
    pub effect: bool,
    /// The unit has ended with this step.
    pub ended: bool,
}

impl Run {
    ghost use Rattle.block_exec.specs.Course.{done_by, next_done, unit_noted, stepped};

    /// A unit of these blocks of which no step is made.
    pub fn new(op: Op, range: Range) -> Run
        requires range { IsRange range }
        ensures value { result ≡ record { op = op; range = range; made = 0; differed = false } }
    {
        Run {
            op,
            range,
            made: 0,
            differed: false,
        }
    }

    /// What the unit does.
    pub fn op(&self) -> Op
        ensures value { result ≡ self.now.op }
    {
        self.op
    }

    /// Its blocks.
    pub fn range(&self) -> Range
        ensures value { result ≡ self.now.range }
        ensures law { IsRange result }
    {
        self.range
    }

    /// How many of its Block steps are made.
    pub fn made(&self) -> u32
        ensures value { result ≡ self.now.made }
        ensures most { result ≤ needed self.now.op self.now.range.blocks }
    {
        self.made
    }

    /// Whether all its Block steps are made, or one found a difference.
    pub fn has_ended(&self) -> bool
        ensures value { result ≡ unit_has_ended self.now }
    {
        let needed = match self.op {
            Op::Pair => 2 * self.range.blocks,
            Op::Read | Op::Compare | Op::Write | Op::WriteZeroes => self.range.blocks,
        };
        self.differed || self.made >= needed
    }

    // All boxes of the job are given, with the place of the one that is due, so that a job makes no
    // slice of them for a unit and has no proofs about one.
    /// Reads, compares or writes the block that is due, and doesn't count the step; what is written comes from the box
    /// at this place.
    pub fn touch(
        &self,
        volume: &mut Volume,
        compare: &[u8],
        boxes: &mut [Box<[u8; 512]>],
        at: usize,
        read: &mut [u8],
    ) -> Found
        requires within { self.now.range.slba + self.now.range.blocks ≤ length volume.old }
        requires compare { length compare.now ≡ compare_length self.now.op self.now.range.blocks }
        requires boxed { needs_box self.now ≡ true → at < length boxes.old }
        requires read { length read.old ≡ read_length self.now.op self.now.range.blocks }
        ensures found { result ≡ next_found self.now (next_equal self.now volume.old compare.now) }
        ensures volume { volume.new ≡ volume_with self.now volume.old (block_at (contents_of boxes.old) at) result }
        ensures boxes { contents_of boxes.new ≡ boxes_after self.now volume.old (contents_of boxes.old) at result }
        ensures read { read.new ≡ read_after self.now volume.old read.old result }
    {
        let place = remainder(self.made, self.range.blocks);
        let lba = self.range.slba + u64::from(place);
        match self.op {
            Op::Read => {
                put_block(read, place, volume.block(lba));
                Found::Read
            }
            Op::Compare => compared(volume, lba, block_of(compare, place)),
            Op::Pair if self.made < self.range.blocks => {
                compared(volume, lba, block_of(compare, place))
            }
            Op::Write => hand_over(volume, lba, boxes, at),
            Op::Pair => hand_over(volume, lba, boxes, at),
            Op::WriteZeroes => {
                clear_block(volume, lba);
                Found::Written
            }
        }
    }

    /// Whether the unit takes effect with the Block step that is due, where it finds this.
    fn is_effect(&self, found: Found) -> bool
        ensures value { result ≡ marked (Some self.now.op) self.now.range.blocks self.now.made found }
    {
        match self.op {
            Op::Write | Op::WriteZeroes => self.made == 0,
            Op::Read | Op::Compare | Op::Pair => self.made + 1 == self.range.blocks
                || found == Found::Differs,
        }
    }

    /// Counts the Block step that is due, which found this, whoever made it.
    pub fn note(&mut self, found: Found) -> Done
        requires open { unit_has_ended self.old ≡ false }
        ensures done { result ≡ done_by self.old found }
        ensures noted { self.new ≡ unit_noted self.old found }
    {
        let lba = self.range.slba + u64::from(remainder(self.made, self.range.blocks));
        let effect = self.is_effect(found);
        let Run { made, differed, .. } = self;
        *made += 1;
        *differed = found == Found::Differs;
        Done {
            lba,
            found,
            effect,
            ended: self.has_ended(),
        }
    }

    /// Makes the Block step that is due, on one block of the volume.
    ///
    /// `compare` and `read` are the unit's bytes, 512 a block, and `write` its blocks, one a box, where its operation
    /// uses them, and else empty: a Compare and a pair compare with `compare`, a Write and a pair write the blocks of
    /// `write`, a Read puts what it reads into `read`. A block that is written changes hands: its box then holds what
    /// the volume held.
    pub fn next(
        &mut self,
        volume: &mut Volume,
        compare: &[u8],
        write: &mut [Box<[u8; 512]>],
        read: &mut [u8],
    ) -> Done
        requires open { unit_has_ended self.old ≡ false }
        requires within { self.old.range.slba + self.old.range.blocks ≤ length volume.old }
        requires compare { length compare.now ≡ compare_length self.old.op self.old.range.blocks }
        requires write { length write.old ≡ write_count self.old.op self.old.range.blocks }
        requires read { length read.old ≡ read_length self.old.op self.old.range.blocks }
        ensures lba { result.lba ≡ next_block self.old }
        ensures found { result.found ≡ next_found self.old (next_equal self.old volume.old compare.now) }
        ensures effect { result.effect ≡ marked (Some self.old.op) self.old.range.blocks self.old.made result.found }
        ensures ended { result.ended ≡ unit_has_ended self.new }
        ensures progress { self.new ≡ record self.old { made = suc self.old.made; differed = is_differs result.found } }

        // The same as a whole: this is the next step of the unit's course.
        ensures done { result ≡ next_done self.old (next_equal self.old volume.old compare.now) }
        ensures stepped { self.new ≡ stepped self.old (next_equal self.old volume.old compare.now) }
        ensures volume { volume.new ≡ volume_after self.old volume.old (contents_of write.old) result.found }
        ensures write { contents_of write.new ≡
            boxes_after self.old volume.old (contents_of write.old) (next_place self.old) result.found }
        ensures read { read.new ≡ read_after self.old volume.old read.old result.found }
    {
        let place = remainder(self.made, self.range.blocks);
        self.next_from(volume, compare, write, place as usize, read)
    }

    /// The same, where a block that is due to be written is in the box at this place.
    pub fn next_from(
        &mut self,
        volume: &mut Volume,
        compare: &[u8],
        boxes: &mut [Box<[u8; 512]>],
        at: usize,
        read: &mut [u8],
    ) -> Done
        requires open { unit_has_ended self.old ≡ false }
        requires within { self.old.range.slba + self.old.range.blocks ≤ length volume.old }
        requires compare { length compare.now ≡ compare_length self.old.op self.old.range.blocks }
        requires boxed { needs_box self.old ≡ true → at < length boxes.old }
        requires read { length read.old ≡ read_length self.old.op self.old.range.blocks }
        ensures found { result.found ≡ next_found self.old (next_equal self.old volume.old compare.now) }
        ensures done { result ≡ next_done self.old (next_equal self.old volume.old compare.now) }
        ensures stepped { self.new ≡ stepped self.old (next_equal self.old volume.old compare.now) }
        ensures volume { volume.new ≡
            volume_with self.old volume.old (block_at (contents_of boxes.old) at) result.found }
        ensures boxes { contents_of boxes.new ≡
            boxes_after self.old volume.old (contents_of boxes.old) at result.found }
        ensures read { read.new ≡ read_after self.old volume.old read.old result.found }
    {
        let found = self.touch(volume, compare, boxes, at, read);
        self.note(found)
    }
}

// What is left of a number that is mostly below twice the blocks, where no division is made.
fn remainder(made: u32, blocks: u32) -> u32
    requires some { 0 < blocks }
    ensures value { result ≡ made % blocks }
{
    if made < blocks {
        return made;
    }
    let over = made - blocks;
    if over < blocks {
        return over;
    }
    over % blocks
}
