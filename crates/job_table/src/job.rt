//! A ticket in flight: how far it has come, and its data.

ghost use Rattle.std.specs.Prelude.{◌≡◌, ◌≤◌, ◌<◌, ◌+◌, ◌^◌, ◌⊎◌, ◌↔◌, [], IsTrue, drop, false, if◌then◌else◌, length};
ghost use Rattle.std.specs.Prelude.{take, true, ℕ};
ghost use Rattle.block_array.specs.Blocks.{contents_of};
ghost use Rattle.block_exec.specs.Bytes.{block_at, boxes_after, compare_length, needs_box, next_equal, takes_box};
ghost use Rattle.block_exec.specs.Bytes.{volume_with};
ghost use Rattle.block_exec.specs.Course.{next_done};
ghost use Rattle.block_exec.specs.Progress.{unit_has_ended, next_found};
ghost use Rattle.fused_match.specs.Judged.{IsSound, verdict_by};
ghost use Rattle.nvme_model.specs.Verdict.{taken_entries};
ghost use Rattle.nvme_model.specs.declared.operation.Op.{Op as Operation};
ghost use Rattle.job_table.specs.Keeping.{read_of};
ghost use Rattle.job_table.specs.Parts.{HasPart, part_end, part_of};

use crate::cids::OwedCids;
use crate::progress::TicketProgress;
use block_array::{BLOCK, Volume};
use block_exec::{Done, Run};
use fused_match::Judged;
use nvme_model::array::Range;
use nvme_model::operation::{Found, Op};
use nvme_model::submission::Payload;
use std::marker::Model;

/// A ticket in flight.
///
/// Contracts see its queue, how far it has come, and its data: of what it writes, the blocks that are still to be
/// written.
#[derive(Drop)]
pub struct Job {
    queue: u16,
    progress: TicketProgress,
    // The first of the blocks that its data is for.
    slba: u64,
    compare: Payload,
    // A box for each block to be written, the first of which are written: these boxes have what the volume had there.
    write: Vec<Box<[u8; 512]>>,
    written: usize,
    read: Payload,
}

impl Model for Job {
    ghost use Rattle.std.specs.Prelude.{drop};
    ghost use Rattle.block_array.specs.Blocks.{contents_of};
    ghost use Rattle.job_table.specs.Keeping.{Keeping};

    ghost Value = { Keeping };

    ghost view = { λ j. record {
      queue = j.queue;
      progress = j.progress;
      slba = j.slba;
      compare = j.compare;
      write = drop j.written (contents_of j.write.items);
      read = j.read;
    } };
}

/// The data of a ticket whose first block is this one.
#[derive(Drop)]
pub struct Data {
    /// The first of its blocks.
    pub slba: u64,
    /// The Compare's data.
    pub compare: Payload,
    /// The Write's data, a block a box.
    pub write: Vec<Box<[u8; 512]>>,
    /// Zeros for what a Read will read.
    pub read: Payload,
}

impl Job {
    ghost use Rattle.job_table.specs.Keeping.{CanMake, finds_equal, noted_job, opened_job, posted_job};
    ghost use Rattle.job_table.specs.Stages.{IfOpen, IsFirstUnit, first_ticket_stage, is_open, owed_in};

    /// A ticket of this queue that was judged so, with the CIDs of its commands and its data.
    pub fn new(queue: u16, judged: &Judged, cids: OwedCids, all: Data) -> Job
        requires cids { length cids ≡ taken_entries (verdict_by judged.now) }
        requires sound { IsSound judged.now }
        ensures value { result ≡
            record {
              queue = queue;
              progress = record { stage = first_ticket_stage judged.now; cids = cids };
              slba = all.slba;
              compare = all.compare;
              write = contents_of all.write.items;
              read = all.read;
            } }
    {
        Job {
            queue,
            progress: TicketProgress::new(judged, cids),
            slba: all.slba,
            compare: all.compare,
            write: all.write,
            written: 0,
            read: all.read,
        }
    }

    /// Its submission queue, from 1.
    pub fn queue(&self) -> u16
        ensures value { result ≡ self.now.queue }
    {
        self.queue
    }

    /// How far it has come.
    pub fn progress(&self) -> TicketProgress
        ensures value { result ≡ self.now.progress }
    {
        self.progress
    }

    /// What a Read has read so far, and zeros for the rest.
    pub fn read(&self) -> &[u8]
        ensures value { result.now ≡ self.now.read }
    {
        self.read.as_slice()
    }

    /// What it has read, and its boxes, of which the last are those that it had still to write, where nothing else of
    /// the ticket is needed any more.
    pub fn into_parts(self) -> (Payload, Vec<Box<[u8; 512]>>)
        ensures read { result.0 ≡ self.read }
        ensures write { (k : ℕ) × (drop k (contents_of result.1.items) ≡ self.write) }
    {
        (self.read, self.write)
    }

    /// Opens the next unit, of these blocks.
    pub fn open(&mut self, range: Range)
        requires first { IsFirstUnit self.old.progress.stage range }
        ensures opened { self.new ≡ opened_job self.old range }
    {
        self.progress.open(range);
    }

    /// Makes the next block of its open unit.
    pub fn make_block(&mut self, volume: &mut Volume) -> Done
        requires open { is_open self.old.progress.stage ≡ true }
        requires ready { IfOpen self.old.progress.stage (λ p. CanMake self.old p volume.old) }
        ensures done { IfOpen self.old.progress.stage (λ p. result ≡ next_done p (finds_equal self.old p volume.old)) }
        ensures volume { IfOpen self.old.progress.stage
            (λ p. volume.new ≡ volume_with p volume.old (block_at self.old.write 0) result.found) }
        ensures job { IfOpen self.old.progress.stage (λ p. self.new ≡ noted_job self.old p volume.old result.found) }
    {
        let run = self.progress.run().unwrap();
        let compare = self.compare.as_slice();
        let boxes = self.write.as_mut_slice();
        let read = self.read.as_mut_slice();
        let found = touch(run, self.slba, compare, boxes, self.written, read, volume);
        let count = written_then(self.written, run, found);
        self.written = count;
        self.progress.note(found)
    }

    /// Takes the completion that is owed next off what is owed, and says whether it was the last.
    pub fn post(&mut self) -> bool
        requires owes { 0 < length (owed_in self.old.progress.stage) }
        ensures posted { self.new ≡ posted_job self.old }
        ensures last { IsTrue result ↔ (length self.old.progress.cids ≡ 1) }
    {
        self.progress.post()
    }
}

// The part of a unit in the data of its command; none of no data.
fn part(bytes: &[u8], at: usize, count: usize) -> &[u8]
    requires within { bytes.now ≡ [] ⊎ at + count ≤ length bytes.now }
    ensures value { result.now ≡ take count (drop at bytes.now) }
{
    if bytes.is_empty() {
        return bytes;
    }
    &bytes[at..at + count]
}

// How many boxes are written after a Block of this unit that found this, where so many were.
fn written_then(written: usize, run: Run, found: Found) -> usize
    requires room { takes_box run.op found ≡ true → written + 1 < 2 ^ 64 }
    ensures value { result ≡ (if takes_box run.op found then written + 1 else written) }
{
    if run.op() != Op::WriteZeroes && found == Found::Written {
        return written + 1;
    }
    written
}

// Makes the next block of an open unit, where the data is for the blocks from this one on, and what is written next is
// in the box at this place, and says what it found.
fn touch(
    run: Run,
    slba: u64,
    compare: &[u8],
    boxes: &mut [Box<[u8; 512]>],
    next: usize,
    read: &mut [u8],
    volume: &mut Volume,
) -> Found
    requires unended { unit_has_ended run ≡ false }
    requires within { run.range.slba + run.range.blocks ≤ length volume.old }
    requires start { slba ≤ run.range.slba }
    requires has_compare { HasPart compare.now slba run.range }
    requires compare { length (part_of compare.now slba run.range) ≡ compare_length run.op run.range.blocks }
    requires boxed { needs_box run ≡ true → next < length boxes.old }
    requires read { run.op ≡ Operation.Read → part_end slba run.range ≤ length read.old }
    ensures found { result ≡ next_found run (next_equal run volume.old (part_of compare.now slba run.range)) }
    ensures volume { volume.new ≡ volume_with run volume.old (block_at (contents_of boxes.old) next) result }
    ensures boxes { contents_of boxes.new ≡ boxes_after run volume.old (contents_of boxes.old) next result }
    ensures read { read.new ≡ read_of read.old slba run volume.old result }
    ensures size { length read.new ≡ length read.old }
{
    let at = BLOCK * (run.range().slba - slba) as usize;
    let count = BLOCK * run.range().blocks as usize;
    let compare = part(compare, at, count);
    if run.op() == Op::Read {
        let read = &mut read[at..at + count];
        return run.touch(volume, compare, boxes, next, read);
    }
    run.touch(volume, compare, boxes, next, &mut [])
}
