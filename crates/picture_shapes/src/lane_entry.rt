//! Entries that aren't posted yet, and completions that wait.

ghost use Rattle.std.specs.Prelude.{◌≡◌, ◌<◌, ◌≤◌, IfSome, drop, length, take};
ghost use Rattle.nvme_model.specs.Slots.{is_pair_on_one};
ghost use Rattle.picture_shapes.specs.Contents.{content_of};
ghost use Rattle.picture_shapes.specs.LaneEntries.{block_behind, claimed_slot_name, data_of_block, is_writing};
ghost use Rattle.picture_shapes.specs.LaneEntries.{lane_entry_place, released_slot_name, same_lane_entry_stage};
ghost use Rattle.picture_shapes.specs.LaneEntries.{slot_named, win_place, writer_place, writes_for, written_at};

use crate::content::{Content, content_of, is_zeros};
use entry_codec::decode_sqe;
use nvme_model::array::Range;
use nvme_model::submission::Submission;
use nvme_model::{Name, name_of};

/// A slot and a name.
#[derive(Clone, Copy, Debug, PartialEq, Eq)]
pub struct SlotName {
    pub lba: u64,
    pub name: Name,
}

/// How far an entry has come that isn't posted.
#[derive(Clone, Copy, Debug, PartialEq, Eq)]
pub enum LaneEntryStage {
    /// It waits in this submission queue.
    Waiting(u16),
    /// It is of this ticket.
    InFlight(u64),
}

/// An entry that isn't posted: the place of its Publish, its queue, its bytes and data, the claim that it ends, and the
/// blocks of its unit that was granted last.
#[derive(Debug, Drop)]
pub struct LaneEntry {
    pub published: u64,
    pub queue: u16,
    pub stage: LaneEntryStage,
    pub item: Submission,
    pub claim: Option<SlotName>,
    pub unit: Range,
}

/// A completion that waits in this completion queue, and the claim of whose success it tells.
#[derive(Clone, Copy, Debug, PartialEq, Eq)]
pub struct Win {
    pub queue: u16,
    pub claim: Option<SlotName>,
}

// Whether two entries are a pair on one block.
fn is_pair_on_one(a: &Submission, b: &Submission) -> bool
    ensures value { result ≡ is_pair_on_one a.now b.now }
{
    let first = decode_sqe(&a.entry);
    let second = decode_sqe(&b.entry);
    first.is_compare()
        && second.is_write()
        && first.fuse() == 1
        && second.fuse() == 2
        && first.slba() == second.slba()
        && first.blocks() == 1
        && second.blocks() == 1
}

// That name, at this block.
fn slot_named(lba: u64, name: Option<Name>) -> Option<SlotName>
    ensures value { result ≡ slot_named lba name }
{
    match name {
        Some(name) => Some(SlotName { lba, name }),
        None => None,
    }
}

/// The claim that two entries are.
pub(crate) fn claimed_slot_name(a: &Submission, b: &Submission) -> Option<SlotName>
    ensures value { result ≡ claimed_slot_name a.now b.now }
{
    if is_pair_on_one(a, b) && is_zeros(a.payload.as_slice()) {
        slot_named(decode_sqe(&a.entry).slba(), name_of(b.payload.as_slice()))
    } else {
        None
    }
}

/// The release that two entries are.
pub(crate) fn released_slot_name(a: &Submission, b: &Submission) -> Option<SlotName>
    ensures value { result ≡ released_slot_name a.now b.now }
{
    if is_pair_on_one(a, b) && is_zeros(b.payload.as_slice()) {
        slot_named(decode_sqe(&a.entry).slba(), name_of(a.payload.as_slice()))
    } else {
        None
    }
}

// Whether two stages are the same.
fn same_lane_entry_stage(one: LaneEntryStage, other: LaneEntryStage) -> bool
    ensures value { result ≡ same_lane_entry_stage one other }
{
    match (one, other) {
        (LaneEntryStage::Waiting(a), LaneEntryStage::Waiting(b)) => a == b,
        (LaneEntryStage::InFlight(a), LaneEntryStage::InFlight(b)) => a == b,
        (LaneEntryStage::Waiting(_) | LaneEntryStage::InFlight(_), _) => false,
    }
}

/// Where the first entry is that has come so far.
pub(crate) fn lane_entry_place(entries: &[LaneEntry], stage: LaneEntryStage) -> Option<usize>
    ensures value { result ≡ lane_entry_place stage entries.now }
    ensures bound { IfSome result (λ i. i < length entries.now) }
{
    entries
        .iter()
        .position(|one| same_lane_entry_stage(one.stage, stage))
}

// Whether an entry writes.
fn is_writing(lane_entry: &LaneEntry) -> bool
    ensures value { result ≡ is_writing lane_entry.now }
{
    let entry = decode_sqe(&lane_entry.item.entry);
    entry.is_write() || entry.is_write_zeroes()
}

// Whether an entry is of this ticket, and writes.
fn writes_for(lane_entry: &LaneEntry, ticket: u64) -> bool
    ensures value { result ≡ writes_for ticket lane_entry.now }
{
    same_lane_entry_stage(lane_entry.stage, LaneEntryStage::InFlight(ticket))
        && is_writing(lane_entry)
}

/// Where the entry of a ticket is that writes.
pub(crate) fn writer_place(entries: &[LaneEntry], ticket: u64) -> Option<usize>
    ensures value { result ≡ writer_place ticket entries.now }
    ensures bound { IfSome result (λ i. i < length entries.now) }
{
    entries.iter().position(|one| writes_for(one, ticket))
}

/// Where the completion is that waits longest in a completion queue.
pub(crate) fn win_place(wins: &[Win], queue: u16) -> Option<usize>
    ensures value { result ≡ win_place queue wins.now }
    ensures bound { IfSome result (λ i. i < length wins.now) }
{
    wins.iter().position(|one| one.queue == queue)
}

// The bytes from this one on.
fn bytes_from(bytes: &[u8], first: usize) -> &[u8]
    ensures value { result.now ≡ drop first bytes.now }
{
    if first < bytes.len() {
        return &bytes[first..];
    }
    &bytes[bytes.len()..]
}

// The first bytes, at most so many.
fn first_bytes(bytes: &[u8], most: usize) -> &[u8]
    ensures value { result.now ≡ take most bytes.now }
{
    if most < bytes.len() {
        return &bytes[..most];
    }
    bytes
}

// Blocks of a list of bytes: the one behind so many.
fn block_behind(bytes: &[u8], blocks: usize) -> &[u8]
    requires few { blocks ≤ 65536 }
    ensures value { result.now ≡ block_behind blocks bytes.now }
{
    first_bytes(bytes_from(bytes, 512 * blocks), 512)
}

impl LaneEntry {
    // The bytes of the data beside an entry that are of a block.
    fn data_of_block(&self, lba: u64) -> &[u8]
        ensures value { result.now ≡ data_of_block self.now lba }
    {
        let first = decode_sqe(&self.item.entry).slba();
        let blocks = lba.saturating_sub(first).min(65_536);
        block_behind(self.item.payload.as_slice(), blocks as usize)
    }

    /// What a ticket wrote at a block, where this is its entry.
    pub(crate) fn content_at(&self, ticket: u64, lba: u64) -> Content
        ensures value { result ≡ content_of ticket (written_at self.now lba) }
    {
        if decode_sqe(&self.item.entry).is_write_zeroes() {
            return content_of(ticket, [0; 512].as_slice());
        }
        content_of(ticket, self.data_of_block(lba))
    }
}
