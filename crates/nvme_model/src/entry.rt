//! The entries of a history: each an accepted step, with what its line names.

ghost use Rattle.std.specs.Prelude.{◌≡◌, ◌<◌, ◌^◌};

use crate::array::{Mode, Range};
use crate::operation::Found;
use crate::status::Verdict;
use crate::submission::{Batch, Payload};
use std::marker::Model;

/// One accepted step, with what its line in a history names.
#[derive(Drop)]
pub enum Entry {
    Publish(PublishLine),
    Fetch(FetchLine),
    Grant(GrantLine),
    Block(BlockLine),
    Post(PostLine),
    Reap(ReapLine),
}

/// Entries published to a submission queue.
#[derive(Drop)]
pub struct PublishLine {
    pub queue: u16,
    pub batch: Batch,
}

/// Entries fetched from a submission queue, as a ticket.
#[derive(Clone, Copy, Debug, PartialEq, Eq)]
pub struct FetchLine {
    pub queue: u16,
    pub ticket: u64,
    pub verdict: Verdict,
}

/// The blocks of a unit; their number fits 16 bits, as a line of a history has it.
#[derive(Clone, Copy, Debug, PartialEq, Eq)]
pub struct UnitRange {
    slba: u64,
    blocks: u16,
}

impl Model for UnitRange {
    ghost use Rattle.nvme_model.specs.declared.array.Range.{Range};

    ghost Value = { Range };

    ghost view = { λ r. record { slba = r.slba; blocks = r.blocks } };

    ghost inverse = { λ v. record { slba = v.slba; blocks = v.blocks } };
}

impl UnitRange {
    /// The `blocks` blocks from block `slba` on.
    pub fn new(slba: u64, blocks: u16) -> UnitRange
        ensures value { result ≡ record { slba = slba; blocks = blocks } }
    {
        UnitRange { slba, blocks }
    }

    /// The same range.
    pub fn get(&self) -> Range
        ensures value { result ≡ self.now }
        ensures few { result.blocks < 2 ^ 16 }
    {
        Range {
            slba: self.slba,
            blocks: u32::from(self.blocks),
        }
    }
}

/// A unit of a ticket that begins; units are numbered from 0.
#[derive(Clone, Copy, Debug, PartialEq, Eq)]
pub struct GrantLine {
    pub ticket: u64,
    pub unit: u64,
    pub range: UnitRange,
    pub mode: Mode,
}

/// One block of a unit; `effect` marks the entry at which the unit takes effect.
#[derive(Clone, Copy, Debug, PartialEq, Eq)]
pub struct BlockLine {
    pub ticket: u64,
    pub unit: u64,
    pub lba: u64,
    pub found: Found,
    pub effect: bool,
}

/// A completion queue entry of a ticket, and what a successful Read read.
#[derive(Drop)]
pub struct PostLine {
    pub ticket: u64,
    pub cqe: [u8; 16],
    pub payload: Payload,
}

/// A completion queue entry taken from a completion queue.
#[derive(Clone, Copy, Debug, PartialEq, Eq)]
pub struct ReapLine {
    pub queue: u16,
    pub cqe: [u8; 16],
}
