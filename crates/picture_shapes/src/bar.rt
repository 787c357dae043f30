//! The bars of entries and the cells of their blocks.

ghost use Rattle.std.specs.Prelude.{◌≡◌, ◌<◌, IfSome, length};
ghost use Rattle.picture_shapes.specs.Bars.{same_stage, stage_place};

use crate::picture_words::PictureWords;
use nvme_model::operation::Found;
use nvme_model::status::Status;

/// How far an entry has come that isn't reaped.
#[derive(Clone, Copy, Debug, PartialEq, Eq)]
pub enum BarStage {
    /// It waits in this submission queue.
    Published(u16),
    /// It is the command of this ticket, or the first of its pair.
    Fetched(u64),
    /// It is the second of the pair of this ticket.
    Second(u64),
    /// Its completion waits in this completion queue.
    Posted(u16),
}

/// The fetch of an entry.
#[derive(Clone, Copy, Debug, PartialEq, Eq)]
pub struct EntryFetch {
    pub place: u64,
    pub ticket: u64,
}

/// The post of an entry's completion, which waits in a row of its own.
#[derive(Debug, Drop)]
pub struct Posting {
    pub place: u64,
    pub row: usize,
    pub cid: u16,
    pub status: Status,
    /// The completion in words.
    pub words: PictureWords,
}

/// An entry, from its Publish to its Reap, by the places of its steps.
#[derive(Debug, Drop)]
pub struct Bar {
    pub queue: u16,
    /// The completion queue of its completion.
    pub completions: u16,
    pub row: usize,
    /// Its command in words.
    pub words: PictureWords,
    pub published: u64,
    pub fetched: Option<EntryFetch>,
    pub posted: Option<Posting>,
    pub reaped: Option<u64>,
}

/// An entry that isn't reaped yet.
#[derive(Debug, Drop)]
pub struct OpenBar {
    pub stage: BarStage,
    pub bar: Bar,
}

/// One Block of a unit, in the row of its entry.
#[derive(Clone, Copy, Debug, PartialEq, Eq)]
pub struct Cell {
    pub row: usize,
    pub place: u64,
    pub lba: u64,
    pub found: Found,
    pub effect: bool,
}

// Whether two stages are the same.
fn same_stage(one: BarStage, other: BarStage) -> bool
    ensures value { result ≡ same_stage one other }
{
    match (one, other) {
        (BarStage::Published(a), BarStage::Published(b)) => a == b,
        (BarStage::Fetched(a), BarStage::Fetched(b)) => a == b,
        (BarStage::Second(a), BarStage::Second(b)) => a == b,
        (BarStage::Posted(a), BarStage::Posted(b)) => a == b,
        (BarStage::Published(_) | BarStage::Fetched(_), _) => false,
        (BarStage::Second(_) | BarStage::Posted(_), _) => false,
    }
}

/// Where the first entry is that has come so far.
pub(crate) fn stage_place(pending: &[OpenBar], stage: BarStage) -> Option<usize>
    ensures value { result ≡ stage_place stage pending.now }
    ensures bound { IfSome result (λ i. i < length pending.now) }
{
    pending.iter().position(|one| same_stage(one.stage, stage))
}
