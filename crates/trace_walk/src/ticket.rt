//! A ticket of the history that is looked for.

use entry_codec::Status;
use nvme_model::array::{Mode, Range};

/// What a ticket's Writes write.
#[derive(Clone, Copy)]
pub enum Gives {
    Nothing,
    Zeros,
    /// The values from this place on.
    Values(usize),
}

/// What a ticket does with its blocks; nothing, where it is a Flush or failed its checks.
#[derive(Clone, Copy, PartialEq, Eq)]
pub enum SoughtOp {
    Idle,
    Read,
    Compare,
    Write,
    WriteZeroes,
    Pair,
}

/// A ticket of the history that is looked for.
#[derive(Clone, Copy)]
pub struct SoughtTicket {
    pub queue: usize,
    // its first entry's number
    pub first: usize,
    pub kind: SoughtOp,
    // how many entries it has, and whether they failed their checks
    pub taken: u8,
    pub failed: bool,
    // whether its first entry is one that was refused, and the tables leave that open
    pub refused: bool,
    // the numbers of the statuses that it owes, where it has no unit
    pub codes: [u16; 2],
    // the completion that its first is to have
    pub want: Option<usize>,
    pub cids: [u16; 2],
    // the blocks of the whole
    pub range: Range,
    // where its next unit begins, how many blocks are left, and its number
    pub next: u64,
    pub left: u32,
    pub unit: u64,
    // it has met a block that differs
    pub differs: bool,
    pub posts: u8,
    // where the values lie that it is to find
    pub finds: Option<usize>,
    pub gives: Gives,
}

impl SoughtTicket {
    /// Whether a unit of it is still to come.
    pub fn has_unit(&self) -> bool {
        self.kind != SoughtOp::Idle && self.left > 0 && !self.differs
    }

    pub fn writes(&self) -> bool {
        match self.kind {
            SoughtOp::Write | SoughtOp::WriteZeroes | SoughtOp::Pair => true,
            SoughtOp::Idle | SoughtOp::Read | SoughtOp::Compare => false,
        }
    }

    pub fn compares(&self) -> bool {
        self.kind == SoughtOp::Compare || self.kind == SoughtOp::Pair
    }

    pub fn mode(&self) -> Mode {
        if self.writes() {
            Mode::Exclusive
        } else {
            Mode::Shared
        }
    }

    /// The identifier of the completion that it has next.
    pub fn cid(&self) -> u16 {
        if self.posts == 0 {
            self.cids[0]
        } else {
            self.cids[1]
        }
    }

    /// Whether this is the identifier of a completion that it is to have.
    pub fn uses(&self, cid: u16) -> bool {
        if self.posts == 0 && self.cids[0] == cid {
            return true;
        }
        self.taken == 2 && self.cids[1] == cid
    }

    /// The number of the status that it owes, where it has ended.
    pub fn owes(&self) -> Option<u16> {
        let first = self.posts == 0;
        if self.kind == SoughtOp::Idle {
            return Some(if first { self.codes[0] } else { self.codes[1] });
        }
        if self.differs {
            return Some(if first {
                code_of(Status::COMPARE_FAILURE)
            } else {
                code_of(Status::FAILED_FUSED)
            });
        }
        if self.left == 0 { Some(0) } else { None }
    }

    /// How far a block lies behind its first one.
    pub fn behind(&self, block: u64) -> usize {
        block.saturating_sub(self.range.slba).min(65_535) as usize
    }

    /// Whether a block is one that it is still to reach.
    pub fn will_reach(&self, block: u64) -> bool {
        self.has_unit()
            && block >= self.next
            && block.saturating_sub(self.next) < u64::from(self.left)
    }

    /// Whether blocks that both are still to reach are the same.
    pub fn meets(&self, other: &SoughtTicket) -> bool {
        let both = self.has_unit() && other.has_unit();
        both && self.next < other.next.saturating_add(u64::from(other.left))
            && other.next < self.next.saturating_add(u64::from(self.left))
    }
}

/// A number of a status; that of success is 0.
pub(crate) fn code_of(status: Status) -> u16 {
    u16::from(status.sct()) * 256 + u16::from(status.sc())
}

/// The status of a number.
pub fn status_of(code: u16) -> Status {
    Status::new((code / 256 % 8) as u8, (code % 256) as u8)
}
