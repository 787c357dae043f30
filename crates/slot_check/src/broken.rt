//! The rules of the discipline of slots.

ghost use Rattle.std.specs.Prelude.{◌≡◌};
ghost use Rattle.slot_check.specs.Broken.{broken_at};

use thiserror::Error;

/// A rule of the discipline that a Publish breaks, with the block of the slot.
#[derive(Clone, Copy, Debug, Drop, Error, PartialEq, Eq)]
pub enum BrokenDiscipline {
    /// A Write or a Write Zeroes touches the area, and it is no part of a claim, a release or a takeover. The block is
    /// the first of the area that it touches.
    #[error("a write in the slots that is no claim, release or takeover")]
    NoSwap(u64),
    /// The name that a claim or a takeover gives the slot to is in another claim or takeover.
    #[error("a claim of a name that is claimed twice")]
    ClaimedTwice(u64),
    /// A release's name isn't believed of its slot.
    #[error("a release of a name that isn't believed")]
    Unbelieved(u64),
    /// A release's own host believes its name of its slot, but a takeover of that name took effect.
    #[error("a release of a name that was taken over")]
    TakenOver(u64),
    /// A release stands on another completion queue than the claim or the takeover that gave its name the slot.
    #[error("a release on another completion queue than its claim")]
    OtherQueue(u64),
    /// A takeover is of a name to which no claim and no takeover gave the slot before.
    #[error("a takeover of a name that was never given the slot")]
    NeverGiven(u64),
    /// A takeover is of a name that was given the slot on the takeover's own completion queue.
    #[error("a takeover of a name of its own completion queue")]
    OwnQueue(u64),
    /// A Publish of a host of whom a takeover was published before. The slot is that of the newest such takeover.
    #[error("a publish by a host that a takeover cut off")]
    CutOff(u64),
}

impl BrokenDiscipline {
    /// The block of the slot.
    pub fn lba(&self) -> u64
        ensures value { result ≡ broken_at self.now }
    {
        match self {
            BrokenDiscipline::NoSwap(lba)
            | BrokenDiscipline::ClaimedTwice(lba)
            | BrokenDiscipline::Unbelieved(lba)
            | BrokenDiscipline::TakenOver(lba)
            | BrokenDiscipline::OtherQueue(lba)
            | BrokenDiscipline::NeverGiven(lba)
            | BrokenDiscipline::OwnQueue(lba)
            | BrokenDiscipline::CutOff(lba) => *lba,
        }
    }
}
