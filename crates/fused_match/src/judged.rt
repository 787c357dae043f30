//! What becomes of the entries that a Fetch takes.

ghost use Rattle.std.specs.Prelude.{◌≡◌};
ghost use Rattle.nvme_model.specs.Verdict.{taken_entries};

use nvme_model::array::Range;
use nvme_model::operation::Op;
use nvme_model::status::{Status, Verdict};

/// What becomes of the entries that a Fetch takes.
#[derive(Clone, Copy, Debug, PartialEq, Eq)]
pub enum Judged {
    /// A Flush, which does nothing.
    Flush,
    /// One command, and the blocks that it is for.
    Single(Op, Range),
    /// A fused pair, and the blocks that it is for.
    Pair(Range),
    /// One command, which failed so.
    SingleFailed(Status),
    /// A fused pair, whose first and second failed so.
    PairFailed(Status, Status),
}

impl Judged {
    ghost use Rattle.fused_match.specs.Judged.{operation_in, verdict_by};

    /// How many entries the Fetch takes, 1 or 2.
    pub fn taken(&self) -> u8
        ensures value { result ≡ taken_entries (verdict_by self.now) }
    {
        self.verdict().taken()
    }

    /// What is done with the blocks; None for a Flush, and where the checks failed.
    pub fn operation(&self) -> Option<Op>
        ensures value { result ≡ operation_in self.now }
    {
        match self {
            Judged::Single(op, _) => Some(*op),
            Judged::Pair(_) => Some(Op::Pair),
            Judged::Flush | Judged::SingleFailed(_) | Judged::PairFailed(_, _) => None,
        }
    }

    /// The same as a history names it.
    pub fn verdict(&self) -> Verdict
        ensures value { result ≡ verdict_by self.now }
    {
        match self {
            Judged::Flush | Judged::Single(_, _) => Verdict::Single,
            Judged::Pair(_) => Verdict::Pair,
            Judged::SingleFailed(status) => Verdict::SingleFailed(*status),
            Judged::PairFailed(first, second) => Verdict::PairFailed(*first, *second),
        }
    }
}
