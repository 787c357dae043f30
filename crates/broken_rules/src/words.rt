//! What the word of a Block has to be.

ghost use Rattle.std.specs.Prelude.{◌≡◌};
ghost use Rattle.nvme_model.specs.Answered.{may_find};
ghost use Rattle.broken_rules.specs.Rows.{is_word, word_due};

use nvme_model::operation::{Found, Op};

/// What the word of a Block has to be.
#[derive(Clone, Copy, Debug, PartialEq, Eq)]
pub enum Words {
    /// There is none.
    Nothing,
    /// `read`.
    Read,
    /// `equal` or `differs`.
    Compared,
    /// `written`.
    Written,
}

impl Words {
    /// What it has to be for the `made`th Block, from 0, of a unit of `blocks` blocks.
    pub fn due(op: Option<Op>, blocks: u32, made: u64) -> Words
        ensures value { result ≡ word_due op blocks made }
    {
        match op {
            None => Words::Nothing,
            Some(Op::Read) => Words::Read,
            Some(Op::Compare) => Words::Compared,
            Some(Op::Write | Op::WriteZeroes) => Words::Written,
            Some(Op::Pair) => {
                if made < u64::from(blocks) {
                    Words::Compared
                } else {
                    Words::Written
                }
            }
        }
    }

    /// Whether it is this word.
    pub fn fits(self, found: Found) -> bool
        ensures value { result ≡ is_word self found }
    {
        match self {
            Words::Nothing => false,
            Words::Read => found == Found::Read,
            Words::Compared => found == Found::Equal || found == Found::Differs,
            Words::Written => found == Found::Written,
        }
    }
}

/// Whether a Block of a unit of `blocks` blocks may say this as its `made`th, from 0.
#[tactic(auto, using(crate::proofs::Exactly::word_is))]
pub fn may_find(op: Option<Op>, blocks: u32, made: u64, found: Found) -> bool
    ensures value { result ≡ may_find op blocks made found }
{
    Words::due(op, blocks, made).fits(found)
}
