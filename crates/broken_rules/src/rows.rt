//! What is wrong with a Fetch, a Grant or a Block, by what is due.

ghost use Rattle.std.specs.Prelude.{◌≡◌};
ghost use Rattle.std.specs.Bool.{beq};
ghost use Rattle.nvme_model.specs.Operations.{is_exclusive};
ghost use Rattle.broken_rules.specs.declared.broken.Broken.{Broken};
ghost use Rattle.broken_rules.specs.Rows.{block_broken as the_block_broken, fetch_broken as the_fetch_broken};
ghost use Rattle.broken_rules.specs.Rows.{grant_broken as the_grant_broken};

use crate::broken::Broken;
use crate::verdicts::same_verdict;
use crate::words::Words;
use nvme_model::array::{Mode, Range};
use nvme_model::entry::{BlockLine, FetchLine, GrantLine};
use nvme_model::refusal::Why;
use nvme_model::status::Verdict;

// That a verdict is due in place of another.
fn verdict_fault(found: Verdict, due: Verdict) -> Broken
    ensures value { result ≡ Broken.Verdict found due }
{
    Broken::Verdict { found, due }
}

/// What is wrong with a Fetch behind `last` tickets, where the commands that it takes are judged so.
pub fn fetch_broken(line: &FetchLine, last: u64, due: &Verdict) -> Option<Broken>
    ensures value { result ≡ the_fetch_broken line.now last due.now }
{
    if line.ticket == 0 || line.ticket - 1 != last {
        return Some(Broken::Ticket {
            found: line.ticket,
            last,
        });
    }
    if same_verdict(line.verdict, *due) {
        return None;
    }
    Some(verdict_fault(line.verdict, *due))
}

// Whether both hold their blocks in one way.
fn same_mode(mode: Mode, other: Mode) -> bool
    ensures value { result ≡ beq (is_exclusive mode) (is_exclusive other) }
{
    match (mode, other) {
        (Mode::Exclusive, Mode::Exclusive) | (Mode::Shared, Mode::Shared) => true,
        (Mode::Exclusive, Mode::Shared) | (Mode::Shared, Mode::Exclusive) => false,
    }
}

/// What is wrong with a Grant of a ticket of which so many units were opened, whose next unit, where it has one, is
/// this, and whose units hold their blocks so.
pub fn grant_broken(
    line: &GrantLine,
    opened: u64,
    next: Option<Range>,
    mode: Mode,
) -> Option<Broken>
    ensures value { result ≡ the_grant_broken line.now opened next mode }
{
    let Some(due) = next else {
        return Some(Broken::Refused(Why::WrongState));
    };
    if line.unit != opened {
        return Some(Broken::Unit {
            found: line.unit,
            due: opened,
        });
    }
    let range = line.range.get();
    if due.slba != range.slba || due.blocks != range.blocks {
        return Some(Broken::Range { found: range, due });
    }
    if !same_mode(line.mode, mode) {
        return Some(Broken::Mode {
            found: line.mode,
            due: mode,
        });
    }
    None
}

/// What is due of the next Block of a ticket's open unit.
#[derive(Clone, Copy, Debug, PartialEq, Eq)]
pub struct BlockDue {
    /// The open unit.
    pub unit: u64,
    /// The block.
    pub lba: u64,
    /// The word.
    pub word: Words,
    /// The unit that the Block names has a mark already.
    pub marked: bool,
    /// A mark may stand in that unit now.
    pub may_mark: bool,
    /// The answers before it are right at the mark, if there is one with this Block.
    pub earlier: bool,
    /// So are they with its own.
    pub answers: bool,
}

/// What is wrong with a Block where this is due.
pub fn block_broken(line: &BlockLine, due: &BlockDue) -> Option<Broken>
    ensures value { result ≡ the_block_broken line.now due.now }
{
    if line.unit != due.unit {
        return Some(Broken::Unit {
            found: line.unit,
            due: due.unit,
        });
    }
    if line.lba != due.lba {
        return Some(Broken::Block {
            found: line.lba,
            due: due.lba,
        });
    }
    if !due.word.fits(line.found) {
        return Some(Broken::Word {
            found: line.found,
            due: due.word,
        });
    }
    if line.effect && due.marked {
        return Some(Broken::SecondMark { unit: line.unit });
    }
    if line.effect && !due.may_mark {
        return Some(Broken::EarlyMark { unit: line.unit });
    }
    if !due.earlier {
        return Some(Broken::Mark { unit: line.unit });
    }
    if !due.answers {
        return Some(Broken::Answer {
            lba: line.lba,
            found: line.found,
        });
    }
    None
}
