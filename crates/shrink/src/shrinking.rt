//! The smallest lines that still fail.

ghost use Rattle.std.specs.Prelude.{◌*◌, ◌+◌, List, length, ℕ};
ghost use Rattle.shrink.specs.Scanning.{Ends};
ghost use Rattle.shrink.specs.Shrinking.{ShrinksLines, StillFails};

use crate::question::{Question, Unanswered};
use crate::single::leave_out_lines;
use crate::text_line::TextLine;
use crate::trying::run_plan;
use std::alloc::Global;

/// What became of lines.
#[derive(Clone, Copy, Debug, Drop, PartialEq, Eq)]
pub enum Shrunk {
    /// They fail, and no single line of them can be left out.
    Smallest,
    /// They pass, and are as they were.
    Passes,
}

// Makes lines small that were answered to fail.
fn shrink_failing<Q: Question>(
    alloc: Global,
    lines: &mut Vec<TextLine>,
    question: &mut Q,
    tries: u32,
) -> Result<(), Unanswered>
    ensures ends { (first : Q) (whole : List (List ℕ)) (n : ℕ) →
        StillFails Q.asks first question.old whole lines.old.items n →
        Ends Q.asks Q.stops first question.new whole lines.new.items
        (n + tries + length whole * (length whole + 1)) result }
{
    run_plan(alloc, lines, question, tries)?;
    leave_out_lines(alloc, lines, question)
}

/// Makes lines small that fail. It asks first about all of them, and then at most `tries` times about smaller ones:
/// halves of the lines, parts of half the size, and so on to single lines; a ticket with its lines; fewer blocks,
/// smaller numbers and smaller data. At last it leaves out single lines until none can be left out.
///
/// What it leaves still fails by an answer, is a part of what was given with some words made smaller, and without each
/// single line of it the answer was that the others pass. What the question says of one list of lines needs not be the
/// same each time: this speaks of the answers that were given.
///
/// # Errors
///
/// Why there was no answer, or `NoMemory`; the lines are then the smallest so far.
pub fn shrink_lines<Q: Question>(
    alloc: Global,
    lines: &mut Vec<TextLine>,
    question: &mut Q,
    tries: u32,
) -> Result<Shrunk, Unanswered>
    ensures shrinks { ShrinksLines Q.asks Q.stops question.old question.new lines.old.items lines.new.items tries
        result }
{
    let fails = question.still_fails(lines.as_slice())?;
    if fails {
        shrink_failing(alloc, lines, question, tries)?;
        return Ok(Shrunk::Smallest);
    }
    Ok(Shrunk::Passes)
}
