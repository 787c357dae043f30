//! Edits that are tried.

ghost use Rattle.std.specs.Prelude.{◌+◌, List, ℕ};
ghost use Rattle.shrink.specs.Shrinking.{GoesOn, StillFails};
ghost use Rattle.shrink.specs.Smaller.{HasSmallerPart};

use crate::edits::{Edit, edited};
use crate::planning::Plan;
use crate::question::{Question, Unanswered};
use crate::text_line::TextLine;
use std::alloc::Global;

// Whether these are the same lines.
fn are_same(lines: &[TextLine], others: &[TextLine]) -> bool {
    if lines.len() != others.len() {
        return false;
    }
    for k in 0..lines.len() {
        if lines[k].as_slice() != others[k].as_slice() {
            return false;
        }
    }
    true
}

// Asks about other lines, and keeps them where they fail.
fn keep_failing<Q: Question>(
    lines: &mut Vec<TextLine>,
    candidate: Vec<TextLine>,
    question: &mut Q,
) -> Result<bool, Unanswered>
    requires part { HasSmallerPart lines.old.items candidate.items }
    ensures goes { (first : Q) (whole : List (List ℕ)) (n : ℕ) →
        StillFails Q.asks first question.old whole lines.old.items n →
        GoesOn Q.asks Q.stops first question.new whole lines.new.items (n + 1) result }
{
    let fails = question.still_fails(candidate.as_slice())?;
    if fails {
        *lines = candidate;
    }
    Ok(fails)
}

// Asks about the lines that an edit makes, if it changes any, and keeps them where they fail.
fn try_edit<Q: Question>(
    alloc: Global,
    lines: &mut Vec<TextLine>,
    edit: &Edit,
    question: &mut Q,
) -> Result<bool, Unanswered>
    ensures goes { (first : Q) (whole : List (List ℕ)) (n : ℕ) →
        StillFails Q.asks first question.old whole lines.old.items n →
        GoesOn Q.asks Q.stops first question.new whole lines.new.items (n + 1) result }
{
    let candidate = edited(alloc, lines.as_slice(), edit)?;
    if are_same(candidate.as_slice(), lines.as_slice()) {
        return Ok(false);
    }
    keep_failing(lines, candidate, question)
}

/// Tries edits as they are planned, at most so many.
pub(crate) fn run_plan<Q: Question>(
    alloc: Global,
    lines: &mut Vec<TextLine>,
    question: &mut Q,
    tries: u32,
) -> Result<(), Unanswered>
    ensures goes { (first : Q) (whole : List (List ℕ)) (n : ℕ) →
        StillFails Q.asks first question.old whole lines.old.items n →
        GoesOn Q.asks Q.stops first question.new whole lines.new.items (n + tries) result }
{
    let mut plan = Plan::new(lines.len());
    let mut worked = false;
    for turn in 0..tries {
        let _ = turn;
        let Some(edit) = plan.next(alloc, lines.as_slice(), worked)? else {
            return Ok(());
        };
        worked = try_edit(alloc, lines, &edit, question)?;
    }
    Ok(())
}
