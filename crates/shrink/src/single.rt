//! Single lines that can be left out.

ghost use Rattle.std.specs.Prelude.{◌*◌, ◌+◌, ◌<◌, ◌≡◌, ◌≤◌, IfOk, List, false, length, remove, true, ℕ};
ghost use Rattle.std.specs.Prelude.{vec_len};
ghost use Rattle.shrink.specs.Shrinking.{AreNeeded, StillFails};
ghost use Rattle.shrink.specs.Scanning.{Scans, LeavesOut, Ends};

use crate::question::{Question, Unanswered};
use crate::text_line::{TextLine, add_copies};
use std::alloc::{AllocError as NoMemory, Global};

// Copies of all lines but one.
fn without(alloc: Global, lines: &[TextLine], k: usize) -> Result<Vec<TextLine>, NoMemory>
    requires { k < length lines.now }
    ensures rest { IfOk result (λ v. v.items ≡ remove lines.now k) }
    ensures len { IfOk result (λ v. vec_len v + 1 ≡ length lines.now) }
{
    let mut rest = Vec::new(alloc);
    add_copies(alloc, &mut rest, &lines[..k])?;
    add_copies(alloc, &mut rest, &lines[k + 1..])?;
    Ok(rest)
}

// Leaves a line out where the others still fail; whether they do.
fn leave_out<Q: Question>(
    alloc: Global,
    lines: &mut Vec<TextLine>,
    k: usize,
    question: &mut Q,
) -> Result<bool, Unanswered>
    requires { k < vec_len lines.old }
    ensures leaves { (first : Q) (whole : List (List ℕ)) (n from : ℕ) → from ≤ k →
        AreNeeded Q.asks first question.old whole lines.old.items n from k →
        LeavesOut Q.asks Q.stops first question.new whole lines.old.items lines.new.items n from k result }
    ensures gone { IfOk result (λ out. out ≡ true → vec_len lines.new + 1 ≡ vec_len lines.old) }
    ensures stays { IfOk result (λ out. out ≡ false → vec_len lines.new ≡ vec_len lines.old) }
    ensures most { vec_len lines.new ≤ vec_len lines.old }
{
    let rest = without(alloc, lines.as_slice(), k)?;
    let fails = question.still_fails(rest.as_slice())?;
    if fails {
        *lines = rest;
    }
    Ok(fails)
}

// Goes once over all lines, and leaves out each without which the others still fail; the place from which on all that
// are left are needed.
fn scan<Q: Question>(
    alloc: Global,
    lines: &mut Vec<TextLine>,
    question: &mut Q,
) -> Result<usize, Unanswered>
    ensures scans { (first : Q) (whole : List (List ℕ)) (n : ℕ) →
        StillFails Q.asks first question.old whole lines.old.items n →
        Scans Q.asks Q.stops first question.new whole lines.new.items (n + vec_len lines.old) result }
    ensures fewer { IfOk result (λ from. 0 < from → vec_len lines.new < vec_len lines.old) }
    ensures most { vec_len lines.new ≤ vec_len lines.old }
{
    let mut from = 0;
    let mut k = 0;
    'lines: while k < lines.len() {
        let out = match leave_out(alloc, lines, k, question) {
            Ok(out) => out,
            Err(why) => return Err(why),
        };
        if out {
            from = k;
        } else {
            k += 1;
        }
    }
    Ok(from)
}

/// Leaves out single lines until each that is left is needed.
pub(crate) fn leave_out_lines<Q: Question>(
    alloc: Global,
    lines: &mut Vec<TextLine>,
    question: &mut Q,
) -> Result<(), Unanswered>
    ensures ends { (first : Q) (whole : List (List ℕ)) (n : ℕ) →
        StillFails Q.asks first question.old whole lines.old.items n →
        Ends Q.asks Q.stops first question.new whole lines.new.items
        (n + vec_len lines.old * (vec_len lines.old + 1)) result }
{
    let mut from = scan(alloc, lines, question)?;
    'rounds: while from != 0 {
        from = match scan(alloc, lines, question) {
            Ok(from) => from,
            Err(why) => return Err(why),
        };
    }
    Ok(())
}
