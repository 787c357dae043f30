//! Files of entries that are checked as they come, up to the first bad step.

ghost use Rattle.std.specs.Prelude.{◌≡◌, List, None, Option, [], false, ℕ};
ghost use Rattle.casdisk_texts.specs.Entries.{IsBegun};
ghost use Rattle.casdisk_texts.specs.Followed.{ExplainsFollowed, FollowsHistory, FollowsText};
ghost use Rattle.casdisk_texts.specs.Judged.{HasJudged};

use crate::checking::tell_answer;
use crate::explaining::{Explained, explained_by};
use crate::fault::RunFault;
use crate::history_lines::HistoryLines;
use crate::judging::{FirstBad, Judge};
use std::alloc::Global;
use std::io::{Read, Write};

// Judges the entries of the lines behind the first to the reader's end, to the first bad line or to the first bad step,
// which it gives.
// This loop is its own since `take_entries` promises on Ok that its reader is at the end. What the
// steps before the first bad line say stays so, whatever stands behind it.
fn follow_lines<const WHY: bool, R: Read>(
    judge: &mut Judge<WHY>,
    lines: &mut HistoryLines,
    reader: &mut R,
) -> Result<FirstBad, RunFault>
    ensures follows { (input : Option (List ℕ)) →
        IsBegun lines.old.config input (R.remaining reader.old) lines.old.lines →
        HasJudged WHY lines.old.config [] judge.old.checker judge.old.count judge.old.bad →
        judge.old.bad.place ≡ None → FollowsHistory WHY result input (R.remaining reader.new) }
{
    for number in 2..u64::MAX {
        let entry = match lines.next_entry(number, reader) {
            Ok(Some(entry)) => entry,
            Ok(None) => return Ok(judge.bad),
            Err(fault) => return Err(fault),
        };
        match judge.judge(&entry) {
            Ok(()) => {}
            Err(_) => return Err(RunFault::NoMemory),
        }
        if judge.bad.place.is_some() {
            return Ok(judge.bad);
        }
    }

    // The number of a line can't grow any more.
    Err(RunFault::NoMemory)
}

// Reads a configuration line and the lines of a history up to its first bad step, and gives that.
fn follow_history<const WHY: bool, R: Read>(
    alloc: Global,
    reader: &mut R,
) -> Result<FirstBad, RunFault>
    ensures follows { FollowsHistory WHY result (R.remaining reader.old) (R.remaining reader.new) }
{
    let mut lines = HistoryLines::begin(alloc, reader)?;
    let Ok(mut judge) = Judge::<WHY>::new(alloc, &lines.config) else {
        return Err(RunFault::NoMemory);
    };
    follow_lines(&mut judge, &mut lines, reader)
}

/// Reads a configuration line and the lines of a history as they come, and writes one line: `bad at K` as soon as a
/// step is bad, and reads no more lines then; or `legal` at the reader's end. Answers whether it is legal. What it says
/// is what `check_text` says, but that nothing is known of the lines behind the first bad step.
///
/// # Errors
///
/// `BadLine` with the number of the first line that may not stand there, where no step before it is bad; `BadConfig`
/// with the number of the fault; `Input`, where no line and no step that was read is bad; and `NoMemory`, all after
/// nothing was written; `Output` after a beginning of the line.
pub fn follow_text<R: Read, W: Write>(
    alloc: Global,
    reader: &mut R,
    writer: &mut W,
) -> Result<bool, RunFault>
    ensures follows { FollowsText result (R.remaining reader.old) (R.remaining reader.new) (W.contents writer.old)
        (W.contents writer.new) }
{
    let bad = follow_history::<false, R>(alloc, reader)?;
    tell_answer(bad.place, writer)
}

/// Reads a configuration line and the lines of a history as they come, up to its first bad step, and answers whether it
/// is legal, or that step with the first rule that it breaks. What it says is what `explain_text` says, but that
/// nothing is known of the lines behind the first bad step.
///
/// # Errors
///
/// Those of `follow_text`, but for `Output`.
pub fn follow_explained<R: Read>(alloc: Global, reader: &mut R) -> Result<Explained, RunFault>
    ensures explains { ExplainsFollowed result (R.remaining reader.old) (R.remaining reader.new) }
{
    let bad = follow_history::<true, R>(alloc, reader)?;
    Ok(explained_by(bad))
}
