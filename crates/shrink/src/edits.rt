//! What may be tried: lines left out, and words made smaller.

ghost use Rattle.std.specs.Prelude.{[], ◌++◌, ◌∷◌, IfOk, List, OnOk, ℕ};
ghost use Rattle.shrink.specs.Smaller.{HasSmallerPart};

use crate::blocks::with_blocks;
use crate::smaller::is_smaller_line;
use crate::text_line::TextLine;
use crate::tickets::{TicketLines, without_ticket};
use crate::word_edits::{with_word, with_words};
use std::alloc::{AllocError as NoMemory, Global};

/// What becomes of a line.
#[derive(Drop)]
pub(crate) enum Change {
    LeftOut,
    Kept,
    Changed(TextLine),
}

/// What may be tried.
#[derive(Drop)]
pub(crate) enum Edit {
    /// The lines from one place to before another are left out.
    Without {
        from: usize,
        to: usize,
    },
    /// This text in place of each word of a line that has the other.
    Words {
        line: usize,
        old: Vec<u8>,
        new: Vec<u8>,
    },
    /// This text in place of one word of a line.
    Word {
        line: usize,
        word: usize,
        new: Vec<u8>,
    },
    /// No entry of a line has more blocks than this, 0's based.
    Blocks {
        line: usize,
        nlb: u64,
    },
    /// A ticket is left out, and those behind it have the number before.
    Ticket(TicketLines),
}

// What an edit makes of the line at a place.
fn change_of(alloc: Global, edit: &Edit, k: usize, line: &TextLine) -> Result<Change, NoMemory> {
    match edit {
        Edit::Without { from, to } => {
            if *from <= k && k < *to {
                return Ok(Change::LeftOut);
            }
            Ok(Change::Kept)
        }
        Edit::Words { line: at, old, new } => {
            if *at != k {
                return Ok(Change::Kept);
            }
            let text = with_words(alloc, line.as_slice(), old.as_slice(), new.as_slice())?;
            Ok(Change::Changed(TextLine::new(text)))
        }
        Edit::Word {
            line: at,
            word,
            new,
        } => {
            if *at != k {
                return Ok(Change::Kept);
            }
            let text = with_word(alloc, line.as_slice(), *word, new.as_slice())?;
            Ok(Change::Changed(TextLine::new(text)))
        }
        Edit::Blocks { line: at, nlb } => {
            if *at != k {
                return Ok(Change::Kept);
            }
            let text = with_blocks(alloc, line.as_slice(), *nlb)?;
            Ok(Change::Changed(TextLine::new(text)))
        }
        Edit::Ticket(ticket) => without_ticket(alloc, ticket, k, line),
    }
}

// Puts a copy of a line at the end.
fn add_copy(alloc: Global, out: &mut Vec<TextLine>, line: &TextLine) -> Result<(), NoMemory>
    ensures kept { (whole : List (List ℕ)) → HasSmallerPart whole out.old.items →
        OnOk result (HasSmallerPart (whole ++ line.now ∷ []) out.new.items) }
{
    out.push(TextLine::copy_of(alloc, line.as_slice())?)?;
    Ok(())
}

// Puts a changed line at the end where it is smaller, and else a copy of the line.
fn add_smaller(
    alloc: Global,
    out: &mut Vec<TextLine>,
    line: &TextLine,
    changed: TextLine,
) -> Result<(), NoMemory>
    ensures kept { (whole : List (List ℕ)) → HasSmallerPart whole out.old.items →
        OnOk result (HasSmallerPart (whole ++ line.now ∷ []) out.new.items) }
{
    if !is_smaller_line(alloc, changed.as_slice(), line.as_slice())? {
        return add_copy(alloc, out, line);
    }
    out.push(changed)?;
    Ok(())
}

// Puts what becomes of a line at the end.
fn add_changed(
    alloc: Global,
    out: &mut Vec<TextLine>,
    line: &TextLine,
    change: Change,
) -> Result<(), NoMemory>
    ensures kept { (whole : List (List ℕ)) → HasSmallerPart whole out.old.items →
        OnOk result (HasSmallerPart (whole ++ line.now ∷ []) out.new.items) }
{
    match change {
        Change::LeftOut => Ok(()),
        Change::Kept => add_copy(alloc, out, line),
        Change::Changed(changed) => add_smaller(alloc, out, line, changed),
    }
}

/// The lines that an edit makes of these. A line that it would make larger stays as it is.
///
/// # Errors
///
/// `NoMemory` alone.
pub(crate) fn edited(
    alloc: Global,
    lines: &[TextLine],
    edit: &Edit,
) -> Result<Vec<TextLine>, NoMemory>
    ensures part { IfOk result (λ v. HasSmallerPart lines.now v.items) }
{
    let mut out = Vec::new(alloc);
    for k in 0..lines.len() {
        let change = change_of(alloc, edit, k, &lines[k])?;
        add_changed(alloc, &mut out, &lines[k], change)?;
    }
    Ok(out)
}
