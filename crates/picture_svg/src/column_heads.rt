//! The heads of the columns, with the rules through them.

ghost use Rattle.std.specs.Prelude.{◌≡◌, ◌++◌, OnOk};
ghost use Rattle.picture_svg.specs.ColumnHeads.{bad_step_svg, bad_svg, head_svg, hover_svg, kind_name, kind_svg};
ghost use Rattle.picture_svg.specs.ColumnHeads.{line_svg};
ghost use Rattle.picture_svg.specs.ColumnHeads.{mark_svg, place_svg, rule_svg, shade_svg, why_svg};

use crate::drawn::Drawn;
use crate::pieces::{Piece, push_all};
use crate::scale::Scale;
use picture_shapes::{BadColumn, EntryKind, Head, Picture};
use std::alloc::AllocError as NoMemory;

fn kind_name(kind: EntryKind) -> &'static [u8]
    ensures value { result.now ≡ kind_name kind }
{
    match kind {
        EntryKind::Publish => b"publish",
        EntryKind::Fetch => b"fetch",
        EntryKind::Grant => b"grant",
        EntryKind::Block => b"block",
        EntryKind::Post => b"post",
        EntryKind::Reap => b"reap",
    }
}

// The rule of a step at which a unit takes effect, right through.
fn push_mark(text: &mut Vec<u8>, scale: &Scale, head: &Head) -> Result<(), NoMemory>
    ensures value { OnOk result (text.new.items ≡ text.old.items ++ mark_svg scale.now head.now) }
{
    if !head.mark {
        return Ok(());
    }
    let left = scale.column(head.place);
    push_all(
        text,
        &[
            Piece::Raw(b"<path class='m' d='M"),
            Piece::Number(left + 44),
            Piece::Raw(b" 62V"),
            Piece::Number(scale.bottom()),
            Piece::Raw(b"'/><text class='s' x='"),
            Piece::Number(left + 44),
            Piece::Raw(b"' y='60'>*</text>"),
        ],
    )
}

// The line of a step, which its head shows under the pointer.
fn push_line(text: &mut Vec<u8>, head: &Head) -> Result<(), NoMemory>
    ensures value { OnOk result (text.new.items ≡ text.old.items ++ line_svg head.now) }
{
    push_all(
        text,
        &[
            Piece::Raw(b"<g><title>"),
            Piece::Number(head.place),
            Piece::Raw(b": "),
            Piece::Words(head.words.as_bytes()),
            Piece::Raw(b"</title>"),
        ],
    )
}

// What the pointer rests on to see that line.
fn push_hover(text: &mut Vec<u8>, scale: &Scale, head: &Head) -> Result<(), NoMemory>
    ensures value { OnOk result (text.new.items ≡ text.old.items ++ hover_svg scale.now head.now) }
{
    push_all(
        text,
        &[
            Piece::Raw(b"<rect class='h' x='"),
            Piece::Number(scale.column(head.place)),
            Piece::Raw(b"' width='88' height='62'/>"),
        ],
    )
}

// The place of a step above its column.
fn push_place(text: &mut Vec<u8>, scale: &Scale, head: &Head) -> Result<(), NoMemory>
    ensures value { OnOk result (text.new.items ≡ text.old.items ++ place_svg scale.now head.now) }
{
    let left = scale.column(head.place);
    push_all(
        text,
        &[
            Piece::Raw(b"<text class='n' x='"),
            Piece::Number(left + 44),
            Piece::Raw(b"' y='20'>"),
            Piece::Number(head.place),
            Piece::Raw(b"</text>"),
        ],
    )
}

// The kind of a step above its column.
fn push_kind(text: &mut Vec<u8>, scale: &Scale, head: &Head) -> Result<(), NoMemory>
    ensures value { OnOk result (text.new.items ≡ text.old.items ++ kind_svg scale.now head.now) }
{
    let left = scale.column(head.place);
    push_all(
        text,
        &[
            Piece::Raw(b"<text class='k' x='"),
            Piece::Number(left + 44),
            Piece::Raw(b"' y='37'>"),
            Piece::Raw(kind_name(head.kind)),
            Piece::Raw(b"</text>"),
        ],
    )
}

impl Drawn for Head {
    ghost svg = { head_svg };

    fn push_svg(&self, text: &mut Vec<u8>, scale: &Scale) -> Result<(), NoMemory> {
        push_line(text, self)?;
        push_hover(text, scale, self)?;
        push_place(text, scale, self)?;
        push_kind(text, scale, self)?;
        push_mark(text, scale, self)?;
        push_all(text, &[Piece::Raw(b"</g>\n")])?;
        Ok(())
    }
}

// The column of the first bad step, hatched.
fn push_shade(text: &mut Vec<u8>, scale: &Scale, bad: &BadColumn) -> Result<(), NoMemory>
    ensures value { OnOk result (text.new.items ≡ text.old.items ++ shade_svg scale.now bad.now) }
{
    push_all(
        text,
        &[
            Piece::Raw(b"<rect class='y' x='"),
            Piece::Number(scale.column(bad.place)),
            Piece::Raw(b"' width='88' height='"),
            Piece::Number(scale.bottom()),
            Piece::Raw(b"'/>"),
        ],
    )
}

// The rule through it.
fn push_rule(text: &mut Vec<u8>, scale: &Scale, bad: &BadColumn) -> Result<(), NoMemory>
    ensures value { OnOk result (text.new.items ≡ text.old.items ++ rule_svg scale.now bad.now) }
{
    push_all(
        text,
        &[
            Piece::Raw(b"<path class='r' d='M"),
            Piece::Number(scale.column(bad.place) + 44),
            Piece::Raw(b" 44V"),
            Piece::Number(scale.bottom()),
            Piece::Raw(b"'/>"),
        ],
    )
}

// Which rule of a history it breaks.
fn push_why(text: &mut Vec<u8>, scale: &Scale, bad: &BadColumn) -> Result<(), NoMemory>
    ensures value { OnOk result (text.new.items ≡ text.old.items ++ why_svg scale.now bad.now) }
{
    push_all(
        text,
        &[
            Piece::Raw(b"<text class='e' x='8' y='"),
            Piece::Number(scale.bottom() + 20),
            Piece::Raw(b"'>"),
            Piece::Words(bad.words.as_bytes()),
            Piece::Raw(b"</text>\n"),
        ],
    )
}

// The rule through the first bad step, and why it is bad.
fn push_bad_step(text: &mut Vec<u8>, scale: &Scale, bad: &BadColumn) -> Result<(), NoMemory>
    ensures value { OnOk result (text.new.items ≡ text.old.items ++ bad_step_svg scale.now bad.now) }
{
    push_shade(text, scale, bad)?;
    push_rule(text, scale, bad)?;
    push_why(text, scale, bad)?;
    Ok(())
}

/// The rule through the first bad step, where it is in the picture.
pub(crate) fn push_bad(text: &mut Vec<u8>, scale: &Scale, picture: &Picture) -> Result<(), NoMemory>
    ensures value { OnOk result (text.new.items ≡ text.old.items ++ bad_svg scale.now picture.now.bad) }
{
    match picture.bad() {
        Some(bad) => push_bad_step(text, scale, bad),
        None => Ok(()),
    }
}
