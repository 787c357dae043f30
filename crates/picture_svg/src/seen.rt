//! What hosts saw, in the picture of a witness.

ghost use Rattle.std.specs.Prelude.{◌≡◌, ◌++◌, OnOk, flat_map};
ghost use Rattle.picture_svg.specs.Seen.{band_svg, is_seen, seen_head, seen_svg, witness_svg};
ghost use Rattle.picture_svg.specs.declared.style.TheConstants.{SEEN_STYLE};

use crate::pieces::{Piece, push_all};
use crate::scale::Scale;
use crate::style::{SEEN_STYLE, seen_style};
use picture_shapes::{EntryKind, Head, Picture, Subject};
use std::alloc::AllocError as NoMemory;

// Whether hosts see a step of this kind.
fn is_seen(kind: EntryKind) -> bool
    ensures value { result ≡ is_seen kind }
{
    match kind {
        EntryKind::Publish | EntryKind::Reap => true,
        EntryKind::Fetch | EntryKind::Grant | EntryKind::Block | EntryKind::Post => false,
    }
}

// The band of a column that hosts saw.
fn push_band(text: &mut Vec<u8>, scale: &Scale, head: &Head) -> Result<(), NoMemory>
    ensures value { OnOk result (text.new.items ≡ text.old.items ++ band_svg scale.now head.now) }
{
    let left = scale.column(head.place);
    push_all(
        text,
        &[
            Piece::Raw(b"<rect class='q' x='"),
            Piece::Number(left),
            Piece::Raw(b"' width='88' height='"),
            Piece::Number(scale.bottom()),
            Piece::Raw(b"'/><text class='k' x='"),
            Piece::Number(left + 44),
            Piece::Raw(b"' y='54'>seen</text>\n"),
        ],
    )
}

// The same, where it is one.
fn push_seen_head(text: &mut Vec<u8>, scale: &Scale, head: &Head) -> Result<(), NoMemory>
    ensures value { OnOk result (text.new.items ≡ text.old.items ++ seen_head scale.now head.now) }
{
    if !is_seen(head.kind) {
        return Ok(());
    }
    push_band(text, scale, head)
}

// The bands of the columns that hosts saw.
fn push_bands(text: &mut Vec<u8>, scale: &Scale, heads: &[Head]) -> Result<(), NoMemory>
    ensures value { OnOk result (text.new.items ≡ text.old.items ++ flat_map (seen_head scale.now) heads.now) }
{
    for head in heads {
        push_seen_head(text, scale, head)?;
    }
    Ok(())
}

// How the bands look.
fn push_style(text: &mut Vec<u8>) -> Result<(), NoMemory>
    ensures value { OnOk result (text.new.items ≡ text.old.items ++ SEEN_STYLE.now) }
{
    text.extend_from_slice(seen_style())
}

// The columns that hosts saw.
fn push_witness(text: &mut Vec<u8>, scale: &Scale, heads: &[Head]) -> Result<(), NoMemory>
    ensures value { OnOk result (text.new.items ≡ text.old.items ++ witness_svg scale.now heads.now) }
{
    push_style(text)?;
    push_bands(text, scale, heads)?;
    Ok(())
}

/// The columns that hosts saw, where the picture is of a witness.
pub(crate) fn push_seen(
    text: &mut Vec<u8>,
    scale: &Scale,
    picture: &Picture,
) -> Result<(), NoMemory>
    ensures value { OnOk result
        (text.new.items ≡ text.old.items ++ seen_svg scale.now picture.now.heads picture.now.subject) }
{
    match picture.subject() {
        Subject::History => Ok(()),
        Subject::Witness => push_witness(text, scale, picture.heads()),
    }
}
