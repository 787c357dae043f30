//! The whole text.

ghost use Rattle.std.specs.Prelude.{◌≡◌, ◌+◌, ◌++◌, IfOk, OnOk};
ghost use Rattle.picture_svg.specs.Page.{bad_length, beside_svg, cells_svg, closing_svg, done_svg, ground_svg};
ghost use Rattle.picture_svg.specs.Page.{heads_svg};
ghost use Rattle.picture_svg.specs.Page.{in_flight_svg, names_svg, note_svg, opening_svg, page_svg, pending_svg};
ghost use Rattle.picture_svg.specs.Page.{picture_svg, shapes_svg, size_svg, tickets_svg, units_svg, view_svg};
ghost use Rattle.picture_svg.specs.Page.{width_of};
ghost use Rattle.picture_svg.specs.Scale.{bottom_of};

use crate::column_heads::push_bad;
use crate::drawn::push_each;
use crate::lane_names::{push_lanes, push_tickets_lane};
use crate::lane_rows::push_lanes as push_block_lanes;
use crate::pieces::{Piece, push_all};
use crate::scale::Scale;
use crate::seen::push_seen;
use crate::style::{BARS, MARKS, STYLE, bars_note, marks_note, style};
use picture_shapes::Picture;
use std::alloc::{AllocError as NoMemory, Global};

// How many bytes the words of the first bad step have.
fn bad_length(picture: &Picture) -> u64
    ensures value { result ≡ bad_length picture.now.bad }
{
    match picture.bad() {
        Some(bad) => bad.words.as_bytes().len() as u64,
        None => 0,
    }
}

// How wide the picture is: its columns, and the words of its first bad step.
fn width_of(scale: &Scale, picture: &Picture) -> u64
    ensures value { result ≡ width_of scale.now picture.now.bad }
{
    let words = 16 + 8 * bad_length(picture).min(100_000);
    (scale.edge() + 8).max(800).max(words)
}

// What is seen of the picture, which is all.
fn push_view(text: &mut Vec<u8>, scale: &Scale, picture: &Picture) -> Result<(), NoMemory>
    ensures value { OnOk result (text.new.items ≡ text.old.items ++ view_svg scale.now picture.now) }
{
    let width = width_of(scale, picture);
    let height = scale.bottom() + 66;
    push_all(
        text,
        &[
            Piece::Raw(b"<svg xmlns='http://www.w3.org/2000/svg' viewBox='0 0 "),
            Piece::Number(width),
            Piece::Raw(b" "),
            Piece::Number(height),
            Piece::Raw(b"'"),
        ],
    )
}

// How large the picture is.
fn push_size(text: &mut Vec<u8>, scale: &Scale, picture: &Picture) -> Result<(), NoMemory>
    ensures value { OnOk result (text.new.items ≡ text.old.items ++ size_svg scale.now picture.now) }
{
    let width = width_of(scale, picture);
    let height = scale.bottom() + 66;
    push_all(
        text,
        &[
            Piece::Raw(b" width='"),
            Piece::Number(width),
            Piece::Raw(b"' height='"),
            Piece::Number(height),
            Piece::Raw(b"'>\n"),
        ],
    )
}

// What lies behind the picture.
fn push_ground(text: &mut Vec<u8>, scale: &Scale, picture: &Picture) -> Result<(), NoMemory>
    ensures value { OnOk result (text.new.items ≡ text.old.items ++ ground_svg scale.now picture.now) }
{
    let width = width_of(scale, picture);
    let height = scale.bottom() + 66;
    push_all(
        text,
        &[
            Piece::Raw(b"<rect class='z' width='"),
            Piece::Number(width),
            Piece::Raw(b"' height='"),
            Piece::Number(height),
            Piece::Raw(b"'/>\n"),
        ],
    )
}

// How the picture looks.
fn push_style(text: &mut Vec<u8>) -> Result<(), NoMemory>
    ensures value { OnOk result (text.new.items ≡ text.old.items ++ STYLE.now) }
{
    text.extend_from_slice(style())
}

// The first lines.
fn push_opening(text: &mut Vec<u8>, scale: &Scale, picture: &Picture) -> Result<(), NoMemory>
    ensures value { OnOk result (text.new.items ≡ text.old.items ++ opening_svg scale.now picture.now) }
{
    push_view(text, scale, picture)?;
    push_size(text, scale, picture)?;
    push_style(text)?;
    push_ground(text, scale, picture)?;
    Ok(())
}

// Words below all rows.
fn push_note(text: &mut Vec<u8>, base: u64, words: &[u8]) -> Result<(), NoMemory>
    ensures value { OnOk result (text.new.items ≡ text.old.items ++ note_svg base words.now) }
{
    push_all(
        text,
        &[
            Piece::Raw(b"<text x='8' y='"),
            Piece::Number(base),
            Piece::Raw(b"'>"),
            Piece::Raw(words),
            Piece::Raw(b"</text>\n"),
        ],
    )
}

// What bars are.
fn push_bars_note(text: &mut Vec<u8>, scale: &Scale) -> Result<(), NoMemory>
    ensures value { OnOk result (text.new.items ≡ text.old.items ++ note_svg (bottom_of scale.now + 40) BARS.now) }
{
    push_note(text, scale.bottom() + 40, bars_note())
}

// What marks and hatchings are.
fn push_marks_note(text: &mut Vec<u8>, scale: &Scale) -> Result<(), NoMemory>
    ensures value { OnOk result (text.new.items ≡ text.old.items ++ note_svg (bottom_of scale.now + 57) MARKS.now) }
{
    push_note(text, scale.bottom() + 57, marks_note())
}

// The last lines.
fn push_closing(text: &mut Vec<u8>, scale: &Scale) -> Result<(), NoMemory>
    ensures value { OnOk result (text.new.items ≡ text.old.items ++ closing_svg scale.now) }
{
    push_bars_note(text, scale)?;
    push_marks_note(text, scale)?;
    push_all(text, &[Piece::Raw(b"</svg>\n")])?;
    Ok(())
}

fn push_names(text: &mut Vec<u8>, scale: &Scale, picture: &Picture) -> Result<(), NoMemory>
    ensures value { OnOk result (text.new.items ≡ text.old.items ++ names_svg scale.now picture.now) }
{
    let bars = picture.bars();
    push_lanes(text, scale, scale.rows(), b"submission", bars.rows())?;
    push_lanes(text, scale, scale.waits(), b"completion", bars.waits())?;
    push_tickets_lane(text, scale, picture.tickets().rows())?;
    Ok(())
}

// The bars of the entries that were reaped.
fn push_done(text: &mut Vec<u8>, scale: &Scale, picture: &Picture) -> Result<(), NoMemory>
    ensures value { OnOk result (text.new.items ≡ text.old.items ++ done_svg scale.now picture.now) }
{
    push_each(text, scale, picture.bars().done())
}

// The bars of the entries that weren't.
fn push_pending(text: &mut Vec<u8>, scale: &Scale, picture: &Picture) -> Result<(), NoMemory>
    ensures value { OnOk result (text.new.items ≡ text.old.items ++ pending_svg scale.now picture.now) }
{
    push_each(text, scale, picture.bars().pending())
}

fn push_cells(text: &mut Vec<u8>, scale: &Scale, picture: &Picture) -> Result<(), NoMemory>
    ensures value { OnOk result (text.new.items ≡ text.old.items ++ cells_svg scale.now picture.now) }
{
    push_each(text, scale, picture.bars().cells())
}

// The tickets that owe nothing more.
fn push_tickets(text: &mut Vec<u8>, scale: &Scale, picture: &Picture) -> Result<(), NoMemory>
    ensures value { OnOk result (text.new.items ≡ text.old.items ++ tickets_svg scale.now picture.now) }
{
    push_each(text, scale, picture.tickets().done())
}

// The tickets in flight.
fn push_flying(text: &mut Vec<u8>, scale: &Scale, picture: &Picture) -> Result<(), NoMemory>
    ensures value { OnOk result (text.new.items ≡ text.old.items ++ in_flight_svg scale.now picture.now) }
{
    push_each(text, scale, picture.tickets().flying())
}

fn push_units(text: &mut Vec<u8>, scale: &Scale, picture: &Picture) -> Result<(), NoMemory>
    ensures value { OnOk result (text.new.items ≡ text.old.items ++ units_svg scale.now picture.now) }
{
    push_each(text, scale, picture.tickets().units())
}

fn push_heads(text: &mut Vec<u8>, scale: &Scale, picture: &Picture) -> Result<(), NoMemory>
    ensures value { OnOk result (text.new.items ≡ text.old.items ++ heads_svg scale.now picture.now) }
{
    push_each(text, scale, picture.heads())
}

// The bars of entries and the boxes of tickets.
fn push_shapes(text: &mut Vec<u8>, scale: &Scale, picture: &Picture) -> Result<(), NoMemory>
    ensures value { OnOk result (text.new.items ≡ text.old.items ++ shapes_svg scale.now picture.now) }
{
    push_done(text, scale, picture)?;
    push_pending(text, scale, picture)?;
    push_tickets(text, scale, picture)?;
    push_flying(text, scale, picture)?;
    push_units(text, scale, picture)?;
    Ok(())
}

// The lanes of blocks and of slots.
fn push_beside(text: &mut Vec<u8>, scale: &Scale, picture: &Picture) -> Result<(), NoMemory>
    ensures value { OnOk result (text.new.items ≡ text.old.items ++ beside_svg scale.now picture.now) }
{
    push_block_lanes(text, scale.lanes(), picture.lanes())
}

// The whole text.
fn push_page(text: &mut Vec<u8>, scale: &Scale, picture: &Picture) -> Result<(), NoMemory>
    ensures value { OnOk result (text.new.items ≡ text.old.items ++ page_svg scale.now picture.now) }
{
    push_opening(text, scale, picture)?;
    push_seen(text, scale, picture)?;
    push_names(text, scale, picture)?;
    push_shapes(text, scale, picture)?;
    push_beside(text, scale, picture)?;
    push_heads(text, scale, picture)?;
    push_cells(text, scale, picture)?;
    push_bad(text, scale, picture)?;
    push_closing(text, scale)?;
    Ok(())
}

/// The SVG text of a picture.
///
/// # Errors
///
/// `NoMemory` where a growth is refused.
pub fn picture_text(alloc: Global, picture: &Picture) -> Result<Vec<u8>, NoMemory>
    ensures value { IfOk result (λ text. text.items ≡ picture_svg picture.now) }
{
    let scale = Scale::new(alloc, picture)?;
    let mut text = Vec::new(alloc);
    push_page(&mut text, &scale, picture)?;
    Ok(text)
}
