//! The names of the lanes.

ghost use Rattle.std.specs.Prelude.{◌≡◌, ◌++◌, ◌==◌, ◌≤◌, OnOk};
ghost use Rattle.std.specs.List.{list_any};
ghost use Rattle.picture_svg.specs.LaneNames.{in_flight_svg, lane_svg, line_svg, queue_names_svg, row_svg};
ghost use Rattle.picture_svg.specs.LaneNames.{tickets_lane_svg, tickets_line_svg};

use crate::pieces::{Piece, push_all};
use crate::scale::{Scale, top_at};
use picture_shapes::LaneRow;
use std::alloc::AllocError as NoMemory;

// Whether an earlier row is of this lane.
fn is_named(rows: &[LaneRow], lane: u16) -> bool
    ensures value { result ≡ list_any (λ row. row.lane == lane) rows.now }
{
    rows.iter().any(|row| row.lane == lane)
}

// The line above a lane, and the first of its words.
fn push_line(text: &mut Vec<u8>, scale: &Scale, top: u64, name: &[u8]) -> Result<(), NoMemory>
    requires top { top ≤ 46000066 }
    ensures value { OnOk result (text.new.items ≡ text.old.items ++ line_svg scale.now top name.now) }
{
    push_all(
        text,
        &[
            Piece::Raw(b"<path class='g' d='M0 "),
            Piece::Number(top),
            Piece::Raw(b"H"),
            Piece::Number(scale.edge()),
            Piece::Raw(b"'/><text class='a' x='6' y='"),
            Piece::Number(top + 19),
            Piece::Raw(b"'>"),
            Piece::Raw(name),
            Piece::Raw(b"</text><text class='a' x='6' y='"),
            Piece::Number(top + 35),
            Piece::Raw(b"'>"),
        ],
    )
}

// The name of the lane of a queue.
fn push_lane(
    text: &mut Vec<u8>,
    scale: &Scale,
    top: u64,
    name: &[u8],
    lane: u16,
) -> Result<(), NoMemory>
    requires top { top ≤ 46000066 }
    ensures value { OnOk result (text.new.items ≡ text.old.items ++ lane_svg scale.now top name.now lane) }
{
    push_line(text, scale, top, name)?;
    push_all(
        text,
        &[
            Piece::Raw(b"queue "),
            Piece::Number(u64::from(lane)),
            Piece::Raw(b"</text>\n"),
        ],
    )?;
    Ok(())
}

// The name of the lane of a row, where none of the rows before it is of that lane.
fn push_row(
    text: &mut Vec<u8>,
    scale: &Scale,
    top: u64,
    name: &[u8],
    before: &[LaneRow],
    row: LaneRow,
) -> Result<(), NoMemory>
    requires top { top ≤ 46000066 }
    ensures value { OnOk result (text.new.items ≡ text.old.items ++ row_svg scale.now top name.now before.now row) }
{
    if is_named(before, row.lane) {
        return Ok(());
    }
    push_lane(text, scale, top, name, row.lane)
}

/// The names of the lanes of queues.
pub(crate) fn push_lanes(
    text: &mut Vec<u8>,
    scale: &Scale,
    tops: &[u64],
    name: &[u8],
    rows: &[LaneRow],
) -> Result<(), NoMemory>
    ensures value { OnOk result (text.new.items ≡ text.old.items
        ++ queue_names_svg scale.now tops.now name.now rows.now) }
{
    for i in 0..rows.len() {
        push_row(text, scale, top_at(tops, i), name, &rows[..i], rows[i])?;
    }
    Ok(())
}

// The line above the lane of the tickets.
fn push_tickets_line(text: &mut Vec<u8>, scale: &Scale) -> Result<(), NoMemory>
    ensures value { OnOk result (text.new.items ≡ text.old.items ++ tickets_line_svg scale.now) }
{
    push_line(text, scale, scale.ticket_top(0), b"tickets")
}

// The name of the lane of the tickets.
fn push_in_flight(text: &mut Vec<u8>, scale: &Scale) -> Result<(), NoMemory>
    ensures value { OnOk result (text.new.items ≡ text.old.items ++ in_flight_svg scale.now) }
{
    push_tickets_line(text, scale)?;
    push_all(text, &[Piece::Raw(b"in flight</text>\n")])?;
    Ok(())
}

/// The name of the lane of the tickets, where there was one.
pub(crate) fn push_tickets_lane(
    text: &mut Vec<u8>,
    scale: &Scale,
    rows: &[LaneRow],
) -> Result<(), NoMemory>
    ensures value { OnOk result (text.new.items ≡ text.old.items ++ tickets_lane_svg scale.now rows.now) }
{
    if rows.is_empty() {
        return Ok(());
    }
    push_in_flight(text, scale)
}
