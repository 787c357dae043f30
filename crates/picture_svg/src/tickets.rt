//! The tickets in flight and their units.

ghost use Rattle.std.specs.Prelude.{◌≡◌, ◌++◌, OnOk};
ghost use Rattle.picture_svg.specs.Tickets.{flying_svg, number_svg, unit_range_told, ticket_box_svg, unit_here_svg};
ghost use Rattle.picture_svg.specs.Tickets.{unit_svg};

use crate::boxes::{Frame, push_rect};
use crate::drawn::Drawn;
use crate::pieces::{Piece, push_all};
use crate::scale::Scale;
use picture_shapes::{OpenTicket, TicketBox, UnitBox};
use std::alloc::AllocError as NoMemory;

impl Drawn for TicketBox {
    ghost svg = { ticket_box_svg };

    fn push_svg(&self, text: &mut Vec<u8>, scale: &Scale) -> Result<(), NoMemory> {
        let top = scale.ticket_top(self.row);
        let frame = Frame {
            left: scale.left(self.fetched),
            right: scale.right(self.posted),
            top: top + 3,
            height: 40,
        };
        push_rect(text, b"b", frame)?;
        push_all(
            text,
            &[
                Piece::Raw(b"<text x='"),
                Piece::Number(frame.left + 8),
                Piece::Raw(b"' y='"),
                Piece::Number(top + 17),
                Piece::Raw(b"'>ticket "),
                Piece::Number(self.ticket),
                Piece::Raw(b" of queue "),
                Piece::Number(u64::from(self.queue)),
                Piece::Raw(b"</text>\n"),
            ],
        )
    }
}

// The blocks of a unit.
fn push_range(text: &mut Vec<u8>, unit: &UnitBox) -> Result<(), NoMemory>
    ensures value { OnOk result (text.new.items ≡ text.old.items ++ unit_range_told unit.now) }
{
    if unit.blocks == 1 {
        return push_all(text, &[Piece::Raw(b"block "), Piece::Number(unit.slba)]);
    }
    push_all(
        text,
        &[
            Piece::Number(u64::from(unit.blocks)),
            Piece::Raw(b" blocks from "),
            Piece::Number(unit.slba),
        ],
    )
}

// The number of a unit, before its blocks.
fn push_number(text: &mut Vec<u8>, left: u64, base: u64, unit: u64) -> Result<(), NoMemory>
    ensures value { OnOk result (text.new.items ≡ text.old.items ++ number_svg left base unit) }
{
    push_all(
        text,
        &[
            Piece::Raw(b"<text x='"),
            Piece::Number(left),
            Piece::Raw(b"' y='"),
            Piece::Number(base),
            Piece::Raw(b"'>unit "),
            Piece::Number(unit),
            Piece::Raw(b": "),
        ],
    )
}

impl Drawn for UnitBox {
    ghost svg = { unit_svg };

    fn push_svg(&self, text: &mut Vec<u8>, scale: &Scale) -> Result<(), NoMemory> {
        let top = scale.ticket_top(self.row);
        let left = scale.left(self.granted);
        let frame = Frame {
            left,
            right: scale.right(Some(self.last)),
            top: top + 23,
            height: 18,
        };
        push_rect(text, b"t", frame)?;
        push_number(text, left + 8, top + 36, self.unit)?;
        push_range(text, self)?;
        push_all(text, &[Piece::Raw(b"</text>\n")])?;
        Ok(())
    }
}

// The unit of a ticket in flight, where it has one.
fn push_unit(text: &mut Vec<u8>, scale: &Scale, unit: Option<UnitBox>) -> Result<(), NoMemory>
    ensures value { OnOk result (text.new.items ≡ text.old.items ++ unit_here_svg scale.now unit) }
{
    match unit {
        Some(unit) => unit.push_svg(text, scale),
        None => Ok(()),
    }
}

impl Drawn for OpenTicket {
    ghost svg = { flying_svg };

    fn push_svg(&self, text: &mut Vec<u8>, scale: &Scale) -> Result<(), NoMemory> {
        self.ticket.push_svg(text, scale)?;
        push_unit(text, scale, self.unit)
    }
}
