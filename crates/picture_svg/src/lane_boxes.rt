//! Boxes in lanes, and the words in them.

ghost use Rattle.std.specs.Prelude.{◌≡◌, ◌++◌, ◌<◌, ◌≤◌, OnOk};
ghost use Rattle.picture_svg.specs.LaneBoxes.{writer_label, claim_label, extent_svg, hex_digit, host_hue, host_label};
ghost use Rattle.picture_svg.specs.LaneBoxes.{hue_svg};
ghost use Rattle.picture_svg.specs.LaneBoxes.{hued_svg, label_open, name_label, name_told, room_in, two_digits};
ghost use Rattle.picture_svg.specs.LaneBoxes.{value_hue};
ghost use Rattle.picture_svg.specs.LaneBoxes.{value_label, writer_told};

use crate::boxes::Frame;
use crate::columns::room;
use crate::pieces::{Piece, push_all};
use nvme_model::Name;
use picture_shapes::Content;
use std::alloc::AllocError as NoMemory;

// The character of a hexadecimal digit.
fn hex_digit(n: u8) -> u8
    requires { n < 16 }
    ensures value { result ≡ hex_digit n }
{
    if n < 10 { 48 + n } else { 55 + n }
}

/// Adds two digits.
pub(crate) fn push_digits(text: &mut Vec<u8>, n: u8) -> Result<(), NoMemory>
    ensures value { OnOk result (text.new.items ≡ text.old.items ++ two_digits n) }
{
    text.extend_from_slice(&[hex_digit(n / 16), hex_digit(n % 16)])
}

/// The hue of a value, in degrees: from yellow to violet, so that none is the red of a fault.
pub(crate) fn value_hue(digits: u8) -> u64
    ensures value { result ≡ value_hue digits }
{
    60 + u64::from(digits) * 15 / 16
}

/// The hue of a host, in degrees, in the same range.
pub(crate) fn host_hue(host: u32) -> u64
    ensures value { result ≡ host_hue host }
{
    60 + u64::from(host) * 137 % 240
}

// The beginning of a box of a class and a hue.
fn push_hue(text: &mut Vec<u8>, class: &[u8], hue: u64) -> Result<(), NoMemory>
    ensures value { OnOk result (text.new.items ≡ text.old.items ++ hue_svg class.now hue) }
{
    push_all(
        text,
        &[
            Piece::Raw(b"<rect class='"),
            Piece::Raw(class),
            Piece::Raw(b"' style='fill:hsl("),
            Piece::Number(hue),
            Piece::Raw(b",75%,50%)"),
        ],
    )
}

// Where a box lies, to its end.
fn push_extent(text: &mut Vec<u8>, frame: Frame) -> Result<(), NoMemory>
    ensures value { OnOk result (text.new.items ≡ text.old.items ++ extent_svg frame) }
{
    push_all(
        text,
        &[
            Piece::Raw(b"' x='"),
            Piece::Number(frame.left),
            Piece::Raw(b"' y='"),
            Piece::Number(frame.top),
            Piece::Raw(b"' width='"),
            Piece::Number(frame.right.saturating_sub(frame.left)),
            Piece::Raw(b"' height='"),
            Piece::Number(frame.height),
            Piece::Raw(b"' rx='4'/>"),
        ],
    )
}

/// Adds a box of a class and a hue.
pub(crate) fn push_hued(
    text: &mut Vec<u8>,
    class: &[u8],
    hue: u64,
    frame: Frame,
) -> Result<(), NoMemory>
    ensures value { OnOk result (text.new.items ≡ text.old.items ++ hued_svg class.now hue frame) }
{
    push_hue(text, class, hue)?;
    push_extent(text, frame)?;
    Ok(())
}

/// Adds who wrote a value, in words.
pub(crate) fn push_writer(text: &mut Vec<u8>, ticket: Option<u64>) -> Result<(), NoMemory>
    ensures value { OnOk result (text.new.items ≡ text.old.items ++ writer_told ticket) }
{
    match ticket {
        Some(ticket) => push_all(
            text,
            &[Piece::Raw(b", written by ticket "), Piece::Number(ticket)],
        ),
        None => push_all(text, &[Piece::Raw(b", as the volume begins")]),
    }
}

/// Adds a name in words.
pub(crate) fn push_name(text: &mut Vec<u8>, name: Name) -> Result<(), NoMemory>
    ensures value { OnOk result (text.new.items ≡ text.old.items ++ name_told name) }
{
    push_all(
        text,
        &[
            Piece::Raw(b"host "),
            Piece::Number(u64::from(name.host)),
            Piece::Raw(b", claim "),
            Piece::Number(name.serial),
        ],
    )
}

// The words in a box begin.
fn push_label_open(text: &mut Vec<u8>, frame: Frame) -> Result<(), NoMemory>
    requires left { frame.left ≤ 880128 }
    requires top { frame.top ≤ 46000100 }
    ensures value { OnOk result (text.new.items ≡ text.old.items ++ label_open frame) }
{
    push_all(
        text,
        &[
            Piece::Raw(b"<text x='"),
            Piece::Number(frame.left + 8),
            Piece::Raw(b"' y='"),
            Piece::Number(frame.top + 14),
            Piece::Raw(b"'>"),
        ],
    )
}

// How many characters a box has room for.
fn room_in(frame: Frame) -> u64
    ensures value { result ≡ room_in frame }
{
    room(frame.right.saturating_sub(frame.left))
}

// The ticket that wrote a value, where there is room for it.
// Each value has its ticket beside it, and a box ends where the next writer's begins: so two values
// with the same digits are never drawn as one.
fn push_by_ticket(text: &mut Vec<u8>, places: u64, ticket: Option<u64>) -> Result<(), NoMemory>
    ensures value { OnOk result (text.new.items ≡ text.old.items ++ writer_label places ticket) }
{
    let Some(ticket) = ticket else {
        return Ok(());
    };
    if places < 18 {
        return Ok(());
    }
    push_all(text, &[Piece::Raw(b" by ticket "), Piece::Number(ticket)])
}

/// Adds the words in the box of a value.
pub(crate) fn push_value_label(
    text: &mut Vec<u8>,
    frame: Frame,
    content: Content,
) -> Result<(), NoMemory>
    requires left { frame.left ≤ 880128 }
    requires top { frame.top ≤ 46000100 }
    ensures value { OnOk result (text.new.items ≡ text.old.items ++ value_label frame content) }
{
    push_label_open(text, frame)?;
    push_digits(text, content.digits)?;
    push_by_ticket(text, room_in(frame), content.ticket)?;
    push_all(text, &[Piece::Raw(b"</text>")])?;
    Ok(())
}

// The host of a name, behind the beginning of its words.
fn push_host(text: &mut Vec<u8>, host: u32) -> Result<(), NoMemory>
    ensures value { OnOk result (text.new.items ≡ text.old.items ++ host_label host) }
{
    push_all(
        text,
        &[Piece::Raw(b"host "), Piece::Number(u64::from(host))],
    )
}

// The claim of a name, where there is room for it.
fn push_claim(text: &mut Vec<u8>, places: u64, serial: u64) -> Result<(), NoMemory>
    ensures value { OnOk result (text.new.items ≡ text.old.items ++ claim_label places serial) }
{
    if places < 18 {
        return Ok(());
    }
    push_all(text, &[Piece::Raw(b", claim "), Piece::Number(serial)])
}

/// Adds the words in the box of a name.
pub(crate) fn push_name_label(text: &mut Vec<u8>, frame: Frame, name: Name) -> Result<(), NoMemory>
    requires left { frame.left ≤ 880128 }
    requires top { frame.top ≤ 46000100 }
    ensures value { OnOk result (text.new.items ≡ text.old.items ++ name_label frame name) }
{
    push_label_open(text, frame)?;
    push_host(text, name.host)?;
    push_claim(text, room_in(frame), name.serial)?;
    push_all(text, &[Piece::Raw(b"</text>")])?;
    Ok(())
}
