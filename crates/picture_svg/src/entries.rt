//! The bars of entries, the cells in them, and the completions that wait.

ghost use Rattle.std.specs.Prelude.{◌≡◌, ◌++◌, ◌≤◌, OnOk, option_map};
ghost use Rattle.picture_svg.specs.Entries.{bar_svg, box_svg, cell_svg, cid_svg, effect_word, found_class};
ghost use Rattle.picture_svg.specs.Entries.{found_svg, frame_svg, label_svg, status_svg};
ghost use Rattle.picture_svg.specs.Entries.{open_svg, posting_place, posted_svg, status_class, tail_svg};
ghost use Rattle.picture_svg.specs.Entries.{ticket_svg, title_svg, wait_svg};
ghost use Rattle.history.specs.Marks.{found_word};

use crate::boxes::{Frame, push_rect, push_words};
use crate::columns::room;
use crate::drawn::Drawn;
use crate::pieces::{Piece, push_all};
use crate::scale::Scale;
use history_words::status_name;
use nvme_model::operation::Found;
use nvme_model::status::Status;
use picture_shapes::{Bar, Cell, OpenBar, Posting};
use std::alloc::AllocError as NoMemory;

// The class of a completion: one that says success, or another.
fn status_class(status: Status) -> &'static [u8]
    ensures value { result.now ≡ status_class status }
{
    if status.sct() == 0 && status.sc() == 0 {
        b"w"
    } else {
        b"f"
    }
}

// The place of a post.
fn posting_place(posted: Option<&Posting>) -> Option<u64>
    ensures value { result ≡ posting_place (option_map (λ p. p.now) posted.entry) }
{
    match posted {
        Some(posted) => Some(posted.place),
        None => None,
    }
}

// What is said of an entry under the pointer: its command, and its completion where there is one.
fn push_title(text: &mut Vec<u8>, bar: &Bar) -> Result<(), NoMemory>
    ensures value { OnOk result (text.new.items ≡ text.old.items ++ title_svg bar.now) }
{
    match &bar.posted {
        Some(posted) => push_all(
            text,
            &[
                Piece::Raw(b"<title>"),
                Piece::Words(bar.words.as_bytes()),
                Piece::Raw(b"; "),
                Piece::Words(posted.words.as_bytes()),
                Piece::Raw(b"</title>"),
            ],
        ),
        None => push_all(
            text,
            &[
                Piece::Raw(b"<title>"),
                Piece::Words(bar.words.as_bytes()),
                Piece::Raw(b"</title>"),
            ],
        ),
    }
}

// The bar itself, from its Publish to its Reap.
fn push_frame(text: &mut Vec<u8>, scale: &Scale, bar: &Bar) -> Result<(), NoMemory>
    ensures value { OnOk result (text.new.items ≡ text.old.items ++ frame_svg scale.now bar.now) }
{
    let frame = Frame {
        left: scale.left(bar.published),
        right: scale.right(bar.reaped),
        top: scale.row_top(bar.row) + 3,
        height: 40,
    };
    push_rect(text, b"b", frame)
}

// The ticket in a bar, from its Fetch to the Post of this entry.
fn push_ticket(text: &mut Vec<u8>, scale: &Scale, bar: &Bar) -> Result<(), NoMemory>
    ensures value { OnOk result (text.new.items ≡ text.old.items ++ ticket_svg scale.now bar.now) }
{
    let Some(fetched) = bar.fetched else {
        return Ok(());
    };
    let top = scale.row_top(bar.row);
    let left = scale.left(fetched.place);
    let frame = Frame {
        left,
        right: scale.right(posting_place(bar.posted.as_ref())),
        top: top + 23,
        height: 18,
    };
    push_rect(text, b"t", frame)?;
    push_all(
        text,
        &[
            Piece::Raw(b"<text class='d' x='"),
            Piece::Number(left + 40),
            Piece::Raw(b"' y='"),
            Piece::Number(top + 36),
            Piece::Raw(b"'>ticket "),
            Piece::Number(fetched.ticket),
            Piece::Raw(b"</text>"),
        ],
    )
}

// The part of a bar in which its completion waits.
fn push_tail(text: &mut Vec<u8>, scale: &Scale, bar: &Bar) -> Result<(), NoMemory>
    ensures value { OnOk result (text.new.items ≡ text.old.items ++ tail_svg scale.now bar.now) }
{
    let Some(posted) = &bar.posted else {
        return Ok(());
    };
    let frame = Frame {
        left: scale.right(Some(posted.place)),
        right: scale.right(bar.reaped),
        top: scale.row_top(bar.row) + 23,
        height: 18,
    };
    push_rect(text, status_class(posted.status), frame)
}

// The words on a bar.
fn push_label(text: &mut Vec<u8>, scale: &Scale, bar: &Bar) -> Result<(), NoMemory>
    ensures value { OnOk result (text.new.items ≡ text.old.items ++ label_svg scale.now bar.now) }
{
    let left = scale.left(bar.published);
    let right = scale.right(bar.reaped);
    let base = scale.row_top(bar.row) + 17;
    let most = room(right.saturating_sub(left));
    push_words(text, left + 8, base, bar.words.as_bytes(), most)
}

// The box of a completion, while it waits in its completion queue.
fn push_box(
    text: &mut Vec<u8>,
    scale: &Scale,
    reaped: Option<u64>,
    posted: &Posting,
) -> Result<(), NoMemory>
    ensures value { OnOk result (text.new.items ≡ text.old.items ++ box_svg scale.now reaped posted.now) }
{
    let frame = Frame {
        left: scale.left(posted.place),
        right: scale.right(reaped),
        top: scale.wait_top(posted.row) + 3,
        height: 40,
    };
    push_rect(text, status_class(posted.status), frame)
}

// The CID of a completion.
fn push_cid(text: &mut Vec<u8>, scale: &Scale, posted: &Posting) -> Result<(), NoMemory>
    ensures value { OnOk result (text.new.items ≡ text.old.items ++ cid_svg scale.now posted.now) }
{
    let top = scale.wait_top(posted.row);
    let left = scale.left(posted.place);
    push_all(
        text,
        &[
            Piece::Raw(b"<text x='"),
            Piece::Number(left + 8),
            Piece::Raw(b"' y='"),
            Piece::Number(top + 19),
            Piece::Raw(b"'>CID "),
            Piece::Number(u64::from(posted.cid)),
            Piece::Raw(b"</text>"),
        ],
    )
}

// The name of a completion's status, as much of it as has room.
fn push_status(
    text: &mut Vec<u8>,
    scale: &Scale,
    reaped: Option<u64>,
    posted: &Posting,
) -> Result<(), NoMemory>
    ensures value { OnOk result (text.new.items ≡ text.old.items ++ status_svg scale.now reaped posted.now) }
{
    let left = scale.left(posted.place);
    let right = scale.right(reaped);
    let base = scale.wait_top(posted.row) + 35;
    let most = room(right.saturating_sub(left));
    let name = status_name(posted.status).as_bytes();
    push_words(text, left + 8, base, name, most)
}

// A completion, while it waits in its completion queue.
fn push_posted(
    text: &mut Vec<u8>,
    scale: &Scale,
    reaped: Option<u64>,
    posted: &Posting,
) -> Result<(), NoMemory>
    ensures value { OnOk result (text.new.items ≡ text.old.items ++ posted_svg scale.now reaped posted.now) }
{
    push_box(text, scale, reaped, posted)?;
    push_cid(text, scale, posted)?;
    push_status(text, scale, reaped, posted)?;
    Ok(())
}

// The completion of an entry, where it was posted.
fn push_wait(text: &mut Vec<u8>, scale: &Scale, bar: &Bar) -> Result<(), NoMemory>
    ensures value { OnOk result (text.new.items ≡ text.old.items ++ wait_svg scale.now bar.now) }
{
    match &bar.posted {
        Some(posted) => push_posted(text, scale, bar.reaped, posted),
        None => Ok(()),
    }
}

impl Drawn for Bar {
    ghost svg = { bar_svg };

    fn push_svg(&self, text: &mut Vec<u8>, scale: &Scale) -> Result<(), NoMemory> {
        push_all(text, &[Piece::Raw(b"<g>")])?;
        push_title(text, self)?;
        push_frame(text, scale, self)?;
        push_ticket(text, scale, self)?;
        push_tail(text, scale, self)?;
        push_label(text, scale, self)?;
        push_wait(text, scale, self)?;
        push_all(text, &[Piece::Raw(b"</g>\n")])?;
        Ok(())
    }
}

impl Drawn for OpenBar {
    ghost svg = { open_svg };

    fn push_svg(&self, text: &mut Vec<u8>, scale: &Scale) -> Result<(), NoMemory> {
        self.bar.push_svg(text, scale)
    }
}

fn found_word(found: Found) -> &'static [u8]
    ensures value { result.now ≡ found_word found }
{
    match found {
        Found::Read => b"read",
        Found::Equal => b"equal",
        Found::Differs => b"differs",
        Found::Written => b"written",
    }
}

fn found_class(found: Found) -> &'static [u8]
    ensures value { result.now ≡ found_class found }
{
    match found {
        Found::Read | Found::Equal | Found::Written => b"c",
        Found::Differs => b"x",
    }
}

fn effect_word(effect: bool) -> &'static [u8]
    ensures value { result.now ≡ effect_word effect }
{
    if effect { b" *" } else { b"" }
}

// What a Block found, in the middle of its cell, with the star of its unit's effect.
fn push_found(text: &mut Vec<u8>, middle: u64, base: u64, cell: &Cell) -> Result<(), NoMemory>
    ensures value { OnOk result (text.new.items ≡ text.old.items ++ found_svg middle base cell.now) }
{
    push_all(
        text,
        &[
            Piece::Raw(b"<text class='d' x='"),
            Piece::Number(middle),
            Piece::Raw(b"' y='"),
            Piece::Number(base),
            Piece::Raw(b"'>"),
            Piece::Raw(found_word(cell.found)),
            Piece::Raw(effect_word(cell.effect)),
            Piece::Raw(b"</text>\n"),
        ],
    )
}

impl Drawn for Cell {
    ghost svg = { cell_svg };

    fn push_svg(&self, text: &mut Vec<u8>, scale: &Scale) -> Result<(), NoMemory> {
        let top = scale.row_top(self.row);
        let left = scale.column(self.place);
        let frame = Frame {
            left: left + 2,
            right: left + 86,
            top: top + 23,
            height: 18,
        };
        push_rect(text, found_class(self.found), frame)?;
        push_found(text, left + 44, top + 36, self)?;
        Ok(())
    }
}
