//! The names of the lanes.

ghost use Rattle.std.specs.Prelude.{◌≡◌, ◌++◌, ◌≤◌, OnOk, flat_map};
ghost use Rattle.picture_svg.specs.SlotHolders.{block_name, upper_words, lane_line, lane_name, lower_words, slot_name};

use crate::layout::Layout;
use crate::pieces::{Piece, push_all};
use std::alloc::AllocError as NoMemory;

// The line above a lane.
fn push_line(text: &mut Vec<u8>, layout: &Layout, top: u64) -> Result<(), NoMemory>
    ensures value { OnOk result (text.new.items ≡ text.old.items ++ lane_line layout.now top) }
{
    push_all(
        text,
        &[
            Piece::Raw(b"<path class='g' d='M0 "),
            Piece::Number(top),
            Piece::Raw(b"H"),
            Piece::Number(layout.columns().edge()),
            Piece::Raw(b"'/>"),
        ],
    )
}

// What a lane is of.
fn push_first(text: &mut Vec<u8>, top: u64, name: &[u8], lba: u64) -> Result<(), NoMemory>
    requires top { top ≤ 46000066 }
    ensures value { OnOk result (text.new.items ≡ text.old.items ++ upper_words top name.now lba) }
{
    push_all(
        text,
        &[
            Piece::Raw(b"<text class='a' x='6' y='"),
            Piece::Number(top + 19),
            Piece::Raw(b"'>"),
            Piece::Raw(name),
            Piece::Number(lba),
            Piece::Raw(b"</text>"),
        ],
    )
}

// What stands in the lower half of a lane.
fn push_second(text: &mut Vec<u8>, top: u64, second: &[u8]) -> Result<(), NoMemory>
    requires top { top ≤ 46000066 }
    ensures value { OnOk result (text.new.items ≡ text.old.items ++ lower_words top second.now) }
{
    push_all(
        text,
        &[
            Piece::Raw(b"<text x='6' y='"),
            Piece::Number(top + 35),
            Piece::Raw(b"'>"),
            Piece::Raw(second),
            Piece::Raw(b"</text>\n"),
        ],
    )
}

// The line above a lane, and its words.
fn push_lane_name(
    text: &mut Vec<u8>,
    layout: &Layout,
    top: u64,
    name: &[u8],
    lba: u64,
    second: &[u8],
) -> Result<(), NoMemory>
    requires top { top ≤ 46000066 }
    ensures value { OnOk result
        (text.new.items ≡ text.old.items ++ lane_name layout.now top name.now lba second.now) }
{
    push_line(text, layout, top)?;
    push_first(text, top, name, lba)?;
    push_second(text, top, second)?;
    Ok(())
}

// The name of the lane of a block's value.
fn push_block_name(text: &mut Vec<u8>, layout: &Layout, lba: u64) -> Result<(), NoMemory>
    ensures value { OnOk result (text.new.items ≡ text.old.items ++ block_name layout.now lba) }
{
    push_lane_name(
        text,
        layout,
        layout.block_top(lba),
        b"block ",
        lba,
        b"medium",
    )
}

// The name of the lane of a slot.
fn push_slot_name(text: &mut Vec<u8>, layout: &Layout, lba: u64) -> Result<(), NoMemory>
    ensures value { OnOk result (text.new.items ≡ text.old.items ++ slot_name layout.now lba) }
{
    push_lane_name(
        text,
        layout,
        layout.slot_top(lba),
        b"slot ",
        lba,
        b"believed",
    )
}

/// The names of the lanes of these blocks' values.
pub(crate) fn push_block_names(
    text: &mut Vec<u8>,
    layout: &Layout,
    lanes: &[u64],
) -> Result<(), NoMemory>
    ensures value { OnOk result (text.new.items ≡ text.old.items ++ flat_map (block_name layout.now) lanes.now) }
{
    for lba in lanes {
        push_block_name(text, layout, *lba)?;
    }
    Ok(())
}

/// The names of the lanes of these slots.
pub(crate) fn push_slot_names(
    text: &mut Vec<u8>,
    layout: &Layout,
    lanes: &[u64],
) -> Result<(), NoMemory>
    ensures value { OnOk result (text.new.items ≡ text.old.items ++ flat_map (slot_name layout.now) lanes.now) }
{
    for lba in lanes {
        push_slot_name(text, layout, *lba)?;
    }
    Ok(())
}
