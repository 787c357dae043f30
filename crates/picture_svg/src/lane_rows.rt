//! The text of all lanes of blocks and of slots.

ghost use Rattle.std.specs.Prelude.{◌≡◌, ◌++◌, OnOk};
ghost use Rattle.picture_svg.specs.LaneRows.{blocks_svg, ended_beliefs_svg, lane_names_svg, lanes_svg, lanes_text};
ghost use Rattle.picture_svg.specs.LaneRows.{lasting_svg, spans_svg};
ghost use Rattle.picture_svg.specs.declared.lane_style.TheConstants.{LANE_STYLE};

use crate::lane_style::{LANE_STYLE, lane_style};
use crate::layout::Layout;
use crate::slot_holders::{push_block_names, push_slot_names};
use crate::spans::push_each;
use picture_shapes::Lanes;
use std::alloc::AllocError as NoMemory;

// How the lanes look.
fn push_style(text: &mut Vec<u8>) -> Result<(), NoMemory>
    ensures value { OnOk result (text.new.items ≡ text.old.items ++ LANE_STYLE.now) }
{
    text.extend_from_slice(lane_style())
}

// What lay in blocks, and who held slots.
fn push_spans(text: &mut Vec<u8>, layout: &Layout, lanes: &Lanes) -> Result<(), NoMemory>
    ensures value { OnOk result (text.new.items ≡ text.old.items ++ spans_svg layout.now lanes.now) }
{
    push_each(text, layout, lanes.blocks().spans())
}

// What lies in blocks at the end, and who holds slots.
fn push_blocks(text: &mut Vec<u8>, layout: &Layout, lanes: &Lanes) -> Result<(), NoMemory>
    ensures value { OnOk result (text.new.items ≡ text.old.items ++ blocks_svg layout.now lanes.now) }
{
    push_each(text, layout, lanes.blocks().now())
}

// Who believed that it holds a slot.
fn push_done(text: &mut Vec<u8>, layout: &Layout, lanes: &Lanes) -> Result<(), NoMemory>
    ensures value { OnOk result (text.new.items ≡ text.old.items ++ ended_beliefs_svg layout.now lanes.now) }
{
    push_each(text, layout, lanes.beliefs().done())
}

// Who believes it at the end.
fn push_lasting(text: &mut Vec<u8>, layout: &Layout, lanes: &Lanes) -> Result<(), NoMemory>
    ensures value { OnOk result (text.new.items ≡ text.old.items ++ lasting_svg layout.now lanes.now) }
{
    push_each(text, layout, lanes.beliefs().lasting())
}

// The names of all lanes.
fn push_names(text: &mut Vec<u8>, layout: &Layout) -> Result<(), NoMemory>
    ensures value { OnOk result (text.new.items ≡ text.old.items ++ lane_names_svg layout.now) }
{
    push_block_names(text, layout, layout.blocks())?;
    push_slot_names(text, layout, layout.slots())?;
    Ok(())
}

// The text of the lanes, where some are shown.
fn push_text(text: &mut Vec<u8>, layout: &Layout, lanes: &Lanes) -> Result<(), NoMemory>
    ensures value { OnOk result (text.new.items ≡ text.old.items ++ lanes_text layout.now lanes.now) }
{
    push_style(text)?;
    push_names(text, layout)?;
    push_spans(text, layout, lanes)?;
    push_blocks(text, layout, lanes)?;
    push_done(text, layout, lanes)?;
    push_lasting(text, layout, lanes)?;
    Ok(())
}

/// Adds the text of the lanes of a picture; where none is shown it adds nothing.
///
/// # Errors
///
/// `NoMemory` where a growth is refused.
pub fn push_lanes(text: &mut Vec<u8>, layout: &Layout, lanes: &Lanes) -> Result<(), NoMemory>
    ensures value { OnOk result (text.new.items ≡ text.old.items ++ lanes_svg layout.now lanes.now) }
{
    if !lanes.shown().any() {
        return Ok(());
    }
    push_text(text, layout, lanes)
}
