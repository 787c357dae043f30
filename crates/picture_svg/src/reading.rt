//! The text of a history, judged and drawn.

ghost use Rattle.std.specs.Prelude.{◌≡◌, IfErr, IfOk, IfSome, OnOk, false, unwrap_or};
ghost use Rattle.std.specs.Io.KnownBytes.{IsAtEnd};
ghost use Rattle.casdisk_texts.specs.Files.{HasHistory};
ghost use Rattle.picture_svg.specs.Drawing.{IsUndrawn};
ghost use Rattle.picture_svg.specs.Drawn.{HasDrawing, has_no_slot, is_within, steps_to};

use crate::drawer::{DrawOptions, Drawer, steps_to};
use crate::fault::DrawFault;
use casdisk_texts::{HistoryLines, RunFault};
use nvme_model::array::Range;
use std::alloc::Global;
use std::io::Read;

// How many steps are to be drawn of so many, of which this is the first bad one.
pub(crate) fn steps_of(options: &DrawOptions, bad: Option<u64>, count: u64) -> u64
    ensures value { result ≡ steps_to options.now.from options.now.to (unwrap_or bad count) }
{
    steps_to(options, bad.unwrap_or(count))
}

// Whether the blocks of an area are blocks of the volume, where there is an area.
fn is_within(slots: Option<Range>, blocks: u32) -> bool
    ensures value { result ≡ is_within slots blocks }
{
    match slots {
        Some(slots) => u128::from(slots.slba) + u128::from(slots.blocks) <= u128::from(blocks),
        None => true,
    }
}

// Whether there is an area that has no block.
fn has_no_slot(options: &DrawOptions) -> bool
    ensures value { result ≡ has_no_slot options.now.aspect.lanes.slots }
{
    match options.aspect.lanes.slots {
        Some(slots) => slots.blocks == 0,
        None => false,
    }
}

// Reads a configuration line and the lines of a history to the reader's end, and draws the history.
pub(crate) fn read_drawing<R: Read>(
    alloc: Global,
    options: &DrawOptions,
    reader: &mut R,
) -> Result<Drawer, DrawFault>
    ensures whole { IfOk result (λ d. IsAtEnd (R.remaining reader.new) × IfSome (R.remaining reader.old)
        (HasHistory (λ c past. HasDrawing c options.now past d.judge.bad.place d.judge.count d.picture))) }
    ensures slots { OnOk result (has_no_slot options.now.aspect.lanes.slots ≡ false) }
    ensures unread { IfErr result
        (λ fault. IsUndrawn options.now fault (R.remaining reader.old) (R.remaining reader.new)) }
{
    if has_no_slot(options) {
        return Err(DrawFault::NoSlots);
    }
    let mut lines = match HistoryLines::begin(alloc, reader) {
        Ok(lines) => lines,
        Err(fault) => return Err(DrawFault::Run(fault)),
    };
    let blocks = lines.config.numbers().blocks;
    if !is_within(options.aspect.lanes.slots, blocks) {
        return Err(DrawFault::Beyond(blocks));
    }
    let Ok(mut drawer) = Drawer::new(alloc, &lines.config, options) else {
        return Err(DrawFault::Run(RunFault::NoMemory));
    };
    match lines.take_entries(&mut drawer, reader) {
        Ok(()) => Ok(drawer),
        Err(fault) => Err(DrawFault::Run(fault)),
    }
}
