//! Files of entries that are drawn.

ghost use Rattle.std.specs.Prelude.{◌≡◌};
ghost use Rattle.picture_svg.specs.Drawing.{DrawsText, WritesDrawn, WritesPicture};
ghost use Rattle.picture_svg.specs.Drawn.{has_step};

use crate::drawer::{DrawOptions, Drawer, MOST_STEPS};
use crate::fault::DrawFault;
use crate::page::picture_text;
use crate::reading::{read_drawing, steps_of};
use casdisk_texts::RunFault;
use line_text::send;
use picture_shapes::Picture;
use std::alloc::Global;
use std::io::{Read, Write};

// Writes a picture, and gives this answer.
fn write_picture<W: Write>(
    alloc: Global,
    picture: &Picture,
    answer: bool,
    writer: &mut W,
) -> Result<bool, DrawFault>
    ensures writes { WritesPicture picture.now answer result (W.contents writer.old) (W.contents writer.new) }
{
    let Ok(text) = picture_text(alloc, picture) else {
        return Err(DrawFault::Run(RunFault::NoMemory));
    };
    match send(writer, text.as_slice()) {
        Ok(()) => Ok(answer),
        Err(_) => Err(DrawFault::Run(RunFault::Output)),
    }
}

// Whether a picture may begin with this step, where this is the last that there is.
fn has_step(from: u64, last: u64) -> bool
    ensures value { result ≡ has_step from last }
{
    from <= 1 || from <= last
}

// Writes what was drawn, where there are steps, and not too many, and says whether the history is legal.
fn write_drawn<W: Write>(
    alloc: Global,
    options: &DrawOptions,
    drawer: &Drawer,
    writer: &mut W,
) -> Result<bool, DrawFault>
    ensures writes { WritesDrawn options.now drawer.now.judge.bad.place drawer.now.judge.count drawer.now.picture result
        (W.contents writer.old) (W.contents writer.new) }
{
    let bad = drawer.judge.bad.place;
    let last = bad.unwrap_or(drawer.judge.count);
    if !has_step(options.from, last) {
        return Err(DrawFault::NoStep(options.from, last));
    }
    let steps = steps_of(options, bad, drawer.judge.count);
    if steps > MOST_STEPS {
        return Err(DrawFault::TooLong(steps));
    }
    write_picture(alloc, &drawer.picture, bad.is_none(), writer)
}

/// Reads a configuration line and the lines of a history to the reader's end, and then writes the picture of its steps
/// from one place to another, up to and with the first bad one, as SVG. What is open before the first of them is drawn
/// open. Answers whether the history is legal.
///
/// # Errors
///
/// `NoSlots` where there is an area of slots without a block, before anything is read; `Beyond` with the blocks of the
/// volume, where the area goes beyond it, as soon as the configuration line is read; `NoStep` with the place of the
/// first step to draw, where that isn't 1, and of the last that there is, which is before it; `TooLong` with the number
/// of steps, where there are more than 10,000 to draw; `Run` with the faults of `check_text`. But for `Run(Output)`,
/// which comes after a beginning of the text, nothing was written.
pub fn draw_text<R: Read, W: Write>(
    alloc: Global,
    options: &DrawOptions,
    reader: &mut R,
    writer: &mut W,
) -> Result<bool, DrawFault>
    ensures draws { DrawsText options.now result (R.remaining reader.old) (R.remaining reader.new)
        (W.contents writer.old) (W.contents writer.new) }
{
    match read_drawing(alloc, options, reader) {
        Ok(drawer) => write_drawn(alloc, options, &drawer, writer),
        Err(fault) => Err(fault),
    }
}
