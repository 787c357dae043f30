//! What lies in blocks, and who holds slots and believes that it does.

ghost use Rattle.std.specs.Prelude.{◌≡◌, ◌++◌, ◌≤◌, List, OnOk, flat_map, ℕ};
ghost use Rattle.picture_svg.specs.Layout.{LayoutState};
ghost use Rattle.picture_svg.specs.Spans.{belief_svg, believed_svg, data_box, frame_of, held_frame, holder_svg};
ghost use Rattle.picture_svg.specs.Spans.{in_block_lane, in_slot_lane, name_box, name_title, now_svg, other_box};
ghost use Rattle.picture_svg.specs.Spans.{other_now, other_svg, slot_holder_svg, slot_told};
ghost use Rattle.picture_svg.specs.Spans.{span_kind_below, span_kind_class, span_kind_told, span_svg, value_block};
ghost use Rattle.picture_svg.specs.Spans.{value_rect, value_svg, value_title, zeros_class};

use crate::boxes::{Frame, push_rect};
use crate::lane_boxes::{
    host_hue, push_digits, push_hued, push_name, push_name_label, push_value_label, push_writer,
    value_hue,
};
use crate::layout::Layout;
use crate::pieces::{Piece, push_all};
use nvme_model::Name;
use picture_shapes::{Belief, BlockNow, Content, Span, SpanKind};
use std::alloc::AllocError as NoMemory;

/// What stands in a lane.
pub(crate) trait Laned {
    // its text
    ghost svg: { LayoutState → Self → List ℕ };

    /// Adds its text.
    fn push_svg(&self, text: &mut Vec<u8>, layout: &Layout) -> Result<(), NoMemory>
        ensures value { OnOk result (text.new.items ≡ text.old.items ++ svg layout.now self.now) };
}

/// Adds the text of each.
///
/// # Errors
///
/// `NoMemory` where a growth is refused.
pub(crate) fn push_each<D: Laned>(
    text: &mut Vec<u8>,
    layout: &Layout,
    shapes: &[D],
) -> Result<(), NoMemory>
    ensures value { OnOk result (text.new.items ≡ text.old.items ++ flat_map (D.svg layout.now) shapes.now) }
{
    for shape in shapes {
        shape.push_svg(text, layout)?;
    }
    Ok(())
}

// The frame of a box from one change to another.
fn frame_of(layout: &Layout, begun: u64, ended: Option<u64>, top: u64) -> Frame
    ensures value { result ≡ frame_of layout.now begun ended top }
    ensures left { result.left ≤ 880128 }
    ensures top { result.top ≡ top }
{
    let columns = layout.columns();
    Frame {
        left: columns.change(begun),
        right: columns.until(ended),
        top,
        height: 18,
    }
}

// The frame of the box of a holder.
fn held_frame(layout: &Layout, span: &Span) -> Frame
    ensures value { result ≡ held_frame layout.now span.now }
    ensures left { result.left ≤ 880128 }
    ensures top { result.top ≤ 46000100 }
{
    frame_of(
        layout,
        span.begun,
        span.ended,
        layout.slot_top(span.lba) + 3,
    )
}

// How far below the top of its lane a value stands.
fn span_kind_below(kind: SpanKind) -> u64
    ensures value { result ≡ span_kind_below kind }
    ensures bound { result ≤ 23 }
{
    match kind {
        SpanKind::Seen => 3,
        SpanKind::Medium => 23,
    }
}

// Which value of a block it is.
fn span_kind_told(kind: SpanKind) -> &'static [u8]
    ensures value { result.now ≡ span_kind_told kind }
{
    match kind {
        SpanKind::Seen => b": ",
        SpanKind::Medium => b", medium: ",
    }
}

// The class of a value.
fn span_kind_class(kind: SpanKind) -> &'static [u8]
    ensures value { result.now ≡ span_kind_class kind }
{
    match kind {
        SpanKind::Seen => b"v",
        SpanKind::Medium => b"v l",
    }
}

// The class of zeros.
fn zeros_class(kind: SpanKind) -> &'static [u8]
    ensures value { result.now ≡ zeros_class kind }
{
    match kind {
        SpanKind::Seen => b"u",
        SpanKind::Medium => b"u l",
    }
}

// The box of a value.
fn push_value_rect(
    text: &mut Vec<u8>,
    kind: SpanKind,
    content: Content,
    frame: Frame,
) -> Result<(), NoMemory>
    ensures value { OnOk result (text.new.items ≡ text.old.items ++ value_rect kind content frame) }
{
    if content.zeros {
        return push_rect(text, zeros_class(kind), frame);
    }
    push_hued(
        text,
        span_kind_class(kind),
        value_hue(content.digits),
        frame,
    )
}

// The beginning of the words of a value under the pointer.
fn push_value_block(text: &mut Vec<u8>, span: &Span) -> Result<(), NoMemory>
    ensures value { OnOk result (text.new.items ≡ text.old.items ++ value_block span.now) }
{
    push_all(
        text,
        &[
            Piece::Raw(b"<g><title>block "),
            Piece::Number(span.lba),
            Piece::Raw(span_kind_told(span.kind)),
        ],
    )
}

// The words of a value under the pointer.
fn push_value_title(text: &mut Vec<u8>, span: &Span) -> Result<(), NoMemory>
    ensures value { OnOk result (text.new.items ≡ text.old.items ++ value_title span.now) }
{
    push_value_block(text, span)?;
    push_digits(text, span.content.digits)?;
    push_writer(text, span.content.ticket)?;
    push_all(text, &[Piece::Raw(b"</title>")])?;
    Ok(())
}

// The box of a value in the lane of its block.
fn push_value(text: &mut Vec<u8>, layout: &Layout, span: &Span) -> Result<(), NoMemory>
    ensures value { OnOk result (text.new.items ≡ text.old.items ++ value_svg layout.now span.now) }
{
    let top = layout.block_top(span.lba) + span_kind_below(span.kind);
    let frame = frame_of(layout, span.begun, span.ended, top);
    push_value_title(text, span)?;
    push_value_rect(text, span.kind, span.content, frame)?;
    push_value_label(text, frame, span.content)?;
    push_all(text, &[Piece::Raw(b"</g>\n")])?;
    Ok(())
}

// The beginning of the words of a slot under the pointer.
fn push_slot(text: &mut Vec<u8>, lba: u64, said: &[u8]) -> Result<(), NoMemory>
    ensures value { OnOk result (text.new.items ≡ text.old.items ++ slot_told lba said.now) }
{
    push_all(
        text,
        &[
            Piece::Raw(b"<g><title>slot "),
            Piece::Number(lba),
            Piece::Raw(said),
        ],
    )
}

// What is said of a name in a slot, under the pointer.
fn push_name_title(text: &mut Vec<u8>, lba: u64, said: &[u8], name: Name) -> Result<(), NoMemory>
    ensures value { OnOk result (text.new.items ≡ text.old.items ++ name_title lba said.now name) }
{
    push_slot(text, lba, said)?;
    push_name(text, name)?;
    push_all(text, &[Piece::Raw(b"</title>")])?;
    Ok(())
}

// The box of a name in the lane of its slot.
fn push_name_box(text: &mut Vec<u8>, frame: Frame, name: Name) -> Result<(), NoMemory>
    requires left { frame.left ≤ 880128 }
    requires top { frame.top ≤ 46000100 }
    ensures value { OnOk result (text.new.items ≡ text.old.items ++ name_box frame name) }
{
    push_hued(text, b"v", host_hue(name.host), frame)?;
    push_name_label(text, frame, name)?;
    push_all(text, &[Piece::Raw(b"</g>\n")])?;
    Ok(())
}

// The box of a holder in the lane of its slot.
fn push_holder(text: &mut Vec<u8>, layout: &Layout, span: &Span, name: Name) -> Result<(), NoMemory>
    ensures value { OnOk result (text.new.items ≡ text.old.items ++ holder_svg layout.now span.now name) }
{
    let frame = held_frame(layout, span);
    push_name_title(text, span.lba, b": held by ", name)?;
    push_name_box(text, frame, name)?;
    Ok(())
}

// A box of bytes that are no name.
fn push_data_box(text: &mut Vec<u8>, frame: Frame, content: Content) -> Result<(), NoMemory>
    requires left { frame.left ≤ 880128 }
    requires top { frame.top ≤ 46000100 }
    ensures value { OnOk result (text.new.items ≡ text.old.items ++ data_box frame content) }
{
    push_rect(text, b"f", frame)?;
    push_value_label(text, frame, content)?;
    push_all(text, &[Piece::Raw(b"</g>\n")])?;
    Ok(())
}

// The box of bytes in a slot that are neither zeros nor a name.
fn push_other(text: &mut Vec<u8>, layout: &Layout, span: &Span) -> Result<(), NoMemory>
    ensures value { OnOk result (text.new.items ≡ text.old.items ++ other_svg layout.now span.now) }
{
    if span.content.zeros {
        return Ok(());
    }
    push_other_box(text, layout, span)
}

// The same, where they aren't zeros.
fn push_other_box(text: &mut Vec<u8>, layout: &Layout, span: &Span) -> Result<(), NoMemory>
    ensures value { OnOk result (text.new.items ≡ text.old.items ++ other_box layout.now span.now) }
{
    let frame = held_frame(layout, span);
    push_slot(text, span.lba, b": no name</title>")?;
    push_data_box(text, frame, span.content)?;
    Ok(())
}

// Who holds a slot, by what observers see of its block.
fn push_held(text: &mut Vec<u8>, layout: &Layout, span: &Span) -> Result<(), NoMemory>
    ensures value { OnOk result (text.new.items ≡ text.old.items ++ slot_holder_svg layout.now span.now span.now.kind) }
{
    match span.kind {
        SpanKind::Seen => match span.content.name {
            Some(name) => push_holder(text, layout, span, name),
            None => push_other(text, layout, span),
        },
        SpanKind::Medium => Ok(()),
    }
}

// A value in the lane of its block, where that has one.
fn push_in_block(text: &mut Vec<u8>, layout: &Layout, span: &Span) -> Result<(), NoMemory>
    ensures value { OnOk result (text.new.items ≡ text.old.items ++ in_block_lane layout.now span.now) }
{
    if !layout.has_block(span.lba) {
        return Ok(());
    }
    push_value(text, layout, span)
}

// A holder in the lane of its slot, where that has one.
fn push_in_slot(text: &mut Vec<u8>, layout: &Layout, span: &Span) -> Result<(), NoMemory>
    ensures value { OnOk result (text.new.items ≡ text.old.items ++ in_slot_lane layout.now span.now) }
{
    if !layout.has_slot(span.lba) {
        return Ok(());
    }
    push_held(text, layout, span)
}

// A value that a block had, in its lanes.
fn push_span(text: &mut Vec<u8>, layout: &Layout, span: &Span) -> Result<(), NoMemory>
    ensures value { OnOk result (text.new.items ≡ text.old.items ++ span_svg layout.now span.now) }
{
    push_in_block(text, layout, span)?;
    push_in_slot(text, layout, span)?;
    Ok(())
}

impl Laned for Span {
    ghost svg = { span_svg };

    fn push_svg(&self, text: &mut Vec<u8>, layout: &Layout) -> Result<(), NoMemory> {
        push_span(text, layout, self)
    }
}

// What lies in a block, where that is another thing than what observers see.
fn push_other_now(text: &mut Vec<u8>, layout: &Layout, block: &BlockNow) -> Result<(), NoMemory>
    ensures value { OnOk result (text.new.items ≡ text.old.items ++ other_now layout.now block.now) }
{
    let span = block.medium_span(None);
    if block.differs() {
        push_span(text, layout, &span)?;
    }
    Ok(())
}

// The value that a block has at the end.
fn push_now(text: &mut Vec<u8>, layout: &Layout, block: &BlockNow) -> Result<(), NoMemory>
    ensures value { OnOk result (text.new.items ≡ text.old.items ++ now_svg layout.now block.now) }
{
    let span = block.seen_span(None);
    push_span(text, layout, &span)?;
    push_other_now(text, layout, block)?;
    Ok(())
}

impl Laned for BlockNow {
    ghost svg = { now_svg };

    fn push_svg(&self, text: &mut Vec<u8>, layout: &Layout) -> Result<(), NoMemory> {
        push_now(text, layout, self)
    }
}

// The box of a belief in the lane of its slot.
fn push_believed(text: &mut Vec<u8>, layout: &Layout, belief: &Belief) -> Result<(), NoMemory>
    ensures value { OnOk result (text.new.items ≡ text.old.items ++ believed_svg layout.now belief.now) }
{
    let slot = belief.slot;
    let frame = frame_of(
        layout,
        belief.begun,
        belief.ended,
        layout.slot_top(slot.lba) + 23,
    );
    push_name_title(text, slot.lba, b": believed to be held by ", slot.name)?;
    push_name_box(text, frame, slot.name)?;
    Ok(())
}

impl Laned for Belief {
    ghost svg = { belief_svg };

    fn push_svg(&self, text: &mut Vec<u8>, layout: &Layout) -> Result<(), NoMemory> {
        if !layout.has_slot(self.slot.lba) {
            return Ok(());
        }
        push_believed(text, layout, self)
    }
}
