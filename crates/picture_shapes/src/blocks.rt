//! The blocks that were touched, with what lay in them.

ghost use Rattle.std.specs.Prelude.{◌≡◌, ◌++◌, ◌<◌, IfOk, OnOk, length, option_map};
ghost use Rattle.picture_shapes.specs.Blocks.{block_index, block_marked, block_touched, block_written};
ghost use Rattle.picture_shapes.specs.Blocks.{blocks_after_block};
ghost use Rattle.picture_shapes.specs.Blocks.{effect_made, medium_span, no_blocks, seen_span, span_if};
ghost use Rattle.picture_shapes.specs.Blocks.{unit_marked, with_block, write_made};

use crate::block::{BlockNow, Span, SpanKind, block_place, fresh_block, is_effect, says_written};
use crate::content::Content;
use crate::lane_entry::LaneEntry;
use nvme_model::entry::BlockLine;
use std::alloc::{AllocError as NoMemory, Global};
use std::marker::Model;

/// What each block is now that was touched, in the order in which they first were; and what they were before.
#[derive(Drop)]
pub struct Blocks {
    blocks: Vec<BlockNow>,
    spans: Vec<Span>,
}

impl Model for Blocks {
    ghost use Rattle.picture_shapes.specs.Blocks.{BlocksState};

    ghost Value = { BlocksState };

    ghost view = { λ s. record { blocks = s.blocks.items; spans = s.spans.items } };
}

// The index of a block, which is added where it isn't there.
fn index_of(blocks: &mut Vec<BlockNow>, lba: u64) -> Result<usize, NoMemory>
    ensures index { IfOk result (λ i. i ≡ block_index lba blocks.old.items) }
    ensures bound { IfOk result (λ i. i < length blocks.new.items) }
    ensures blocks { OnOk result (blocks.new.items ≡ with_block lba blocks.old.items) }
{
    match block_place(blocks.as_slice(), lba) {
        Some(i) => Ok(i),
        None => {
            let i = blocks.len();
            blocks.push(fresh_block(lba))?;
            Ok(i)
        }
    }
}

// Adds what a block was, where that is shown.
fn push_span(
    spans: &mut Vec<Span>,
    shown: bool,
    lba: u64,
    kind: SpanKind,
    content: Content,
    begun: u64,
    ended: Option<u64>,
) -> Result<(), NoMemory>
    ensures value { OnOk result (spans.new.items ≡ spans.old.items ++ span_if shown
        (record { lba = lba; kind = kind; content = content; begun = begun; ended = ended })) }
{
    if shown {
        spans.push(Span {
            lba,
            kind,
            content,
            begun,
            ended,
        })?;
    }
    Ok(())
}

// Adds what observers saw of a block up to this place, where that is shown.
fn push_seen(
    spans: &mut Vec<Span>,
    shown: bool,
    ended: Option<u64>,
    block: &BlockNow,
) -> Result<(), NoMemory>
    ensures value { OnOk result
        (spans.new.items ≡ spans.old.items ++ span_if shown (seen_span ended block.now)) }
{
    push_span(
        spans,
        shown,
        block.lba,
        SpanKind::Seen,
        block.seen,
        block.seen_since,
        ended,
    )
}

// Adds what lay in a block up to this place, where that is shown.
fn push_medium(
    spans: &mut Vec<Span>,
    shown: bool,
    ended: Option<u64>,
    block: &BlockNow,
) -> Result<(), NoMemory>
    ensures value { OnOk result
        (spans.new.items ≡ spans.old.items ++ span_if shown (medium_span ended block.now)) }
{
    push_span(
        spans,
        shown,
        block.lba,
        SpanKind::Medium,
        block.medium,
        block.medium_since,
        ended,
    )
}

impl Blocks {
    /// None.
    pub(crate) fn new(alloc: Global) -> Blocks
        ensures none { result ≡ no_blocks }
    {
        Blocks {
            blocks: Vec::new(alloc),
            spans: Vec::new(alloc),
        }
    }

    // A step touches a block.
    fn touch(&mut self, from: u64, place: u64, lba: u64) -> Result<(), NoMemory>
        ensures value { OnOk result (self.new ≡ block_touched from place lba self.old) }
    {
        let i = index_of(&mut self.blocks, lba)?;
        self.blocks[i].touch(from, place);
        Ok(())
    }

    // At the mark of a unit observers see its value of a block.
    fn mark(&mut self, from: u64, place: u64, lba: u64, content: Content) -> Result<(), NoMemory>
        ensures value { OnOk result (self.new ≡ block_marked from place lba content self.old) }
    {
        let i = index_of(&mut self.blocks, lba)?;
        let here = from <= place;
        let other = here && self.blocks[i].differed(place);
        push_seen(&mut self.spans, here, Some(place), &self.blocks[i])?;
        push_medium(&mut self.spans, other, Some(place), &self.blocks[i])?;
        self.blocks[i].mark(from, place, content);
        Ok(())
    }

    // A unit takes effect, on all its blocks at once.
    fn mark_unit(
        &mut self,
        from: u64,
        place: u64,
        lane_entry: &LaneEntry,
        ticket: u64,
    ) -> Result<(), NoMemory>
        ensures value { OnOk result (self.new ≡ unit_marked from place lane_entry.now ticket self.old) }
    {
        let first = lane_entry.unit.slba.min(65_536);
        for i in 0..lane_entry.unit.blocks {
            let lba = first + u64::from(i);
            self.mark(from, place, lba, lane_entry.content_at(ticket, lba))?;
        }
        Ok(())
    }

    // A Block writes its block.
    fn write(&mut self, from: u64, place: u64, lba: u64, content: Content) -> Result<(), NoMemory>
        ensures value { OnOk result (self.new ≡ block_written from place lba content self.old) }
    {
        let i = index_of(&mut self.blocks, lba)?;
        let other = from <= place && self.blocks[i].differed(place);
        push_medium(&mut self.spans, other, Some(place), &self.blocks[i])?;
        self.blocks[i].write(from, place, content);
        Ok(())
    }

    // The effect of a unit, where this is its Block.
    fn make_effect(
        &mut self,
        from: u64,
        place: u64,
        line: &BlockLine,
        lane_entry: &LaneEntry,
    ) -> Result<(), NoMemory>
        ensures value { OnOk result (self.new ≡ effect_made from place line.now lane_entry.now self.old) }
    {
        if !is_effect(line) {
            return Ok(());
        }
        self.mark_unit(from, place, lane_entry, line.ticket)
    }

    // What is written, where something is.
    fn make_write(
        &mut self,
        from: u64,
        place: u64,
        line: &BlockLine,
        lane_entry: &LaneEntry,
    ) -> Result<(), NoMemory>
        ensures value { OnOk result (self.new ≡ write_made from place line.now lane_entry.now self.old) }
    {
        if !says_written(line.found) {
            return Ok(());
        }
        let content = lane_entry.content_at(line.ticket, line.lba);
        self.write(from, place, line.lba, content)
    }

    /// A Block is made, of a ticket whose entry that writes is this.
    pub(crate) fn make(
        &mut self,
        from: u64,
        place: u64,
        line: &BlockLine,
        writer: Option<&LaneEntry>,
    ) -> Result<(), NoMemory>
        ensures value { OnOk result
            (self.new ≡ blocks_after_block from place line.now (option_map (λ x. x.now) writer.entry) self.old) }
    {
        self.touch(from, place, line.lba)?;
        let Some(lane_entry) = writer else {
            return Ok(());
        };
        self.make_effect(from, place, line, lane_entry)?;
        self.make_write(from, place, line, lane_entry)?;
        Ok(())
    }

    /// What each block is now that was touched.
    pub fn now(&self) -> &[BlockNow]
        ensures { result.now ≡ self.now.blocks }
    {
        self.blocks.as_slice()
    }

    /// What lay in blocks, up to a step that is drawn.
    pub fn spans(&self) -> &[Span]
        ensures { result.now ≡ self.now.spans }
    {
        self.spans.as_slice()
    }
}
