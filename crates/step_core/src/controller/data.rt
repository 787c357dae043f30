//! The memory of a ticket's data, made before its entries are taken.

ghost use Rattle.std.specs.Prelude.{◌≡◌, ◌≤◌, ◌<◌, ◌*◌, IfOk, OnErr, Some, length, true};
ghost use Rattle.block_array.specs.Blocks.{contents_of};
ghost use Rattle.block_exec.specs.Bytes.{first_blocks};
ghost use Rattle.fused_match.specs.Judged.{operation_in};
ghost use Rattle.nvme_model.specs.declared.operation.Op.{Op as Operation};
ghost use Rattle.job_table.specs.Beginning.{HasBlocks, payload_at, read_first, write_first};
ghost use Rattle.controller_interface.specs.State.{needs_data};

use crate::spare_boxes::SpareBoxes;
use block_array::BLOCK;
use fused_match::Judged;
use nvme_model::operation::Op;
use nvme_model::submission::Payload;
use rings::SqRing;
use std::alloc::{AllocError as NoMemory, Global};

/// The blocks that a ticket will write from its data, one a box, and zeros for what a Read will read.
#[derive(Drop)]
pub(crate) struct DataRoom {
    pub(crate) write: Vec<Box<[u8; 512]>>,
    pub(crate) read: Payload,
}

/// The room for the data of a ticket that was judged so, whose entries are at the front of this ring.
pub(super) fn data_room(
    alloc: Global,
    spare: &mut SpareBoxes,
    ring: &SqRing,
    judged: &Judged,
) -> Result<DataRoom, NoMemory>
    requires has { HasBlocks judged.now ring.now.waiting }
    ensures write { IfOk result (λ room. contents_of room.write.items ≡ write_first judged.now ring.now.waiting) }
    ensures read { IfOk result (λ room. room.read ≡ read_first judged.now) }
    ensures wants { OnErr result (needs_data (operation_in judged.now) ≡ true) }
{
    let write = write_boxes(alloc, spare, ring, judged)?;
    let read = read_buffer(alloc, judged)?;
    Ok(DataRoom { write, read })
}

// Boxes with what a Write or a pair will write; none for anything else.
// The boxes are made before the entries are taken, so a refusal leaves all as it was.
fn write_boxes(
    alloc: Global,
    spare: &mut SpareBoxes,
    ring: &SqRing,
    judged: &Judged,
) -> Result<Vec<Box<[u8; 512]>>, NoMemory>
    requires has { HasBlocks judged.now ring.now.waiting }
    ensures value { IfOk result (λ boxes. contents_of boxes.items ≡ write_first judged.now ring.now.waiting) }
    ensures wants { OnErr result (needs_data (operation_in judged.now) ≡ true) }
{
    match judged {
        Judged::Single(Op::Write, range) => boxed(alloc, spare, range.blocks, payload_at(ring, 0)),
        Judged::Pair(range) => boxed(alloc, spare, range.blocks, payload_at(ring, 1)),
        Judged::Single(Op::Read | Op::Compare | Op::WriteZeroes | Op::Pair, _)
        | Judged::Flush
        | Judged::SingleFailed(_)
        | Judged::PairFailed(_, _) => Ok(Vec::new(alloc)),
    }
}

// The data beside the entry at this place of a ring.
fn payload_at(ring: &SqRing, place: usize) -> &[u8]
    requires within { place < length ring.now.waiting }
    ensures value { result.now ≡ payload_at ring.now.waiting place }
{
    ring.peek(place).unwrap().payload.as_slice()
}

// The first blocks of these bytes, each in a box.
fn boxed(
    alloc: Global,
    spare: &mut SpareBoxes,
    count: u32,
    payload: &[u8],
) -> Result<Vec<Box<[u8; 512]>>, NoMemory>
    requires enough { 512 * count ≤ length payload.now }
    ensures value { IfOk result (λ boxes. contents_of boxes.items ≡ first_blocks count payload.now) }
{
    let mut boxes = Vec::with_capacity(alloc, count as usize)?;
    for place in 0..count {
        let start = BLOCK * place as usize;
        let mut block = spare.take(alloc)?;
        block.copy_from_slice(&payload[start..start + BLOCK]);
        boxes.push(block)?;
    }
    Ok(boxes)
}

// Zeros for what a Read will read; nothing for anything else.
fn read_buffer(alloc: Global, judged: &Judged) -> Result<Payload, NoMemory>
    ensures value { IfOk result (λ read. read ≡ read_first judged.now) }
    ensures wants { OnErr result (operation_in judged.now ≡ Some Operation.Read) }
{
    match judged {
        Judged::Single(Op::Read, range) => {
            let bytes = 512 * range.blocks as usize;
            let mut buffer = Vec::with_capacity(alloc, bytes)?;
            buffer.resize(bytes, 0)?;
            Ok(Payload::new(buffer))
        }
        Judged::Single(Op::Compare | Op::Write | Op::WriteZeroes | Op::Pair, _)
        | Judged::Flush
        | Judged::Pair(_)
        | Judged::SingleFailed(_)
        | Judged::PairFailed(_, _) => Ok(Payload::new(Vec::new(alloc))),
    }
}
