//! Entries by the layout of the standards.

ghost use Rattle.std.specs.Prelude.{IfOk, length, ◌≡◌, ◌≤◌};
ghost use Rattle.driver_calls.specs.Entries.{payloads_of};
ghost use Rattle.nvme_model.specs.Operations.{command_count};

use driver_calls::{CallData, Request, batch_of, room_for, taken_back};
use nvme_model::operation::Op;
use nvme_model::submission::{Payload, Submissions};
use std::alloc::{AllocError as NoMemory, Global};
use std::test::Fail;

/// A Read of blocks 0102030405060708h and the 255 behind it, with the CID 1234h.
const READ: [u8; 64] = [
    0x02, 0x00, 0x34, 0x12, 0x01, 0, 0, 0, 0, 0, 0, 0, 0, 0, 0, 0, 0, 0, 0, 0, 0, 0, 0, 0, 0, 0, 0,
    0, 0, 0, 0, 0, 0, 0, 0, 0, 0, 0, 0, 0, 0x08, 0x07, 0x06, 0x05, 0x04, 0x03, 0x02, 0x01, 0xff, 0,
    0, 0, 0, 0, 0, 0, 0, 0, 0, 0, 0, 0, 0, 0,
];

/// A Compare, first of a fused pair, of block 7, with the CID 1234h.
const FIRST: [u8; 64] = [
    0x05, 0x01, 0x34, 0x12, 0x01, 0, 0, 0, 0, 0, 0, 0, 0, 0, 0, 0, 0, 0, 0, 0, 0, 0, 0, 0, 0, 0, 0,
    0, 0, 0, 0, 0, 0, 0, 0, 0, 0, 0, 0, 0, 0x07, 0, 0, 0, 0, 0, 0, 0, 0x00, 0, 0, 0, 0, 0, 0, 0, 0,
    0, 0, 0, 0, 0, 0, 0,
];

/// A Write, second of a fused pair, of block 7, with the CID 5678h.
const SECOND: [u8; 64] = [
    0x01, 0x02, 0x78, 0x56, 0x01, 0, 0, 0, 0, 0, 0, 0, 0, 0, 0, 0, 0, 0, 0, 0, 0, 0, 0, 0, 0, 0, 0,
    0, 0, 0, 0, 0, 0, 0, 0, 0, 0, 0, 0, 0, 0x07, 0, 0, 0, 0, 0, 0, 0, 0x00, 0, 0, 0, 0, 0, 0, 0, 0,
    0, 0, 0, 0, 0, 0, 0,
];

// The entries of a call with the CIDs 1234h and 5678h.
#[tactic(auto, using(driver_calls::proofs::Calls::call_count))]
fn made(alloc: Global, request: Request, contents: CallData) -> Result<Submissions, NoMemory>
    requires some { 1 ≤ request.blocks }
    requires most { request.blocks ≤ 65536 }
    requires contents { length (payloads_of contents) ≡ command_count request.op }
    ensures count { IfOk result (λ batch. length batch ≡ command_count request.op) }
{
    let room = room_for(alloc, request.op)?;
    Ok(batch_of(request, 0x1234, 0x5678, contents, room))
}

// Of one entry CDW0, the lowest byte of NSID, the bytes 40, 44 and 47 of SLBA, and NLB; and how long its data is.
fn told(batch: &Submissions) -> ([u8; 8], [u8; 2], usize) {
    let [one] = batch.as_slice() else {
        return ([0xee; 8], [0xee; 2], 0);
    };
    let e = one.entry;
    (
        [e[0], e[1], e[2], e[3], e[4], e[40], e[44], e[47]],
        [e[48], e[49]],
        one.payload.as_slice().len(),
    )
}

#[test]
fn a_read(rt: HostRuntime) -> Result<(), Fail> {
    let request = Request {
        op: Op::Read,
        slba: 0x0102_0304_0506_0708,
        blocks: 256,
    };
    let contents = CallData::One(Payload::copy_of(rt.alloc(), &[])?);
    let batch = made(rt.alloc(), request, contents)?;
    assert_eq!(rt; batch.as_slice().len(), 1);
    assert_eq!(rt; batch.as_slice()[0].entry, READ);
    Ok(())
}

#[test]
fn commands_by_themselves(rt: HostRuntime) -> Result<(), Fail> {
    let bytes = [9, 8, 7];
    let empty = CallData::One(Payload::copy_of(rt.alloc(), &[])?);
    let compared = CallData::One(Payload::copy_of(rt.alloc(), &bytes)?);
    let written = CallData::One(Payload::copy_of(rt.alloc(), &bytes)?);
    let compare = Request {
        op: Op::Compare,
        slba: 0x8000_0000_0000_0001,
        blocks: 2,
    };
    let write = Request {
        op: Op::Write,
        slba: 0xff,
        blocks: 2,
    };
    let zeroes = Request {
        op: Op::WriteZeroes,
        slba: 0x1_0000_0000,
        blocks: 65_536,
    };
    assert_eq!(rt;
        told(&made(rt.alloc(), compare, compared)?),
        (
            [0x05, 0x00, 0x34, 0x12, 0x01, 0x01, 0x00, 0x80],
            [0x01, 0x00],
            3
        )
    );
    assert_eq!(rt;
        told(&made(rt.alloc(), write, written)?),
        (
            [0x01, 0x00, 0x34, 0x12, 0x01, 0xff, 0x00, 0x00],
            [0x01, 0x00],
            3
        )
    );
    assert_eq!(rt;
        told(&made(rt.alloc(), zeroes, empty)?),
        (
            [0x08, 0x00, 0x34, 0x12, 0x01, 0x00, 0x01, 0x00],
            [0xff, 0xff],
            0
        )
    );
    Ok(())
}

/// A swap of block 7.
const SWAP: Request = Request {
    op: Op::Pair,
    slba: 7,
    blocks: 1,
};

// Its entries.
fn swap(alloc: Global) -> Result<Submissions, NoMemory>
    ensures two { IfOk result (λ batch. length batch ≡ 2) }
{
    let expected = Payload::copy_of(alloc, &[3, 4])?;
    let desired = Payload::copy_of(alloc, &[5, 6])?;
    made(alloc, SWAP, CallData::Two(expected, desired))
}

#[test]
fn a_pair(rt: HostRuntime) -> Result<(), Fail> {
    let batch = swap(rt.alloc())?;
    let entries = batch.as_slice();
    assert_eq!(rt; entries[0].entry, FIRST);
    assert_eq!(rt; entries[1].entry, SECOND);
    assert_eq!(rt; entries[0].payload.as_slice(), [3, 4].as_slice());
    assert_eq!(rt; entries[1].payload.as_slice(), [5, 6].as_slice());
    Ok(())
}

#[test]
fn a_pair_made_again(rt: HostRuntime) -> Result<(), Fail> {
    let (contents, room) = taken_back(swap(rt.alloc())?);
    let again = batch_of(SWAP, 0x00ff, 0xff00, contents, room);
    let entries = again.as_slice();
    let (first, second) = (entries[0].entry, entries[1].entry);
    assert_eq!(rt; [first[2], first[3]], [0xff, 0x00]);
    assert_eq!(rt; [second[2], second[3]], [0x00, 0xff]);
    assert_eq!(rt; entries[0].payload.as_slice(), [3, 4].as_slice());
    assert_eq!(rt; entries[1].payload.as_slice(), [5, 6].as_slice());
    Ok(())
}
