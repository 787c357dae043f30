//! The entries of a call, made and taken apart.

ghost use Rattle.std.specs.Prelude.{[], length, map, vec_capacity, ℕ, ◌≡◌, ◌≤◌, IfOk};
ghost use Rattle.nvme_model.specs.declared.operation.Op.{Op};
ghost use Rattle.nvme_model.specs.Operations.{command_count};
ghost use Rattle.entry_codec.specs.Fuse.{fuse_number};
ghost use Rattle.driver_calls.specs.Entries.{IsBatch, IsCommand, first_opcode, payloads_of};
ghost use Rattle.driver_calls.specs.declared.request.CallData.{CallData};

use crate::request::{CallData, Request};
use entry_codec::{Fuse, Sqe, encode_sqe, opcode};
use nvme_model::operation::Op;
use nvme_model::submission::{Payload, Submission, Submissions};
use std::alloc::{AllocError as NoMemory, Global};

/// Room for the entries of a call of this operation, none of which is there.
///
/// # Errors
///
/// `NoMemory` alone.
pub fn room_for(alloc: Global, op: Op) -> Result<Vec<Submission>, NoMemory>
    ensures empty { IfOk result (λ room. room.items ≡ []) }
    ensures capacity { IfOk result (λ room. command_count op ≤ vec_capacity room) }
{
    Vec::with_capacity(alloc, if op == Op::Pair { 2 } else { 1 })
}

// Its opcode, of a pair that of its first command.
fn opcode_of(op: Op) -> u8
    ensures value { result ≡ first_opcode op }
{
    match op {
        Op::Read => opcode::READ,
        Op::Compare | Op::Pair => opcode::COMPARE,
        Op::Write => opcode::WRITE,
        Op::WriteZeroes => opcode::WRITE_ZEROES,
    }
}

// The entry of a command, with its data.
fn entry_of(opcode: u8, fuse: Fuse, cid: u16, request: Request, payload: Payload) -> Submission
    requires some { 1 ≤ request.blocks }
    requires most { request.blocks ≤ 65536 }
    ensures is { IsCommand result opcode (fuse_number fuse) cid request.slba request.blocks payload }
{
    let nlb = (request.blocks - 1) as u16;
    Submission {
        entry: encode_sqe(&Sqe::command(opcode, fuse, cid, request.slba, nlb)),
        payload,
    }
}

/// The entries of a call, in the room that is given: of a fused pair two, with the CIDs `first` and `second`, of any
/// other operation one, with the CID `first`. Takes no memory.
#[tactic(auto, using(crate::proofs::Calls::one_made, crate::proofs::Calls::two_made))]
pub fn batch_of(
    request: Request,
    first: u16,
    second: u16,
    contents: CallData,
    room: Vec<Submission>,
) -> Submissions
    requires some { 1 ≤ request.blocks }
    requires most { request.blocks ≤ 65536 }
    requires contents { length (payloads_of contents) ≡ command_count request.op }
    requires empty { room.items ≡ [] }
    requires capacity { command_count request.op ≤ vec_capacity room }
    ensures is { IsBatch request.op request.slba request.blocks first second contents result }
{
    let mut room = room;
    match contents {
        CallData::One(payload) => {
            let opcode = opcode_of(request.op);
            room.push_reserved(entry_of(opcode, Fuse::Normal, first, request, payload));
            Submissions::new(room)
        }
        CallData::Two(expected, desired) => {
            room.push_reserved(entry_of(opcode::COMPARE, Fuse::First, first, request, expected));
            room.push_reserved(entry_of(opcode::WRITE, Fuse::Second, second, request, desired));
            Submissions::new(room)
        }
    }
}

/// The data of a call, and the room of its entries, out of the entries that a port handed back, so that they can be
/// made again. Takes no memory.
pub fn taken_back(batch: Submissions) -> (CallData, Vec<Submission>)
    requires some { 1 ≤ length batch }
    requires most { length batch ≤ 2 }
    ensures contents { payloads_of result.0 ≡ map (λ s. s.payload) batch }
    ensures again { (o : Op) (slba blocks first second : ℕ) (contents : CallData) →
        IsBatch o slba blocks first second contents batch → result.0 ≡ contents }
    ensures empty { result.1.items ≡ [] }
    ensures capacity { length batch ≤ vec_capacity result.1 }
{
    let mut room = batch.into_vec();
    let last = room.pop().unwrap();
    let Submission {
        entry: _,
        payload: last,
    } = last;
    match room.pop() {
        None => (CallData::One(last), room),
        Some(one) => {
            let Submission { entry: _, payload } = one;
            (CallData::Two(payload, last), room)
        }
    }
}
