//! Starting a call.

ghost use Rattle.std.specs.Prelude.{[], ◌*◌, ◌+◌, ◌≡◌, ◌≤◌, All, false, length, true};
ghost use Rattle.driver_cas.specs.Cids.{queues_of};
ghost use Rattle.driver_calls.specs.declared.request.CallData.{CallData};
ghost use Rattle.nvme_model.specs.Array.{overlap as overlap_of};
ghost use Rattle.nvme_model.specs.Operations.{command_count, has_write};
ghost use Rattle.nvme_model.specs.declared.operation.Op.{Op};
ghost use Rattle.std.specs.Prelude.{Some};
ghost use Rattle.driver_cas.specs.Drivers.{IsSameDriver};
ghost use Rattle.driver_cas.specs.Requests.{IsStart, pair_request_of, request_of};
ghost use Rattle.driver_cas.specs.Tries.{IsTryBegun};
ghost use Rattle.driver_cas.specs.Turns.{HasEnough, HasTooFew};

use crate::call::Call;
use crate::driver::Driver;
use crate::fault::Fault;
use crate::port::Port;
use crate::start::free_cids;
use block_array::BLOCK;
use driver_calls::{CallData, Request, room_for};
use nvme_model::array::Range;
use nvme_model::operation::Op;
use nvme_model::submission::Payload;

// The most blocks of a call.
const MOST: usize = 256;

fn writes(op: Op) -> bool
    ensures value { result ≡ has_write (Some op) }
{
    match op {
        Op::Write | Op::WriteZeroes | Op::Pair => true,
        Op::Read | Op::Compare => false,
    }
}

// Whether so many blocks, at most 256, share a block with the slots.
fn overlaps(slba: u64, blocks: u32, slots: Range) -> bool
    requires blocks { blocks ≤ 256 }
    requires slots { slots.slba + slots.blocks ≤ 65536 }
    ensures value { result ≡ overlap_of (record { slba = slba; blocks = blocks }) slots }
{
    blocks > 0
        && slots.blocks > 0
        && slba < slots.slba + u64::from(slots.blocks)
        && slots.slba < slba + u64::from(blocks)
}

// What is asked for, or the first fault of it.
fn request(acwu: u16, slots: Range, op: Op, slba: u64, bytes: usize) -> Result<Request, Fault>
    requires { slots.slba + slots.blocks ≤ 65536 }
    ensures value { result ≡ request_of acwu slots op slba bytes }
{
    if bytes == 0 || !(bytes % BLOCK == 0) {
        return Err(Fault::Length);
    }
    let blocks = bytes / BLOCK;
    if blocks > MOST || (op == Op::Pair && blocks > usize::from(acwu) + 1) {
        return Err(Fault::TooLong);
    }
    let blocks = blocks as u32;
    if writes(op) && overlaps(slba, blocks, slots) {
        return Err(Fault::SlotArea);
    }
    Ok(Request { op, slba, blocks })
}

impl<P: Port> Driver<P> {
    // Whether one of the submission queues has CIDs for a call of this operation.
    fn has_free(&self, op: Op) -> bool
        ensures some { result ≡ true → HasEnough self.now.cids op }
        ensures none { result ≡ false → All (HasTooFew self.now.cids op) (queues_of self.now.cids) }
    {
        for queue in self.cids.queues() {
            if free_cids(&self.cids, *queue, op).is_some() {
                return true;
            }
        }
        false
    }

    // Begins a call of one command, with a copy of this data.
    fn start_one(
        &mut self,
        op: Op,
        slba: u64,
        bytes: usize,
        contents: &[u8],
    ) -> Result<Call<P>, Fault>
        requires { command_count op ≡ 1 }
        ensures same { IsSameDriver self.old self.new }
        ensures later { P.follows self.old.port self.new.port }
        ensures is { IsStart self.old self.new (request_of self.old.acwu self.old.slots op slba bytes)
            (CallData.One contents.now) result }
    {
        let request = request(self.acwu, self.slots, op, slba, bytes)?;
        if !self.has_free(request.op) {
            return Err(Fault::RingFull);
        }
        let Ok(payload) = Payload::copy_of(self.alloc, contents) else {
            return Err(Fault::NoMemory);
        };
        let Ok(room) = room_for(self.alloc, op) else {
            return Err(Fault::NoMemory);
        };
        self.start(request, CallData::One(payload), room)
    }

    /// Begins to read so many blocks from block `slba` on.
    ///
    /// # Errors
    ///
    /// The first that holds: `Length` of no block; `TooLong` of more than 256; `RingFull` where too few CIDs are free;
    /// `NoMemory`; then what the port answers. Nothing was published.
    pub fn start_read(&mut self, slba: u64, blocks: u32) -> Result<Call<P>, Fault>
        ensures same { IsSameDriver self.old self.new }
        ensures later { P.follows self.old.port self.new.port }
        ensures is { IsStart self.old self.new (request_of self.old.acwu self.old.slots Op.Read slba (512 * blocks))
            (CallData.One []) result }
    {
        self.start_one(Op::Read, slba, BLOCK * blocks as usize, &[])
    }

    /// Begins to write zeros to so many blocks from block `slba` on.
    ///
    /// # Errors
    ///
    /// As `start_read`, and `SlotArea` behind `TooLong`.
    pub fn start_write_zeroes(&mut self, slba: u64, blocks: u32) -> Result<Call<P>, Fault>
        ensures same { IsSameDriver self.old self.new }
        ensures later { P.follows self.old.port self.new.port }
        ensures is { IsStart self.old self.new
            (request_of self.old.acwu self.old.slots Op.WriteZeroes slba (512 * blocks))
            (CallData.One []) result }
    {
        self.start_one(Op::WriteZeroes, slba, BLOCK * blocks as usize, &[])
    }

    /// Begins to write this data, 512 bytes a block, from block `slba` on.
    ///
    /// # Errors
    ///
    /// As `start_write_zeroes`; `Length` also of data that isn't whole blocks.
    pub fn start_write(&mut self, slba: u64, contents: &[u8]) -> Result<Call<P>, Fault>
        ensures same { IsSameDriver self.old self.new }
        ensures later { P.follows self.old.port self.new.port }
        ensures is { IsStart self.old self.new
            (request_of self.old.acwu self.old.slots Op.Write slba (length contents.now))
            (CallData.One contents.now) result }
    {
        self.start_one(Op::Write, slba, contents.len(), contents)
    }

    /// Begins to compare this data, 512 bytes a block, with the blocks from block `slba` on.
    ///
    /// # Errors
    ///
    /// As `start_write`, without `SlotArea`.
    pub fn start_compare(&mut self, slba: u64, contents: &[u8]) -> Result<Call<P>, Fault>
        ensures same { IsSameDriver self.old self.new }
        ensures later { P.follows self.old.port self.new.port }
        ensures is { IsStart self.old self.new
            (request_of self.old.acwu self.old.slots Op.Compare slba (length contents.now))
            (CallData.One contents.now) result }
    {
        self.start_one(Op::Compare, slba, contents.len(), contents)
    }

    /// Begins to write the desired data to the blocks from block `slba` on where they hold the expected data, as one
    /// fused pair.
    ///
    /// # Errors
    ///
    /// As `start_write`; `Length` also of two data of unlike lengths, `TooLong` also of more than `acwu` and one
    /// blocks.
    pub fn start_compare_and_write(
        &mut self,
        slba: u64,
        expected: &[u8],
        desired: &[u8],
    ) -> Result<Call<P>, Fault>
        ensures same { IsSameDriver self.old self.new }
        ensures later { P.follows self.old.port self.new.port }
        ensures is { IsStart self.old self.new (pair_request_of self.old.acwu self.old.slots slba (length expected.now)
            (length desired.now)) (CallData.Two expected.now desired.now) result }
    {
        if expected.len() != desired.len() {
            return Err(Fault::Length);
        }
        let request = request(self.acwu, self.slots, Op::Pair, slba, expected.len())?;
        self.start_pair(request, expected, desired)
    }

    /// Begins a fused pair, with copies of these data: that of its Compare, and that of its Write.
    pub(crate) fn start_pair(
        &mut self,
        request: Request,
        expected: &[u8],
        desired: &[u8],
    ) -> Result<Call<P>, Fault>
        requires pair { request.op ≡ Op.Pair }
        requires blocks { (1 ≤ request.blocks) × (request.blocks ≤ 65536) }
        ensures same { IsSameDriver self.old self.new }
        ensures later { P.follows self.old.port self.new.port }
        ensures is { IsTryBegun self.old self.new request (CallData.Two expected.now desired.now) result }
    {
        if !self.has_free(request.op) {
            return Err(Fault::RingFull);
        }
        let Ok(first) = Payload::copy_of(self.alloc, expected) else {
            return Err(Fault::NoMemory);
        };
        let Ok(second) = Payload::copy_of(self.alloc, desired) else {
            return Err(Fault::NoMemory);
        };
        let Ok(room) = room_for(self.alloc, Op::Pair) else {
            return Err(Fault::NoMemory);
        };
        self.start(request, CallData::Two(first, second), room)
    }
}
