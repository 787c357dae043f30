//! Publishing the entries of a call.

ghost use Rattle.std.specs.Prelude.{[], ◌∷◌, ◌≡◌, ◌≤◌, ◌<◌, Contains, IfErr, IfNone, IfOk, IfSome, OnSome, length};
ghost use Rattle.std.specs.Prelude.{true, vec_capacity};
ghost use Rattle.driver_calls.specs.Entries.{payloads_of};
ghost use Rattle.driver_cas.specs.Drivers.{IsSameDriver};
ghost use Rattle.driver_cas.specs.Tries.{IsTryBegun, IsNotSent, IsTried};
ghost use Rattle.driver_cas.specs.Cids.{queues_of};
ghost use Rattle.driver_calls.specs.declared.event.PortEvent.{PortEvent};
ghost use Rattle.driver_cas.specs.Starts.{IsSent, IsTaken};
ghost use Rattle.driver_cas.specs.Turns.{AreFree, HasTooFew};
ghost use Rattle.nvme_model.specs.Operations.{command_count};

use crate::call::Call;
use crate::cid_table::{CidTable, TwoCids};
use crate::driver::Driver;
use crate::fault::{Fault, PortFault};
use crate::port::Port;
use driver_calls::{CallData, Request, batch_of, taken_back};
use nvme_model::operation::Op;
use nvme_model::submission::{Submission, Submissions};
use std::snapshot::Snapshot;

/// What came of trying one submission queue.
#[derive(Drop)]
pub(crate) enum Tried<P> {
    Started(Call<P>),
    /// It has no room. The data and the room of the entries come back.
    Full(CallData, Vec<Submission>),
    /// `Busy` or `NoMemory`.
    Stopped(Fault),
}

/// CIDs of a submission queue that a call of this operation may use; a pair uses both, any other operation the first.
pub(crate) fn free_cids(cids: &CidTable, queue: u16, op: Op) -> Option<TwoCids>
    ensures known { OnSome result (Contains (queues_of cids.now) queue) }
    ensures free { IfSome result (λ two. AreFree cids.now op queue two.first two.second) }
    ensures none { IfNone result (Contains (queues_of cids.now) queue → HasTooFew cids.now op queue) }
{
    if op == Op::Pair {
        return cids.free_two(queue);
    }
    let first = cids.free_one(queue)?;
    Some(TwoCids {
        first,
        second: first,
    })
}

/// Makes a call wait under its CIDs.
pub(crate) fn hold_cids(cids: &mut CidTable, op: Op, queue: u16, two: TwoCids)
    requires known { Contains (queues_of cids.old) queue }
    requires below { (two.first < 64) × (two.second < 64) }
    ensures queues { queues_of cids.new ≡ queues_of cids.old }
    ensures taken { IsTaken cids.old cids.new op queue two.first two.second }
{
    cids.hold(queue, two.first);
    if op == Op::Pair {
        cids.hold(queue, two.second);
    }
}

// Publishes the entries of a call, and makes it wait under its CIDs.
fn send<P: Port>(
    port: &mut P,
    cids: &mut CidTable,
    op: Op,
    queue: u16,
    two: TwoCids,
    batch: Submissions,
) -> Result<(), (PortFault, Submissions)>
    requires some { 0 < length batch }
    requires own { P.owns port.old queue ≡ true }
    requires known { Contains (queues_of cids.old) queue }
    requires below { (two.first < 64) × (two.second < 64) }
    ensures queues { queues_of cids.new ≡ queues_of cids.old }
    ensures later { P.follows port.old port.new }
    ensures log { IsSent (P.log port.old) (P.log port.new) cids.old cids.new op queue two.first two.second batch }
    ensures sent { IfOk result (λ _. (P.log port.new ≡ PortEvent.Sent queue batch ∷ P.log port.old)
        × IsTaken cids.old cids.new op queue two.first two.second × P.accepts port.old port.new queue batch) }
    ensures back { IfErr result (λ e. (e.1 ≡ batch) × (P.log port.new ≡ P.log port.old) × (cids.new ≡ cids.old)) }
    ensures refused { IfErr result (λ e. P.refuses port.old port.new queue batch e.0) }
{
    port.publish(queue, batch)?;
    hold_cids(cids, op, queue, two);
    Ok(())
}

// What to do about a batch that wasn't published.
fn not_sent<P>(refused: (PortFault, Submissions)) -> Tried<P>
    requires some { 1 ≤ length refused.1 }
    requires most { length refused.1 ≤ 2 }
    ensures { IsNotSent refused.0 refused.1 result }
{
    let (fault, batch) = refused;
    match fault {
        PortFault::RingFull => {
            let (contents, room) = taken_back(batch);
            Tried::Full(contents, room)
        }
        PortFault::Busy => Tried::Stopped(Fault::Busy),
        PortFault::NoMemory => Tried::Stopped(Fault::NoMemory),
    }
}

impl<P: Port> Driver<P> {
    /// Publishes the entries of a call to one submission queue, under CIDs that are free.
    pub(crate) fn publish_to(
        &mut self,
        queue: u16,
        two: TwoCids,
        request: Request,
        contents: CallData,
        room: Vec<Submission>,
    ) -> Tried<P>
        requires known { Contains (queues_of self.old.cids) queue }
        requires free { AreFree self.old.cids request.op queue two.first two.second }
        requires blocks { (1 ≤ request.blocks) × (request.blocks ≤ 65536) }
        requires contents { length (payloads_of contents) ≡ command_count request.op }
        requires room { (room.items ≡ []) × (command_count request.op ≤ vec_capacity room) }
        ensures same { IsSameDriver self.old self.new }
        ensures later { P.follows self.old.port self.new.port }
        ensures tried { IsTried self.old self.new queue request contents result }
    {
        let op = request.op;
        let batch = batch_of(request, two.first, two.second, contents, room);
        let start = Snapshot::of(&self.port);
        match send(&mut self.port, &mut self.cids, op, queue, two, batch) {
            Ok(()) => Tried::Started(Call {
                op,
                queue,
                first: two.first,
                second: two.second,
                start,
            }),
            Err(refused) => not_sent(refused),
        }
    }

    /// Begins a call on the first of the submission queues that has CIDs and room for it.
    ///
    /// # Errors
    ///
    /// `RingFull` where none has; `Busy` or `NoMemory` where the port answered so. Nothing was published.
    pub(crate) fn start(
        &mut self,
        request: Request,
        contents: CallData,
        room: Vec<Submission>,
    ) -> Result<Call<P>, Fault>
        requires blocks { (1 ≤ request.blocks) × (request.blocks ≤ 65536) }
        requires contents { length (payloads_of contents) ≡ command_count request.op }
        requires room { (room.items ≡ []) × (command_count request.op ≤ vec_capacity room) }
        ensures same { IsSameDriver self.old self.new }
        ensures later { P.follows self.old.port self.new.port }
        ensures is { IsTryBegun self.old self.new request contents result }
    {
        let mut contents = contents;
        let mut room = room;
        for k in 0..self.cids.queues().len() {
            let queue = self.cids.queues()[k];
            let Some(two) = free_cids(&self.cids, queue, request.op) else {
                continue;
            };
            match self.publish_to(queue, two, request, contents, room) {
                Tried::Started(call) => return Ok(call),
                Tried::Full(same, empty) => {
                    contents = same;
                    room = empty;
                }
                Tried::Stopped(fault) => return Err(fault),
            }
        }
        Err(Fault::RingFull)
    }
}
