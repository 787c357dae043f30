//! Fetch: the next command, or the next fused pair, of a submission queue becomes a ticket.

ghost use Rattle.std.specs.Option.{option_copied, option_map};
ghost use Rattle.std.specs.Prelude.{◌≡◌, ◌≤◌, ◌+◌, ◌++◌, IfOk, MatchResult, None, OnErr, Some};
ghost use Rattle.std.specs.Prelude.{false, length, slice_get, true};
ghost use Rattle.block_array.specs.Blocks.{contents_of};
ghost use Rattle.fused_match.specs.Judged.{IsSound, NamesBlocks, cids_taken, operation_in, verdict_by, waiting_items};
ghost use Rattle.nvme_model.specs.Operations.{op_by};
ghost use Rattle.nvme_model.specs.Refusals.{jobs_full, no_queue, refusal};
ghost use Rattle.nvme_model.specs.Tickets.{cids_in_use, fetched_ticket};
ghost use Rattle.nvme_model.specs.Verdict.{item_of, taken_entries, verdict_of};
ghost use Rattle.nvme_model.specs.declared.step.Step.{Step};
ghost use Rattle.step_core.specs.Found.{IsFront, first_job};
ghost use Rattle.job_table.specs.Beginning.{read_first};
ghost use Rattle.job_table.specs.Tickets.{compare_by, write_blocks};
ghost use Rattle.controller_interface.specs.State.{Does, needs_data};
ghost use Rattle.controller_interface.specs.declared.answer.Answer.{Answer};

use crate::controller::Core;
use crate::controller::data::{DataRoom, data_room};
use crate::controller::room::keep_room;
use crate::spare_boxes::SpareBoxes;
use controller_interface::Work;
use fused_match::{Item, Judged, judge};
use job_table::{Data, Job, OwedCids};
use nvme_model::entry::{Entry, FetchLine};
use nvme_model::operation::Op;
use nvme_model::refusal::Why;
use nvme_model::submission::{Payload, Submission};
use rings::{CidsInUse, SqRing};
use std::alloc::{AllocError as NoMemory, Global};
use std::mem;

// What a Fetch finds of the entries at the front of a queue: what becomes of them, the CIDs of those that it takes, and
// the first block that the first of them names.
// A command is decoded once at its Fetch, for its checks; what the ticket keeps is taken from here.
#[derive(Clone, Copy)]
pub(crate) struct Front {
    judged: Judged,
    cids: OwedCids,
    slba: u64,
}

// The CIDs of the commands that are taken.
fn taken_cids(judged: &Judged, first: &Item, second: Option<&Item>) -> OwedCids
    ensures value { result ≡ cids_taken judged.now first.now (option_copied second.entry) }
{
    match second {
        Some(second) if judged.taken() == 2 => OwedCids::two(first.sqe().cid, second.sqe().cid),
        Some(_) | None => OwedCids::one(first.sqe().cid),
    }
}

// Puts the CIDs of a ticket in use.
fn put_in_use(used: &mut CidsInUse, cids: OwedCids)
    requires room { length used.old.cids + length cids ≤ used.old.room }
    ensures more { used.new ≡ record used.old { cids = used.old.cids ++ cids } }
{
    // A read tells the proof that there are two at most.
    let _most = cids.len();
    let Some(first) = cids.get(0) else {
        return;
    };
    used.add(first);
    let Some(second) = cids.get(1) else {
        return;
    };
    used.add(second);
}

// The Compare's data, of what lies beside the first command.
fn compare_of(alloc: Global, op: Option<Op>, first: Submission) -> Payload
    ensures value { result ≡ compare_by op first }
{
    match op {
        Some(Op::Compare | Op::Pair) => first.payload,
        Some(Op::Read | Op::Write | Op::WriteZeroes) | None => Payload::new(Vec::new(alloc)),
    }
}

// The job of a ticket that was just fetched, with the room that was made for its data.
fn new_job(alloc: Global, queue: u16, front: Front, first: Submission, room: DataRoom) -> Job
    requires cids { length front.cids ≡ taken_entries (verdict_by front.judged) }
    requires sound { IsSound front.judged }
    ensures value { result ≡ first_job queue front first (contents_of room.write.items) room.read }
{
    let Front { judged, cids, slba } = front;
    let all = Data {
        slba,
        compare: compare_of(alloc, judged.operation(), first),
        write: room.write,
        read: room.read,
    };
    Job::new(queue, &judged, cids, all)
}

// What a check sees of the entry behind the first of a ring, if there is one.
fn next_item(ring: &SqRing) -> Option<Item>
    ensures value { result ≡ option_map item_of (slice_get ring.now.waiting 1) }
{
    ring.peek(1).map(Item::of)
}

impl Core {
    // Whether as many tickets are in flight as may be.
    fn jobs_full(&self) -> bool
        ensures value { result ≡ jobs_full self.now.config self.now.past }
    {
        self.jobs.is_full()
    }

    // What becomes of these entries at the front of a queue.
    fn judge_front(&self, queue: u16, first: &Item, second: Option<&Item>) -> Judged
        requires there { no_queue self.now.config queue ≡ false }
        ensures verdict { verdict_by result ≡
            verdict_of self.now.config.atomic self.now.config.blocks (cids_in_use self.now.past queue)
            (waiting_items first.now (option_copied second.entry)) }
        ensures operation { operation_in result ≡ op_by (verdict_by result) first.now.fields }
        ensures range { NamesBlocks result first.now.fields }
    {
        let in_use = self.in_use[queue as usize - 1].as_slice();
        let numbers = self.config.numbers();
        judge(first, second, in_use, &self.config.units(), numbers.blocks)
    }

    // What a Fetch of this queue finds of the entries that it takes, or why it is refused, memory aside.
    fn fetch_front(&self, queue: u16) -> Result<Front, Why>
        ensures value { MatchResult result
            (λ f. (refusal self.now.config self.now.past (Step.Fetch queue) ≡ None)
            × IsFront self.now.config self.now.past queue f)
            (λ why. refusal self.now.config self.now.past (Step.Fetch queue) ≡ Some why) }
    {
        let Some(ring) = self.sq_ring(queue) else {
            return Err(Why::NoQueue);
        };
        let Some(first) = ring.peek(0) else {
            return Err(Why::NoEntry);
        };
        if self.jobs_full() {
            return Err(Why::JobsFull);
        }
        let first = Item::of(first);
        let second = next_item(ring);
        let second = second.as_ref();
        let judged = self.judge_front(queue, &first, second);
        Ok(Front {
            judged,
            cids: taken_cids(&judged, &first, second),
            slba: first.sqe().slba(),
        })
    }

    // The room for the data of the ticket that a Fetch of this queue makes, where it finds this.
    fn fetch_room(
        &self,
        spare: &mut SpareBoxes,
        queue: u16,
        front: &Front,
    ) -> Result<DataRoom, NoMemory>
        requires fetched { (refusal self.now.config self.now.past (Step.Fetch queue) ≡ None)
            × IsFront self.now.config self.now.past queue front.now }
        ensures write { IfOk result (λ room. contents_of room.write.items
            ≡ write_blocks (fetched_ticket self.now.past queue (verdict_by front.now.judged))) }
        ensures read { IfOk result (λ room. room.read ≡ read_first front.now.judged) }
        ensures wants { OnErr result (needs_data (operation_in front.now.judged) ≡ true) }
    {
        let ring = self.sq_ring(queue).unwrap();
        data_room(self.alloc, spare, ring, &front.judged)
    }

    // The same, in boxes that were kept as far as there are some.
    fn take_room(&mut self, queue: u16, front: &Front) -> Result<DataRoom, NoMemory>
        requires fetched { (refusal self.old.config self.old.past (Step.Fetch queue) ≡ None)
            × IsFront self.old.config self.old.past queue front.now }
        ensures same { self.new ≡ self.old }
        ensures write { IfOk result (λ room. contents_of room.write.items
            ≡ write_blocks (fetched_ticket self.old.past queue (verdict_by front.now.judged))) }
        ensures read { IfOk result (λ room. room.read ≡ read_first front.now.judged) }
        ensures wants { OnErr result (needs_data (operation_in front.now.judged) ≡ true) }
    {
        let mut spare = mem::replace(&mut self.spare, SpareBoxes::none(self.alloc));
        let room = self.fetch_room(&mut spare, queue, front);
        self.spare = spare;
        room
    }

    // Takes the next command, or the next fused pair, of a submission queue.
    pub(super) fn fetch_next(&mut self, queue: u16) -> Result<Work, Why>
        ensures does { Does Answer.Fetched self.old (Step.Fetch queue) result self.new }
    {
        let front = self.fetch_front(queue)?;
        let Ok(room) = self.take_room(queue, &front) else {
            return Err(Why::NoMemory);
        };
        keep_room(&mut self.history, self.promised)?;
        let judged = front.judged;
        let ticket = self.tickets + 1;
        let place = queue as usize - 1;
        let (first, _) = self.submission[place].take_commands(judged.taken());
        put_in_use(&mut self.in_use[place], front.cids);
        let job = new_job(self.alloc, queue, front, first, room);
        self.jobs.insert(ticket, job).unwrap();
        self.tickets = ticket;
        self.history.push_reserved(Entry::Fetch(FetchLine {
            queue,
            ticket,
            verdict: judged.verdict(),
        }));
        let units = self.config.units();
        Ok(Work::new(ticket, units, judged))
    }
}
