//! Post: a ticket's next completion goes into its completion queue.

ghost use Rattle.std.specs.Prelude.{◌≡◌, ◌<◌, [], MatchResult, Some, false, if◌then◌else◌, length, true};
ghost use Rattle.job_table.specs.Jobs.{has_job_of, job_of, jobs_beside, replaced};
ghost use Rattle.job_table.specs.Keeping.{Keeping, posted_job};
ghost use Rattle.nvme_model.specs.Refusals.{refusal};
ghost use Rattle.nvme_model.specs.declared.step.Step.{Step};
ghost use Rattle.step_core.specs.Found.{IsJob, IsNextStep};
ghost use Rattle.controller_interface.specs.State.{Does};
ghost use Rattle.controller_interface.specs.declared.answer.Answer.{Answer};
ghost use Rattle.step_core.specs.declared.controller.next.ReadyStep.{ReadyStep};
ghost use Rattle.job_table.specs.Stages.{owed_in};

use crate::controller::Core;
use crate::controller::room::keep_room;
use crate::spare_boxes::SpareBoxes;
use completions::cqe_of;
use entry_codec::encode_cqe;
use job_table::{Job, Jobs};
use nvme_model::entry::{Entry, PostLine};
use nvme_model::refusal::Why;
use nvme_model::submission::Payload;
use std::alloc::Global;

// The completion that a Post of a ticket puts into a completion queue.
#[derive(Clone, Copy)]
pub(crate) struct Due {
    pub(super) ticket: u64,
    // Its submission queue, and its CID.
    from: u16,
    cid: u16,
    // Where its completion goes.
    queue: u16,
    cqe: [u8; 16],
    // How much its ticket has read.
    bytes: usize,
    // Whether its ticket owes no other.
    last: bool,
}

impl Core {
    // What a Post of this ticket puts where, or why it is refused, memory aside.
    pub(super) fn post_due(&self, ticket: u64, job: &Job) -> Result<Due, Why>
        requires job { IsJob self.now.config self.now.past ticket job.now }
        ensures value { MatchResult result
            (λ d. (d.ticket ≡ ticket) × IsNextStep self.now.config self.now.past (ReadyStep.Post d))
            (λ why. refusal self.now.config self.now.past (Step.Post ticket) ≡ Some why) }
    {
        let cqs = self.config.numbers().cqs;
        let progress = job.progress();
        let Some((status, cid)) = progress.due() else {
            return Err(Why::WrongState);
        };
        let queue = job.queue();
        let place = (queue - 1) % cqs;
        let ring = &self.completion[place as usize];
        if ring.is_full() {
            return Err(Why::CqFull);
        }
        let head = self.submission[queue as usize - 1].head();
        let cqe = encode_cqe(&cqe_of(status, cid, queue, head, ring.phase()));
        Ok(Due {
            ticket,
            from: queue,
            cid,
            queue: place + 1,
            cqe,
            bytes: job.read().len(),
            last: progress.cids().len() == 1,
        })
    }

    // Posts a ticket's next completion.
    pub(super) fn post_next(&mut self, ticket: u64) -> Result<[u8; 16], Why>
        ensures does { Does Answer.Posted self.old (Step.Post ticket) result self.new }
    {
        let job = self.job(ticket)?;
        let due = self.post_due(ticket, job)?;
        self.make_post(due)
    }

    // Posts this completion.
    pub(super) fn make_post(&mut self, due: Due) -> Result<[u8; 16], Why>
        requires due { IsNextStep self.old.config self.old.past (ReadyStep.Post due) }
        ensures does { Does Answer.Posted self.old (Step.Post due.ticket) result self.new }
    {
        let Due { ticket, cqe, .. } = due;
        let Ok(mut copy) = Vec::with_capacity(self.alloc, due.bytes) else {
            return Err(Why::NoMemory);
        };
        keep_room(&mut self.history, self.promised)?;
        let payload = take_due(self.alloc, &mut self.jobs, &mut self.spare, due);
        self.in_use[due.from as usize - 1].remove(due.cid);
        copy.extend_from_slice(payload.as_slice()).unwrap();
        self.completion[due.queue as usize - 1]
            .post(cqe, payload)
            .unwrap();
        self.history.push_reserved(Entry::Post(PostLine {
            ticket,
            cqe,
            payload: Payload::new(copy),
        }));
        Ok(cqe)
    }
}

// Takes the completion that is due off what its ticket owes, and the ticket out of flight with its last one, and gives
// the data that goes with it.
fn take_due(alloc: Global, jobs: &mut Jobs, spare: &mut SpareBoxes, due: Due) -> Payload
    requires flies { has_job_of jobs.old.jobs due.ticket ≡ true }
    requires owes { (j : Keeping) → job_of jobs.old.jobs due.ticket ≡ Some j → 0 < length (owed_in j.progress.stage) }
    ensures limit { jobs.new.limit ≡ jobs.old.limit }
    ensures last { due.last ≡ true → jobs.new.jobs ≡ jobs_beside jobs.old.jobs due.ticket }
    ensures more { due.last ≡ false → (j : Keeping) → job_of jobs.old.jobs due.ticket ≡ Some j →
        jobs.new.jobs ≡ replaced jobs.old.jobs due.ticket (posted_job j) }
    ensures payload { (j : Keeping) → job_of jobs.old.jobs due.ticket ≡ Some j →
        result ≡ (if due.last then j.read else []) }
{
    if due.last {
        let (read, boxes) = jobs.remove(due.ticket).unwrap().into_parts();
        spare.keep(boxes);
        return read;
    }
    jobs.get_mut(due.ticket).unwrap().post();
    Payload::new(Vec::new(alloc))
}
