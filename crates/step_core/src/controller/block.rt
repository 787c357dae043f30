//! Block: the next block of a ticket's open unit.

ghost use Rattle.std.specs.Prelude.{◌≡◌, ◌≤◌, MatchResult, Some, if◌then◌else◌};
ghost use Rattle.nvme_model.specs.Refusals.{refusal};
ghost use Rattle.nvme_model.specs.declared.step.Step.{Step};
ghost use Rattle.range_reserve.specs.Reserved.{held_beside};
ghost use Rattle.step_core.specs.Found.{IsJob, IsNextStep};
ghost use Rattle.controller_interface.specs.State.{Does};
ghost use Rattle.controller_interface.specs.declared.answer.Answer.{Answer};
ghost use Rattle.step_core.specs.declared.controller.next.ReadyStep.{ReadyStep};

use crate::controller::Core;
use crate::controller::room::take_room;
use block_exec::Done;
use job_table::Job;
use nvme_model::entry::{BlockLine, Entry};
use nvme_model::refusal::Why;
use range_reserve::Ranges;

impl Core {
    // The open unit of this ticket, or why a Block of it is refused, memory aside.
    pub(super) fn open_unit(&self, ticket: u64, job: &Job) -> Result<u64, Why>
        requires job { IsJob self.now.config self.now.past ticket job.now }
        ensures value { MatchResult result
            (λ u. IsNextStep self.now.config self.now.past (ReadyStep.Block ticket u))
            (λ why. refusal self.now.config self.now.past (Step.Block ticket) ≡ Some why) }
    {
        let progress = job.progress();
        match progress.run() {
            Some(_) => Ok(progress.unit()),
            None => Err(Why::WrongState),
        }
    }

    // Makes the next block of a ticket's open unit.
    pub(super) fn block_next(&mut self, ticket: u64) -> Result<Done, Why>
        ensures does { Does Answer.Blocked self.old (Step.Block ticket) result self.new }
    {
        let job = self.job(ticket)?;
        let unit = self.open_unit(ticket, job)?;
        self.make_block(ticket, unit)
    }

    // Makes the next block of this open unit.
    pub(super) fn make_block(&mut self, ticket: u64, unit: u64) -> Result<Done, Why>
        requires block { IsNextStep self.old.config self.old.past (ReadyStep.Block ticket unit) }
        ensures does { Does Answer.Blocked self.old (Step.Block ticket) result self.new }
    {
        take_room(&mut self.history, &mut self.promised)?;
        let job = self.jobs.get_mut(ticket).unwrap();
        let done = job.make_block(&mut self.volume);
        release_ended(&mut self.ranges, ticket, done.ended);
        self.history.push_reserved(Entry::Block(BlockLine {
            ticket,
            unit,
            lba: done.lba,
            found: done.found,
            effect: done.effect,
        }));
        Ok(done)
    }
}

// Lets a ticket's range go where its unit has ended.
fn release_ended(ranges: &mut Ranges, ticket: u64, ended: bool)
    ensures held { ranges.new.held ≡ (if ended then held_beside ranges.old.held ticket else ranges.old.held) }
    ensures room { ranges.old.room ≤ ranges.new.room }
{
    if ended {
        ranges.release(ticket);
    }
}
