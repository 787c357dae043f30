//! Grant: the next unit of a ticket begins.

ghost use Rattle.std.specs.Prelude.{◌≡◌, MatchResult, Some};
ghost use Rattle.nvme_model.specs.Refusals.{refusal};
ghost use Rattle.nvme_model.specs.declared.step.Step.{Step};
ghost use Rattle.step_core.specs.Found.{IsJob, IsNextStep};
ghost use Rattle.controller_interface.specs.Granted.{granted_answer};
ghost use Rattle.controller_interface.specs.State.{Does};
ghost use Rattle.step_core.specs.declared.controller.next.ReadyStep.{ReadyStep};

use crate::controller::Core;
use crate::controller::room::take_both;
use controller_interface::UnitGranted;
use job_table::Job;
use nvme_model::entry::{Entry, GrantLine, UnitRange};
use nvme_model::refusal::Why;

impl Core {
    // What a Grant of this ticket adds, or why it is refused, memory aside.
    pub(super) fn grant_line(&self, ticket: u64, job: &Job) -> Result<GrantLine, Why>
        requires job { IsJob self.now.config self.now.past ticket job.now }
        ensures value { MatchResult result
            (λ g. (g.ticket ≡ ticket) × IsNextStep self.now.config self.now.past (ReadyStep.Grant g))
            (λ why. refusal self.now.config self.now.past (Step.Grant ticket) ≡ Some why) }
    {
        let progress = job.progress();
        let Some(range) = progress.next_unit(self.config.units()) else {
            return Err(Why::WrongState);
        };
        let mode = progress.mode();
        if self.ranges.conflicts(range, mode) {
            return Err(Why::Conflict);
        }
        Ok(GrantLine {
            ticket,
            unit: progress.unit(),
            range: UnitRange::new(range.slba, range.blocks as u16),
            mode,
        })
    }

    // Begins the next unit of a ticket.
    pub(super) fn grant_next(&mut self, ticket: u64) -> Result<UnitGranted, Why>
        ensures does { Does granted_answer self.old (Step.Grant ticket) result self.new }
    {
        let job = self.job(ticket)?;
        let line = self.grant_line(ticket, job)?;
        self.make_grant(line)
    }

    // Begins the unit of this line.
    pub(super) fn make_grant(&mut self, line: GrantLine) -> Result<UnitGranted, Why>
        requires line { IsNextStep self.old.config self.old.past (ReadyStep.Grant line) }
        ensures does { Does granted_answer self.old (Step.Grant line.ticket) result self.new }
    {
        let ticket = line.ticket;
        let range = line.range.get();
        take_both(&mut self.history, &mut self.ranges, &mut self.promised)?;
        self.ranges.grant(ticket, range, line.mode).unwrap();
        self.jobs.get_mut(ticket).unwrap().open(range);
        self.history.push_reserved(Entry::Grant(line));
        Ok(UnitGranted {
            unit: line.unit,
            range,
            mode: line.mode,
        })
    }
}
