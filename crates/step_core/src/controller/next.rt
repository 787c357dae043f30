//! The step that is ready.

ghost use Rattle.std.specs.Prelude.{◌≡◌, IfNone, IfSome, MatchOption, option_map, slice_get, true, ℕ};
ghost use Rattle.std.specs.Option.{option_and_then};
ghost use Rattle.nvme_model.specs.Kept.{ControllerInvariant};
ghost use Rattle.nvme_model.specs.Legal.{IsLegal};
ghost use Rattle.nvme_model.specs.Laws.{OwesToFull};
ghost use Rattle.nvme_model.specs.Steps.{ready};
ghost use Rattle.nvme_model.specs.Tickets.{in_flight};
ghost use Rattle.ticket_laws.specs.Standing.{flying};
ghost use Rattle.step_core.specs.Found.{IsJob, IsNextStep, next_step, ready_step_of};
ghost use Rattle.nvme_model.specs.OneAtATime.{IsOneAtATime};
ghost use Rattle.controller_interface.specs.State.{Serves};

use crate::controller::Core;
use crate::controller::post::Due;
use controller_interface::{Answer, Refused, UnitGranted};
use job_table::Job;
use nvme_model::entry::GrantLine;
use nvme_model::step::Step;

// A step of a ticket that is ready, with what was found of it.
#[derive(Clone, Copy)]
pub(crate) enum ReadyStep {
    Grant(GrantLine),
    // The next block of this unit.
    Block { ticket: u64, unit: u64 },
    Post(Due),
}

impl ReadyStep {
    // The step.
    fn step(&self) -> Step
        ensures value { result ≡ ready_step_of self.now }
    {
        match self {
            ReadyStep::Grant(line) => Step::Grant(line.ticket),
            ReadyStep::Block { ticket, .. } => Step::Block(*ticket),
            ReadyStep::Post(due) => Step::Post(due.ticket),
        }
    }
}

impl Core {
    /// The Grant, Block or Post of the least ticket for which one of them is refused for no other cause than memory.
    /// Takes no memory.
    pub fn ready(&self) -> Option<Step>
        ensures value { result ≡ ready self.now.config self.now.past }
        ensures stuck { IfNone result ((t : ℕ) →
            in_flight self.now.past t ≡ true → OwesToFull self.now.config self.now.past t) }
    {
        match self.next() {
            Some(next) => Some(next.step()),
            None => None,
        }
    }

    /// Makes the step that is ready, where there is one, and tells it beside its answer.
    ///
    /// # Errors
    ///
    /// `NoMemory` alone, as from `step`.
    pub fn step_ready(&mut self) -> Option<(Step, Result<Answer, Refused>)>
        ensures step { option_map (λ r. r.0) result ≡ ready self.old.config self.old.past }
        ensures serves { MatchOption result (self.new ≡ self.old) (λ r. Serves self.old r.0 r.1 self.new) }
        ensures legal { IsLegal self.new.config self.new.past }
        ensures array { IsOneAtATime self.new.config self.new.past }
    {
        let next = self.next()?;
        let answer = self.make(next);
        self.tells_kept();
        Some((next.step(), answer))
    }

    // What the least ticket that can go on does next.
    fn next(&self) -> Option<ReadyStep>
        ensures step { option_map ready_step_of result ≡ ready self.now.config self.now.past }
        ensures found { IfSome result (λ n. IsNextStep self.now.config self.now.past n) }
        ensures kept { ControllerInvariant self.now.config self.now.past }
    {
        for place in 0..self.jobs.len() {
            if let Some(next) = self.next_at(place) {
                return Some(next);
            }
        }
        None
    }

    // What the ticket in flight with `place` lower ones in flight does next.
    fn next_at(&self, place: usize) -> Option<ReadyStep>
        ensures step { option_map ready_step_of result
            ≡ option_and_then (next_step self.now.config self.now.past) (slice_get (flying self.now.past) place) }
        ensures found { IfSome result (λ n. IsNextStep self.now.config self.now.past n) }
    {
        let (ticket, job) = self.jobs.nth(place)?;
        self.next_of(ticket, job)
    }

    // What this ticket does next.
    fn next_of(&self, ticket: u64, job: &Job) -> Option<ReadyStep>
        requires job { IsJob self.now.config self.now.past ticket job.now }
        ensures step { option_map ready_step_of result ≡ next_step self.now.config self.now.past ticket }
        ensures found { IfSome result (λ n. IsNextStep self.now.config self.now.past n) }
    {
        if let Ok(line) = self.grant_line(ticket, job) {
            return Some(ReadyStep::Grant(line));
        }
        if let Ok(unit) = self.open_unit(ticket, job) {
            return Some(ReadyStep::Block { ticket, unit });
        }
        match self.post_due(ticket, job) {
            Ok(due) => Some(ReadyStep::Post(due)),
            Err(_) => None,
        }
    }

    // Makes it.
    fn make(&mut self, next: ReadyStep) -> Result<Answer, Refused>
        requires next { IsNextStep self.old.config self.old.past next }
        ensures serves { Serves self.old (ready_step_of next) result self.new }
    {
        let done = match next {
            ReadyStep::Grant(line) => self.make_grant(line).map(UnitGranted::answer),
            ReadyStep::Block { ticket, unit } => self.make_block(ticket, unit).map(Answer::Blocked),
            ReadyStep::Post(due) => self.make_post(due).map(Answer::Posted),
        };
        done.map_err(Refused::Step)
    }
}
