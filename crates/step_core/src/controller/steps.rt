//! Steps: one of each kind, any, and many.

ghost use Rattle.std.specs.Prelude.{◌≡◌, ◌+◌, ◌<◌, IfErr, OnErr, OnOk, vec_len};
ghost use Rattle.std.specs.Vec.{vec_capacity};
ghost use Rattle.nvme_model.specs.Legal.{IsLegal};
ghost use Rattle.nvme_model.specs.OneAtATime.{IsOneAtATime};
ghost use Rattle.nvme_model.specs.declared.step.Step.{Step as TheStep};
ghost use Rattle.controller_interface.specs.Granted.{granted_answer};
ghost use Rattle.controller_interface.specs.State.{Does, DoesPublish, RunsOnto, Serves};
ghost use Rattle.controller_interface.specs.declared.answer.Answer.{Answer as TheAnswer};
ghost use Rattle.step_core.specs.Answers.{reaped_answer};

use crate::controller::Core;
use block_exec::Done;
use controller_interface::{Answer, Refused, UnitGranted, Work};
use nvme_model::refusal::Why;
use nvme_model::step::Step;
use nvme_model::submission::Submissions;
use rings::Completion;
use std::alloc::AllocError as NoMemory;

// The answer to the Reap of this completion.
fn reaped(completion: Completion) -> Answer
    ensures { result ≡ reaped_answer completion }
{
    let Completion { cqe, payload } = completion;
    Answer::Reaped { cqe, payload }
}

impl Core {
    /// Puts a batch at the end of a submission queue.
    ///
    /// # Errors
    ///
    /// The batch, with the first refusal of the Publish that holds, or with `NoMemory` where none does and a growth was
    /// refused. Nothing has changed, but that there may be more room.
    pub fn publish(&mut self, queue: u16, batch: Submissions) -> Result<(), (Why, Submissions)>
        ensures serves { DoesPublish self.old (TheStep.Publish queue batch) result self.new }
        ensures legal { IsLegal self.new.config self.new.past }
        ensures array { IsOneAtATime self.new.config self.new.past }
    {
        let done = self.publish_batch(queue, batch);
        self.tells_kept();
        done
    }

    /// Takes the next command, or the next fused pair, of a submission queue, as a ticket.
    ///
    /// # Errors
    ///
    /// The first refusal of the step that holds, or `NoMemory` where none does and a growth was refused. Nothing has
    /// changed, but that there may be more room.
    pub fn fetch(&mut self, queue: u16) -> Result<Work, Why>
        ensures serves { Does TheAnswer.Fetched self.old (TheStep.Fetch queue) result self.new }
        ensures legal { IsLegal self.new.config self.new.past }
        ensures array { IsOneAtATime self.new.config self.new.past }
    {
        let done = self.fetch_next(queue);
        self.tells_kept();
        done
    }

    /// Begins the next unit of a ticket.
    ///
    /// # Errors
    ///
    /// The first refusal of the step that holds, or `NoMemory` where none does and a growth was refused. Nothing has
    /// changed, but that there may be more room.
    pub fn grant(&mut self, ticket: u64) -> Result<UnitGranted, Why>
        ensures serves { Does granted_answer self.old (TheStep.Grant ticket) result self.new }
        ensures legal { IsLegal self.new.config self.new.past }
        ensures array { IsOneAtATime self.new.config self.new.past }
    {
        let done = self.grant_next(ticket);
        self.tells_kept();
        done
    }

    /// Makes the next block of a ticket's open unit.
    ///
    /// # Errors
    ///
    /// The first refusal of the step that holds, or `NoMemory` where none does and a growth was refused. Nothing has
    /// changed, but that there may be more room.
    pub fn block(&mut self, ticket: u64) -> Result<Done, Why>
        ensures serves { Does TheAnswer.Blocked self.old (TheStep.Block ticket) result self.new }
        ensures legal { IsLegal self.new.config self.new.past }
        ensures array { IsOneAtATime self.new.config self.new.past }
    {
        let done = self.block_next(ticket);
        self.tells_kept();
        done
    }

    /// Posts a ticket's next completion, and gives its completion queue entry.
    ///
    /// # Errors
    ///
    /// The first refusal of the step that holds, or `NoMemory` where none does and a growth was refused. Nothing has
    /// changed, but that there may be more room.
    pub fn post(&mut self, ticket: u64) -> Result<[u8; 16], Why>
        ensures serves { Does TheAnswer.Posted self.old (TheStep.Post ticket) result self.new }
        ensures legal { IsLegal self.new.config self.new.past }
        ensures array { IsOneAtATime self.new.config self.new.past }
    {
        let done = self.post_next(ticket);
        self.tells_kept();
        done
    }

    /// Takes the next completion of a completion queue.
    ///
    /// # Errors
    ///
    /// The first refusal of the step that holds, or `NoMemory` where none does and a growth was refused. Nothing has
    /// changed, but that there may be more room.
    pub fn reap(&mut self, queue: u16) -> Result<Completion, Why>
        ensures serves { Does reaped_answer self.old (TheStep.Reap queue) result self.new }
        ensures legal { IsLegal self.new.config self.new.past }
        ensures array { IsOneAtATime self.new.config self.new.past }
    {
        let done = self.reap_next(queue);
        self.tells_kept();
        done
    }

    /// Makes one step, or refuses it.
    ///
    /// # Errors
    ///
    /// The first refusal of the step that holds, or `NoMemory` where none does and a growth was refused; a refused
    /// Publish hands its batch back, and nothing has changed, but that there may be more room.
    pub fn step(&mut self, step: Step) -> Result<Answer, Refused>
        ensures serves { Serves self.old step result self.new }
        ensures legal { IsLegal self.new.config self.new.past }
        ensures array { IsOneAtATime self.new.config self.new.past }
    {
        let done = match step {
            Step::Publish(queue, batch) => {
                return match self.publish(queue, batch) {
                    Ok(()) => Ok(Answer::Published),
                    Err((why, batch)) => Err(Refused::Publish(why, batch)),
                };
            }
            Step::Fetch(queue) => self.fetch(queue).map(Answer::Fetched),
            Step::Grant(ticket) => self.grant(ticket).map(UnitGranted::answer),
            Step::Block(ticket) => self.block(ticket).map(Answer::Blocked),
            Step::Post(ticket) => self.post(ticket).map(Answer::Posted),
            Step::Reap(queue) => self.reap(queue).map(reaped),
        };
        self.tells_kept();
        done.map_err(Refused::Step)
    }

    /// Tries every step in order, and puts one answer for each at the end of `out`; or does nothing.
    ///
    /// # Errors
    ///
    /// The steps, where there is no memory for the answers; nothing has changed.
    pub fn run_steps(
        &mut self,
        steps: Vec<Step>,
        out: &mut Vec<Result<Answer, Refused>>,
    ) -> Result<(), (Vec<Step>, NoMemory)>
        ensures ok { OnOk result (RunsOnto self.old steps.items out.old.items out.new.items self.new) }
        ensures legal { IsLegal self.new.config self.new.past }
        ensures array { IsOneAtATime self.new.config self.new.past }
        ensures err { OnErr result ((self.new ≡ self.old) × (out.new.items ≡ out.old.items)) }
        ensures full { OnErr result (vec_capacity out.old < vec_len out.old + vec_len steps) }
        ensures back { IfErr result (λ back. back.0.items ≡ steps.items) }
    {
        let mut rest = steps;
        if let Err(error) = out.reserve(rest.len()) {
            self.tells_kept();
            return Err((rest, error));
        }
        rest.reverse();
        while let Some(step) = rest.pop() {
            let answer = self.step(step);
            out.push_reserved(answer);
        }
        self.tells_kept();
        Ok(())
    }

    // A read tells a proof what the type keeps.
    pub(super) fn tells_kept(&self)
        ensures legal { IsLegal self.now.config self.now.past }
        ensures array { IsOneAtATime self.now.config self.now.past }
    {
        let _ = &self.alloc;
    }
}
