//! Reap: a completion leaves a completion queue.

ghost use Rattle.std.specs.Prelude.{◌≡◌};
ghost use Rattle.nvme_model.specs.Refusals.{refusal};
ghost use Rattle.nvme_model.specs.declared.step.Step.{Step};
ghost use Rattle.controller_interface.specs.State.{Does};
ghost use Rattle.step_core.specs.Answers.{reaped_answer};

use crate::controller::Core;
use crate::controller::room::take_room;
use nvme_model::entry::{Entry, ReapLine};
use nvme_model::refusal::Why;
use rings::Completion;

impl Core {
    // Why a Reap of this queue is refused, memory aside.
    fn reap_refusal(&self, queue: u16) -> Option<Why>
        ensures value { result ≡ refusal self.now.config self.now.past (Step.Reap queue) }
    {
        let Some(ring) = self.cq_ring(queue) else {
            return Some(Why::NoQueue);
        };
        if ring.is_empty() {
            return Some(Why::NoCompletion);
        }
        None
    }

    // Takes the next completion of a completion queue.
    pub(super) fn reap_next(&mut self, queue: u16) -> Result<Completion, Why>
        ensures does { Does reaped_answer self.old (Step.Reap queue) result self.new }
    {
        if let Some(why) = self.reap_refusal(queue) {
            return Err(why);
        }
        take_room(&mut self.history, &mut self.promised)?;
        let completion = self.completion[queue as usize - 1].reap().unwrap();
        let cqe = completion.cqe;
        self.history
            .push_reserved(Entry::Reap(ReapLine { queue, cqe }));
        Ok(completion)
    }
}
