//! Steps that name a queue, each asked for by its own type.

use crate::controller::Core;
use controller_interface::{Refused, StepCall, Work};
use nvme_model::refusal::Why;
use nvme_model::submission::Submissions;
use rings::Completion;

/// A Publish: this batch at the end of this submission queue.
#[derive(Drop)]
pub struct PublishCall {
    pub queue: u16,
    pub batch: Submissions,
}

/// A Fetch of this submission queue.
#[derive(Clone, Copy)]
pub struct FetchCall {
    pub queue: u16,
}

/// A Reap of this completion queue.
#[derive(Clone, Copy)]
pub struct ReapCall {
    pub queue: u16,
}

impl StepCall<Core> for PublishCall {
    ghost use Rattle.nvme_model.specs.declared.step.Step.{Step};
    ghost use Rattle.controller_interface.specs.declared.answer.Answer.{Answer};
    ghost use Rattle.controller_interface.specs.declared.answer.Refused.{Refused as TheRefused};

    type Told = ();

    type Refusal = (Why, Submissions);

    ghost asks = { λ c. Step.Publish c.queue c.batch };

    ghost answers = { λ _. Answer.Published };

    ghost refuses = { λ r. TheRefused.Publish r.0 r.1 };

    fn make(self, core: &mut Core) -> Result<(), (Why, Submissions)> {
        core.publish(self.queue, self.batch)
    }
}

impl StepCall<Core> for FetchCall {
    ghost use Rattle.nvme_model.specs.declared.step.Step.{Step};
    ghost use Rattle.controller_interface.specs.declared.answer.Answer.{Answer};
    ghost use Rattle.controller_interface.specs.declared.answer.Refused.{Refused as TheRefused};

    type Told = Work;

    type Refusal = Why;

    ghost asks = { λ c. Step.Fetch c.queue };

    ghost answers = { Answer.Fetched };

    ghost refuses = { TheRefused.Step };

    fn make(self, core: &mut Core) -> Result<Work, Why> {
        core.fetch(self.queue)
    }
}

impl StepCall<Core> for ReapCall {
    ghost use Rattle.nvme_model.specs.declared.step.Step.{Step};
    ghost use Rattle.controller_interface.specs.declared.answer.Refused.{Refused as TheRefused};
    ghost use Rattle.step_core.specs.Answers.{reaped_answer};

    type Told = Completion;

    type Refusal = Why;

    ghost asks = { λ c. Step.Reap c.queue };

    ghost answers = { reaped_answer };

    ghost refuses = { TheRefused.Step };

    fn make(self, core: &mut Core) -> Result<Completion, Why> {
        core.reap(self.queue)
    }
}
