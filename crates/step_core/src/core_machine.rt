//! The controller as a machine that callers share.

use crate::controller::Core;
use controller_interface::{Answer, Machine, Refused};
use nvme_model::step::Step;

impl Machine for Core {
    ghost use Rattle.nvme_model.specs.Kept.{ControllerInvariant};
    ghost use Rattle.controller_interface.specs.State.{Accepts, Refuses};
    ghost use Rattle.ticket_laws.proofs.NewEntries.{accepted_keeps, named_entry, new_entry};

    ghost config = { λ core. core.config };

    ghost history = { λ core. core.past };

    ghost forgotten = { λ core. core.forgotten };

    ghost legal = { ControllerInvariant };

    ghost accepts = { Accepts };

    ghost refuses = { Refuses };

    ghost is_legal = { λ c past k. k.legal };

    ghost stays_legal = { λ c past step e a k s. accepted_keeps c past step e k s.0 s.1 };

    ghost is_new = { λ c past step e a k s. new_entry c past step e k.legal s.1 };

    ghost is_named = { λ c past step e a k s. named_entry c past step e s.1 };

    fn step(&mut self, step: Step) -> Result<Answer, Refused> {
        Core::step(self, step)
    }

    fn forget(&mut self, place: usize) {
        Core::forget(self, place);
    }
}
