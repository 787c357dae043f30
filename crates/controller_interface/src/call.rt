//! A step of one kind, with an answer and a refusal of its own.

ghost use Rattle.std.specs.Prelude.{◌≡◌, ◌∷◌, IfErr, IfOk};
ghost use Rattle.nvme_model.specs.declared.entry.Entry.{Entry};
ghost use Rattle.nvme_model.specs.declared.step.Step.{Step};
ghost use Rattle.controller_interface.specs.declared.answer.Answer.{Answer};
ghost use Rattle.controller_interface.specs.declared.answer.Refused.{Refused};

use crate::answer::{Answer, Refused};
use crate::machine::Machine;
use nvme_model::step::Step;

/// A step that a machine is asked for by a value that says which it is.
pub trait StepCall<M: Machine> {
    /// What an accepted one is answered.
    type Told;

    /// What a refused one is answered.
    type Refusal;

    /// The step.
    ghost asks: { Self → Step };

    /// The answer that it is among those to all steps.
    ghost answers: { Self.Told → Answer };

    /// And the refusal.
    ghost refuses: { Self.Refusal → Refused };

    /// Makes the step, or refuses it.
    ///
    /// # Errors
    ///
    /// As `Machine::step`.
    fn make(self, machine: &mut M) -> Result<Self::Told, Self::Refusal>
        ensures config { M.config machine.new ≡ M.config machine.old }
        ensures accepted { IfOk result (λ t. (e : Entry) × (M.history machine.new ≡ e ∷ M.history machine.old)
            × M.accepts (M.config machine.old) (M.history machine.old) (asks self) e (answers t)) }
        ensures refused { IfErr result (λ r. (M.history machine.new ≡ M.history machine.old)
            × M.refuses (M.config machine.old) (M.history machine.old) (asks self) (refuses r)) };
}

impl<M: Machine> StepCall<M> for Step {
    type Told = Answer;

    type Refusal = Refused;

    ghost asks = { λ step. step };

    ghost answers = { λ answer. answer };

    ghost refuses = { λ refused. refused };

    fn make(self, machine: &mut M) -> Result<Answer, Refused> {
        machine.step(self)
    }
}
