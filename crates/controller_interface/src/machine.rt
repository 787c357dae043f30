//! A machine takes steps, and keeps the history of those that it accepted.

ghost use Rattle.std.specs.Prelude.{◌≡◌, ℕ, ◌<◌, ◌⊎◌, true, [], ◌∷◌, IfOk, IfErr, length, max, min};
ghost use Rattle.nvme_model.specs.History.{Past};
ghost use Rattle.nvme_model.specs.Legal.{IsLegal};
ghost use Rattle.nvme_model.specs.declared.config.ConfigNumbers.{ConfigNumbers};
ghost use Rattle.nvme_model.specs.declared.entry.Entry.{Entry};
ghost use Rattle.nvme_model.specs.declared.step.Step.{Step};
ghost use Rattle.controller_interface.specs.declared.answer.Answer.{Answer};
ghost use Rattle.controller_interface.specs.declared.answer.Refused.{Refused};
ghost use Rattle.ticket_laws.specs.Entries.{named_ticket, names_queue, of_ticket, ticket_in};

use crate::answer::{Answer, Refused};
use nvme_model::step::Step;

/// A machine of steps that callers can share.
pub trait Machine: Drop {
    /// How it is configured.
    ghost config: { Self → ConfigNumbers };

    /// The entries of its accepted steps, the newest first.
    ghost history: { Self → Past };

    /// How many of these it has forgotten, the oldest.
    ghost forgotten: { Self → ℕ };

    /// What it keeps of its history; that the history is legal is part of it.
    ghost legal: { ConfigNumbers → Past → Type 0 };

    /// Which entry and answer go with an accepted step, at a history.
    ghost accepts: { ConfigNumbers → Past → Step → Entry → Answer → Type 0 };

    /// Which refusal goes with a step, at a history.
    ghost refuses: { ConfigNumbers → Past → Step → Refused → Type 0 };

    /// Makes one step, or refuses it.
    ///
    /// # Errors
    ///
    /// A refusal by the machine's relation; the history is as before.
    fn step(&mut self, step: Step) -> Result<Answer, Refused>
        ensures config { config self.new ≡ config self.old }
        ensures accepted { IfOk result (λ a. (e : Entry) × (history self.new ≡ e ∷ history self.old)
            × accepts (config self.old) (history self.old) step e a) }
        ensures refused { IfErr result (λ r. (history self.new ≡ history self.old)
            × refuses (config self.old) (history self.old) step r) };

    /// Forgets the oldest entries of its history, as far as this place, from 0: they leave memory, and the history is
    /// the same.
    fn forget(&mut self, place: usize)
        ensures config { config self.new ≡ config self.old }
        ensures history { history self.new ≡ history self.old }
        ensures forgotten { forgotten self.new ≡ max (forgotten self.old) (min place (length (history self.old))) };

    /// What the machine keeps of its history gives that this is legal.
    ghost is_legal: { (c : ConfigNumbers) (past : Past) → legal c past → IsLegal c past };

    /// And an accepted step keeps it.
    ghost stays_legal: { (c : ConfigNumbers) (past : Past) (step : Step) (e : Entry) (a : Answer) → legal c past
        → accepts c past step e a → legal c (e ∷ past) };

    /// The entry of a step that names a queue is of no ticket, or of a new one.
    ghost is_new: { (c : ConfigNumbers) (past : Past) (step : Step) (e : Entry) (a : Answer) → legal c past
        → accepts c past step e a → names_queue step ≡ true
        → (ticket_in e ≡ 0) ⊎ (of_ticket (ticket_in e) past ≡ []) };

    /// That of a step that names a ticket is of this ticket.
    ghost is_named: { (c : ConfigNumbers) (past : Past) (step : Step) (e : Entry) (a : Answer) → legal c past
        → accepts c past step e a → 0 < named_ticket step → ticket_in e ≡ named_ticket step };
}
