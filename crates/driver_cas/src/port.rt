//! The way of a driver's entries to a controller, and of its completions back.

ghost use Rattle.std.specs.Prelude.{Bool, ◌+◌, ◌≡◌, ◌≢◌, ◌<◌, ◌∷◌, IfErr, IfOk, List, Option, Result, length, true, ℕ};
ghost use Rattle.nvme_model.specs.declared.operation.Op.{Op};
ghost use Rattle.nvme_model.specs.declared.status.Status.{Status};
ghost use Rattle.nvme_model.specs.declared.submission.Submission.{Submission};
ghost use Rattle.driver_calls.specs.Log.{is_tidy, sent};
ghost use Rattle.driver_calls.specs.Says.{IsCallIn, call_outcome};
ghost use Rattle.driver_calls.specs.declared.event.PortEvent.{PortEvent};
ghost use Rattle.driver_calls.specs.declared.reply.Reply.{Reply};
ghost use Rattle.driver_calls.specs.Views.{since};
ghost use Rattle.driver_cas.specs.Made.{after_reap};
ghost use Rattle.driver_cas.specs.declared.fault.PortFault.{PortFault};
ghost use Rattle.driver_cas.specs.declared.port.Reaped.{Reaped};

use crate::fault::PortFault;
use nvme_model::submission::{Payload, Submissions};

/// A reaped completion.
#[derive(Drop)]
pub struct Reaped {
    /// The completion queue entry.
    pub cqe: [u8; 16],
    /// What a successful Read read, else empty.
    pub payload: Payload,
}

/// The port of one completion queue and the submission queues that use it.
pub trait Port: Drop {
    /// What it published and reaped, the newest first.
    ghost log: { Self → List PortEvent };

    /// How many steps it has made.
    ghost steps: { Self → ℕ };

    /// The submission queue is one of its own.
    ghost owns: { Self → ℕ → Bool };

    /// The second is the first at a later time.
    ghost follows: { Self → Self → Type 0 };

    /// What is known of a port that published this batch, and of what it was just before.
    ghost accepts: { Self → Self → ℕ → List Submission → Type 0 };

    /// What is known of one that answered this batch so, and of what it was just before.
    ghost refuses: { Self → Self → ℕ → List Submission → PortFault → Type 0 };

    /// What is known of one whose Reap was answered so, and of what it was just before.
    ghost reaps: { Self → Self → Result (Option Reaped) PortFault → Type 0 };

    /// What is known where a call was answered so, or not yet: by what the port did before its driver was made, the
    /// port just before the call's Publish and now, the call's submission queue, the number of its first entry there,
    /// and what it does.
    ghost says: { List PortEvent → Self → Self → ℕ → ℕ → Op → Option (Result Reply Status) → Type 0 };

    /// Publishes the batch to one of its submission queues.
    ///
    /// # Errors
    ///
    /// The batch, where it wasn't published.
    fn publish(&mut self, queue: u16, batch: Submissions) -> Result<(), (PortFault, Submissions)>
        requires some { 0 < length batch }
        requires own { owns self.old queue ≡ true }
        ensures later { follows self.old self.new }
        ensures sent { IfOk result (λ _. log self.new ≡ PortEvent.Sent queue batch ∷ log self.old) }
        ensures accepted { IfOk result (λ _. accepts self.old self.new queue batch) }
        ensures back { IfErr result (λ e. (e.1 ≡ batch) × (log self.new ≡ log self.old)) }
        ensures refused { IfErr result (λ e. refuses self.old self.new queue batch e.0) };

    /// Reaps the next completion; None where there is none, or none is known of.
    ///
    /// # Errors
    ///
    /// `Busy` or `NoMemory`; nothing was reaped.
    fn reap(&mut self) -> Result<Option<Reaped>, PortFault>
        ensures later { follows self.old self.new }
        ensures answered { reaps self.old self.new result }
        ensures got { IfOk result (λ o. log self.new ≡ after_reap o (log self.old)) }
        ensures fault { IfErr result (λ f. (log self.new ≡ log self.old) × (f ≢ PortFault.RingFull)) };

    /// A port is itself at a later time; and what is later than a later one is later.
    ghost stays: { (a : Self) → follows a a };

    ghost goes_on: { (a b c : Self) → follows a b → follows b c → follows a c };

    /// It makes no step that isn't in its log.
    ghost sole: { (a b : Self) → follows a b → steps b + length (log a) ≡ steps a + length (log b) };

    /// No call changes which submission queues are its own.
    ghost keeps_own: { (a b : Self) (q : ℕ) → follows a b → owns b q ≡ owns a q };

    /// The answer to a call by what the port did since its driver was made.
    ghost tells: { (before : List PortEvent) (start now : Self) (q j first second : ℕ) (o : Op) → follows start now →
        owns now q ≡ true → is_tidy (since before (log now)) ≡ true → j ≡ length (sent (since before (log start)) q) →
        IsCallIn (since before (log now)) q o first second j →
        says before start now q j o (call_outcome (since before (log now)) q o first second) };
}
