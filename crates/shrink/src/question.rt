//! The question whether lines still fail.

ghost use Rattle.std.specs.Prelude.{Bool, IfErr, IfOk, List, ℕ};
ghost use Rattle.shrink.specs.declared.question.Unanswered.{Unanswered as TheUnanswered};

use crate::text_line::TextLine;
use std::alloc::AllocError;
use thiserror::Error;

/// Why a question has no answer.
#[derive(Clone, Copy, Debug, Drop, Error, PartialEq, Eq)]
pub enum Unanswered {
    /// The answers ended.
    #[error("no more answers")]
    Ended,
    /// The answer is none.
    #[error("bad answer")]
    BadAnswer,
    /// Reading the answer failed.
    #[error("input failed")]
    Input,
    /// Asking failed.
    #[error("output failed")]
    Output,
    /// A growth was refused.
    #[error("no memory")]
    NoMemory,
}

impl From<AllocError> for Unanswered {
    ghost use Rattle.std.specs.Prelude.{◌≡◌};
    ghost use Rattle.shrink.specs.declared.question.Unanswered.TheVariants.{NoMemory};

    ghost from_gives = { λ _ why. why ≡ NoMemory };

    fn from(_error: AllocError) -> Unanswered {
        Unanswered::NoMemory
    }
}

/// Whoever says whether lines still fail.
pub trait Question {
    // asked about these lines it answers whether they fail, and is then this
    ghost asks: { Self → List (List ℕ) → Bool → Self → Type 0 };

    // asked about these lines it gives no answer, for this reason, and is then this
    ghost stops: { Self → List (List ℕ) → TheUnanswered → Self → Type 0 };

    /// Whether these lines still fail.
    fn still_fails(&mut self, lines: &[TextLine]) -> Result<bool, Unanswered>
        ensures answered { IfOk result (λ fails. asks self.old lines.now fails self.new) }
        ensures stopped { IfErr result (λ why. stops self.old lines.now why self.new) };
}
