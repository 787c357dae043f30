//! What looks at the entries of a run as they are made.

ghost use Rattle.std.specs.Prelude.{◌∷◌, OnOk};
ghost use Rattle.nvme_model.specs.History.{Past};
ghost use Rattle.nvme_model.specs.declared.config.ConfigNumbers.{ConfigNumbers};

use history::Entry;
use std::alloc::AllocError as NoMemory;

/// What looks at the entries of a run as they are made, one after the other.
pub(crate) trait Watch {
    // it is of this configuration, and has seen this history
    ghost stands: { Self → ConfigNumbers → Past → Type 0 };

    /// Sees the next entry.
    ///
    /// # Errors
    ///
    /// `NoMemory` where a growth is refused, or a count can't grow.
    fn see(&mut self, entry: &Entry) -> Result<(), NoMemory>
        ensures seen { (c : ConfigNumbers) (past : Past) →
            stands self.old c past → OnOk result (stands self.new c (entry.now ∷ past)) };
}

/// What looks at no entry.
#[derive(Drop)]
pub(crate) struct Unwatched;

impl Watch for Unwatched {
    ghost stands = { λ _ _ _. Unit {0} };

    fn see(&mut self, _entry: &Entry) -> Result<(), NoMemory> {
        Ok(())
    }
}
