//! What is refuted has no explanation.

ghost use Rattle.std.specs.Prelude.{◌≡◌, List, true, ℕ};
ghost use Rattle.nvme_model.specs.Config.{is_accepted};
ghost use Rattle.nvme_model.specs.History.{Past};
ghost use Rattle.nvme_model.specs.declared.config.ConfigNumbers.{ConfigNumbers};
ghost use Rattle.trace.specs.Observed.{Explains};
ghost use Rattle.trace.specs.declared.options.TraceOptions.{TraceOptions};
ghost use Rattle.trace.specs.declared.seen.Seen.{Seen};
ghost use Rattle.refutation.specs.Refuted.{is_refuted};

/// In an accepted configuration no legal history explains, as options read it, a trace whose first lines are refuted.
pub fn nothing_explains_what_is_refuted()
    ensures { (o : TraceOptions) (c : ConfigNumbers) (past : Past) (trace : List Seen) (lines : ℕ)
        (commands : List (ℕ × ℕ)) (blocks : List ℕ) → is_accepted c ≡ true →
        is_refuted o c trace lines commands blocks ≡ true → Explains o c past trace → ⊥ }
{}
