//! The law of the rules.

ghost use Rattle.std.specs.Prelude.{◌≡◌, ◌∷◌, is_none};
ghost use Rattle.nvme_model.specs.History.{Past};
ghost use Rattle.nvme_model.specs.Legal.{legal};
ghost use Rattle.nvme_model.specs.declared.config.ConfigNumbers.{ConfigNumbers};
ghost use Rattle.nvme_model.specs.declared.entry.Entry.{Entry};
ghost use Rattle.broken_rules.specs.Broken.{first_broken};

/// An entry breaks no rule exactly where the history with it is legal.
pub fn nothing_is_broken_exactly_where_legal()
    ensures { (c : ConfigNumbers) (past : Past) (e : Entry) → is_none (first_broken c past e) ≡ legal c (e ∷ past) }
{}
