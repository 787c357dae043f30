//! How the text of a trace grows, as the contract of a function that does nothing.

ghost use Rattle.std.specs.Prelude.{◌≡◌, ◌++◌, ◌∷◌, [], List, ℕ};
ghost use Rattle.nvme_model.specs.History.{Past};
ghost use Rattle.nvme_model.specs.declared.config.ConfigNumbers.{ConfigNumbers};
ghost use Rattle.nvme_model.specs.declared.entry.Entry.{Entry};
ghost use Rattle.history.specs.ConfigLine.{config_line};
ghost use Rattle.trace.specs.Observed.{shown};
ghost use Rattle.witness_check.specs.TraceText.{seen_text, trace_text};

/// A trace begins with its configuration line, and each entry adds the line of what hosts see of it. So the text of a
/// later history's trace begins with that of an earlier one's.
pub fn a_trace_goes_on_line_by_line()
    ensures begins { (c : ConfigNumbers) → trace_text c [] ≡ config_line c ++ 10 ∷ [] }
    ensures grows { (c : ConfigNumbers) (past : Past) (e : Entry) →
        trace_text c (e ∷ past) ≡ trace_text c past ++ seen_text (shown c past e) }
    ensures later { (c : ConfigNumbers) (later past : Past) →
        (rest : List ℕ) × (trace_text c (later ++ past) ≡ trace_text c past ++ rest) }
{}
