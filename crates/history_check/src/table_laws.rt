//! Laws for a checker of one pass: what it keeps of a history is enough to judge the next entry.

ghost use Rattle.std.specs.Prelude.{◌≡◌, ◌∷◌, List, [], Some, None, ℕ, if◌then◌else◌};
ghost use Rattle.nvme_model.specs.History.{Past};
ghost use Rattle.nvme_model.specs.Legal.{IsLegal, legal, may_follow};
ghost use Rattle.nvme_model.specs.Refusals.{refusal};
ghost use Rattle.nvme_model.specs.declared.config.ConfigNumbers.{ConfigNumbers};
ghost use Rattle.nvme_model.specs.declared.entry.Entry.{Entry};
ghost use Rattle.nvme_model.specs.declared.step.Step.{Step};
ghost use Rattle.history_check.specs.Judged.{judged, refusal_by};
ghost use Rattle.history_check.specs.Pass.{pass};
ghost use Rattle.history_check.specs.Judged.{block_fits_by};
ghost use Rattle.history_check.specs.Tables.{CheckedTicket, CheckedUnit, no_tables, tables};
ghost use Rattle.history_check.specs.Taken.{SameIn, blocked_flight, tables_after, value_after};
ghost use Rattle.nvme_model.specs.declared.entry.BlockLine.{BlockLine};
ghost use Rattle.nvme_model.specs.Tickets.{Ticket};

/// What refuses a step, and whether an entry may follow, is read off the tables of a legal history.
pub fn the_tables_judge()
    ensures refusal { (c : ConfigNumbers) (past : Past) (step : Step) →
        IsLegal c past → refusal c past step ≡ refusal_by c (tables c past) step }
    ensures judged { (c : ConfigNumbers) (past : Past) (e : Entry) →
        IsLegal c past → may_follow c past e ≡ judged c (tables c past) e }
{}

/// The tables with one more entry are made of those before it.
pub fn the_tables_go_on()
    ensures start { (c : ConfigNumbers) → tables c [] ≡ no_tables }
    ensures taken { (c : ConfigNumbers) (past : Past) (e : Entry) →
        IsLegal c (e ∷ past) → tables c (e ∷ past) ≡ tables_after c (tables c past) e }
{}

/// A pass that keeps only the tables says of any list of entries whether it is legal.
pub fn one_pass_is_enough()
    ensures { (c : ConfigNumbers) (past : Past) → pass c past ≡ (if legal c past then Some (tables c past) else None) }
{}

/// Of what the blocks are a Block asks only for its unit's own, so a volume's list serves for the contents.
pub fn a_block_asks_for_its_unit()
    ensures fits { (f g : ℕ → List ℕ) (u : CheckedUnit) → SameIn f g u.line.range
        → (x : CheckedTicket) (b : BlockLine) →
        block_fits_by f x b (Some u) ≡ block_fits_by g x b (Some u) }
    ensures flight { (f g : ℕ → List ℕ) (u : CheckedUnit) → SameIn f g u.line.range
        → (x : CheckedTicket) (b : BlockLine) →
        blocked_flight f x b u ≡ blocked_flight g x b u }
    ensures value { (f g : ℕ → List ℕ) (u : CheckedUnit) → SameIn f g u.line.range
        → (k : Ticket) (b : BlockLine) (l : ℕ) →
        f l ≡ g l → value_after f b k u.line.range l ≡ value_after g b k u.line.range l }
{}
