//! What the lines of a trace tell of each legal history that shows it, and what their newest line can't be.

ghost use Rattle.std.specs.Prelude.{◌≡◌, ◌++◌, ◌∷◌, ℕ, List, None, Some, false, true};
ghost use Rattle.nvme_model.specs.Completions.{reaped_count};
ghost use Rattle.nvme_model.specs.Config.{is_accepted};
ghost use Rattle.nvme_model.specs.History.{Past};
ghost use Rattle.nvme_model.specs.Legal.{IsLegal};
ghost use Rattle.nvme_model.specs.Queues.{published_entries};
ghost use Rattle.nvme_model.specs.declared.config.ConfigNumbers.{ConfigNumbers};
ghost use Rattle.nvme_model.specs.declared.entry.PublishLine.{PublishLine};
ghost use Rattle.nvme_model.specs.declared.entry.PostLine.{PostLine};
ghost use Rattle.host_laws.specs.Calls.{IsEntryWaiting, reaped_post};
ghost use Rattle.trace.specs.Observed.{Explains, observed};
ghost use Rattle.trace.specs.Options.{no_options};
ghost use Rattle.trace.specs.declared.options.TraceOptions.{TraceOptions};
ghost use Rattle.trace.specs.declared.seen.ReapedLine.{ReapedLine};
ghost use Rattle.trace.specs.declared.seen.Seen.{Seen};
ghost use Rattle.refutation.specs.LineRules.{has_wrong_head, has_wrong_phase};
ghost use Rattle.refutation.specs.LineRules.{has_wrong_status, is_bad_line, names_no_entry};
ghost use Rattle.refutation.specs.LineRules.{has_early_second, has_wrong_batch, has_wrong_data};
ghost use Rattle.refutation.specs.LineRules.{has_wrong_second, names_wrong_queue};
ghost use Rattle.refutation.specs.LineRules.{sets_unused_bits};
ghost use Rattle.refutation.specs.Lines.{answer_in, is_tidy, published_in, reaped_in, waiting_in};
ghost use Rattle.refutation.specs.ReadRules.{is_bad_read_line};

/// What hosts saw of a legal history tells which entries are published and how many completions are reaped. Where no
/// CID is published again while it waits, it tells also which entries wait, and by which bytes and data each other one
/// was answered.
pub fn a_trace_tells_its_entries()
    ensures published { (c : ConfigNumbers) (past : Past) (q : ℕ) →
        published_entries past q ≡ published_in (observed c past) q }
    ensures reaped { (c : ConfigNumbers) (past : Past) (n : ℕ) → reaped_count past n ≡ reaped_in (observed c past) n }
    ensures begins { (more trace : List Seen) → is_tidy (more ++ trace) ≡ true → is_tidy trace ≡ true }
    ensures waits { (c : ConfigNumbers) (past : Past) (q cid j : ℕ) → IsLegal c past →
        is_tidy (observed c past) ≡ true → IsEntryWaiting c past q cid j →
        waiting_in (observed c past) q cid ≡ Some j }
    ensures answered { (c : ConfigNumbers) (past : Past) (q j : ℕ) (r : ReapedLine) → IsLegal c past →
        is_tidy (observed c past) ≡ true → answer_in (observed c past) q j ≡ Some r →
        (p : PostLine) × (reaped_post c past q j ≡ Some p) × (p.cqe ≡ r.cqe) × (p.payload ≡ r.payload) }
    ensures unanswered { (c : ConfigNumbers) (past : Past) (q j : ℕ) → IsLegal c past →
        is_tidy (observed c past) ≡ true → answer_in (observed c past) q j ≡ None → reaped_post c past q j ≡ None }
{}

// ---- the newest line of a trace

/// In no history that explains a trace does the newest line's completion set a bit that this profile leaves zero.
pub fn no_completion_sets_unused_bits()
    ensures { (c : ConfigNumbers) (past : Past) (r : ReapedLine) (trace : List Seen) →
        Explains no_options c past (Seen.Reaped r ∷ trace) → sets_unused_bits r ≡ false }
{}

/// Its phase tag is that of its slot.
pub fn no_completion_has_a_wrong_phase()
    ensures { (c : ConfigNumbers) (past : Past) (r : ReapedLine) (trace : List Seen) →
        Explains no_options c past (Seen.Reaped r ∷ trace) → has_wrong_phase c trace r ≡ false }
{}

/// In an accepted configuration it names a submission queue that uses its completion queue.
pub fn no_completion_names_a_wrong_queue()
    ensures { (c : ConfigNumbers) (past : Past) (r : ReapedLine) (trace : List Seen) → is_accepted c ≡ true →
        Explains no_options c past (Seen.Reaped r ∷ trace) → names_wrong_queue c r ≡ false }
{}

/// Where no CID is published again while it waits, it names an entry that waits.
pub fn no_completion_names_no_entry()
    ensures { (c : ConfigNumbers) (past : Past) (r : ReapedLine) (trace : List Seen) → is_tidy trace ≡ true →
        Explains no_options c past (Seen.Reaped r ∷ trace) → names_no_entry trace r ≡ false }
{}

/// In an accepted configuration its SQHD fits what is published, what was said before, and its own entry.
pub fn no_completion_has_a_wrong_head()
    ensures { (c : ConfigNumbers) (past : Past) (r : ReapedLine) (trace : List Seen) → is_accepted c ≡ true →
        is_tidy trace ≡ true → Explains no_options c past (Seen.Reaped r ∷ trace) → has_wrong_head c trace r ≡ false }
{}

/// Its status is one that its entry may be answered, by the entry's own fields and those of its neighbours.
pub fn no_completion_has_a_wrong_status()
    ensures { (c : ConfigNumbers) (past : Past) (r : ReapedLine) (trace : List Seen) → is_tidy trace ≡ true →
        Explains no_options c past (Seen.Reaped r ∷ trace) → has_wrong_status c trace r ≡ false }
{}

/// Where it answers the second command of a pair, its status goes with what the first was answered.
pub fn no_second_is_answered_apart()
    ensures { (c : ConfigNumbers) (past : Past) (r : ReapedLine) (trace : List Seen) → is_tidy trace ≡ true →
        Explains no_options c past (Seen.Reaped r ∷ trace) → has_wrong_second trace r ≡ false }
{}

/// Where it answers the second command of a pair before its first, it is the answer of a second that was fetched alone.
pub fn no_second_is_answered_early()
    ensures { (c : ConfigNumbers) (past : Past) (r : ReapedLine) (trace : List Seen) → is_tidy trace ≡ true →
        Explains no_options c past (Seen.Reaped r ∷ trace) → has_early_second trace r ≡ false }
{}

/// The data beside it is that of a Read that succeeded, and beside any other completion is none.
pub fn no_completion_has_wrong_data()
    ensures { (c : ConfigNumbers) (past : Past) (r : ReapedLine) (trace : List Seen) → is_tidy trace ≡ true →
        Explains no_options c past (Seen.Reaped r ∷ trace) → has_wrong_data trace r ≡ false }
{}

/// No Publish that no controller takes is the newest line.
pub fn no_publish_has_a_wrong_batch()
    ensures { (c : ConfigNumbers) (past : Past) (p : PublishLine) (trace : List Seen) →
        Explains no_options c past (Seen.Published p ∷ trace) → has_wrong_batch c p ≡ false }
{}

/// In an accepted configuration no history explains a trace that has a bad line, whatever follows it.
pub fn no_history_explains_a_bad_line()
    ensures { (c : ConfigNumbers) (past : Past) (more trace : List Seen) → is_accepted c ≡ true →
        is_bad_line c trace ≡ true → Explains no_options c past (more ++ trace) → ⊥ }
{}

// ---- as options read a trace

/// The same of a trace as options read it: a line is bad by the rules that ask only for what they compare.
pub fn no_history_explains_a_bad_line_as_read()
    ensures { (o : TraceOptions) (c : ConfigNumbers) (past : Past) (more trace : List Seen) →
        is_accepted c ≡ true → is_bad_read_line o c trace ≡ true →
        Explains o c past (more ++ trace) → ⊥ }
{}
