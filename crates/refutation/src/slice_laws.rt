//! What a trace tells of the effects of each history that explains it. A command is named by its submission queue and
//! its number there, from 0; its units by their numbers, from 0.

ghost use Rattle.std.specs.Prelude.{◌++◌, ◌≡◌, ◌≤◌, ◌∷◌, List, None, Some, false, length, true, ℕ};
ghost use Rattle.nvme_model.specs.Config.{is_accepted};
ghost use Rattle.nvme_model.specs.History.{Past};
ghost use Rattle.nvme_model.specs.Legal.{IsLegal};
ghost use Rattle.nvme_model.specs.Queues.{published_entries};
ghost use Rattle.nvme_model.specs.declared.config.ConfigNumbers.{ConfigNumbers};
ghost use Rattle.nvme_model.specs.declared.entry.BlockLine.{BlockLine};
ghost use Rattle.nvme_model.specs.declared.entry.Entry.{Entry};
ghost use Rattle.trace.specs.Observed.{Explains};
ghost use Rattle.trace.specs.declared.options.TraceOptions.{TraceOptions};
ghost use Rattle.trace.specs.declared.seen.Seen.{Seen};
ghost use Rattle.refutation.specs.Apart.{held_at_first, is_own_queue};
ghost use Rattle.refutation.specs.Effects.{effect_by, is_effect_of};
ghost use Rattle.refutation.specs.Lines.{is_tidy};
ghost use Rattle.refutation.specs.Refuted.{lacks_order};
ghost use Rattle.refutation.specs.EffectOrders.{EffectName, comes_before};
ghost use Rattle.refutation.specs.Slices.{slice_of};
ghost use Rattle.refutation.specs.Told.{is_sure};
ghost use Rattle.refutation.specs.Orders.{IsOrder};

/// A unit of a command has one effect, which stays where it is, and none before its entry is published; one that isn't
/// in a beginning of a history stands behind it.
pub fn each_unit_has_one_effect()
    ensures once { (c : ConfigNumbers) (past : Past) (b : BlockLine) (q j u : ℕ) →
        IsLegal c (Entry.Block b ∷ past) → is_effect_of past b q j u ≡ true → effect_by past q j u ≡ None }
    ensures stays { (c : ConfigNumbers) (later past : Past) (q j u : ℕ) (before : Past) → IsLegal c (later ++ past) →
        effect_by past q j u ≡ Some before → effect_by (later ++ past) q j u ≡ Some before }
    ensures published { (c : ConfigNumbers) (past : Past) (q j u : ℕ) → IsLegal c past →
        length (published_entries past q) ≤ j → effect_by past q j u ≡ None }
    ensures behind { (later past : Past) (q j u : ℕ) (before : Past) →
        effect_by (later ++ past) q j u ≡ Some before → effect_by past q j u ≡ None →
        (after : Past) × (before ≡ after ++ past) }
{}

/// Each history that explains a trace has the effects that are sure, and keeps the order that the trace's lines tell:
/// an effect whose command was answered before another's command was published stands before it, and so does that of an
/// earlier unit of the same command, and, where SQHD is asked, one that was there when a completion was posted whose
/// SQHD says that the other's command wasn't fetched.
pub fn effects_keep_the_order_of_lines()
    ensures sure { (o : TraceOptions) (c : ConfigNumbers) (past : Past) (trace : List Seen) (q j u : ℕ) →
        is_accepted c ≡ true → Explains o c past trace → is_tidy trace ≡ true →
        is_sure c trace q j u ≡ true → (before : Past) × (effect_by past q j u ≡ Some before) }
    ensures order { (o : TraceOptions) (c : ConfigNumbers) (past : Past) (trace : List Seen) (a b : EffectName)
        (before : Past) → is_accepted c ≡ true → Explains o c past trace → is_tidy trace ≡ true →
        is_own_queue o c a.queue ≡ true → is_own_queue o c b.queue ≡ true → comes_before o c trace a b ≡ true →
        effect_by past b.queue b.number b.unit ≡ Some before →
        (first : Past) × (effect_by before a.queue a.number a.unit ≡ Some first) }
{}

/// Each history that explains a trace gives an order of each slice of it: the order of its effects. So no history
/// explains a trace of which a slice has no order, whatever lines follow.
pub fn each_history_gives_an_order()
    ensures order { (o : TraceOptions) (c : ConfigNumbers) (past : Past) (more trace : List Seen)
        (commands : List (ℕ × ℕ)) (blocks : List ℕ) → is_accepted c ≡ true →
        Explains o c past (more ++ trace) → is_tidy trace ≡ true →
        (order : List ℕ) × IsOrder (held_at_first o) (slice_of o c trace commands blocks) order }
    ensures refuted { (o : TraceOptions) (c : ConfigNumbers) (past : Past) (more trace : List Seen)
        (commands : List (ℕ × ℕ)) (blocks : List ℕ) → is_accepted c ≡ true →
        lacks_order o c trace commands blocks ≡ true → Explains o c past (more ++ trace) → ⊥ }
{}
