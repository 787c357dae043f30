//! The order of effects is told by places in a trace: for whoever computes it.

ghost use Rattle.std.specs.Prelude.{◌&&◌, ◌++◌, ◌≡◌, Bool, List, None, if◌then◌else◌, length, ℕ};
ghost use Rattle.nvme_model.specs.declared.config.ConfigNumbers.{ConfigNumbers};
ghost use Rattle.trace.specs.declared.options.TraceOptions.{TraceOptions};
ghost use Rattle.trace.specs.declared.seen.Seen.{Seen};
ghost use Rattle.refutation.specs.EffectOrders.{EffectName, comes_before, ends_before, last_entry};
ghost use Rattle.refutation.specs.Lines.{answer_in, before_entry};
ghost use Rattle.refutation.specs.Places.{answer_place, comes_before_by_place, is_among};
ghost use Rattle.refutation.specs.Told.{is_sure};
ghost use Rattle.refutation.specs.Slices.{is_covered, none_else};
ghost use Rattle.refutation.specs.Writers.{is_covered_by, none_by, writers_in};

/// An answer stays, whatever lines follow: a beginning of a trace has those of the trace whose places are in it, and
/// the effects that they make sure. So whether an effect comes before another is told by the place of the first one's
/// answer, and by how many lines tell of the second one.
pub fn places_tell_the_order()
    ensures answers { (more trace : List Seen) (q j : ℕ) → answer_in trace q j
        ≡ (if is_among (answer_place (more ++ trace) q j) (length trace) then answer_in (more ++ trace) q j else None) }
    ensures sure { (c : ConfigNumbers) (more trace : List Seen) (q j u : ℕ) → is_sure c trace q j u
        ≡ (is_sure c (more ++ trace) q j u && is_among (answer_place (more ++ trace) q j) (length trace)) }
    ensures lines { (c : ConfigNumbers) (trace : List Seen) (a b : EffectName) → ends_before c trace a b
        ≡ (is_sure c trace a.queue a.number a.unit && is_among (answer_place trace a.queue a.number)
        (length (before_entry trace b.queue (last_entry trace b.queue b.number)))) }
    ensures order { (o : TraceOptions) (c : ConfigNumbers) (trace : List Seen) (a b : EffectName) →
        comes_before o c trace a b ≡ comes_before_by_place o c trace a b }
{}

/// Only what writes a block can have left something there, and only what writes it for sure can have covered that.
pub fn only_writers_are_asked()
    ensures covered { (o : TraceOptions) (c : ConfigNumbers) (trace : List Seen) (l : ℕ) (y r : EffectName) →
        is_covered o c trace l y r ≡ is_covered_by o c trace (writers_in c trace l) y r }
    ensures none { (o : TraceOptions) (c : ConfigNumbers) (trace : List Seen) (names : List EffectName)
        (r : EffectName) (l : ℕ) (fits : List ℕ → Bool) →
        none_else o c trace names r l fits ≡ none_by o c trace (writers_in c trace l) names r l fits }
{}
