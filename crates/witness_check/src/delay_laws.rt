//! What delays change and what they keep, as the contract of a function that does nothing.

ghost use Rattle.std.specs.Prelude.{◌≡◌, ◌++◌, ◌∷◌, List, false, true};
ghost use Rattle.nvme_model.specs.History.{Past};
ghost use Rattle.nvme_model.specs.declared.config.ConfigNumbers.{ConfigNumbers};
ghost use Rattle.trace.specs.Observed.{Explains};
ghost use Rattle.trace.specs.declared.options.TraceOptions.{TraceOptions};
ghost use Rattle.trace.specs.declared.seen.Seen.{Seen};
ghost use Rattle.witness_check.specs.Delayed.{ExplainsDelayed, IsDelayed, count, is_reap, lane};

/// What explains a trace explains it where there may be delays. And a Publish that came before a Reap is logged before
/// it: of what came and what was logged so, the line of each lane with the same number is the same.
pub fn delays_keep_a_publish_before_a_reap()
    ensures without { (o : TraceOptions) (c : ConfigNumbers) (past : Past) (trace : List Seen) →
        Explains o c past trace → ExplainsDelayed o c past trace }
    ensures keeps { (came trace later between earlier : List Seen) (reap publish : Seen) → IsDelayed came trace →
        came ≡ later ++ (reap ∷ (between ++ (publish ∷ earlier))) → is_reap reap ≡ true → is_reap publish ≡ false →
        (after amid before : List Seen) × (trace ≡ after ++ (reap ∷ (amid ++ (publish ∷ before))))
        × (count (lane reap) (amid ++ (publish ∷ before)) ≡ count (lane reap) (between ++ (publish ∷ earlier)))
        × (count (lane publish) before ≡ count (lane publish) earlier) }
{}
