//! The laws of traces: each is the contract of a function that does nothing.

ghost use Rattle.std.specs.Prelude.{◌≡◌, ◌≤◌, ◌∷◌, ◌++◌, ◌↔◌, List, false, length, true};
ghost use Rattle.nvme_model.specs.History.{Past};
ghost use Rattle.nvme_model.specs.Legal.{IsLegal};
ghost use Rattle.nvme_model.specs.declared.config.ConfigNumbers.{ConfigNumbers};
ghost use Rattle.nvme_model.specs.declared.entry.Entry.{Entry};
ghost use Rattle.trace.specs.Options.{no_options};
ghost use Rattle.trace.specs.Observed.{Explains, is_seen, observed};
ghost use Rattle.trace.specs.declared.options.TraceOptions.{TraceOptions};
ghost use Rattle.trace.specs.declared.seen.Seen.{Seen};

/// Where a history explains a trace, each beginning of it explains a beginning of the trace, whatever the options.
pub fn beginnings_are_explained()
    ensures { (o : TraceOptions) (c : ConfigNumbers) (later past : Past) (trace : List Seen) →
        Explains o c (later ++ past) trace →
        (more earlier : List Seen) × (trace ≡ more ++ earlier) × Explains o c past earlier }
{}

/// Without options a history explains exactly what hosts saw of it: each byte of each line is compared.
pub fn no_option_leaves_nothing_out()
    ensures { (c : ConfigNumbers) (past : Past) (trace : List Seen) →
        Explains no_options c past trace ↔ (IsLegal c past × (observed c past ≡ trace)) }
{}

/// A Publish and a Reap are one thing more that is seen, and of any other entry nothing is.
pub fn only_publishes_and_reaps_are_seen()
    ensures seen { (c : ConfigNumbers) (past : Past) (e : Entry) → is_seen e ≡ true →
        (s : Seen) × (observed c (e ∷ past) ≡ s ∷ observed c past) }
    ensures hidden { (c : ConfigNumbers) (past : Past) (e : Entry) → is_seen e ≡ false →
        observed c (e ∷ past) ≡ observed c past }
{}

/// What was seen of a history stays, whatever comes later.
pub fn what_was_seen_stays()
    ensures begins { (c : ConfigNumbers) (later past : Past) →
        (more : List Seen) × (observed c (later ++ past) ≡ more ++ observed c past) }
    ensures count { (c : ConfigNumbers) (later past : Past) →
        length (observed c past) ≤ length (observed c (later ++ past)) }
{}
