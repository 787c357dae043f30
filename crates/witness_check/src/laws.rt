//! That a history and a trace have one verdict, as the contract of a function that does nothing.

ghost use Rattle.std.specs.Prelude.{◌≡◌, List};
ghost use Rattle.nvme_model.specs.History.{Past};
ghost use Rattle.nvme_model.specs.declared.config.ConfigNumbers.{ConfigNumbers};
ghost use Rattle.trace.specs.declared.options.TraceOptions.{TraceOptions};
ghost use Rattle.trace.specs.declared.seen.Seen.{Seen};
ghost use Rattle.witness_check.specs.Compared.{IsVerdict};
ghost use Rattle.witness_check.specs.declared.comparison.TraceVerdict.{TraceVerdict};

/// Of a history and a trace one verdict alone can be said: so each is said exactly where it holds.
pub fn a_history_has_one_verdict()
    ensures { (o : TraceOptions) (c : ConfigNumbers) (past : Past) (trace : List Seen) (v w : TraceVerdict) →
        IsVerdict o c past trace v → IsVerdict o c past trace w → v ≡ w }
{}
