//! Whether two verdicts are one.

ghost use Rattle.std.specs.Prelude.{◌≡◌};
ghost use Rattle.nvme_model.specs.Statuses.{same_status};
ghost use Rattle.nvme_model.specs.Verdict.{same_verdict};
ghost use Rattle.nvme_model.specs.declared.status.Verdict.{Verdict};

use nvme_model::status::{Status, Verdict};

// Whether two statuses are the same.
fn same_status(status: Status, other: Status) -> bool
    ensures value { result ≡ same_status status other }
{
    status.sct() == other.sct() && status.sc() == other.sc()
}

// Whether a verdict is that one command failed so.
fn is_single_failed(verdict: Verdict, status: Status) -> bool
    ensures value { result ≡ same_verdict (Verdict.SingleFailed status) verdict }
{
    match verdict {
        Verdict::SingleFailed(other) => same_status(status, other),
        Verdict::Single | Verdict::Pair | Verdict::PairFailed(_, _) => false,
    }
}

// Whether a verdict is that a pair failed so.
fn is_pair_failed(verdict: Verdict, first: Status, second: Status) -> bool
    ensures value { result ≡ same_verdict (Verdict.PairFailed first second) verdict }
{
    match verdict {
        Verdict::PairFailed(one, other) => same_status(first, one) && same_status(second, other),
        Verdict::Single | Verdict::SingleFailed(_) | Verdict::Pair => false,
    }
}

/// Whether two verdicts are the same.
pub fn same_verdict(verdict: Verdict, other: Verdict) -> bool
    ensures value { result ≡ same_verdict verdict other }
{
    match verdict {
        Verdict::Single => matches!(other, Verdict::Single),
        Verdict::Pair => matches!(other, Verdict::Pair),
        Verdict::SingleFailed(status) => is_single_failed(other, status),
        Verdict::PairFailed(first, second) => is_pair_failed(other, first, second),
    }
}
