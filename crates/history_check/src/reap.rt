//! Reap: a completion leaves a completion queue.

ghost use Rattle.std.specs.Prelude.{◌≡◌};
ghost use Rattle.nvme_model.specs.History.{Past};
ghost use Rattle.nvme_model.specs.declared.config.ConfigNumbers.{ConfigNumbers};
ghost use Rattle.nvme_model.specs.declared.entry.Entry.{Entry};
ghost use Rattle.history_check.specs.Kept.{IsCheckerState, checker_state_in};
ghost use Rattle.history_check.specs.Steps.{Took};

use crate::fields::Fields;
use crate::places::ring_place;
use nvme_model::entry::ReapLine;

/// Takes a Reap, and says whether it may follow.
pub fn take_reap(fields: &mut Fields, line: &ReapLine) -> bool
    ensures took { (c : ConfigNumbers) (past : Past) →
        IsCheckerState c past (checker_state_in fields.old)
        → Took c past (Entry.Reap line.now) result (checker_state_in fields.new) }
{
    let Some(place) = ring_place(line.queue, fields.completion.len()) else {
        return false;
    };
    let Ok(completion) = fields.completion[place].reap() else {
        return false;
    };
    completion.cqe.as_slice() == line.cqe.as_slice()
}
