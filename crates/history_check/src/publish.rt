//! Publish: entries go into a submission queue.

ghost use Rattle.std.specs.Prelude.{◌≡◌, IfOk, OnErr};
ghost use Rattle.nvme_model.specs.History.{Past};
ghost use Rattle.nvme_model.specs.declared.config.ConfigNumbers.{ConfigNumbers};
ghost use Rattle.nvme_model.specs.declared.entry.Entry.{Entry};
ghost use Rattle.history_check.specs.Kept.{IsCheckerState, checker_state_in};
ghost use Rattle.history_check.specs.Steps.{Took};

use crate::fields::Fields;
use crate::places::ring_place;
use nvme_model::entry::PublishLine;
use nvme_model::submission::{Submissions, copies_of};
use std::alloc::{AllocError as NoMemory, Global};

/// Takes a Publish, and says whether it may follow.
///
/// # Errors
///
/// `NoMemory` where a growth is refused; nothing has changed.
pub fn take_publish(
    alloc: Global,
    fields: &mut Fields,
    line: &PublishLine,
) -> Result<bool, NoMemory>
    ensures took { (c : ConfigNumbers) (past : Past) → IsCheckerState c past (checker_state_in fields.old) →
        IfOk result (λ b. Took c past (Entry.Publish line.now) b (checker_state_in fields.new)) }
    ensures err { OnErr result (checker_state_in fields.new ≡ checker_state_in fields.old) }
{
    let Some(place) = ring_place(line.queue, fields.submission.len()) else {
        return Ok(false);
    };
    let copy = copies_of(alloc, line.batch.as_slice())?;
    let Ok(()) = fields.submission[place].publish(Submissions::new(copy)) else {
        return Ok(false);
    };
    Ok(true)
}
