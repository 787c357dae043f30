//! What is forgotten at a time.

ghost use Rattle.std.specs.Prelude.{◌≡◌};
ghost use Rattle.history.specs.Gone.{part_past};

use crate::gone::Gone;
use nvme_model::entry::Entry;
use std::snapshot::Snapshot;

/// Nothing, or so many entries from the front of those that are kept, behind what was forgotten before.
#[derive(Drop)]
pub(crate) enum Part {
    Nothing,
    Front(Snapshot<Gone>, usize, Snapshot<Vec<Entry>>),
}

impl Part {
    /// What was forgotten then.
    pub(crate) fn gone(&self) -> Gone
        ensures { result.past ≡ part_past self.now }
    {
        Gone {}
    }
}
