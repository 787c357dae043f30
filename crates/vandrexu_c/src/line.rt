//! The lines of a history that a step writes of its own: all but a Publish's, which says what the step was given.

ghost use Rattle.std.specs.Prelude.{◌≡◌};
ghost use Rattle.nvme_model.specs.History.{step_of};
ghost use Rattle.nvme_model.specs.declared.entry.Entry.{Entry as TheEntry};
ghost use Rattle.vandrexu_c.specs.Replays.{AreOne};

use crate::answers::{found_in, mode_in};
use broken_rules::same_verdict;
use nvme_model::entry::{BlockLine, Entry, FetchLine, GrantLine, PostLine, ReapLine, UnitRange};
use nvme_model::step::Step;

/// Such a line.
pub(crate) trait Line {
    /// Its entry.
    ghost entry: { Self → TheEntry };

    /// The step that it is of.
    fn step(&self) -> Step
        ensures value { result ≡ step_of (entry self.now) };

    /// Whether this entry is its own.
    fn is(&self, made: &Entry) -> bool
        ensures value { AreOne result made.now (entry self.now) };
}

// Whether two ranges are one.
fn same_range(range: UnitRange, other: UnitRange) -> bool
    ensures value { AreOne result range other }
{
    let (one, two) = (range.get(), other.get());
    one.slba == two.slba && one.blocks == two.blocks
}

impl Line for FetchLine {
    ghost use Rattle.nvme_model.specs.declared.entry.Entry.{Entry as TheEntry};

    ghost entry = { TheEntry.Fetch };

    fn step(&self) -> Step {
        Step::Fetch(self.queue)
    }

    fn is(&self, made: &Entry) -> bool {
        match made {
            Entry::Fetch(made) => {
                made.queue == self.queue
                    && made.ticket == self.ticket
                    && same_verdict(made.verdict, self.verdict)
            }
            Entry::Publish(_)
            | Entry::Grant(_)
            | Entry::Block(_)
            | Entry::Post(_)
            | Entry::Reap(_) => false,
        }
    }
}

impl Line for GrantLine {
    ghost use Rattle.nvme_model.specs.declared.entry.Entry.{Entry as TheEntry};

    ghost entry = { TheEntry.Grant };

    fn step(&self) -> Step {
        Step::Grant(self.ticket)
    }

    fn is(&self, made: &Entry) -> bool {
        match made {
            Entry::Grant(made) => {
                made.ticket == self.ticket
                    && made.unit == self.unit
                    && same_range(made.range, self.range)
                    && mode_in(made.mode) == mode_in(self.mode)
            }
            Entry::Publish(_)
            | Entry::Fetch(_)
            | Entry::Block(_)
            | Entry::Post(_)
            | Entry::Reap(_) => false,
        }
    }
}

impl Line for BlockLine {
    ghost use Rattle.nvme_model.specs.declared.entry.Entry.{Entry as TheEntry};

    ghost entry = { TheEntry.Block };

    fn step(&self) -> Step {
        Step::Block(self.ticket)
    }

    fn is(&self, made: &Entry) -> bool {
        match made {
            Entry::Block(made) => {
                made.ticket == self.ticket
                    && made.unit == self.unit
                    && made.lba == self.lba
                    && found_in(made.found) == found_in(self.found)
                    && made.effect == self.effect
            }
            Entry::Publish(_)
            | Entry::Fetch(_)
            | Entry::Grant(_)
            | Entry::Post(_)
            | Entry::Reap(_) => false,
        }
    }
}

impl Line for PostLine {
    ghost use Rattle.nvme_model.specs.declared.entry.Entry.{Entry as TheEntry};

    ghost entry = { TheEntry.Post };

    fn step(&self) -> Step {
        Step::Post(self.ticket)
    }

    fn is(&self, made: &Entry) -> bool {
        match made {
            Entry::Post(made) => {
                made.ticket == self.ticket
                    && made.cqe.as_slice() == self.cqe.as_slice()
                    && made.payload.as_slice() == self.payload.as_slice()
            }
            Entry::Publish(_)
            | Entry::Fetch(_)
            | Entry::Grant(_)
            | Entry::Block(_)
            | Entry::Reap(_) => false,
        }
    }
}

impl Line for ReapLine {
    ghost use Rattle.nvme_model.specs.declared.entry.Entry.{Entry as TheEntry};

    ghost entry = { TheEntry.Reap };

    fn step(&self) -> Step {
        Step::Reap(self.queue)
    }

    fn is(&self, made: &Entry) -> bool {
        match made {
            Entry::Reap(made) => {
                made.queue == self.queue && made.cqe.as_slice() == self.cqe.as_slice()
            }
            Entry::Publish(_)
            | Entry::Fetch(_)
            | Entry::Grant(_)
            | Entry::Block(_)
            | Entry::Post(_) => false,
        }
    }
}
