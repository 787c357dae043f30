//! What all turns of a race share.

ghost use Rattle.std.specs.Prelude.{◌≤◌};

use hosts::OpenGate;
use race_hosts::Play;
use race_numbers::Race;
use shared_system::System;

/// What all turns of a race share: it is lent to each of them.
#[derive(Clone, Copy)]
pub struct Scene<'a> {
    pub system: &'a System<OpenGate>,
    pub play: &'a Play,
    pub race: &'a Race,
    /// How many submission queues the fetcher asks in turn.
    pub queues: u16,
    ghost some: { 1 ≤ queues },
}

impl Scene<'_> {
    ghost use Rattle.std.specs.Prelude.{◌+◌, ◌≡◌};

    /// How many callers serve: the workers and the fetcher.
    pub(crate) fn servers(&self) -> usize
        ensures { result ≡ self.now.race.now.workers + 1 }
    {
        usize::from(self.race.workers) + 1
    }
}
