//! Which completion queue a submission queue uses.

ghost use Rattle.std.specs.Prelude.{◌≡◌};
ghost use Rattle.nvme_model.specs.Config.{completion_queue};

use history::Config;

/// The completion queue that a submission queue uses.
pub fn completion_queue(config: &Config, queue: u16) -> u16
    ensures value { result ≡ completion_queue config.now queue }
{
    queue.saturating_sub(1) % config.numbers().cqs + 1
}
