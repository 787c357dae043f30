//! Publishes that no controller takes.

ghost use Rattle.std.specs.Prelude.{◌≡◌};
ghost use Rattle.nvme_model.specs.Refusals.{no_queue};
ghost use Rattle.refutation.specs.LineRules.{has_wrong_batch};

use history::Config;
use nvme_model::entry::PublishLine;

pub(crate) fn no_queue(config: &Config, queue: u16) -> bool
    ensures value { result ≡ no_queue config.now queue }
{
    queue == 0 || config.numbers().pairs < queue
}

/// Whether no controller takes this Publish.
pub(crate) fn has_wrong_batch(config: &Config, line: &PublishLine) -> bool
    ensures value { result ≡ has_wrong_batch config.now line.now }
{
    let entries = line.batch.as_slice();
    let room = usize::from(config.numbers().sq_size).saturating_sub(1);
    no_queue(config, line.queue) || entries.is_empty() || room < entries.len()
}
