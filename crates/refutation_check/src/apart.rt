//! What a trace lacks where contents are unknown.

ghost use Rattle.std.specs.Prelude.{◌≡◌};
ghost use Rattle.trace.specs.declared.seen.Seen.{Seen};
ghost use Rattle.refutation.specs.Apart.{asks_heads, held_at_first, is_apart, is_lacked};

use crate::block_data::zero_block;
use crate::bytes::queue_of;
use history::Config;
use nvme_model::entry::PublishLine;
use trace::{ReapedLine, TraceOptions};

/// Whether a trace has each completion of its completion queues.
pub(crate) fn is_apart(options: &TraceOptions, config: &Config) -> bool
    ensures value { result ≡ is_apart options.now config.now }
{
    let numbers = config.numbers();
    !options.contents_unknown || numbers.cqs == numbers.pairs
}

/// Whether SQHD tells of the order of effects.
pub(crate) fn asks_heads(options: &TraceOptions) -> bool
    ensures value { result ≡ asks_heads options.now }
{
    !options.contents_unknown && !options.ignored.sqhd
}

/// What blocks hold that nothing of a trace wrote: zeros, or no bytes, where that isn't known.
pub(crate) fn held_at_first(options: &TraceOptions) -> &'static [u8]
    ensures value { result.now ≡ held_at_first options.now }
{
    if options.contents_unknown {
        &[]
    } else {
        zero_block()
    }
}

/// Whether a Publish is to the queue pair that the trace lacks.
pub(crate) fn is_lacked_publish(options: &TraceOptions, config: &Config, line: &PublishLine) -> bool
    ensures value { result ≡ is_lacked options.now config.now (Seen.Published line.now) }
{
    if options.contents_unknown {
        line.queue == config.numbers().pairs
    } else {
        false
    }
}

/// Whether a completion names the queue pair that the trace lacks.
pub(crate) fn is_lacked_reap(options: &TraceOptions, config: &Config, line: &ReapedLine) -> bool
    ensures value { result ≡ is_lacked options.now config.now (Seen.Reaped line.now) }
{
    if options.contents_unknown {
        queue_of(&line.cqe) == config.numbers().pairs
    } else {
        false
    }
}
