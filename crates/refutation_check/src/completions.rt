//! Completions that no history gives, by their own bytes and how many were reaped before them.

ghost use Rattle.std.specs.Prelude.{◌≡◌, ◌<◌, ◌≤◌, length, not, reverse, ◌==◌};
ghost use Rattle.nvme_model.specs.Completions.{phase};
ghost use Rattle.nvme_model.specs.Config.{completion_queue};
ghost use Rattle.refutation_check.specs.Counting.{is_reaped_from};
ghost use Rattle.refutation.specs.LineRules.{has_wrong_phase, names_wrong_queue};
ghost use Rattle.refutation.specs.Lines.{reaped_in};
ghost use Rattle.refutation.specs.ReadRules.{sets_read_bits};

use crate::bytes::queue_of;
use crate::fields::{is_clean, phase_of};
use crate::publishes::no_queue;
use history::Config;
use trace::{ReapedLine, Seen, TraceOptions, read_completion};

/// The completion queue that a submission queue uses.
pub(crate) fn completion_queue(config: &Config, queue: u16) -> u16
    ensures value { result ≡ completion_queue config.now queue }
{
    queue.saturating_sub(1) % config.numbers().cqs + 1
}

/// Whether a bit is set, as options read it, that this profile leaves zero.
pub(crate) fn sets_read_bits(options: &TraceOptions, line: &ReapedLine) -> bool
    ensures value { result ≡ sets_read_bits options.now line.now }
{
    !is_clean(&read_completion(options, &line.cqe))
}

/// Whether it names no submission queue that uses its completion queue.
pub(crate) fn names_wrong_queue(config: &Config, line: &ReapedLine) -> bool
    ensures value { result ≡ names_wrong_queue config.now line.now }
{
    let queue = queue_of(&line.cqe);
    no_queue(config, queue) || completion_queue(config, queue) != line.queue
}

fn phase(number: usize, slots: u16) -> u16
    requires some { 0 < slots }
    ensures value { result ≡ phase number slots }
{
    if (number / usize::from(slots)) % 2 == 0 {
        1
    } else {
        0
    }
}

// How many completions these lines, the oldest first, reap from a completion queue.
fn reaped_in(trace: &[Seen], queue: u16) -> usize
    ensures value { result ≡ reaped_in (reverse trace.now) queue }
    ensures bound { result ≤ length trace.now }
{
    let mut count = 0;
    for line in trace {
        if is_reaped(line, queue) {
            count += 1;
        }
    }
    count
}

fn is_reaped(line: &Seen, queue: u16) -> bool
    ensures value { result ≡ is_reaped_from line.now queue }
{
    match line {
        Seen::Published(_) => false,
        Seen::Reaped(line) => line.queue == queue,
    }
}

/// Whether its phase tag isn't that of the slot that comes next behind these lines.
pub(crate) fn has_wrong_phase(config: &Config, trace: &[Seen], line: &ReapedLine) -> bool
    ensures value { result ≡ has_wrong_phase config.now (reverse trace.now) line.now }
{
    let slots = config.numbers().cq_size;
    phase_of(&line.cqe) != phase(reaped_in(trace, line.queue), slots)
}
