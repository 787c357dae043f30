//! Whether something seen is of the queue pair that stands for what was there, and whether it may come now.

ghost use Rattle.std.specs.Prelude.{◌≡◌, IfNone, IfSome};
ghost use Rattle.nvme_model.specs.EntryBytes.{cqe_fields};
ghost use Rattle.nvme_model.specs.declared.config.ConfigNumbers.{ConfigNumbers};
ghost use Rattle.trace.specs.Aside.{aside_pair as the_aside_pair};
ghost use Rattle.witness_check.specs.Turns.{is_aside_entry as the_is_aside_entry, out_with as the_out_with};
ghost use Rattle.witness_check.specs.Turns.{turn_of as the_turn_of};

use byteorder::{ByteOrder, LittleEndian};
use history::{Config, Entry};
use trace::TraceOptions;

/// Whose turn it is at something seen.
#[derive(Clone, Copy, Debug, PartialEq, Eq)]
pub enum Turn {
    /// It is of the trace's own queues, and may come now.
    Own,
    /// It is of the queue pair that stands for what was there, and comes before all else.
    Aside,
    /// It comes before what was there is written, or what was there is written behind something else.
    Late,
}

// The submission queue that a completion is for.
pub(crate) fn sqid_of(cqe: &[u8; 16]) -> u16
    ensures value { result ≡ (cqe_fields cqe.now).sqid }
{
    LittleEndian::read_u16(&cqe[10..12])
}

/// The queue pair of a history that its trace doesn't have.
pub(crate) fn aside_pair(options: &TraceOptions, config: &Config) -> Option<u16>
    ensures value { result ≡ the_aside_pair options.now config.now }
{
    if options.contents_unknown {
        return Some(config.numbers().pairs);
    }
    None
}

// Whether an entry is a Publish to this queue, or the Reap of a completion of it.
pub(crate) fn is_aside_entry(aside: Option<u16>, entry: &Entry) -> bool
    ensures value { result ≡ the_is_aside_entry aside entry.now }
{
    let Some(number) = aside else {
        return false;
    };
    match entry {
        Entry::Publish(line) => line.queue == number,
        Entry::Reap(line) => sqid_of(&line.cqe) == number,
        Entry::Fetch(_) | Entry::Grant(_) => false,
        Entry::Block(_) | Entry::Post(_) => false,
    }
}

// How many commands are out after an entry, where it is of that queue pair.
pub(crate) fn out_with(entry: &Entry, out: u64) -> Option<u64>
    ensures value { IfSome result (λ more. more ≡ the_out_with entry.now out) }
{
    match entry {
        Entry::Publish(line) => out.checked_add(line.batch.as_slice().len() as u64),
        Entry::Reap(_) => Some(out.saturating_sub(1)),
        Entry::Fetch(_) | Entry::Grant(_) => Some(out),
        Entry::Block(_) | Entry::Post(_) => Some(out),
    }
}

// Whose turn it is at something of that queue pair, or of another one, where so many commands of that one are out and
// this is the number of what the trace says next.
pub(crate) fn turn_of(aside: bool, out: u64, next: usize) -> Turn
    ensures value { result ≡ the_turn_of aside out next }
{
    if aside {
        return if next == 1 { Turn::Aside } else { Turn::Late };
    }
    if out == 0 { Turn::Own } else { Turn::Late }
}
