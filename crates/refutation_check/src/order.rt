//! The order of effects that a trace tells, by tables of its lines.

ghost use Rattle.std.specs.Prelude.{◌≡◌, IfOk, length};
ghost use Rattle.nvme_model.specs.Config.{completion_queue};
ghost use Rattle.refutation.specs.EffectOrders.{comes_before, is_earlier_unit, last_entry};
ghost use Rattle.refutation.specs.Lines.{before_entry};
ghost use Rattle.refutation.specs.Places.{answer_place, is_among, place_before};
ghost use Rattle.refutation_check.specs.Commands.{name_of};
ghost use Rattle.refutation_check.specs.Known.{IsKnown, config_of, options_of, trace_of};

use crate::apart::asks_heads;
use crate::commands::op_of;
use crate::completions::completion_queue;
use crate::known::Known;
use crate::told::is_sure;
use crate::told_heads::place_of;
use nvme_model::operation::Op;
use std::alloc::{AllocError as NoMemory, Global};

/// An effect by the submission queue of its command, the command's number there, and its unit's.
#[derive(Clone, Copy, Debug, PartialEq, Eq)]
pub struct Effect {
    pub queue: u16,
    pub number: u64,
    pub unit: usize,
}

// Whether both are of one command, and the first is of an earlier unit.
fn is_earlier_unit(first: &Effect, then: &Effect) -> bool
    ensures value { result ≡ is_earlier_unit (name_of first.now) (name_of then.now) }
{
    first.queue == then.queue && first.number == then.number && first.unit < then.unit
}

// How many lines stand before the one that publishes an entry; all where none does.
#[tactic(auto, using(crate::proofs::SlicePlaces::lines_by_place))]
fn lines_before(known: &Known<'_>, queue: u16, number: u64) -> usize
    ensures value { IsKnown known.now → result ≡ length (before_entry (trace_of known.now) queue number) }
{
    match known.tables.place(queue, number) {
        Some(at) => at.line,
        None => known.trace.len(),
    }
}

// The number of the last entry of a command.
#[tactic(auto, using(crate::proofs::Units::last_by_entry))]
fn last_entry(known: &Known<'_>, queue: u16, number: u64) -> u64
    ensures value { IsKnown known.now → result ≡ last_entry (trace_of known.now) queue number }
{
    match known.tables.entry(known.trace, queue, number) {
        Some(entry) => match op_of(entry) {
            Some(Op::Pair) => number.saturating_add(1),
            Some(Op::Read) => number,
            Some(Op::Write) => number,
            Some(Op::Compare) => number,
            Some(Op::WriteZeroes) => number,
            None => number,
        },
        None => number,
    }
}

// How many lines stand before the one that publishes an effect's command; of a pair, its second entry.
fn lines_published(known: &Known<'_>, effect: &Effect) -> usize
    ensures value { IsKnown known.now → result ≡ length (before_entry (trace_of known.now) effect.now.queue
        (last_entry (trace_of known.now) effect.now.queue effect.now.number)) }
{
    let last = last_entry(known, effect.queue, effect.number);
    lines_before(known, effect.queue, last)
}

// The same with what SQHD tells, of answers on this completion queue.
#[tactic(auto, using(crate::proofs::HeadPlaces::heads_place))]
fn lines_told(known: &Known<'_>, queue: u16, effect: &Effect, published: usize) -> usize
    ensures value { IsKnown known.now → published ≡ length (before_entry (trace_of known.now) effect.now.queue
        (last_entry (trace_of known.now) effect.now.queue effect.now.number)) → result ≡ place_before
        (options_of known.now) (config_of known.now) (trace_of known.now) queue (name_of effect.now) }
{
    if asks_heads(known.options) {
        place_of(known.heads, queue, effect, published)
    } else {
        published
    }
}

// Whether an effect's command is answered among the lines that tell that its effects stand before the second one.
fn is_answered_before(known: &Known<'_>, first: &Effect, then: &Effect) -> bool
    ensures value { IsKnown known.now → result ≡ is_among
        (answer_place (trace_of known.now) first.now.queue first.now.number)
        (place_before (options_of known.now) (config_of known.now) (trace_of known.now)
        (completion_queue (config_of known.now) first.now.queue) (name_of then.now)) }
{
    let Some(line) = known.tables.answer(first.queue, first.number) else {
        return false;
    };
    let published = lines_published(known, then);
    let queue = completion_queue(known.config, first.queue);
    line < published || line < lines_told(known, queue, then, published)
}

/// Whether an effect stands before another in each history of the trace that has that.
///
/// # Errors
///
/// `NoMemory` alone.
pub(crate) fn comes_before(
    alloc: Global,
    known: &Known<'_>,
    first: &Effect,
    then: &Effect,
) -> Result<bool, NoMemory>
    ensures value { IsKnown known.now → IfOk result (λ b. b ≡ comes_before (options_of known.now)
        (config_of known.now) (trace_of known.now) (name_of first.now) (name_of then.now)) }
{
    if is_earlier_unit(first, then) {
        return Ok(true);
    }
    if !is_answered_before(known, first, then) {
        return Ok(false);
    }
    is_sure(
        alloc,
        known.config,
        known.tables,
        known.trace,
        first.queue,
        first.number,
        first.unit,
    )
}
