//! Which effects may have left on a block what an effect found there.

ghost use Rattle.std.specs.List.{filter, flat_map, list_all, list_any, range_with_len};
ghost use Rattle.std.specs.Prelude.{◌≡◌, ◌&&◌, ◌++◌, IfOk, Some, length, map, not, option_copied, slice_get};
ghost use Rattle.nvme_model.specs.Operations.{has_write, op};
ghost use Rattle.refutation.specs.EffectOrders.{comes_before};
ghost use Rattle.refutation.specs.Lines.{answer_in, published_in};
ghost use Rattle.refutation.specs.Slices.{effects_of_command, may_write, none_else, says_failed};
ghost use Rattle.refutation.specs.Told.{told_ticket};
ghost use Rattle.refutation.specs.Writers.{none_by, writers_in};
ghost use Rattle.refutation_check.specs.Collected.{has_blocks};
ghost use Rattle.refutation_check.specs.Commands.{name_of};
ghost use Rattle.refutation_check.specs.Fits.{fits};
ghost use Rattle.refutation_check.specs.Known.{IsKnown, config_of, options_of, trace_of};
ghost use Rattle.refutation_check.specs.Leaving.{may_leave, was_before};

use crate::block_data::written_at;
use crate::collecting::{has_block, push_effects};
use crate::commands::has_write;
use crate::effects::op_at;
use crate::fields::{is_success, status_of};
use crate::known::{Chosen, Known};
use crate::names::is_named;
use crate::order::{Effect, comes_before};
use crate::told::{says_done, told_units};
use entry_codec::decode_sqe;
use nvme_model::array::Range;
use nvme_model::submission::Submission;
use std::alloc::{AllocError as NoMemory, Global};
use trace::ReapedLine;

fn says_failed(answer: Option<&ReapedLine>) -> bool
    ensures value { result ≡ says_failed (option_copied answer.entry) }
{
    match answer {
        Some(line) => !is_success(status_of(&line.cqe)),
        None => false,
    }
}

fn entry_has_block(entry: &Submission, block: u64) -> bool
    ensures value { result ≡ has_blocks (Some entry.now) block }
{
    let fields = decode_sqe(&entry.entry);
    let range = Range {
        slba: fields.slba(),
        blocks: fields.blocks(),
    };
    has_block(&range, block)
}

fn has_blocks(known: &Known<'_>, block: u64, queue: u16, number: u64) -> bool
    ensures value { IsKnown known.now →
        result ≡ has_blocks (slice_get (published_in (trace_of known.now) queue) number) block }
{
    match known.tables.entry(known.trace, queue, number) {
        Some(entry) => entry_has_block(entry, block),
        None => false,
    }
}

// Whether a command writes and wasn't answered by a failure.
fn may_have_written(known: &Known<'_>, queue: u16, number: u64) -> bool
    ensures value { IsKnown known.now → result ≡ (has_write (op (told_ticket (trace_of known.now) queue number))
        && not (says_failed (answer_in (trace_of known.now) queue number))) }
{
    let effect = Effect {
        queue,
        number,
        unit: 0,
    };
    has_write(op_at(known, &effect))
        && !says_failed(known.tables.completion(known.trace, queue, number))
}

// Whether it may have written the block, if that is one of its units.
fn may_write(known: &Known<'_>, block: u64, queue: u16, number: u64) -> bool
    ensures value { IsKnown known.now →
        result ≡ (has_blocks (slice_get (published_in (trace_of known.now) queue) number) block
        && (has_write (op (told_ticket (trace_of known.now) queue number))
        && not (says_failed (answer_in (trace_of known.now) queue number)))) }
{
    has_blocks(known, block, queue, number) && may_have_written(known, queue, number)
}

// Adds the effects of a command that may write a block.
fn push_command(
    alloc: Global,
    known: &Known<'_>,
    block: u64,
    queue: u16,
    number: u64,
    found: &mut Vec<Effect>,
) -> Result<(), NoMemory>
    ensures value { IsKnown known.now → IfOk result (λ _. map name_of found.new.items ≡ map name_of found.old.items
        ++ filter (λ y. may_write (config_of known.now) (trace_of known.now) y block)
        (effects_of_command (config_of known.now) (trace_of known.now) queue number)) }
{
    if !may_write(known, block, queue, number) {
        return Ok(());
    }
    let units = told_units(
        alloc,
        known.config,
        known.tables,
        known.trace,
        queue,
        number,
    )?;
    push_effects(queue, number, units.as_slice(), Some(block), found)?;
    Ok(())
}

// Adds those of the commands of a submission queue.
fn push_queue(
    alloc: Global,
    known: &Known<'_>,
    block: u64,
    queue: u16,
    found: &mut Vec<Effect>,
) -> Result<(), NoMemory>
    ensures value { IsKnown known.now → IfOk result (λ _. map name_of found.new.items ≡ map name_of found.old.items
        ++ filter (λ y. may_write (config_of known.now) (trace_of known.now) y block)
        (flat_map (effects_of_command (config_of known.now) (trace_of known.now) queue)
        (range_with_len 0 (length (published_in (trace_of known.now) queue))))) }
{
    for number in 0..known.tables.count(queue) {
        push_command(alloc, known, block, queue, number, found)?;
    }
    Ok(())
}

/// The effects of a trace that may write a block.
///
/// # Errors
///
/// `NoMemory` alone.
pub(crate) fn writers_in(
    alloc: Global,
    known: &Known<'_>,
    block: u64,
) -> Result<Vec<Effect>, NoMemory>
    ensures value { IsKnown known.now → IfOk result
        (λ ws. map name_of ws.items ≡ writers_in (config_of known.now) (trace_of known.now) block) }
{
    let mut found = Vec::new(alloc);
    for queue in 0..known.config.numbers().pairs {
        push_queue(alloc, known, block, queue + 1, &mut found)?;
    }
    Ok(found)
}

/// What is asked of a block: whether these bytes can have been left there before an effect, or any others.
#[derive(Clone, Copy)]
pub(crate) struct Asked<'a> {
    pub(crate) block: u64,
    pub(crate) bytes: &'a [u8],
    pub(crate) other: bool,
}

fn fits(asked: &Asked<'_>, bytes: &[u8]) -> bool
    ensures value { result ≡ fits asked.now.other asked.now.bytes.now bytes.now }
{
    if asked.other {
        bytes != asked.bytes
    } else {
        bytes == asked.bytes
    }
}

// Whether a writer of the block, none of the slice's effects, may have left there what is asked, where no other covers
// it.
fn may_leave(
    alloc: Global,
    chosen: &Chosen<'_>,
    effect: &Effect,
    asked: &Asked<'_>,
    writer: &Effect,
) -> Result<bool, NoMemory>
    ensures value { IsKnown chosen.now.known → IfOk result (λ b. b ≡ may_leave (options_of chosen.now.known)
        (config_of chosen.now.known) (trace_of chosen.now.known) (map name_of chosen.now.names.now)
        (name_of effect.now) asked.now.block (fits asked.now.other asked.now.bytes.now) (name_of writer.now)) }
{
    if !fits(asked, written_at(&chosen.known, writer, asked.block)) {
        return Ok(false);
    }
    if is_named(chosen.names, writer) {
        return Ok(false);
    }
    Ok(!comes_before(alloc, &chosen.known, effect, writer)?)
}

// Those of these writers.
fn leavers(
    alloc: Global,
    chosen: &Chosen<'_>,
    effect: &Effect,
    asked: &Asked<'_>,
    writers: &[Effect],
) -> Result<Vec<Effect>, NoMemory>
    ensures value { IsKnown chosen.now.known → IfOk result (λ ys. map name_of ys.items ≡
        filter (may_leave (options_of chosen.now.known)
        (config_of chosen.now.known) (trace_of chosen.now.known) (map name_of chosen.now.names.now)
        (name_of effect.now) asked.now.block (fits asked.now.other asked.now.bytes.now)) (map name_of writers.now)) }
{
    let mut found = Vec::new(alloc);
    for writer in writers {
        if !may_leave(alloc, chosen, effect, asked, writer)? {
            continue;
        }
        found.push(*writer)?;
    }
    Ok(found)
}

// Whether a writer of the block stands before an effect for sure.
fn was_before(
    alloc: Global,
    known: &Known<'_>,
    effect: &Effect,
    writer: &Effect,
) -> Result<bool, NoMemory>
    ensures value { IsKnown known.now → IfOk result (λ b. b ≡ was_before (options_of known.now) (config_of known.now)
        (trace_of known.now) (name_of effect.now) (name_of writer.now)) }
{
    if !says_done(
        known
            .tables
            .completion(known.trace, writer.queue, writer.number),
    ) {
        return Ok(false);
    }
    comes_before(alloc, known, writer, effect)
}

// Those of these writers.
fn writers_before(
    alloc: Global,
    known: &Known<'_>,
    effect: &Effect,
    writers: &[Effect],
) -> Result<Vec<Effect>, NoMemory>
    ensures value { IsKnown known.now → IfOk result (λ xs. map name_of xs.items ≡
        filter (was_before (options_of known.now) (config_of known.now) (trace_of known.now) (name_of effect.now))
        (map name_of writers.now)) }
{
    let mut found = Vec::new(alloc);
    for writer in writers {
        if !was_before(alloc, known, effect, writer)? {
            continue;
        }
        found.push(*writer)?;
    }
    Ok(found)
}

// Whether an effect comes before one of these, of which the last are the likeliest.
fn is_covered(
    alloc: Global,
    known: &Known<'_>,
    effect: &Effect,
    later: &[Effect],
) -> Result<bool, NoMemory>
    ensures value { IsKnown known.now → IfOk result (λ b. b ≡
        list_any (comes_before (options_of known.now) (config_of known.now) (trace_of known.now) (name_of effect.now))
        (map name_of later.now)) }
{
    let mut rest = later;
    while let Some((last, earlier)) = rest.split_last() {
        if comes_before(alloc, known, effect, last)? {
            return Ok(true);
        }
        rest = earlier;
    }
    Ok(false)
}

// Whether each of these does.
fn all_covered(
    alloc: Global,
    known: &Known<'_>,
    effects: &[Effect],
    later: &[Effect],
) -> Result<bool, NoMemory>
    ensures value { IsKnown known.now → IfOk result (λ b. b ≡ list_all (λ y.
        list_any (comes_before (options_of known.now) (config_of known.now) (trace_of known.now) y)
        (map name_of later.now)) (map name_of effects.now)) }
{
    for effect in effects {
        if !is_covered(alloc, known, effect, later)? {
            return Ok(false);
        }
    }
    Ok(true)
}

// Whether none of these writers of the block can, but those of the slice.
fn none_by(
    alloc: Global,
    chosen: &Chosen<'_>,
    effect: &Effect,
    asked: &Asked<'_>,
    writers: &[Effect],
) -> Result<bool, NoMemory>
    ensures value { IsKnown chosen.now.known → IfOk result (λ b. b ≡ none_by (options_of chosen.now.known)
        (config_of chosen.now.known) (trace_of chosen.now.known) (map name_of writers.now)
        (map name_of chosen.now.names.now) (name_of effect.now) asked.now.block
        (fits asked.now.other asked.now.bytes.now)) }
{
    let found = leavers(alloc, chosen, effect, asked, writers)?;
    let left = found.as_slice();
    if left.is_empty() {
        return Ok(true);
    }
    let later = writers_before(alloc, &chosen.known, effect, writers)?;
    all_covered(alloc, &chosen.known, left, later.as_slice())
}

/// Whether no effect but those of the slice can have left on a block, before this one, what is asked.
///
/// # Errors
///
/// `NoMemory` alone.
pub(crate) fn none_else(
    alloc: Global,
    chosen: &Chosen<'_>,
    effect: &Effect,
    asked: &Asked<'_>,
) -> Result<bool, NoMemory>
    ensures value { IsKnown chosen.now.known → IfOk result (λ b. b ≡ none_else (options_of chosen.now.known)
        (config_of chosen.now.known) (trace_of chosen.now.known) (map name_of chosen.now.names.now)
        (name_of effect.now) asked.now.block (fits asked.now.other asked.now.bytes.now)) }
{
    let writers = writers_in(alloc, &chosen.known, asked.block)?;
    none_by(alloc, chosen, effect, asked, writers.as_slice())
}
