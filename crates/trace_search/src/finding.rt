//! Where a refutation is looked for.

ghost use Rattle.std.specs.Prelude.{IfOk, IfSome, reverse};
ghost use Rattle.trace_search.specs.Found.{Refutes};

use crate::part::{Part, is_refuted_by, refutation_of};
use crate::shrinking::{fewer_blocks, fewer_commands};
use crate::touching::{Touching, blocks_of, commands_of, last_answer, newest};
use history::Config;
use refutation::Refutation;
use refutation_check::{TraceAnswers, is_bad_read_line, queue_of, refute};
use std::alloc::{AllocError as NoMemory, Global};
use trace::{Seen, TraceOptions};

// How many commands are tried, those that ended last.
const SIZES: [usize; 4] = [6, 12, 24, 48];

// How many lines a trace has, at most, of which each is looked at.
const FEW: usize = 4_000;

// How many lines a trace has, at most, in which each block is looked at.
const MANY: usize = 20_000;

// How many of them tell which blocks to look at besides.
const NEAR: usize = 24;

// The command that the last line answers, if it answers one.
fn last_answered(
    alloc: Global,
    part: &Part<'_>,
    tables: &TraceAnswers,
) -> Result<Vec<Touching>, NoMemory> {
    let mut found = Vec::new(alloc);
    let Some((Seen::Reaped(line), before)) = part.trace.split_last() else {
        return Ok(found);
    };
    let queue = queue_of(&line.cqe);
    for number in 0..tables.count(queue) {
        if tables.answer(queue, number) == Some(before.len()) {
            found.push(Touching {
                queue,
                number,
                ended: before.len(),
            })?;
        }
    }
    Ok(found)
}

// The refutation by these blocks and commands, without what isn't needed.
fn shrunk(
    alloc: Global,
    part: &Part<'_>,
    blocks: Vec<u64>,
    commands: Vec<Touching>,
) -> Result<Refutation, NoMemory> {
    let commands = fewer_commands(alloc, part, blocks.as_slice(), commands)?;
    let blocks = fewer_blocks(alloc, part, blocks, commands.as_slice())?;
    refutation_of(alloc, part, blocks.as_slice(), commands.as_slice())
}

// A refutation by commands that touch these blocks, more and more of them.
fn found_on(
    alloc: Global,
    part: &Part<'_>,
    tables: &TraceAnswers,
    blocks: &[u64],
) -> Result<Option<Refutation>, NoMemory> {
    let all = commands_of(alloc, part, tables, Some(blocks))?;
    for size in SIZES {
        let commands = newest(alloc, all.as_slice(), size)?;
        if is_refuted_by(alloc, part, blocks, commands.as_slice())? {
            let mut own = Vec::new(alloc);
            own.extend_from_slice(blocks)?;
            return Ok(Some(shrunk(alloc, part, own, commands)?));
        }
        if commands.len() == all.len() {
            return Ok(None);
        }
    }
    Ok(None)
}

// A refutation by what touches the blocks of the command that the last line answers, or those of its neighbours too.
fn found_at_end(alloc: Global, part: &Part<'_>) -> Result<Option<Refutation>, NoMemory> {
    let tables = TraceAnswers::of_trace(alloc, part.trace)?;
    let own = last_answered(alloc, part, &tables)?;
    let blocks = blocks_of(alloc, part, &tables, own.as_slice())?;
    if let Some(refutation) = found_on(alloc, part, &tables, blocks.as_slice())? {
        return Ok(Some(refutation));
    }
    let all = commands_of(alloc, part, &tables, Some(blocks.as_slice()))?;
    let near = newest(alloc, all.as_slice(), NEAR)?;
    let wider = blocks_of(alloc, part, &tables, near.as_slice())?;
    found_on(alloc, part, &tables, wider.as_slice())
}

// The refutation by this block and these commands, without what isn't needed: of the lines up to the last that answers
// one of them, where those do.
fn shrunk_to_front(
    alloc: Global,
    part: &Part<'_>,
    block: u64,
    commands: Vec<Touching>,
) -> Result<Refutation, NoMemory> {
    let blocks = [block];
    let kept = fewer_commands(alloc, part, &blocks, commands)?;
    let lines = last_answer(kept.as_slice()).saturating_add(1);
    let front = Part {
        trace: part.trace.get(..lines).unwrap_or(part.trace),
        ..*part
    };
    if is_refuted_by(alloc, &front, &blocks, kept.as_slice())? {
        return refutation_of(alloc, &front, &blocks, kept.as_slice());
    }
    refutation_of(alloc, part, &blocks, kept.as_slice())
}

// A refutation by all commands that touch one block.
fn found_on_one(alloc: Global, part: &Part<'_>) -> Result<Option<Refutation>, NoMemory> {
    let tables = TraceAnswers::of_trace(alloc, part.trace)?;
    let all = commands_of(alloc, part, &tables, None)?;
    let blocks = blocks_of(alloc, part, &tables, all.as_slice())?;
    for block in blocks.as_slice() {
        let commands = commands_of(alloc, part, &tables, Some(&[*block]))?;
        if is_refuted_by(alloc, part, &[*block], commands.as_slice())? {
            return Ok(Some(shrunk_to_front(alloc, part, *block, commands)?));
        }
    }
    Ok(None)
}

// What the search finds, whether it is right or not.
fn candidate(alloc: Global, part: &Part<'_>) -> Result<Option<Refutation>, NoMemory> {
    if is_refuted_by(alloc, part, &[], &[])? {
        return Ok(Some(Refutation::of_lines(alloc, part.trace.len() as u64)));
    }
    found_at_end(alloc, part)
}

// What is found is given where it refutes the trace.
fn given(
    alloc: Global,
    part: &Part<'_>,
    found: Option<Refutation>,
) -> Result<Option<Refutation>, NoMemory>
    ensures found { IfOk result
        (λ found. IfSome found (Refutes part.now.options.now part.now.config.now (reverse part.now.trace.now))) }
{
    let Some(refutation) = found else {
        return Ok(None);
    };
    if refute(alloc, part.options, part.config, part.trace, &refutation)? {
        return Ok(Some(refutation));
    }
    Ok(None)
}

/// Looks for what refutes the first so many lines of a trace, the oldest first: a rule that the last of them breaks, or
/// commands near the one that it answers whose effects have no order. What is found refutes the trace.
///
/// # Errors
///
/// `NoMemory` alone.
pub fn find_refutation(
    alloc: Global,
    options: &TraceOptions,
    config: &Config,
    trace: &[Seen],
    lines: usize,
) -> Result<Option<Refutation>, NoMemory>
    ensures found { IfOk result
        (λ found. IfSome found (Refutes options.now config.now (reverse trace.now))) }
{
    let whole = Part {
        options,
        config,
        trace,
    };
    let part = Part {
        trace: trace.get(..lines).unwrap_or(trace),
        ..whole
    };
    let found = candidate(alloc, &part)?;
    given(alloc, &whole, found)
}

// The refutation by the first line that breaks a rule by itself.
fn first_bad(alloc: Global, part: &Part<'_>) -> Result<Option<Refutation>, NoMemory> {
    for place in 0..part.trace.len() {
        let lines = place + 1;
        if is_bad_read_line(alloc, part.options, part.config, &part.trace[..lines])? {
            return Ok(Some(Refutation::of_lines(alloc, lines as u64)));
        }
    }
    Ok(None)
}

/// Looks for the first line of a trace, the oldest first, that breaks a rule by itself. Where it has more than 4,000
/// lines, nothing is looked for. What is found refutes the trace.
///
/// # Errors
///
/// `NoMemory` alone.
pub fn find_bad_line(
    alloc: Global,
    options: &TraceOptions,
    config: &Config,
    trace: &[Seen],
) -> Result<Option<Refutation>, NoMemory>
    ensures found { IfOk result
        (λ found. IfSome found (Refutes options.now config.now (reverse trace.now))) }
{
    let whole = Part {
        options,
        config,
        trace,
    };
    let found = if trace.len() <= FEW {
        first_bad(alloc, &whole)?
    } else {
        None
    };
    given(alloc, &whole, found)
}

/// Looks for what refutes a trace of which nothing else is known, the oldest line first: commands that touch one block
/// whose effects have no order. Where it has more than 20,000 lines, nothing is looked for. What is found refutes the
/// trace.
///
/// # Errors
///
/// `NoMemory` alone.
pub fn find_on_blocks(
    alloc: Global,
    options: &TraceOptions,
    config: &Config,
    trace: &[Seen],
) -> Result<Option<Refutation>, NoMemory>
    ensures found { IfOk result
        (λ found. IfSome found (Refutes options.now config.now (reverse trace.now))) }
{
    let whole = Part {
        options,
        config,
        trace,
    };
    let found = if trace.len() <= MANY {
        found_on_one(alloc, &whole)?
    } else {
        None
    };
    given(alloc, &whole, found)
}
