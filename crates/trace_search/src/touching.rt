//! The commands of a trace that touch some of its blocks.

use crate::part::Part;
use nvme_model::array::Range;
use refutation_check::{TraceAnswers, told_units};
use std::alloc::{AllocError as NoMemory, Global};

/// A command that touches a block.
#[derive(Clone, Copy)]
pub(crate) struct Touching {
    pub(crate) queue: u16,
    pub(crate) number: u64,
    /// The line that answers it, from 0; the last one where none does.
    pub(crate) ended: usize,
}

fn has_block(range: &Range, block: u64) -> bool {
    range.slba <= block && block - range.slba < u64::from(range.blocks)
}

// Whether some range has one of these blocks, or any where none are named.
fn touches(units: &[Range], blocks: Option<&[u64]>) -> bool {
    match blocks {
        Some(blocks) => units.iter().any(|range| blocks
            .iter()
            .any(|block| has_block(range, *block))),
        None => !units.is_empty(),
    }
}

/// The commands that touch some of these blocks, or any, by rising submission queues and numbers.
///
/// # Errors
///
/// `NoMemory` alone.
pub(crate) fn commands_of(
    alloc: Global,
    part: &Part<'_>,
    tables: &TraceAnswers,
    blocks: Option<&[u64]>,
) -> Result<Vec<Touching>, NoMemory> {
    let last = part.trace.len().saturating_sub(1);
    let mut found = Vec::new(alloc);
    for queue in 1..=part.config.numbers().pairs {
        for number in 0..tables.count(queue) {
            let units = told_units(alloc, part.config, tables, part.trace, queue, number)?;
            if touches(units.as_slice(), blocks) {
                found.push(Touching {
                    queue,
                    number,
                    ended: tables.answer(queue, number).unwrap_or(last),
                })?;
            }
        }
    }
    Ok(found)
}

// Adds the blocks of a range that aren't there.
fn put_range(blocks: &mut Vec<u64>, range: &Range) -> Result<(), NoMemory> {
    for past in 0..u64::from(range.blocks) {
        let block = range.slba.saturating_add(past);
        if !blocks.as_slice().contains(&block) {
            blocks.push(block)?;
        }
    }
    Ok(())
}

/// The blocks of these commands, each once, rising.
///
/// # Errors
///
/// `NoMemory` alone.
pub(crate) fn blocks_of(
    alloc: Global,
    part: &Part<'_>,
    tables: &TraceAnswers,
    commands: &[Touching],
) -> Result<Vec<u64>, NoMemory> {
    let mut blocks = Vec::new(alloc);
    for command in commands {
        let units = told_units(
            alloc,
            part.config,
            tables,
            part.trace,
            command.queue,
            command.number,
        )?;
        for range in units.as_slice() {
            put_range(&mut blocks, range)?;
        }
    }
    blocks.sort()?;
    Ok(blocks)
}

/// The last line that answers one of them, from 0.
pub(crate) fn last_answer(commands: &[Touching]) -> usize {
    let mut last = 0;
    for command in commands {
        if command.ended > last {
            last = command.ended;
        }
    }
    last
}

// How many of these end behind a line.
fn ends_behind(commands: &[Touching], line: usize) -> usize {
    let mut count: usize = 0;
    for command in commands {
        if command.ended > line {
            count = count.saturating_add(1);
        }
    }
    count
}

/// Those of them that ended last, about so many.
///
/// # Errors
///
/// `NoMemory` alone.
pub(crate) fn newest(
    alloc: Global,
    commands: &[Touching],
    count: usize,
) -> Result<Vec<Touching>, NoMemory> {
    let mut found = Vec::new(alloc);
    for command in commands {
        if ends_behind(commands, command.ended) < count {
            found.push(*command)?;
        }
    }
    Ok(found)
}
