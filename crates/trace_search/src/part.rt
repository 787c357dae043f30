//! The first lines of a trace, and whether a slice of them has no order.

use crate::touching::Touching;
use history::Config;
use refutation::Refutation;
use refutation_check::refute;
use std::alloc::{AllocError as NoMemory, Global};
use trace::{Seen, TraceOptions};

/// The first lines of a trace.
#[derive(Clone, Copy)]
pub(crate) struct Part<'a> {
    pub(crate) options: &'a TraceOptions,
    pub(crate) config: &'a Config,
    /// The lines, the oldest first.
    pub(crate) trace: &'a [Seen],
}

/// The refutation of these lines by these blocks and commands, which rise.
///
/// # Errors
///
/// `NoMemory` alone.
pub(crate) fn refutation_of(
    alloc: Global,
    part: &Part<'_>,
    blocks: &[u64],
    commands: &[Touching],
) -> Result<Refutation, NoMemory> {
    let mut refutation = Refutation::of_lines(alloc, part.trace.len() as u64);
    for block in blocks {
        refutation.add_block(*block)?;
    }
    for command in commands {
        refutation.add_command(command.queue, command.number)?;
    }
    Ok(refutation)
}

/// Whether these lines are refuted by these blocks and commands.
///
/// # Errors
///
/// `NoMemory` alone.
pub(crate) fn is_refuted_by(
    alloc: Global,
    part: &Part<'_>,
    blocks: &[u64],
    commands: &[Touching],
) -> Result<bool, NoMemory> {
    let refutation = refutation_of(alloc, part, blocks, commands)?;
    refute(alloc, part.options, part.config, part.trace, &refutation)
}
