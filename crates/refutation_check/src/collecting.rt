//! Effects that are collected by their commands.

ghost use Rattle.std.specs.Prelude.{◌≡◌, ◌++◌, IfOk, map};
ghost use Rattle.nvme_model.specs.Array.{has_block};
ghost use Rattle.refutation_check.specs.Collected.{effects_from, has_asked};
ghost use Rattle.refutation_check.specs.Commands.{name_of};

use crate::order::Effect;
use nvme_model::array::Range;
use std::alloc::AllocError as NoMemory;

/// Whether a range has a block.
pub(crate) fn has_block(range: &Range, block: u64) -> bool
    ensures value { result ≡ has_block range.now block }
{
    range.slba <= block && block - range.slba < u64::from(range.blocks)
}

fn has_asked(range: &Range, block: Option<u64>) -> bool
    ensures value { result ≡ has_asked block range.now }
{
    match block {
        Some(block) => has_block(range, block),
        None => true,
    }
}

/// Adds the effects of a command that has these units: of those that have a block, where one is asked for.
///
/// # Errors
///
/// `NoMemory` alone.
pub(crate) fn push_effects(
    queue: u16,
    number: u64,
    units: &[Range],
    block: Option<u64>,
    found: &mut Vec<Effect>,
) -> Result<(), NoMemory>
    ensures value { IfOk result (λ _. map name_of found.new.items ≡
        map name_of found.old.items ++ effects_from queue number 0 block units.now) }
{
    for (unit, range) in units.iter().enumerate() {
        if has_asked(range, block) {
            found.push(Effect {
                queue,
                number,
                unit,
            })?;
        }
    }
    Ok(())
}
