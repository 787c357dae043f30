//! The blocks of a slice's effects.

ghost use Rattle.std.specs.List.{filter};
ghost use Rattle.std.specs.Prelude.{◌≡◌, IfOk};
ghost use Rattle.nvme_model.specs.Array.{blocks_from};
ghost use Rattle.nvme_model.specs.Verdict.{is_in};
ghost use Rattle.refutation.specs.Slices.{blocks_in, blocks_of, range_of};
ghost use Rattle.refutation_check.specs.Commands.{name_of};
ghost use Rattle.refutation_check.specs.Known.{IsKnown, config_of, trace_of};

use crate::effects::range_of;
use crate::known::{Chosen, Known};
use crate::order::Effect;
use std::alloc::{AllocError as NoMemory, Global};

/// Whether a block is one of these.
pub(crate) fn is_in(block: u64, blocks: &[u64]) -> bool
    ensures value { result ≡ is_in block blocks.now }
{
    blocks.contains(&block)
}

#[tactic(auto, using(crate::proofs::SliceBlocks::from_more))]
fn blocks_from(alloc: Global, slba: u64, count: u32) -> Result<Vec<u64>, NoMemory>
    ensures value { IfOk result (λ ls. ls.items ≡ blocks_from slba count) }
{
    let mut blocks = Vec::new(alloc);
    for place in 0..count {
        let Some(block) = slba.checked_add(u64::from(place)) else {
            return Err(NoMemory);
        };
        blocks.push(block)?;
    }
    Ok(blocks)
}

/// The blocks of an effect's unit.
///
/// # Errors
///
/// `NoMemory` alone.
pub(crate) fn blocks_of(
    alloc: Global,
    known: &Known<'_>,
    effect: &Effect,
) -> Result<Vec<u64>, NoMemory>
    ensures value { IsKnown known.now → IfOk result (λ ls. ls.items ≡
        blocks_of (range_of (config_of known.now) (trace_of known.now) (name_of effect.now))) }
{
    match range_of(alloc, known, effect)? {
        Some(range) => blocks_from(alloc, range.slba, range.blocks),
        None => Ok(Vec::new(alloc)),
    }
}

#[tactic(auto, using(std::proofs::lemmas::List::Elements::filter_more))]
fn only_in(alloc: Global, blocks: &[u64], others: &[u64]) -> Result<Vec<u64>, NoMemory>
    ensures value { IfOk result (λ ls. ls.items ≡ filter (λ l. is_in l others.now) blocks.now) }
{
    let mut found = Vec::new(alloc);
    for block in blocks {
        if is_in(*block, others) {
            found.push(*block)?;
        }
    }
    Ok(found)
}

/// Those of them that the slice looks at.
///
/// # Errors
///
/// `NoMemory` alone.
pub(crate) fn blocks_in(
    alloc: Global,
    chosen: &Chosen<'_>,
    effect: &Effect,
) -> Result<Vec<u64>, NoMemory>
    ensures value { IsKnown chosen.now.known → IfOk result (λ ls. ls.items ≡ blocks_in (config_of chosen.now.known)
        (trace_of chosen.now.known) chosen.now.blocks.now (name_of effect.now)) }
{
    let blocks = blocks_of(alloc, &chosen.known, effect)?;
    only_in(alloc, blocks.as_slice(), chosen.blocks)
}
