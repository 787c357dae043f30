//! What blocks weren't, where a Compare of a slice failed.

ghost use Rattle.std.specs.List.{list_all};
ghost use Rattle.std.specs.Prelude.{◌≡◌, ◌∷◌, [], IfOk, map};
ghost use Rattle.nvme_model.specs.Operations.{compare_data};
ghost use Rattle.refutation.specs.Slices.{differs_of, ticket_of};
ghost use Rattle.refutation_check.specs.Commands.{name_of};
ghost use Rattle.refutation_check.specs.Known.{IsKnown, config_of, options_of, trace_of};
ghost use Rattle.refutation_check.specs.SliceEffects.{differs_inside, names_of};

use crate::block_data::compared_at;
use crate::blocks::{blocks_of, is_in};
use crate::effects::has_differed;
use crate::held::add_held;
use crate::known::{Chosen, Known};
use crate::order::Effect;
use crate::writers::{Asked, none_else};
use refutation::{HeldBlock, HeldBlocks};
use std::alloc::{AllocError as NoMemory, Global};

fn differs_inside(
    alloc: Global,
    chosen: &Chosen<'_>,
    effect: &Effect,
    block: u64,
) -> Result<bool, NoMemory>
    ensures value { IsKnown chosen.now.known → IfOk result (λ b. b ≡
        differs_inside chosen.now (name_of effect.now) block) }
{
    if !is_in(block, chosen.blocks) {
        return Ok(false);
    }
    let asked = Asked {
        block,
        bytes: compared_at(&chosen.known, effect, block),
        other: true,
    };
    none_else(alloc, chosen, effect, &asked)
}

fn all_inside(
    alloc: Global,
    chosen: &Chosen<'_>,
    effect: &Effect,
    blocks: &[u64],
) -> Result<bool, NoMemory>
    ensures value { IsKnown chosen.now.known → IfOk result (λ b. b ≡
        list_all (differs_inside chosen.now (name_of effect.now)) blocks.now) }
{
    for block in blocks {
        if !differs_inside(alloc, chosen, effect, *block)? {
            return Ok(false);
        }
    }
    Ok(true)
}

// What an effect compares with these blocks.
#[tactic(auto, using(std::proofs::lemmas::List::map_more))]
fn compared_on(
    alloc: Global,
    known: &Known<'_>,
    effect: &Effect,
    blocks: &[u64],
) -> Result<Vec<HeldBlock>, NoMemory>
    ensures value { IsKnown known.now → IfOk result (λ hs. hs.items ≡
        map (λ l. (l, compare_data (ticket_of (trace_of known.now) (name_of effect.now)) l)) blocks.now) }
{
    let mut compared = Vec::new(alloc);
    for block in blocks {
        let bytes = compared_at(known, effect, *block);
        add_held(alloc, &mut compared, *block, bytes)?;
    }
    Ok(compared)
}

fn one_list(
    alloc: Global,
    known: &Known<'_>,
    effect: &Effect,
    blocks: &[u64],
) -> Result<Vec<HeldBlocks>, NoMemory>
    ensures value { IsKnown known.now → IfOk result (λ lists. lists.items ≡
        map (λ l. (l, compare_data (ticket_of (trace_of known.now) (name_of effect.now)) l)) blocks.now ∷ []) }
{
    let compared = compared_on(alloc, known, effect, blocks)?;
    let mut lists = Vec::new(alloc);
    lists.push(HeldBlocks::new(compared))?;
    Ok(lists)
}

/// The blocks of an effect that said no, with the data that one of them wasn't, where no effect outside its slice can
/// have left anything else there.
///
/// # Errors
///
/// `NoMemory` alone.
pub(crate) fn differs_of(
    alloc: Global,
    chosen: &Chosen<'_>,
    effect: &Effect,
) -> Result<Vec<HeldBlocks>, NoMemory>
    ensures value { IsKnown chosen.now.known → IfOk result (λ lists. lists.items ≡ differs_of
        (options_of chosen.now.known) (config_of chosen.now.known) (trace_of chosen.now.known)
        chosen.now.blocks.now (names_of chosen.now) (name_of effect.now)) }
{
    let known = &chosen.known;
    if !has_differed(known, effect) {
        return Ok(Vec::new(alloc));
    }
    let blocks = blocks_of(alloc, known, effect)?;
    if !all_inside(alloc, chosen, effect, blocks.as_slice())? {
        return Ok(Vec::new(alloc));
    }
    one_list(alloc, known, effect, blocks.as_slice())
}
