//! What effects of a slice found on its blocks.

ghost use Rattle.std.specs.List.{filter};
ghost use Rattle.std.specs.Prelude.{◌≡◌, ◌&&◌, ◌++◌, ◌∷◌, [], IfOk, OnOk, map, not};
ghost use Rattle.nvme_model.specs.Operations.{op};
ghost use Rattle.refutation.specs.Slices.{answer_of, finds_of, looks, ticket_of};
ghost use Rattle.refutation.specs.Told.{says_differs};
ghost use Rattle.refutation_check.specs.Commands.{name_of};
ghost use Rattle.refutation_check.specs.Known.{IsKnown, config_of, options_of, trace_of};
ghost use Rattle.refutation_check.specs.SliceEffects.{found_of, is_left_inside, names_of};

use crate::block_data::found_at;
use crate::blocks::blocks_in;
use crate::commands::looks;
use crate::effects::{has_differed, op_at};
use crate::held::add_held;
use crate::known::{Chosen, Known};
use crate::order::Effect;
use crate::writers::{Asked, none_else};
use refutation::HeldBlock;
use std::alloc::{AllocError as NoMemory, Global};

fn is_left_inside(
    alloc: Global,
    chosen: &Chosen<'_>,
    effect: &Effect,
    block: u64,
    bytes: &[u8],
) -> Result<bool, NoMemory>
    ensures value { IsKnown chosen.now.known → IfOk result (λ b. b ≡
        is_left_inside chosen.now (name_of effect.now) (block, bytes.now)) }
{
    let asked = Asked {
        block,
        bytes,
        other: false,
    };
    none_else(alloc, chosen, effect, &asked)
}

// Adds what an effect found on a block, where no effect outside the slice can have left it there.
fn add_found(
    alloc: Global,
    chosen: &Chosen<'_>,
    effect: &Effect,
    finds: &mut Vec<HeldBlock>,
    block: u64,
) -> Result<(), NoMemory>
    ensures value { IsKnown chosen.now.known → OnOk result (finds.new.items ≡ finds.old.items
        ++ filter (is_left_inside chosen.now (name_of effect.now))
        ((block, found_of chosen.now.known (name_of effect.now) block) ∷ [])) }
{
    let bytes = found_at(&chosen.known, effect, block);
    if is_left_inside(alloc, chosen, effect, block, bytes)? {
        add_held(alloc, finds, block, bytes)?;
    }
    Ok(())
}

#[tactic(auto, using(crate::proofs::SliceBlocks::kept_more))]
fn found_on(
    alloc: Global,
    chosen: &Chosen<'_>,
    effect: &Effect,
    blocks: &[u64],
) -> Result<Vec<HeldBlock>, NoMemory>
    ensures value { IsKnown chosen.now.known → IfOk result (λ hs. hs.items ≡
        filter (is_left_inside chosen.now (name_of effect.now))
        (map (λ l. (l, found_of chosen.now.known (name_of effect.now) l)) blocks.now)) }
{
    let mut finds = Vec::new(alloc);
    for block in blocks {
        add_found(alloc, chosen, effect, &mut finds, *block)?;
    }
    Ok(finds)
}

// Whether it read or compared, and said yes.
fn has_found(known: &Known<'_>, effect: &Effect) -> bool
    ensures value { IsKnown known.now → result ≡
        (looks (op (ticket_of (trace_of known.now) (name_of effect.now)))
        && not (says_differs (answer_of (trace_of known.now) (name_of effect.now)))) }
{
    looks(op_at(known, effect)) && !has_differed(known, effect)
}

/// What an effect found on the blocks that its slice looks at, where no effect outside can have left it there.
///
/// # Errors
///
/// `NoMemory` alone.
pub(crate) fn finds_of(
    alloc: Global,
    chosen: &Chosen<'_>,
    effect: &Effect,
) -> Result<Vec<HeldBlock>, NoMemory>
    ensures value { IsKnown chosen.now.known → IfOk result (λ hs. hs.items ≡ finds_of (options_of chosen.now.known)
        (config_of chosen.now.known) (trace_of chosen.now.known) chosen.now.blocks.now
        (names_of chosen.now) (name_of effect.now)) }
{
    if !has_found(&chosen.known, effect) {
        return Ok(Vec::new(alloc));
    }
    let blocks = blocks_in(alloc, chosen, effect)?;
    found_on(alloc, chosen, effect, blocks.as_slice())
}
