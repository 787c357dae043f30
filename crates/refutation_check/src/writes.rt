//! What effects of a slice leave on its blocks.

ghost use Rattle.std.specs.Prelude.{◌≡◌, ◌&&◌, IfOk, map, not};
ghost use Rattle.nvme_model.specs.Operations.{has_write, op, write_data};
ghost use Rattle.refutation.specs.Slices.{answer_of, ticket_of, writes_of};
ghost use Rattle.refutation.specs.Told.{says_differs};
ghost use Rattle.refutation_check.specs.Commands.{name_of};
ghost use Rattle.refutation_check.specs.Known.{IsKnown, config_of, trace_of};

use crate::block_data::written_at;
use crate::blocks::blocks_in;
use crate::commands::has_write;
use crate::effects::{has_differed, op_at};
use crate::held::add_held;
use crate::known::{Chosen, Known};
use crate::order::Effect;
use refutation::HeldBlock;
use std::alloc::{AllocError as NoMemory, Global};

// What an effect writes on these blocks.
#[tactic(auto, using(std::proofs::lemmas::List::map_more))]
fn written_on(
    alloc: Global,
    known: &Known<'_>,
    effect: &Effect,
    blocks: &[u64],
) -> Result<Vec<HeldBlock>, NoMemory>
    ensures value { IsKnown known.now → IfOk result (λ hs. hs.items ≡
        map (λ l. (l, write_data (ticket_of (trace_of known.now) (name_of effect.now)) l)) blocks.now) }
{
    let mut writes = Vec::new(alloc);
    for block in blocks {
        let bytes = written_at(known, effect, *block);
        add_held(alloc, &mut writes, *block, bytes)?;
    }
    Ok(writes)
}

// Whether it writes, and said yes.
fn has_written(known: &Known<'_>, effect: &Effect) -> bool
    ensures value { IsKnown known.now → result ≡
        (has_write (op (ticket_of (trace_of known.now) (name_of effect.now)))
        && not (says_differs (answer_of (trace_of known.now) (name_of effect.now)))) }
{
    has_write(op_at(known, effect)) && !has_differed(known, effect)
}

/// What an effect leaves on the blocks that its slice looks at.
///
/// # Errors
///
/// `NoMemory` alone.
pub(crate) fn writes_of(
    alloc: Global,
    chosen: &Chosen<'_>,
    effect: &Effect,
) -> Result<Vec<HeldBlock>, NoMemory>
    ensures value { IsKnown chosen.now.known → IfOk result (λ hs. hs.items ≡ writes_of
        (config_of chosen.now.known) (trace_of chosen.now.known) chosen.now.blocks.now (name_of effect.now)) }
{
    if !has_written(&chosen.known, effect) {
        return Ok(Vec::new(alloc));
    }
    let blocks = blocks_in(alloc, chosen, effect)?;
    written_on(alloc, &chosen.known, effect, blocks.as_slice())
}
