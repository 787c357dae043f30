//! The pieces of a slice.

ghost use Rattle.std.specs.Prelude.{◌≡◌, ◌++◌, ◌∷◌, [], IfOk, OnOk, if◌then◌else◌, map};
ghost use Rattle.refutation.specs.EffectOrders.{comes_before};
ghost use Rattle.refutation.specs.Slices.{numbers_where, piece_of, slice_of};
ghost use Rattle.refutation_check.specs.Commands.{name_of};
ghost use Rattle.refutation_check.specs.Known.{IsKnown, config_of, options_of, trace_of};
ghost use Rattle.refutation_check.specs.SliceEffects.{names_of};

use crate::differs::differs_of;
use crate::finds::finds_of;
use crate::known::{Chosen, Known};
use crate::names::slice_names;
use crate::order::{Effect, comes_before};
use crate::told::is_sure;
use crate::writes::writes_of;
use refutation::Piece;
use std::alloc::{AllocError as NoMemory, Global};

// Adds the number of an effect, where that comes before this one.
fn add_behind(
    alloc: Global,
    known: &Known<'_>,
    effect: &Effect,
    behind: &mut Vec<usize>,
    other: &Effect,
    number: usize,
) -> Result<(), NoMemory>
    ensures value { IsKnown known.now → OnOk result (behind.new.items ≡ behind.old.items ++
        (if comes_before (options_of known.now) (config_of known.now) (trace_of known.now)
        (name_of other.now) (name_of effect.now) then number ∷ [] else [])) }
{
    if comes_before(alloc, known, other, effect)? {
        behind.push(number)?;
    }
    Ok(())
}

// The numbers of the slice's effects that come before this one.
#[tactic(auto, using(crate::proofs::SlicePieces::numbers_more))]
fn behind_of(alloc: Global, chosen: &Chosen<'_>, effect: &Effect) -> Result<Vec<usize>, NoMemory>
    ensures value { IsKnown chosen.now.known → IfOk result (λ ns. ns.items ≡ numbers_where
        (λ m. comes_before (options_of chosen.now.known) (config_of chosen.now.known)
        (trace_of chosen.now.known) m (name_of effect.now)) 0 (names_of chosen.now)) }
{
    let mut behind = Vec::new(alloc);
    for (number, other) in chosen.names.iter().enumerate() {
        add_behind(alloc, &chosen.known, effect, &mut behind, other, number)?;
    }
    Ok(behind)
}

fn piece_of(alloc: Global, chosen: &Chosen<'_>, effect: &Effect) -> Result<Piece, NoMemory>
    ensures value { IsKnown chosen.now.known → IfOk result (λ p. p ≡ piece_of (options_of chosen.now.known)
        (config_of chosen.now.known) (trace_of chosen.now.known) chosen.now.blocks.now
        (names_of chosen.now) (name_of effect.now)) }
{
    let known = &chosen.known;
    let sure = is_sure(
        alloc,
        known.config,
        known.tables,
        known.trace,
        effect.queue,
        effect.number,
        effect.unit,
    )?;
    let behind = behind_of(alloc, chosen, effect)?;
    let finds = finds_of(alloc, chosen, effect)?;
    let differs = differs_of(alloc, chosen, effect)?;
    let writes = writes_of(alloc, chosen, effect)?;
    Ok(Piece::new(sure, behind, finds, differs, writes))
}

#[tactic(auto, using(crate::proofs::SlicePieces::mapped_more))]
fn pieces_of(alloc: Global, chosen: &Chosen<'_>) -> Result<Vec<Piece>, NoMemory>
    ensures value { IsKnown chosen.now.known → IfOk result (λ s. s.items ≡ map (piece_of
        (options_of chosen.now.known) (config_of chosen.now.known) (trace_of chosen.now.known)
        chosen.now.blocks.now (names_of chosen.now)) (names_of chosen.now)) }
{
    let mut pieces = Vec::new(alloc);
    for effect in chosen.names {
        pieces.push(piece_of(alloc, chosen, effect)?)?;
    }
    Ok(pieces)
}

/// The slice of these commands of a trace, each a submission queue and a number there, that looks at these blocks.
///
/// # Errors
///
/// `NoMemory` alone.
pub(crate) fn slice_of(
    alloc: Global,
    known: &Known<'_>,
    commands: &[(u16, u64)],
    blocks: &[u64],
) -> Result<Vec<Piece>, NoMemory>
    ensures value { IsKnown known.now → IfOk result (λ s. s.items ≡ slice_of (options_of known.now)
        (config_of known.now) (trace_of known.now) commands.now blocks.now) }
{
    let names = slice_names(alloc, known, commands)?;
    let chosen = Chosen {
        known: *known,
        names: names.as_slice(),
        blocks,
    };
    pieces_of(alloc, &chosen)
}
