//! What the effects of a trace do.

ghost use Rattle.std.specs.Prelude.{◌≡◌, IfOk};
ghost use Rattle.nvme_model.specs.Operations.{op};
ghost use Rattle.refutation.specs.Slices.{answer_of, range_of, ticket_of};
ghost use Rattle.refutation.specs.Told.{says_differs};
ghost use Rattle.refutation_check.specs.Commands.{name_of};
ghost use Rattle.refutation_check.specs.Known.{IsKnown, config_of, trace_of};

use crate::commands::op_of;
use crate::known::Known;
use crate::order::Effect;
use crate::told::{says_differs, told_units};
use nvme_model::array::Range;
use nvme_model::operation::Op;
use std::alloc::{AllocError as NoMemory, Global};

/// What an effect's command does, where nothing is wrong with it.
#[tactic(auto, using(crate::proofs::EntryData::op_by_entry))]
pub(crate) fn op_at(known: &Known<'_>, effect: &Effect) -> Option<Op>
    ensures value { IsKnown known.now →
        result ≡ op (ticket_of (trace_of known.now) (name_of effect.now)) }
{
    match known.tables.entry(known.trace, effect.queue, effect.number) {
        Some(entry) => op_of(entry),
        None => None,
    }
}

/// Whether it was answered by Compare Failure.
pub(crate) fn has_differed(known: &Known<'_>, effect: &Effect) -> bool
    ensures value { IsKnown known.now →
        result ≡ says_differs (answer_of (trace_of known.now) (name_of effect.now)) }
{
    says_differs(
        known
            .tables
            .completion(known.trace, effect.queue, effect.number),
    )
}

/// The blocks of an effect's unit, where its command has that unit.
///
/// # Errors
///
/// `NoMemory` alone.
pub(crate) fn range_of(
    alloc: Global,
    known: &Known<'_>,
    effect: &Effect,
) -> Result<Option<Range>, NoMemory>
    ensures value { IsKnown known.now → IfOk result (λ range. range ≡
        range_of (config_of known.now) (trace_of known.now) (name_of effect.now)) }
{
    let (queue, number) = (effect.queue, effect.number);
    let units = told_units(
        alloc,
        known.config,
        known.tables,
        known.trace,
        queue,
        number,
    )?;
    Ok(units.get(effect.unit).copied())
}
