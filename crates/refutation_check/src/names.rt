//! The effects of a slice.

ghost use Rattle.std.specs.List.{filter};
ghost use Rattle.std.specs.Prelude.{◌≡◌, ◌++◌, IfOk, map};
ghost use Rattle.nvme_model.specs.Operations.{op};
ghost use Rattle.refutation.specs.Lines.{answer_in};
ghost use Rattle.refutation.specs.Slices.{each_once, effects_of_command, is_named, is_piece, same_effect};
ghost use Rattle.refutation.specs.Slices.{slice_names};
ghost use Rattle.refutation.specs.Told.{told_ticket};
ghost use Rattle.refutation_check.specs.Collected.{are_pieces};
ghost use Rattle.refutation_check.specs.Commands.{name_of};
ghost use Rattle.refutation_check.specs.Known.{IsKnown, config_of, trace_of};

use crate::collecting::push_effects;
use crate::commands::has_write;
use crate::effects::op_at;
use crate::known::Known;
use crate::order::Effect;
use crate::told::{says_differs, says_done, told_units};
use std::alloc::{AllocError as NoMemory, Global};

fn same_effect(first: &Effect, then: &Effect) -> bool
    ensures value { result ≡ same_effect (name_of first.now) (name_of then.now) }
{
    first.queue == then.queue && first.number == then.number && first.unit == then.unit
}

/// Whether an effect is one of these.
pub(crate) fn is_named(names: &[Effect], effect: &Effect) -> bool
    ensures value { result ≡ is_named (map name_of names.now) (name_of effect.now) }
{
    for name in names {
        if same_effect(name, effect) {
            return true;
        }
    }
    false
}

fn each_once(alloc: Global, effects: &[Effect]) -> Result<Vec<Effect>, NoMemory>
    ensures value { IfOk result (λ ns. map name_of ns.items ≡ each_once (map name_of effects.now)) }
{
    let mut kept = Vec::new(alloc);
    for (place, effect) in effects.iter().enumerate() {
        if is_named(&effects[place + 1..], effect) {
            continue;
        }
        kept.push(*effect)?;
    }
    Ok(kept)
}

// Whether a slice has the effects of a command with so many units.
fn are_pieces(known: &Known<'_>, queue: u16, number: u64, units: usize) -> bool
    ensures value { IsKnown known.now → result ≡ are_pieces (answer_in (trace_of known.now) queue number)
        (op (told_ticket (trace_of known.now) queue number)) units }
{
    match known.tables.completion(known.trace, queue, number) {
        Some(line) => says_done(Some(line)) || says_differs(Some(line)) && units == 1,
        None => has_write(op_at(
            known,
            &Effect {
                queue,
                number,
                unit: 0,
            },
        )),
    }
}

fn push_pieces(
    alloc: Global,
    known: &Known<'_>,
    queue: u16,
    number: u64,
    found: &mut Vec<Effect>,
) -> Result<(), NoMemory>
    ensures value { IsKnown known.now → IfOk result (λ _. map name_of found.new.items ≡ map name_of found.old.items
        ++ filter (is_piece (config_of known.now) (trace_of known.now))
        (effects_of_command (config_of known.now) (trace_of known.now) queue number)) }
{
    let units = told_units(
        alloc,
        known.config,
        known.tables,
        known.trace,
        queue,
        number,
    )?;
    if !are_pieces(known, queue, number, units.len()) {
        return Ok(());
    }
    push_effects(queue, number, units.as_slice(), None, found)?;
    Ok(())
}

/// The effects of these commands, each a submission queue and a number there, that a slice has.
///
/// # Errors
///
/// `NoMemory` alone.
pub(crate) fn slice_names(
    alloc: Global,
    known: &Known<'_>,
    commands: &[(u16, u64)],
) -> Result<Vec<Effect>, NoMemory>
    ensures value { IsKnown known.now → IfOk result
        (λ ns. map name_of ns.items ≡ slice_names (config_of known.now) (trace_of known.now) commands.now) }
{
    let mut found = Vec::new(alloc);
    for (queue, number) in commands {
        push_pieces(alloc, known, *queue, *number, &mut found)?;
    }
    each_once(alloc, found.as_slice())
}
