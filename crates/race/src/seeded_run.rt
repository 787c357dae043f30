//! A race by a seed, its text, and its check.

ghost use Rattle.std.specs.Prelude.{OnOk};
ghost use Rattle.race_numbers.specs.Races.{race_config};
ghost use Rattle.race.specs.Races.{Races};
ghost use Rattle.race.specs.Slots.{PrintsRounds, PrintsSlots, slots_of};

use crate::fault::RaceFault;
use crate::run::tell_race;
use crate::seeded_racing::raced;
use race_numbers::{Bias, Race};
use std::alloc::Global;
use std::io::Write;
use std::sync::Wait;

/// Lets hosts race for slots on this thread, by turns that are drawn from the seed, and writes the configuration line
/// and the controller's whole history; then checks it. The same race, bias and seed give the same text everywhere.
///
/// What was written keeps the discipline of the slots, and each host began just the rounds of the race, as of
/// `crate::run_race`.
///
/// # Errors
///
/// `NoMemory` where a growth was refused or a host couldn't begin a round; `Output` after a beginning of the text.
pub fn run_seeded_race<R: Wait, W: Write>(
    rt: &R,
    alloc: Global,
    race: &Race,
    bias: &Bias,
    seed: u64,
    writer: &mut W,
) -> Result<(), RaceFault>
    ensures races { Races (race_config race.now) result (W.contents writer.old) (W.contents writer.new) }
    ensures slots { OnOk result
        (PrintsSlots (race_config race.now) (slots_of race.now) (W.contents writer.old) (W.contents writer.new)) }
    ensures rounds { OnOk result
        (PrintsRounds (race_config race.now) (slots_of race.now) race.now.rounds (W.contents writer.old)
        (W.contents writer.new)) }
{
    let core = raced(rt, alloc, race, bias, seed)?;
    tell_race(alloc, race, &core, writer)
}
