//! A race, its text, and its check.

ghost use Rattle.std.specs.Prelude.{◌≡◌, All, IfErr, OnOk, reverse, ℕ};
ghost use Rattle.history.specs.Lines.{HasLine};
ghost use Rattle.nvme_model.specs.Legal.{IsLegalFile};
ghost use Rattle.race_numbers.specs.Races.{race_config};
ghost use Rattle.race.specs.Faults.{IsLate};
ghost use Rattle.race.specs.Races.{Races, TellsHistory};
ghost use Rattle.many_host_laws.specs.Closing.{HasRounds, KeepsSlots};
ghost use Rattle.race.specs.Slots.{PrintsRounds, PrintsSlots, slots_of};
ghost use Rattle.race.specs.declared.fault.RaceFault.{RaceFault};

use crate::fault::RaceFault;
use crate::racing::raced;
use history::{Config, Entry, PrintFault, print_history};
use history_check::{CheckFault, check};
use nvme_model::array::Range;
use race_numbers::Race;
use std::alloc::Global;
use std::io::Write;
use std::sync::Wait;
use std::thread::Threads;
use step_core::Core;

// Writes a history's text.
fn tell<W: Write>(
    alloc: Global,
    config: &Config,
    entries: &[Entry],
    writer: &mut W,
) -> Result<(), RaceFault>
    ensures tells { TellsHistory config.now entries.now result (W.contents writer.old) (W.contents writer.new) }
    ensures lines { OnOk result (All HasLine entries.now) }
{
    match print_history(alloc, config, entries, writer) {
        Ok(()) => Ok(()),
        Err(PrintFault::Output) => Err(RaceFault::Output),
        Err(PrintFault::NoMemory) => Err(RaceFault::NoMemory),
    }
}

// Checks a history.
fn judge(alloc: Global, config: &Config, entries: &[Entry]) -> Result<(), RaceFault>
    requires legal { IsLegalFile config.now entries.now }
    ensures { IfErr result (λ f. f ≡ RaceFault.NoMemory) }
{
    match check(alloc, config, entries) {
        Ok(()) => Ok(()),
        Err(CheckFault::BadAt(place)) => Err(RaceFault::BadAt(place)),
        Err(CheckFault::NoMemory) => Err(RaceFault::NoMemory),
    }
}

// Writes and checks a history, which keeps these slots.
#[tactic(auto, using(crate::proofs::JudgingRaces::finishing))]
fn finish<W: Write>(
    alloc: Global,
    config: &Config,
    _slots: &Range,
    entries: &[Entry],
    writer: &mut W,
) -> Result<(), RaceFault>
    requires legal { IsLegalFile config.now entries.now }
    requires slots { KeepsSlots config.now _slots.now (reverse entries.now) }
    ensures races { Races config.now result (W.contents writer.old) (W.contents writer.new) }
    ensures slots { OnOk result (PrintsSlots config.now _slots.now (W.contents writer.old) (W.contents writer.new)) }
    ensures rounds { (rounds : ℕ) → HasRounds config.now _slots.now rounds (reverse entries.now) → OnOk result
        (PrintsRounds config.now _slots.now rounds (W.contents writer.old) (W.contents writer.new)) }
    ensures late { IfErr result IsLate }
{
    tell(alloc, config, entries, writer)?;
    judge(alloc, config, entries)?;
    Ok(())
}

/// Writes the configuration line and the whole history of a race's controller, and checks it.
///
/// # Errors
///
/// `NoMemory` where a growth was refused, and `Output`, after a beginning of the text; `Forgotten`, after nothing was
/// written, where the controller has forgotten a part. `BadAt` would name the first place at which the history isn't
/// legal; it never comes, since what the controller gives is.
pub fn tell_race<W: Write>(
    alloc: Global,
    race: &Race,
    core: &Core,
    writer: &mut W,
) -> Result<(), RaceFault>
    requires config { core.now.config ≡ race_config race.now }
    requires slots { KeepsSlots (race_config race.now) (slots_of race.now) core.now.past }
    requires rounds { HasRounds (race_config race.now) (slots_of race.now) race.now.rounds core.now.past }
    ensures races { Races (race_config race.now) result (W.contents writer.old) (W.contents writer.new) }
    ensures slots { OnOk result
        (PrintsSlots (race_config race.now) (slots_of race.now) (W.contents writer.old) (W.contents writer.new)) }
    ensures rounds { OnOk result
        (PrintsRounds (race_config race.now) (slots_of race.now) race.now.rounds (W.contents writer.old)
        (W.contents writer.new)) }
    ensures late { IfErr result IsLate }
{
    let Some(entries) = core.history().whole() else {
        return Err(RaceFault::Forgotten);
    };
    let config = core.config();
    let slots = Range {
        slba: 0,
        blocks: race.slots,
    };
    finish(alloc, &config, &slots, entries, writer)
}

/// Lets hosts race for slots on threads, and writes the configuration line and the controller's whole history; then
/// checks the history. What was written keeps the discipline of the slots: nowhere in it has a slot two believed names,
/// and each believed name is its holder. And each host began just the rounds of the race: on its own queues it claimed
/// slot 0 once a round.
///
/// # Errors
///
/// `NoMemory` where a growth was refused, a thread couldn't be started or a host couldn't begin a round; `Output` after
/// a beginning of the text. `Forgotten` would say that a part of the history was forgotten, and `BadAt` would name the
/// first place at which it isn't legal; they never come, since nobody here forgets, and what the controller gives is
/// legal.
pub fn run_race<R: Threads + Wait + Sync, W: Write>(
    rt: &R,
    alloc: Global,
    race: &Race,
    writer: &mut W,
) -> Result<(), RaceFault>
    ensures races { Races (race_config race.now) result (W.contents writer.old) (W.contents writer.new) }
    ensures slots { OnOk result
        (PrintsSlots (race_config race.now) (slots_of race.now) (W.contents writer.old) (W.contents writer.new)) }
    ensures rounds { OnOk result
        (PrintsRounds (race_config race.now) (slots_of race.now) race.now.rounds (W.contents writer.old)
        (W.contents writer.new)) }
{
    let core = raced(rt, alloc, race)?;
    tell_race(alloc, race, &core, writer)
}
