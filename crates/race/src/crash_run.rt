//! A race some of whose hosts die, and its text.

ghost use Rattle.std.specs.Prelude.{◌+◌, ◌≤◌, All, OnOk};
ghost use Rattle.history.specs.Lines.{HasLine};
ghost use Rattle.race_numbers.specs.Races.{race_config};
ghost use Rattle.race.specs.Slots.{slots_of};
ghost use Rattle.race.specs.Crashes.{Crashes, TellsCrash};

use crate::crash_closing::raced;
use crate::crash_fault::CrashFault;
use crate::judging::judge;
use history::{Config, Entry, PrintFault, print_history};
use nvme_model::array::Range;
use race_numbers::{Bias, Race};
use std::alloc::Global;
use std::io::Write;
use std::sync::Wait;
use step_core::Core;

// Writes a history's text.
fn tell<W: Write>(
    alloc: Global,
    config: &Config,
    entries: &[Entry],
    writer: &mut W,
) -> Result<(), CrashFault>
    ensures tells { TellsCrash config.now entries.now result (W.contents writer.old) (W.contents writer.new) }
    ensures lines { OnOk result (All HasLine entries.now) }
{
    match print_history(alloc, config, entries, writer) {
        Ok(()) => Ok(()),
        Err(PrintFault::Output) => Err(CrashFault::Output),
        Err(PrintFault::NoMemory) => Err(CrashFault::NoMemory),
    }
}

// Judges the history of a controller, and writes it where it keeps its slots.
#[tactic(auto, using(crate::proofs::Telling::told, crate::proofs::Telling::untold, crate::proofs::Telling::unraced))]
fn finish<W: Write>(
    alloc: Global,
    core: &Core,
    slots: Range,
    writer: &mut W,
) -> Result<(), CrashFault>
    requires few { slots.slba + slots.blocks ≤ 65536 }
    ensures { Crashes core.now.config slots result (W.contents writer.old) (W.contents writer.new) }
{
    let Some(entries) = core.history().whole() else {
        return Err(CrashFault::NoHistory);
    };
    judge(alloc, core, entries, slots)?;
    let config = core.config();
    tell(alloc, &config, entries, writer)
}

/// Lets hosts race for slots on this thread, by turns that are drawn from the seed. So many of them as `crash` stop for
/// ever in the middle of what they do, each after a number of its turns that is drawn, at most eight a round. Once the
/// others have made their rounds, the dead hosts are fenced, what they published is served, and each survivor goes over
/// the slots: it reads who holds one, takes it over from a dead host, and gives it back. Then the history is judged,
/// and written where it keeps the discipline of the slots with takeovers and each slot is free in the end. The same
/// numbers, bias and seed give the same text everywhere.
///
/// Where `crash` isn't below the number of hosts no host survives.
///
/// # Errors
///
/// `NoMemory` where a growth was refused or a host couldn't begin a call; `NoHistory`, `SlotsAt` and `SlotHeld`, after
/// nothing was written, where the controller wasn't given back, an entry breaks the discipline, or a slot isn't free in
/// the end; `Output` after a beginning of the text.
#[tactic(auto, using(crate::proofs::Telling::unraced))]
pub fn run_crash_race<R: Wait, W: Write>(
    rt: &R,
    alloc: Global,
    race: &Race,
    bias: &Bias,
    crash: u16,
    seed: u64,
    writer: &mut W,
) -> Result<(), CrashFault>
    ensures { Crashes (race_config race.now) (slots_of race.now) result (W.contents writer.old)
        (W.contents writer.new) }
{
    let core = raced(rt, alloc, race, bias, crash, seed)?;
    let slots = Range {
        slba: 0,
        blocks: race.slots,
    };
    finish(alloc, &core, slots, writer)
}
