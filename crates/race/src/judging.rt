//! Whether a history keeps the discipline of its slots, and leaves each of them free.

ghost use Rattle.std.specs.Prelude.{◌+◌, ◌≡◌, ◌≤◌, ◌<◌, IfErr, OnOk, bytes_eq, false, reverse, true};
ghost use Rattle.nvme_model.specs.Array.{zeros};
ghost use Rattle.nvme_model.specs.Legal.{IsLegalFile};
ghost use Rattle.nvme_model.specs.Medium.{medium};
ghost use Rattle.host_laws.specs.Rules.{takeover_disciplined};
ghost use Rattle.race.specs.Crashes.{AreSlotsFree, HasHeld, StopsJudging, IsUnkept, KeepsTakeovers};

use crate::crash_fault::CrashFault;
use history::{Config, Entry};
use nvme_model::array::Range;
use slot_check::AreaCheck;
use std::alloc::Global;
use step_core::Core;

// Judges each entry of a legal history.
fn judge_each(
    alloc: Global,
    config: &Config,
    slots: Range,
    entries: &[Entry],
) -> Result<(), CrashFault>
    requires legal { IsLegalFile config.now entries.now }
    ensures disciplined { OnOk result (takeover_disciplined config.now slots (reverse entries.now) ≡ true) }
    ensures unjudged { IfErr result (StopsJudging config.now slots entries.now) }
{
    let mut check = AreaCheck::new(alloc, config, slots);
    for k in 0..entries.len() {
        match check.take(&entries[k])? {
            Some(_) => return Err(CrashFault::SlotsAt(k as u64 + 1)),
            None => {}
        }
    }
    Ok(())
}

// Whether this block is there, and lies in the volume as zeros.
fn is_free(core: &Core, lba: u64) -> bool
    ensures free { result ≡ true → bytes_eq (medium core.now.past lba) zeros ≡ true }
    ensures held { result ≡ false → lba < core.now.config.blocks →
        bytes_eq (medium core.now.past lba) zeros ≡ false }
{
    match core.medium(lba) {
        Some(block) => block.as_slice() == [0; 512].as_slice(),
        None => false,
    }
}

// Whether each of these blocks is so.
#[tactic(auto, using(crate::proofs::Freeing::freeing))]
fn are_free(core: &Core, slots: Range) -> bool
    requires few { slots.slba + slots.blocks ≤ 65536 }
    ensures free { result ≡ true → AreSlotsFree slots core.now.past }
    ensures held { result ≡ false → HasHeld core.now.config slots core.now.past }
{
    for k in 0..slots.blocks {
        if !is_free(core, slots.slba + u64::from(k)) {
            return false;
        }
    }
    true
}

/// Judges the history of a controller, which has these entries.
///
/// # Errors
///
/// `SlotsAt` with the first entry that breaks the discipline of the slots; `SlotHeld` where one isn't free in the end;
/// `NoMemory` where a growth was refused.
#[tactic(auto, using(crate::proofs::Telling::judging))]
pub(crate) fn judge(
    alloc: Global,
    core: &Core,
    entries: &[Entry],
    slots: Range,
) -> Result<(), CrashFault>
    requires few { slots.slba + slots.blocks ≤ 65536 }
    requires whole { entries.now ≡ reverse core.now.past }
    ensures keeps { OnOk result (KeepsTakeovers core.now.config slots core.now.past) }
    ensures unkept { IfErr result (IsUnkept core.now.config slots core.now.past) }
{
    // A read tells the proof that the history is legal.
    let _ = core.history();
    let config = core.config();
    judge_each(alloc, &config, slots, entries)?;
    if !are_free(core, slots) {
        return Err(CrashFault::SlotHeld);
    }
    Ok(())
}
