//! What a check of the slots keeps, and what a Publish and a Reap make of it.

ghost use Rattle.std.specs.Prelude.{IfOk, None, OnErr, OnOk, [], length, not, ◌&&◌, ◌+◌, ◌<◌, ◌^◌, ◌∷◌, ◌≡◌};
ghost use Rattle.nvme_model.specs.History.{Past};
ghost use Rattle.nvme_model.specs.Legal.{IsLegal};
ghost use Rattle.nvme_model.specs.declared.config.ConfigNumbers.{ConfigNumbers};
ghost use Rattle.nvme_model.specs.declared.entry.Entry.{Entry};
ghost use Rattle.nvme_model.specs.Config.{completion_queue};
ghost use Rattle.nvme_model.specs.Open.{is_differs};
ghost use Rattle.slot_check.specs.Batch.{claimed_twice_in, release_broken_in, takeover_broken_in};
ghost use Rattle.slot_check.specs.Broken.{discipline_broken, slots_broken_by, write_alone};
ghost use Rattle.slot_check.specs.Names.{names_in};
ghost use Rattle.slot_check.specs.Takeovers.{takeovers_kept};
ghost use Rattle.slot_check.specs.Watched.{IsSlotCheckState, slot_check_state_in};

use crate::batch::{claimed_twice, release_broken, takeover_broken, write_alone};
use crate::broken::BrokenDiscipline;
use crate::moves::{Moves, moves_in_area};
use crate::names::Names;
use crate::progress::QueueProgress;
use crate::queue::completion_queue;
use crate::takeovers::Takeovers;
use history::Config;
use nvme_model::array::Range;
use nvme_model::entry::{BlockLine, FetchLine, PostLine, PublishLine, ReapLine};
use nvme_model::operation::Found;
use std::alloc::{AllocError as NoMemory, Global};

/// What a check of the slots keeps.
#[derive(Drop)]
pub struct SlotTables {
    pub progress: QueueProgress,
    pub names: Names,
    pub takeovers: Takeovers,
}

// What the Writes of a Publish break, whose first entry has this number on its queue, and what its moves do.
fn judge_batch(
    config: &Config,
    slots: Range,
    tables: &SlotTables,
    first: u64,
    line: &PublishLine,
    moves: &Moves,
) -> Option<BrokenDiscipline>
    requires room { first + length line.now.batch < 2 ^ 64 }
    ensures value { result ≡
        slots_broken_by (write_alone slots line.now.queue first line.now.batch moves.now.swaps.items)
        (claimed_twice_in (names_in tables.now.names) moves.now.swaps.items)
        (release_broken_in config.now (names_in tables.now.names) (takeovers_kept tables.now.takeovers).taken []
        moves.now.swaps.items)
        (takeover_broken_in config.now (names_in tables.now.names) moves.now.takeovers.items)
        ((takeovers_kept tables.now.takeovers).cut (completion_queue config.now line.now.queue)) }
{
    let swaps = moves.swaps.as_slice();
    if let Some(lba) = write_alone(slots, line.queue, first, line.batch.as_slice(), swaps) {
        return Some(BrokenDiscipline::NoSwap(lba));
    }
    if let Some(lba) = claimed_twice(&tables.names, swaps) {
        return Some(BrokenDiscipline::ClaimedTwice(lba));
    }
    if let Some(broken) = release_broken(config, &tables.names, &tables.takeovers, swaps) {
        return Some(broken);
    }
    if let Some(broken) = takeover_broken(config, &tables.names, moves.takeovers.as_slice()) {
        return Some(broken);
    }
    match tables
        .takeovers
        .cut_at(completion_queue(config, line.queue))
    {
        Some(lba) => Some(BrokenDiscipline::CutOff(lba)),
        None => None,
    }
}

/// Takes a Publish that may follow, and says which rule it breaks.
///
/// # Errors
///
/// `NoMemory` where a growth is refused; what was kept is still kept.
pub fn take_publish(
    alloc: Global,
    config: &Config,
    slots: Range,
    tables: &mut SlotTables,
    line: &PublishLine,
) -> Result<Option<BrokenDiscipline>, NoMemory>
    ensures broken { (past : Past) → IsSlotCheckState config.now slots past (slot_check_state_in tables.old) →
        IfOk result (λ o. o ≡ discipline_broken config.now slots past (Entry.Publish line.now)) }
    ensures kept { (past : Past) → IsSlotCheckState config.now slots past (slot_check_state_in tables.old) →
        IsLegal config.now (Entry.Publish line.now ∷ past) →
        IfOk result (λ o. o ≡ None
        → IsSlotCheckState config.now slots (Entry.Publish line.now ∷ past) (slot_check_state_in tables.new)) }
    ensures err { (past : Past) → IsSlotCheckState config.now slots past (slot_check_state_in tables.old) →
        OnErr result (IsSlotCheckState config.now slots past (slot_check_state_in tables.new)) }
{
    let first = tables.progress.published(line.queue);
    let batch = line.batch.as_slice();
    if first.checked_add(batch.len() as u64).is_none() {
        return Err(NoMemory);
    }
    let moves = moves_in_area(alloc, slots, line.queue, first, batch)?;
    let broken = judge_batch(config, slots, tables, first, line, &moves);
    if broken.is_some() {
        return Ok(broken);
    }
    let swaps = moves.swaps.as_slice();
    let takeovers = moves.takeovers.as_slice();
    tables.names.reserve(swaps.len())?;
    tables.takeovers.reserve(takeovers.len())?;
    tables.progress.publish(line)?;
    tables.takeovers.add_all(config, &tables.names, takeovers);
    tables.names.add_all(swaps);
    Ok(None)
}

/// Takes a Reap that may follow.
///
/// # Errors
///
/// `NoMemory` where a growth is refused; what was kept is still kept.
pub fn take_reap(tables: &mut SlotTables, line: &ReapLine) -> Result<(), NoMemory>
    ensures kept { (c : ConfigNumbers) (area : Range) (past : Past)
        → IsSlotCheckState c area past (slot_check_state_in tables.old) →
        IsLegal c (Entry.Reap line.now ∷ past) →
        OnOk result (IsSlotCheckState c area (Entry.Reap line.now ∷ past) (slot_check_state_in tables.new)) }
    ensures err { (c : ConfigNumbers) (area : Range) (past : Past)
        → IsSlotCheckState c area past (slot_check_state_in tables.old) →
        OnErr result (IsSlotCheckState c area past (slot_check_state_in tables.new)) }
{
    let Some(completed) = tables.progress.reap(line)? else {
        return Ok(());
    };
    if completed.success {
        tables.names.win(completed.queue, completed.number);
    }
    Ok(())
}

/// Takes a Fetch that may follow.
///
/// # Errors
///
/// `NoMemory` where a growth is refused; what was kept is still kept.
pub fn take_fetch(tables: &mut SlotTables, line: &FetchLine) -> Result<(), NoMemory>
    ensures kept { (c : ConfigNumbers) (area : Range) (past : Past)
        → IsSlotCheckState c area past (slot_check_state_in tables.old) →
        IsLegal c (Entry.Fetch line.now ∷ past) →
        OnOk result (IsSlotCheckState c area (Entry.Fetch line.now ∷ past) (slot_check_state_in tables.new)) }
    ensures err { (c : ConfigNumbers) (area : Range) (past : Past)
        → IsSlotCheckState c area past (slot_check_state_in tables.old) →
        OnErr result (IsSlotCheckState c area past (slot_check_state_in tables.new)) }
{
    tables.progress.fetch(line)?;
    Ok(())
}

/// Takes a Post that may follow.
///
/// # Errors
///
/// `NoMemory` where a growth is refused; what was kept is still kept.
pub fn take_post(config: &Config, tables: &mut SlotTables, line: &PostLine) -> Result<(), NoMemory>
    ensures kept { (area : Range) (past : Past)
        → IsSlotCheckState config.now area past (slot_check_state_in tables.old) →
        IsLegal config.now (Entry.Post line.now ∷ past) →
        OnOk result (IsSlotCheckState config.now area (Entry.Post line.now ∷ past) (slot_check_state_in tables.new)) }
    ensures err { (area : Range) (past : Past)
        → IsSlotCheckState config.now area past (slot_check_state_in tables.old) →
        OnErr result (IsSlotCheckState config.now area past (slot_check_state_in tables.new)) }
{
    tables.progress.post(config, line)?;
    Ok(())
}

// Whether a Block is the effect of its unit, and no compare of it differed.
fn says_yes(line: &BlockLine) -> bool
    ensures value { result ≡ (line.now.effect && not (is_differs line.now.found)) }
{
    match line.found {
        Found::Differs => false,
        Found::Equal | Found::Read | Found::Written => line.effect,
    }
}

/// Takes a Block that may follow. Where it is the effect of a takeover and says yes, the slot is taken over.
///
/// # Errors
///
/// `NoMemory` where a growth is refused; what was kept is still kept.
pub fn take_block(tables: &mut SlotTables, line: &BlockLine) -> Result<(), NoMemory>
    ensures kept { (c : ConfigNumbers) (area : Range) (past : Past)
        → IsSlotCheckState c area past (slot_check_state_in tables.old) →
        IsLegal c (Entry.Block line.now ∷ past) →
        OnOk result (IsSlotCheckState c area (Entry.Block line.now ∷ past) (slot_check_state_in tables.new)) }
    ensures err { (c : ConfigNumbers) (area : Range) (past : Past)
        → IsSlotCheckState c area past (slot_check_state_in tables.old) →
        OnErr result (IsSlotCheckState c area past (slot_check_state_in tables.new)) }
{
    if !says_yes(line) {
        return Ok(());
    }
    let Some(flying) = tables.progress.flying(line.ticket) else {
        return Ok(());
    };
    tables.takeovers.take_effect(flying.queue, flying.next)?;
    Ok(())
}
