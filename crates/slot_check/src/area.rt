//! The check of an area of slots.

ghost use Rattle.std.specs.Prelude.{IfOk, None, OnErr, [], true, ◌&&◌, ◌∷◌, ◌≡◌, is_none};
ghost use Rattle.nvme_model.specs.History.{Past};
ghost use Rattle.nvme_model.specs.Legal.{IsLegal};
ghost use Rattle.nvme_model.specs.Slots.{disciplined};
ghost use Rattle.nvme_model.specs.declared.config.ConfigNumbers.{ConfigNumbers};
ghost use Rattle.host_laws.specs.Discipline.{keeps_at};
ghost use Rattle.host_laws.specs.Rules.{takeover_disciplined};
ghost use Rattle.host_laws.specs.Takeovers.{takeovers};
ghost use Rattle.slot_check.specs.Broken.{discipline_broken, keeps_takeovers_at};
ghost use Rattle.slot_check.specs.Watched.{IsSlotCheckState, Watches, area_state, slot_check_state_in};

use crate::broken::BrokenDiscipline;
use crate::names::Names;
use crate::progress::QueueProgress;
use crate::tables::{SlotTables, take_block, take_fetch, take_post, take_publish, take_reap};
use crate::takeovers::Takeovers;
use history::{Config, Entry};
use nvme_model::array::Range;
use std::alloc::{AllocError as NoMemory, Global};

/// Says of each entry of a legal history that it takes which rule of the discipline of an area of slots it breaks. A
/// history with takeovers says itself whose slots are taken over: from there on that host has to be fenced. The check
/// keeps the names that were given a slot of the area, released or taken over, the takeovers, the completion queues
/// that were cut off, the counts of the queues, the tickets in flight and the completions that weren't reaped; how long
/// an entry takes doesn't grow with the history.
#[derive(Drop)]
pub struct AreaCheck {
    alloc: Global,
    config: Config,
    slots: Range,
    tables: SlotTables,
}

// Takes an entry that may follow.
fn take_entry(
    alloc: Global,
    config: &Config,
    slots: Range,
    tables: &mut SlotTables,
    entry: &Entry,
) -> Result<Option<BrokenDiscipline>, NoMemory>
    ensures broken { (past : Past) → IsSlotCheckState config.now slots past (slot_check_state_in tables.old) →
        IfOk result (λ o. o ≡ discipline_broken config.now slots past entry.now) }
    ensures kept { (past : Past) → IsSlotCheckState config.now slots past (slot_check_state_in tables.old) →
        IsLegal config.now (entry.now ∷ past) →
        IfOk result (λ o. o ≡ None
        → IsSlotCheckState config.now slots (entry.now ∷ past) (slot_check_state_in tables.new)) }
    ensures err { (past : Past) → IsSlotCheckState config.now slots past (slot_check_state_in tables.old) →
        OnErr result (IsSlotCheckState config.now slots past (slot_check_state_in tables.new)) }
{
    match entry {
        Entry::Publish(line) => return take_publish(alloc, config, slots, tables, line),
        Entry::Fetch(line) => take_fetch(tables, line)?,
        Entry::Post(line) => take_post(config, tables, line)?,
        Entry::Reap(line) => take_reap(tables, line)?,
        Entry::Block(line) => take_block(tables, line)?,
        Entry::Grant(_) => {}
    }
    Ok(None)
}

impl AreaCheck {
    /// One that has taken no entry of a history of this configuration. The area may lie anywhere; where it has no block
    /// of the volume, nothing breaks its discipline but what names such blocks.
    pub fn new(alloc: Global, config: &Config, slots: Range) -> AreaCheck
        ensures watches { Watches config.now slots [] (area_state result) }
    {
        AreaCheck {
            alloc,
            config: *config,
            slots,
            tables: SlotTables {
                progress: QueueProgress::new(alloc),
                names: Names::new(alloc),
                takeovers: Takeovers::new(alloc),
            },
        }
    }

    /// Takes the next entry of a legal history, and gives the rule that it breaks first; None exactly where the history
    /// with it keeps the discipline. Behind an entry that breaks one nothing is said of later ones.
    ///
    /// # Errors
    ///
    /// `NoMemory` where a growth is refused; the entry isn't taken, and what was said of later ones stays true.
    pub fn take(&mut self, entry: &Entry) -> Result<Option<BrokenDiscipline>, NoMemory>
        ensures broken { (c : ConfigNumbers) (slots : Range) (past : Past) →
            Watches c slots past (area_state self.old) →
            IfOk result (λ o. o ≡ discipline_broken c slots past entry.now) }
        ensures watches { (c : ConfigNumbers) (slots : Range) (past : Past) →
            Watches c slots past (area_state self.old) →
            IsLegal c (entry.now ∷ past) →
            IfOk result (λ o. o ≡ None → Watches c slots (entry.now ∷ past) (area_state self.new)) }
        ensures err { (c : ConfigNumbers) (slots : Range) (past : Past) → Watches c slots past (area_state self.old) →
            OnErr result (Watches c slots past (area_state self.new)) }
    {
        take_entry(
            self.alloc,
            &self.config,
            self.slots,
            &mut self.tables,
            entry,
        )
    }
}

/// An entry breaks no rule exactly where it keeps the discipline, and a history keeps it exactly where each entry does.
/// Where there is no takeover, that is the discipline of claims and releases alone.
pub fn none_is_broken_where_the_discipline_is_kept()
    ensures none { (c : ConfigNumbers) (slots : Range) (past : Past) (entry : Entry) →
        is_none (discipline_broken c slots past entry) ≡ keeps_takeovers_at c slots past entry }
    ensures fold { (c : ConfigNumbers) (slots : Range) (past : Past) (entry : Entry) →
        takeover_disciplined c slots (entry ∷ past)
        ≡ (takeover_disciplined c slots past && keeps_takeovers_at c slots past entry) }
    ensures without { (c : ConfigNumbers) (slots : Range) (past : Past) (entry : Entry) →
        takeovers (entry ∷ past) ≡ [] →
        is_none (discipline_broken c slots past entry) ≡ keeps_at c slots past entry }
    ensures as_before { (c : ConfigNumbers) (slots : Range) (past : Past) → takeovers past ≡ [] →
        takeover_disciplined c slots past ≡ disciplined c slots past }
{}
