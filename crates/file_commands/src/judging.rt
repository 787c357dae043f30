//! The entries of a file, one a line, judged as they come, and beside an area of slots.

ghost use Rattle.std.specs.Prelude.{◌≡◌, [], IfOk};
ghost use Rattle.nvme_model.specs.declared.array.Range.{Range};
ghost use Rattle.slot_check.specs.Watched.{area_state};
ghost use Rattle.file_commands.specs.Wrong.{HasJudgedSlots, wrong_step_at};

use casdisk_texts::{EntryMeaning, FirstBad, Judge};
use history::{Config, Entry};
use nvme_model::array::Range;
use slot_check::{AreaCheck, BrokenDiscipline};
use std::alloc::{AllocError as NoMemory, Global};

/// An entry that breaks the discipline of slots: its place, from 1, and the first rule that it breaks.
#[derive(Clone, Copy, Debug, Drop, PartialEq, Eq)]
pub struct WrongStep {
    pub place: u64,
    pub broken: BrokenDiscipline,
}

// What was found in a history: its first entry that may not follow, and the first that breaks the discipline of the
// slots, of which nothing is said where the history isn't legal.
#[derive(Clone, Copy)]
pub(crate) struct JudgedSlots {
    pub(crate) bad: FirstBad,
    pub(crate) wrong: Option<WrongStep>,
}

// Judges entries, and keeps none of them; `wrong` is the first that breaks the discipline of the slots.
#[derive(Drop)]
pub(crate) struct SlotJudge<const WHY: bool> {
    pub(crate) slots: Range,
    pub(crate) judge: Judge<WHY>,
    pub(crate) area: AreaCheck,
    pub(crate) wrong: Option<WrongStep>,
}

// The entry at this place, where it breaks a rule.
fn wrong_step_at(place: u64, broken: Option<BrokenDiscipline>) -> Option<WrongStep>
    ensures value { result ≡ wrong_step_at place broken }
{
    match broken {
        Some(broken) => Some(WrongStep { place, broken }),
        None => None,
    }
}

impl<const WHY: bool> SlotJudge<WHY> {
    // One that has judged no entry.
    pub(crate) fn new(
        alloc: Global,
        config: &Config,
        slots: Range,
    ) -> Result<SlotJudge<WHY>, NoMemory>
        ensures begun { IfOk result (λ x. HasJudgedSlots WHY config.now x.slots [] x.judge.checker x.judge.count
            x.judge.bad (area_state x.area) x.wrong) }
        ensures slots { IfOk result (λ x. x.slots ≡ slots) }
    {
        Ok(SlotJudge {
            slots,
            judge: Judge::new(alloc, config)?,
            area: AreaCheck::new(alloc, config, slots),
            wrong: None,
        })
    }

    // What was found so far.
    pub(crate) fn found(&self) -> JudgedSlots
        ensures value { (result.bad ≡ self.now.judge.bad) × (result.wrong ≡ self.now.wrong) }
    {
        JudgedSlots {
            bad: self.judge.bad,
            wrong: self.wrong,
        }
    }
}

impl<const WHY: bool> EntryMeaning for SlotJudge<WHY> {
    ghost stands = { λ m c past. HasJudgedSlots WHY c m.slots past m.judge.checker m.judge.count m.judge.bad
        (area_state m.area) m.wrong };

    ghost Kept = { Range };

    ghost kept = { λ m. m.slots };

    fn take_entry(&mut self, entry: Entry) -> Result<(), NoMemory> {
        self.judge.judge(&entry)?;
        if self.judge.bad.place.is_some() {
            return Ok(());
        }
        if self.wrong.is_some() {
            return Ok(());
        }
        let broken = self.area.take(&entry)?;
        self.wrong = wrong_step_at(self.judge.count, broken);
        Ok(())
    }
}
