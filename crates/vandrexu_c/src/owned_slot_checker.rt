//! What the handle of a checker of slots owns.

ghost use Rattle.std.specs.Prelude.{◌≡◌, ◌∷◌, OnErr, OnOk};
ghost use Rattle.file_commands.specs.Wrong.{wrong_step_at};
ghost use Rattle.nvme_model.specs.History.{Past};
ghost use Rattle.nvme_model.specs.declared.array.Range.{Range};
ghost use Rattle.nvme_model.specs.declared.config.ConfigNumbers.{ConfigNumbers};
ghost use Rattle.vandrexu_c.specs.SlotCheckers.{FollowsSlots};

use file_commands::WrongStep;
use history::Entry;
use slot_check::{AreaCheck, BrokenDiscipline};
use std::alloc::{AllocError as NoMemory, Global};
use std::marker::Model;

/// A checker of slots, how many entries it took, and the first that breaks the discipline.
#[derive(Drop)]
pub struct OwnedSlotChecker {
    pub(crate) area: AreaCheck,
    pub(crate) count: u64,
    pub(crate) wrong: Option<WrongStep>,
}

impl Model for OwnedSlotChecker {
    ghost use Rattle.std.specs.Coded.{codes};
    ghost use Rattle.slot_check.specs.contracts.area.AreaCheck.{the_row};
    ghost use Rattle.vandrexu_c.specs.SlotCheckers.{SlotCheckerRun};

    ghost Value = { SlotCheckerRun };

    ghost coded = { Prim.hlevel (codes, the_row.coded) };

    ghost view = { λ j. record { area = j.area; count = j.count; wrong = j.wrong } };
}

// The entry at this place, where it breaks a rule.
fn wrong_step(place: u64, broken: Option<BrokenDiscipline>) -> Option<WrongStep>
    ensures { result ≡ wrong_step_at place broken }
{
    match broken {
        Some(broken) => Some(WrongStep { place, broken }),
        None => None,
    }
}

impl OwnedSlotChecker {
    // Takes the next entry of a legal history.
    pub(crate) fn take(&mut self, entry: &Entry) -> Result<(), NoMemory>
        ensures taken { (c : ConfigNumbers) (slots : Range) (past : Past) → FollowsSlots c slots past self.old →
            OnOk result (FollowsSlots c slots (entry.now ∷ past) self.new) }
        ensures err { (c : ConfigNumbers) (slots : Range) (past : Past) → FollowsSlots c slots past self.old →
            OnErr result (FollowsSlots c slots past self.new) }
    {
        let Some(count) = self.count.checked_add(1) else {
            return Err(NoMemory);
        };
        if self.wrong.is_some() {
            self.count = count;
            return Ok(());
        }
        let Ok(broken) = self.area.take(entry) else {
            return Err(NoMemory);
        };
        self.wrong = wrong_step(count, broken);
        self.count = count;
        Ok(())
    }
}
