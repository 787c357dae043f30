//! The handle of a checker of slots: it lies in the caller's memory, and owns a checker or nothing.

ghost use Rattle.std.specs.Coded.{coded_option};
ghost use Rattle.std.specs.Prelude.{◌≡◌, MatchOption, None, Option, Some};
ghost use Rattle.c_handles.specs.Owned.{mark};
ghost use Rattle.vandrexu_c.specs.SlotCheckers.{SlotCheckerRun};
ghost use Rattle.vandrexu_c.specs.contracts.owned_slot_checker.OwnedSlotChecker.{the_row as owned_row};

use crate::owned_slot_checker::OwnedSlotChecker;
use c_handles::Owner;
use std::alloc::Global;
use std::marker::{Model, Send};

/// The pointer of a handle, and what it owns: a checker, or nothing.
#[repr(C)]
#[derive(Drop)]
pub struct HeldSlotChecker {
    at: *mut u8,
    ghost run: { Option SlotCheckerRun } by { coded_option owned_row.coded },
}

impl Model for HeldSlotChecker {
    ghost use Rattle.c_handles.specs.Owned.{owned};
    ghost use Rattle.vandrexu_c.specs.contracts.owned_slot_checker.OwnedSlotChecker.{the_row};

    ghost also_owns = { λ h. owned the_row h.at h.run };
}

// A handle may be used on another thread than the one that made it.
unsafe impl Send for HeldSlotChecker {}

impl HeldSlotChecker {
    fn of(owner: Owner<OwnedSlotChecker>) -> HeldSlotChecker
        ensures { result.run ≡ owner.value }
    {
        let Owner { at } = owner;
        HeldSlotChecker { at: at as *mut u8 }
    }

    fn into_owner(self) -> Owner<OwnedSlotChecker>
        ensures { result.value ≡ self.run }
    {
        let HeldSlotChecker { at } = self;
        Owner {
            at: at as *mut OwnedSlotChecker,
        }
    }
}

/// What C holds of a checker of slots: zeros before the first call and after the last.
#[repr(C)]
pub struct SlotCheckerHandle {
    pub(crate) held: HeldSlotChecker,
    pub(crate) live: u32,
    ghost marked: { live ≡ mark held.run },
}

impl SlotCheckerHandle {
    // Takes the checker out, if it owns one.
    pub(crate) fn take(&mut self, alloc: Global) -> Option<Box<OwnedSlotChecker>>
        ensures value { MatchOption result (self.old.held.run ≡ None) (λ b. self.old.held.run ≡ Some b.value) }
        ensures emptied { self.new.held.run ≡ None }
    {
        let empty = SlotCheckerHandle {
            held: HeldSlotChecker::of(Owner::none()),
            live: 0,
        };
        let SlotCheckerHandle { held, live } = std::mem::replace(self, empty);
        held.into_owner().into_box(alloc, live)
    }

    // Puts a checker into one that has none.
    pub(crate) fn put(&mut self, owned: Box<OwnedSlotChecker>)
        requires { self.old.held.run ≡ None }
        ensures { self.new.held.run ≡ Some owned.value }
    {
        let full = SlotCheckerHandle {
            held: HeldSlotChecker::of(Owner::of(owned)),
            live: 1,
        };
        let SlotCheckerHandle { held: _, live: _ } = std::mem::replace(self, full);
    }
}
