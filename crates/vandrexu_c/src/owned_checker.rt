//! What the handle of a checker owns, and that handle: it lies in the caller's memory, and owns a checker or nothing.

ghost use Rattle.std.specs.Prelude.{◌≡◌, MatchOption, None, Option, Some};
ghost use Rattle.c_handles.specs.Owned.{mark};
ghost use Rattle.history_check.specs.Kept.{CheckerRun};

use c_handles::Owner;
use history_check::Checker;
use std::alloc::Global;
use std::marker::{Model, Send};

/// A checker.
#[derive(Drop)]
pub struct OwnedChecker {
    pub(crate) checker: Checker,
}

impl Model for OwnedChecker {
    ghost use Rattle.history_check.specs.Kept.{CheckerRun};

    ghost Value = { CheckerRun };

    ghost view = { λ j. j.checker };
}

/// The pointer of a handle, and what it owns: a checker, or nothing.
#[repr(C)]
#[derive(Drop)]
pub struct HeldChecker {
    at: *mut u8,
    ghost run: { Option CheckerRun },
}

impl Model for HeldChecker {
    ghost use Rattle.c_handles.specs.Owned.{owned};
    ghost use Rattle.vandrexu_c.specs.contracts.owned_checker.OwnedChecker.{the_row};

    ghost also_owns = { λ h. owned the_row h.at h.run };
}

// A handle may be used on another thread than the one that made it.
unsafe impl Send for HeldChecker {}

impl HeldChecker {
    fn of(owner: Owner<OwnedChecker>) -> HeldChecker
        ensures { result.run ≡ owner.value }
    {
        let Owner { at } = owner;
        HeldChecker { at: at as *mut u8 }
    }

    fn into_owner(self) -> Owner<OwnedChecker>
        ensures { result.value ≡ self.run }
    {
        let HeldChecker { at } = self;
        Owner {
            at: at as *mut OwnedChecker,
        }
    }
}

/// What C holds of a checker: zeros before the first call and after the last.
#[repr(C)]
pub struct CheckerHandle {
    pub(crate) held: HeldChecker,
    pub(crate) live: u32,
    ghost marked: { live ≡ mark held.run },
}

impl CheckerHandle {
    // Takes the checker out, if it owns one.
    pub(crate) fn take(&mut self, alloc: Global) -> Option<Box<OwnedChecker>>
        ensures value { MatchOption result (self.old.held.run ≡ None) (λ b. self.old.held.run ≡ Some b.value) }
        ensures emptied { self.new.held.run ≡ None }
    {
        let empty = CheckerHandle {
            held: HeldChecker::of(Owner::none()),
            live: 0,
        };
        let CheckerHandle { held, live } = std::mem::replace(self, empty);
        held.into_owner().into_box(alloc, live)
    }

    // Puts a checker into one that has none.
    pub(crate) fn put(&mut self, owned: Box<OwnedChecker>)
        requires { self.old.held.run ≡ None }
        ensures { self.new.held.run ≡ Some owned.value }
    {
        let full = CheckerHandle {
            held: HeldChecker::of(Owner::of(owned)),
            live: 1,
        };
        let CheckerHandle { held: _, live: _ } = std::mem::replace(self, full);
    }
}
