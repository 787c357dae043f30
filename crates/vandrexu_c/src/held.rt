//! A handle: it lies in the caller's memory, and owns a controller or nothing.

ghost use Rattle.std.specs.Prelude.{◌≡◌, MatchOption, None, Option, Some};
ghost use Rattle.c_handles.specs.Owned.{mark};
ghost use Rattle.vandrexu_c.specs.OwnedStates.{OwnedState};

use crate::owned_controller::OwnedController;
use c_handles::Owner;
use std::alloc::Global;
use std::marker::{Model, Send};

/// The pointer of a handle, and what it owns: a controller, or nothing.
#[repr(C)]
#[derive(Drop)]
pub struct Held {
    at: *mut u8,
    ghost core: { Option OwnedState },
}

impl Model for Held {
    ghost use Rattle.c_handles.specs.Owned.{owned};
    ghost use Rattle.vandrexu_c.specs.contracts.owned_controller.OwnedController.{the_row};

    ghost also_owns = { λ h. owned the_row h.at h.core };
}

// A handle may be used on another thread than the one that made it.
unsafe impl Send for Held {}

impl Held {
    fn of(owner: Owner<OwnedController>) -> Held
        ensures { result.core ≡ owner.value }
    {
        let Owner { at } = owner;
        Held { at: at as *mut u8 }
    }

    fn into_owner(self) -> Owner<OwnedController>
        ensures { result.value ≡ self.core }
    {
        let Held { at } = self;
        Owner {
            at: at as *mut OwnedController,
        }
    }
}

/// What C holds of a controller: zeros before the first call and after the last.
#[repr(C)]
pub struct Handle {
    pub(crate) held: Held,
    pub(crate) live: u32,
    ghost marked: { live ≡ mark held.core },
}

impl Handle {
    // Takes the controller out, if it owns one.
    pub(crate) fn take(&mut self, alloc: Global) -> Option<Box<OwnedController>>
        ensures value { MatchOption result (self.old.held.core ≡ None) (λ b. self.old.held.core ≡ Some b.value) }
        ensures emptied { self.new.held.core ≡ None }
    {
        let empty = Handle {
            held: Held::of(Owner::none()),
            live: 0,
        };
        let Handle { held, live } = std::mem::replace(self, empty);
        held.into_owner().into_box(alloc, live)
    }

    // Puts a controller into one that has none.
    pub(crate) fn put(&mut self, owned: Box<OwnedController>)
        requires { self.old.held.core ≡ None }
        ensures { self.new.held.core ≡ Some owned.value }
    {
        let full = Handle {
            held: Held::of(Owner::of(owned)),
            live: 1,
        };
        let Handle { held: _, live: _ } = std::mem::replace(self, full);
    }
}
