//! The handle of a slot host: it lies in the caller's memory, and owns a slot host or nothing.

ghost use Rattle.std.specs.Coded.{coded_option};
ghost use Rattle.std.specs.Prelude.{◌≡◌, MatchOption, None, Option, Some};
ghost use Rattle.c_handles.specs.Owned.{mark};
ghost use Rattle.vandrexu_c.specs.contracts.disk_slots.DiskSlotHost.{the_row};
ghost use Rattle.vandrexu_c.specs.SlotStates.{DiskSlots};

use crate::disk_slots::DiskSlotHost;
use c_handles::Owner;
use std::alloc::Global;
use std::marker::{Model, Send};

/// The pointer of a handle, and what it owns: a host, or nothing.
#[repr(C)]
#[derive(Drop)]
pub struct HeldSlotHost {
    at: *mut u8,
    ghost host: { Option DiskSlots } by { coded_option the_row.coded },
}

impl Model for HeldSlotHost {
    ghost use Rattle.c_handles.specs.Owned.{owned};
    ghost use Rattle.vandrexu_c.specs.contracts.disk_slots.DiskSlotHost.{the_row};

    ghost also_owns = { λ h. owned the_row h.at h.host };
}

// A handle may be used on another thread than the one that made it.
unsafe impl Send for HeldSlotHost {}

impl HeldSlotHost {
    fn of(owner: Owner<DiskSlotHost>) -> HeldSlotHost
        ensures { result.host ≡ owner.value }
    {
        let Owner { at } = owner;
        HeldSlotHost { at: at as *mut u8 }
    }

    fn into_owner(self) -> Owner<DiskSlotHost>
        ensures { result.value ≡ self.host }
    {
        let HeldSlotHost { at } = self;
        Owner {
            at: at as *mut DiskSlotHost,
        }
    }
}

/// What C holds of a host: zeros before the first call and after the last.
#[repr(C)]
pub struct SlotHandle {
    pub(crate) held: HeldSlotHost,
    pub(crate) live: u32,
    ghost marked: { live ≡ mark held.host },
}

impl SlotHandle {
    // Takes the host out, if it owns one.
    pub(crate) fn take(&mut self, alloc: Global) -> Option<Box<DiskSlotHost>>
        ensures value { MatchOption result (self.old.held.host ≡ None) (λ b. self.old.held.host ≡ Some b.value) }
        ensures emptied { self.new.held.host ≡ None }
    {
        let empty = SlotHandle {
            held: HeldSlotHost::of(Owner::none()),
            live: 0,
        };
        let SlotHandle { held, live } = std::mem::replace(self, empty);
        held.into_owner().into_box(alloc, live)
    }

    // Puts a host into one that has none.
    pub(crate) fn put(&mut self, host: Box<DiskSlotHost>)
        requires { self.old.held.host ≡ None }
        ensures { self.new.held.host ≡ Some host.value }
    {
        let full = SlotHandle {
            held: HeldSlotHost::of(Owner::of(host)),
            live: 1,
        };
        let SlotHandle { held: _, live: _ } = std::mem::replace(self, full);
    }
}
