//! The handle of a slot host whose controller is somewhere else: it lies in the caller's memory, and owns a host or
//! nothing.

ghost use Rattle.std.specs.Prelude.{◌≡◌, MatchOption, None, Option, Some};
ghost use Rattle.c_handles.specs.Owned.{mark};
ghost use Rattle.std.specs.Coded.{coded_option};
ghost use Rattle.vandrexu_c.specs.contracts.remote_slots.RemoteSlotHost.{the_row};
ghost use Rattle.vandrexu_c.specs.SlotStates.{RemoteSlots};

use crate::remote_slots::RemoteSlotHost;
use c_handles::Owner;
use std::alloc::Global;
use std::marker::{Model, Send};

/// The pointer of a handle, and what it owns: a host, or nothing.
#[repr(C)]
#[derive(Drop)]
pub struct HeldRemoteSlots {
    at: *mut u8,
    ghost host: { Option RemoteSlots } by { coded_option the_row.coded },
}

impl Model for HeldRemoteSlots {
    ghost use Rattle.c_handles.specs.Owned.{owned};
    ghost use Rattle.vandrexu_c.specs.contracts.remote_slots.RemoteSlotHost.{the_row};

    ghost also_owns = { λ h. owned the_row h.at h.host };
}

// A handle may be used on another thread than the one that made it.
unsafe impl Send for HeldRemoteSlots {}

impl HeldRemoteSlots {
    fn of(owner: Owner<RemoteSlotHost>) -> HeldRemoteSlots
        ensures { result.host ≡ owner.value }
    {
        let Owner { at } = owner;
        HeldRemoteSlots { at: at as *mut u8 }
    }

    fn into_owner(self) -> Owner<RemoteSlotHost>
        ensures { result.value ≡ self.host }
    {
        let HeldRemoteSlots { at } = self;
        Owner {
            at: at as *mut RemoteSlotHost,
        }
    }
}

/// What C holds of a host: zeros before the first call and after the last.
#[repr(C)]
pub struct RemoteSlotHandle {
    pub(crate) held: HeldRemoteSlots,
    pub(crate) live: u32,
    ghost marked: { live ≡ mark held.host },
}

impl RemoteSlotHandle {
    // Takes the host out, if it owns one.
    pub(crate) fn take(&mut self, alloc: Global) -> Option<Box<RemoteSlotHost>>
        ensures value { MatchOption result (self.old.held.host ≡ None) (λ b. self.old.held.host ≡ Some b.value) }
        ensures emptied { self.new.held.host ≡ None }
    {
        let empty = RemoteSlotHandle {
            held: HeldRemoteSlots::of(Owner::none()),
            live: 0,
        };
        let RemoteSlotHandle { held, live } = std::mem::replace(self, empty);
        held.into_owner().into_box(alloc, live)
    }

    // Puts a host into one that has none.
    pub(crate) fn put(&mut self, host: Box<RemoteSlotHost>)
        requires { self.old.held.host ≡ None }
        ensures { self.new.held.host ≡ Some host.value }
    {
        let full = RemoteSlotHandle {
            held: HeldRemoteSlots::of(Owner::of(host)),
            live: 1,
        };
        let RemoteSlotHandle { held: _, live: _ } = std::mem::replace(self, full);
    }
}
