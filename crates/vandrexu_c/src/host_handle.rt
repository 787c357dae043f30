//! The handle of a host: it lies in the caller's memory, and owns a host or nothing.

ghost use Rattle.std.specs.Prelude.{◌≡◌, MatchOption, None, Option, Some};
ghost use Rattle.c_handles.specs.Owned.{mark};
ghost use Rattle.vandrexu_c.specs.HostStates.{HostState};

use crate::host::DrivenHost;
use c_handles::Owner;
use std::alloc::Global;
use std::marker::{Model, Send};

/// The pointer of a handle, and what it owns: a host, or nothing.
#[repr(C)]
#[derive(Drop)]
pub struct HeldHost {
    at: *mut u8,
    ghost host: { Option HostState },
}

impl Model for HeldHost {
    ghost use Rattle.c_handles.specs.Owned.{owned};
    ghost use Rattle.vandrexu_c.specs.contracts.host.DrivenHost.{the_row};

    ghost also_owns = { λ h. owned the_row h.at h.host };
}

// A handle may be used on another thread than the one that made it.
unsafe impl Send for HeldHost {}

impl HeldHost {
    fn of(owner: Owner<DrivenHost>) -> HeldHost
        ensures { result.host ≡ owner.value }
    {
        let Owner { at } = owner;
        HeldHost { at: at as *mut u8 }
    }

    fn into_owner(self) -> Owner<DrivenHost>
        ensures { result.value ≡ self.host }
    {
        let HeldHost { at } = self;
        Owner {
            at: at as *mut DrivenHost,
        }
    }
}

/// What C holds of a host: zeros before the first call and after the last.
#[repr(C)]
pub struct HostHandle {
    pub(crate) held: HeldHost,
    pub(crate) live: u32,
    ghost marked: { live ≡ mark held.host },
}

impl HostHandle {
    // Takes the host out, if it owns one.
    pub(crate) fn take(&mut self, alloc: Global) -> Option<Box<DrivenHost>>
        ensures value { MatchOption result (self.old.held.host ≡ None) (λ b. self.old.held.host ≡ Some b.value) }
        ensures emptied { self.new.held.host ≡ None }
    {
        let empty = HostHandle {
            held: HeldHost::of(Owner::none()),
            live: 0,
        };
        let HostHandle { held, live } = std::mem::replace(self, empty);
        held.into_owner().into_box(alloc, live)
    }

    // Puts a host into one that has none.
    pub(crate) fn put(&mut self, host: Box<DrivenHost>)
        requires { self.old.held.host ≡ None }
        ensures { self.new.held.host ≡ Some host.value }
    {
        let full = HostHandle {
            held: HeldHost::of(Owner::of(host)),
            live: 1,
        };
        let HostHandle { held: _, live: _ } = std::mem::replace(self, full);
    }
}
