//! The handle of a remote host: it lies in the caller's memory, and owns a remote host or nothing.

ghost use Rattle.std.specs.Prelude.{◌≡◌, MatchOption, None, Option, Some};
ghost use Rattle.c_handles.specs.Owned.{mark};
ghost use Rattle.std.specs.Coded.{coded_option};
ghost use Rattle.vandrexu_c.specs.RemoteStates.{RemoteState};
ghost use Rattle.vandrexu_c.specs.contracts.remote.DrivenRemote.{the_row};

use crate::remote::DrivenRemote;
use c_handles::Owner;
use std::alloc::Global;
use std::marker::{Model, Send};

/// The pointer of a handle, and what it owns: a remote host, or nothing.
#[repr(C)]
#[derive(Drop)]
pub struct HeldRemote {
    at: *mut u8,
    ghost remote: { Option RemoteState } by { coded_option the_row.coded },
}

impl Model for HeldRemote {
    ghost use Rattle.c_handles.specs.Owned.{owned};
    ghost use Rattle.vandrexu_c.specs.contracts.remote.DrivenRemote.{the_row};

    ghost also_owns = { λ h. owned the_row h.at h.remote };
}

// A handle may be used on another thread than the one that made it.
unsafe impl Send for HeldRemote {}

impl HeldRemote {
    fn of(owner: Owner<DrivenRemote>) -> HeldRemote
        ensures { result.remote ≡ owner.value }
    {
        let Owner { at } = owner;
        HeldRemote { at: at as *mut u8 }
    }

    fn into_owner(self) -> Owner<DrivenRemote>
        ensures { result.value ≡ self.remote }
    {
        let HeldRemote { at } = self;
        Owner {
            at: at as *mut DrivenRemote,
        }
    }
}

/// What C holds of a remote host: zeros before the first call and after the last.
#[repr(C)]
pub struct RemoteHandle {
    pub(crate) held: HeldRemote,
    pub(crate) live: u32,
    ghost marked: { live ≡ mark held.remote },
}

impl RemoteHandle {
    // Takes the remote host out, if it owns one.
    pub(crate) fn take(&mut self, alloc: Global) -> Option<Box<DrivenRemote>>
        ensures value { MatchOption result (self.old.held.remote ≡ None) (λ b. self.old.held.remote ≡ Some b.value) }
        ensures emptied { self.new.held.remote ≡ None }
    {
        let empty = RemoteHandle {
            held: HeldRemote::of(Owner::none()),
            live: 0,
        };
        let RemoteHandle { held, live } = std::mem::replace(self, empty);
        held.into_owner().into_box(alloc, live)
    }

    // Puts a remote host into one that has none.
    pub(crate) fn put(&mut self, remote: Box<DrivenRemote>)
        requires { self.old.held.remote ≡ None }
        ensures { self.new.held.remote ≡ Some remote.value }
    {
        let full = RemoteHandle {
            held: HeldRemote::of(Owner::of(remote)),
            live: 1,
        };
        let RemoteHandle { held: _, live: _ } = std::mem::replace(self, full);
    }
}
