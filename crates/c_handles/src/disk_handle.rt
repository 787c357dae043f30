//! The handle of a disk: it lies in the caller's memory, and owns a disk or nothing.

ghost use Rattle.std.specs.Prelude.{◌≡◌, None, Option, Some};
ghost use Rattle.c_handles.specs.Owned.{mark};
ghost use Rattle.c_handles.specs.declared.disk.Disk.{Disk as TheDisk};

use crate::disk::Disk;
use crate::owner::Owner;
use std::alloc::Global;
use std::marker::{Model, Send};

/// The pointer of a handle, and what it owns: a disk, or nothing.
#[repr(C)]
#[derive(Drop)]
pub struct HeldDisk {
    at: *mut u8,
    ghost disk: { Option TheDisk },
}

impl Model for HeldDisk {
    ghost use Rattle.c_handles.specs.Owned.{owned};
    ghost use Rattle.c_handles.specs.contracts.disk.Disk.{the_row};

    ghost also_owns = { λ h. owned the_row h.at h.disk };
}

// A handle may be used on another thread than the one that made it.
unsafe impl Send for HeldDisk {}

impl HeldDisk {
    fn of(owner: Owner<Disk>) -> HeldDisk
        ensures { result.disk ≡ owner.value }
    {
        let Owner { at } = owner;
        HeldDisk { at: at as *mut u8 }
    }

    fn into_owner(self) -> Owner<Disk>
        ensures { result.value ≡ self.disk }
    {
        let HeldDisk { at } = self;
        Owner {
            at: at as *mut Disk,
        }
    }
}

/// What C holds of a disk: zeros before the first call and after the last.
#[repr(C)]
pub struct DiskHandle {
    held: HeldDisk,
    live: u32,
    ghost marked: { live ≡ mark held.disk },
}

impl DiskHandle {
    ghost use Rattle.std.specs.Prelude.{MatchOption, false, true};
    ghost use Rattle.c_handles.specs.Handles.{disk_in};

    /// Whether it owns a disk.
    #[tactic(auto, using(crate::proofs::Marks::none_of, crate::proofs::Marks::one_of))]
    pub fn owns(&self) -> bool
        ensures owned { result ≡ true → mark (disk_in self.now) ≡ 1 }
        ensures empty { result ≡ false → disk_in self.now ≡ None }
    {
        self.live != 0
    }

    /// Takes the disk out, if it owns one.
    pub fn take(&mut self, alloc: Global) -> Option<Box<Disk>>
        ensures value { MatchOption result (disk_in self.old ≡ None) (λ b. disk_in self.old ≡ Some b.value) }
        ensures emptied { disk_in self.new ≡ None }
    {
        let empty = DiskHandle {
            held: HeldDisk::of(Owner::none()),
            live: 0,
        };
        let DiskHandle { held, live } = std::mem::replace(self, empty);
        held.into_owner().into_box(alloc, live)
    }

    /// Puts a disk into one that has none.
    pub fn put(&mut self, disk: Box<Disk>)
        requires { disk_in self.old ≡ None }
        ensures { disk_in self.new ≡ Some disk.value }
    {
        let full = DiskHandle {
            held: HeldDisk::of(Owner::of(disk)),
            live: 1,
        };
        let DiskHandle { held: _, live: _ } = std::mem::replace(self, full);
    }
}
