//! What the handle of a tracer owns, and that handle: it lies in the caller's memory, and owns a tracer or nothing.

ghost use Rattle.std.specs.Prelude.{◌≡◌, MatchOption, None, OnErr, OnOk, Option, Some};
ghost use Rattle.c_handles.specs.Owned.{mark};
ghost use Rattle.vandrexu_c.specs.Tracers.{TakesEntry, TracerRun, published_or, reaped_of};

use c_handles::Owner;
use history::Entry;
use std::alloc::{AllocError as NoMemory, Global};
use std::marker::{Model, Send};
use trace::Seen;
use witness_check::{Observer, Sight};

/// What follows a legal history, and what hosts see of the entry that it took last.
#[derive(Drop)]
pub struct OwnedTracer {
    pub(crate) observer: Observer,
    pub(crate) last: Option<Seen>,
}

impl Model for OwnedTracer {
    ghost use Rattle.vandrexu_c.specs.Tracers.{TracerRun};

    ghost Value = { TracerRun };

    ghost view = { λ t. record { waiting = t.observer; last = t.last } };
}

// What hosts see of a Reap, where it is one.
fn reaped(sight: Sight<'_>) -> Option<Seen>
    ensures { result ≡ reaped_of sight.entry }
{
    match sight {
        Sight::Hidden | Sight::Published(_) => None,
        Sight::Reaped(line) => Some(Seen::Reaped(line)),
    }
}

// What hosts see of an entry: a Publish itself, else this.
fn seen_of(entry: Entry, reaped: Option<Seen>) -> Option<Seen>
    ensures { result ≡ published_or entry reaped }
{
    match entry {
        Entry::Publish(line) => Some(Seen::Published(line)),
        Entry::Fetch(_) | Entry::Grant(_) | Entry::Block(_) | Entry::Post(_) | Entry::Reap(_) =>
            reaped,
    }
}

impl OwnedTracer {
    // Takes the next entry of a legal history.
    pub(crate) fn take(&mut self, entry: Entry) -> Result<(), NoMemory>
        ensures taken { OnOk result (TakesEntry self.old entry self.new) }
        ensures err { OnErr result (self.new ≡ self.old) }
    {
        let sight = self.observer.take(&entry)?;
        let reaped = reaped(sight);
        self.last = seen_of(entry, reaped);
        Ok(())
    }
}

/// The pointer of a handle, and what it owns: a tracer, or nothing.
#[repr(C)]
#[derive(Drop)]
pub struct HeldTracer {
    at: *mut u8,
    ghost run: { Option TracerRun },
}

impl Model for HeldTracer {
    ghost use Rattle.c_handles.specs.Owned.{owned};
    ghost use Rattle.vandrexu_c.specs.contracts.owned_tracer.OwnedTracer.{the_row};

    ghost also_owns = { λ h. owned the_row h.at h.run };
}

// A handle may be used on another thread than the one that made it.
unsafe impl Send for HeldTracer {}

impl HeldTracer {
    fn of(owner: Owner<OwnedTracer>) -> HeldTracer
        ensures { result.run ≡ owner.value }
    {
        let Owner { at } = owner;
        HeldTracer { at: at as *mut u8 }
    }

    fn into_owner(self) -> Owner<OwnedTracer>
        ensures { result.value ≡ self.run }
    {
        let HeldTracer { at } = self;
        Owner {
            at: at as *mut OwnedTracer,
        }
    }
}

/// What C holds of a tracer: zeros before the first call and after the last.
#[repr(C)]
pub struct TracerHandle {
    pub(crate) held: HeldTracer,
    pub(crate) live: u32,
    ghost marked: { live ≡ mark held.run },
}

impl TracerHandle {
    // Takes the tracer out, if it owns one.
    pub(crate) fn take(&mut self, alloc: Global) -> Option<Box<OwnedTracer>>
        ensures value { MatchOption result (self.old.held.run ≡ None) (λ b. self.old.held.run ≡ Some b.value) }
        ensures emptied { self.new.held.run ≡ None }
    {
        let empty = TracerHandle {
            held: HeldTracer::of(Owner::none()),
            live: 0,
        };
        let TracerHandle { held, live } = std::mem::replace(self, empty);
        held.into_owner().into_box(alloc, live)
    }

    // Puts a tracer into one that has none.
    pub(crate) fn put(&mut self, owned: Box<OwnedTracer>)
        requires { self.old.held.run ≡ None }
        ensures { self.new.held.run ≡ Some owned.value }
    {
        let full = TracerHandle {
            held: HeldTracer::of(Owner::of(owned)),
            live: 1,
        };
        let TracerHandle { held: _, live: _ } = std::mem::replace(self, full);
    }
}
