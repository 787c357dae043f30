//! Threads that were started, each with passes that come back.

ghost use Rattle.std.specs.List.{AllZip};
ghost use Rattle.std.specs.Prelude.{◌+◌, ◌++◌, ◌≡◌, ◌≤◌, List, map, reverse, vec_len};
ghost use Rattle.std.specs.Vec.{vec_capacity};
ghost use Rattle.hosts.specs.Returning.{GaveBack};

use std::alloc::AllocError as NoMemory;
use std::thread::{Promise, PromisedHandle, Threads};

/// What a thread gives back: its passes, and whether it lacked memory.
pub type Returned<H> = (H, Result<(), NoMemory>);

/// The handles of threads that were started, each with what its end promises.
pub type Handles<H, P> = Vec<PromisedHandle<Returned<H>, P>>;

/// Joins all, and puts their passes behind `callers`, those of the last first. Ok is answered only where each says so.
///
/// # Errors
///
/// `NoMemory` where one of the threads says so.
pub fn join_each<R: Threads, H: Drop, P: Promise<Returned<H>>>(
    rt: &R,
    mut started: Handles<H, P>,
    callers: &mut Vec<H>,
) -> Result<(), NoMemory>
    requires room { vec_len callers.old + vec_len started ≤ vec_capacity callers.old }
    ensures back { (back : List H) × (callers.new.items ≡ callers.old.items ++ back)
        × AllZip (GaveBack P.kept_by result) (reverse (map (λ h. h.promise) started.items)) back }
{
    let mut ends = Ok(());
    for _ in 0..started.len() {
        let child = started.pop().unwrap();
        let (caller, end) = child.join(rt);
        callers.push_reserved(caller);
        ends = ends.and(end);
    }
    ends
}
