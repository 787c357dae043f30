//! Every Work that goes through a queue comes out, once and in its pusher's order.

ghost use Rattle.std.specs.Prelude.{◌<◌, All, IfOk};
ghost use Rattle.shared_system.specs.Plain.{ArePlainCallers, IsPlainCallerOf};

use crate::counts::Counts;
use crate::crowd::{Ended, Got, WORKS, crowd};
use crate::ends::entries_of;
use lock_testing::config_of;
use shared_system::{PlainCaller, PlainCallers, PlainSystem, plain_system_of, take_caller};
use std::alloc::{AllocError, Global};
use std::process::Abort;
use std::sync::Wait;
use std::test::Fail;
use std::thread::Threads;

/// Marks the CIDs of this queue that one thread popped; false where they don't rise, one is marked already, or
/// there is no place for it.
fn marks(popped: &[Ended], queue: u16, marked: &mut [bool]) -> bool {
    let mut last = 0usize;
    for ended in popped {
        if ended.queue == queue {
            let place = ended.cid as usize;
            if place <= last || place >= marked.len() || marked[place] {
                return false;
            }
            marked[place] = true;
            last = place;
        }
    }
    true
}

/// Whether each CID of this queue was popped, and once, each thread's in order.
fn has_each(alloc: Global, gots: &[Got], queue: u16) -> Result<bool, AllocError> {
    let mut marked = Vec::new(alloc);
    for place in 0..=WORKS {
        marked.push(place == 0)?;
    }
    for got in gots {
        if let Ok(popped) = got {
            if !marks(popped.as_slice(), queue, marked.as_mut_slice()) {
                return Ok(false);
            }
        }
    }
    Ok(marked.as_slice().iter().all(|mark| *mark))
}

/// That nothing stopped a thread, and each Work of four pushers was popped once.
fn check_each<R: Abort>(rt: &R, alloc: Global, gots: &[Got]) -> Result<(), Fail> {
    for got in gots {
        if let Err(why) = got {
            panic!(rt; "stopped by {why}")
        }
    }
    for queue in 1..=4 {
        assert!(rt; has_each(alloc, gots, queue)?);
    }
    Ok(())
}

/// Adds a caller, where there is one and memory.
fn add_caller(system: &PlainSystem, spares: &mut PlainCallers, callers: &mut Vec<PlainCaller>)
    requires { ArePlainCallers system.now spares.old × All (IsPlainCallerOf system.now) callers.old.items }
    ensures { ArePlainCallers system.now spares.new × All (IsPlainCallerOf system.now) callers.new.items }
{
    if let Some(caller) = take_caller(system, spares) {
        let _ = callers.push(caller);
    }
}

/// So many callers, or fewer.
fn some_callers(
    alloc: Global,
    system: &PlainSystem,
    spares: &mut PlainCallers,
    count: u8,
) -> Vec<PlainCaller>
    requires { ArePlainCallers system.now spares.old }
    ensures { ArePlainCallers system.now spares.new × All (IsPlainCallerOf system.now) result.items }
{
    let mut callers = Vec::new(alloc);
    for _ in 0..count {
        add_caller(system, spares, &mut callers);
    }
    callers
}

/// Four pushers and four poppers carry each Work once through the queue, which has so many places.
fn eight<R: Abort + Threads + Wait + Sync>(
    rt: &R,
    alloc: Global,
    system: &PlainSystem,
    spares: &mut PlainCallers,
    capacity: usize,
) -> Result<(), Fail>
    requires { ArePlainCallers system.now spares.old }
    ensures { IfOk result (λ _. ArePlainCallers system.now spares.new) }
{
    let callers = some_callers(alloc, system, spares, 8);
    assert_eq!(rt; callers.len(), 8);
    let counts = Counts::new(4 * u64::from(WORKS), capacity as u64);
    let gots = crowd(rt, alloc, system, &counts, callers)?;
    check_each(rt, alloc, gots.as_slice())
}

/// The same, in a system of four queue pairs; the history has an entry for each step.
fn carries<R: Abort + Threads + Wait + Sync>(
    rt: &R,
    alloc: Global,
    capacity: usize,
) -> Result<(), Fail>
    requires { 0 < capacity }
{
    let config = config_of(alloc, "config 8 1 1 0 0 4 4 8 32").ok_or("no configuration")?;
    let (system, mut spares) = plain_system_of(alloc, config, capacity, 9)?;
    eight(rt, alloc, &system, &mut spares, capacity)?;
    let last = take_caller(&system, &mut spares).ok_or("a caller")?;
    assert_eq!(rt; entries_of(system, last)? as u64, 16 * u64::from(WORKS));
    Ok(())
}

#[test]
fn one_place_carries_every_work_once(rt: HostRuntime) -> Result<(), Fail> {
    carries(&rt, rt.alloc(), 1)
}

#[test]
fn sixteen_places_carry_every_work_once(rt: HostRuntime) -> Result<(), Fail> {
    carries(&rt, rt.alloc(), 16)
}
