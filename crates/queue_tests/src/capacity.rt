//! Queues of one place and of sixteen.

ghost use Rattle.std.specs.Prelude.{◌<◌, IfOk};
ghost use Rattle.lock_testing.specs.Callers.{IsCrewOf};
ghost use Rattle.shared_system.specs.Plain.{IsFreshWork, IsPlainCallerOf};

use lock_testing::{ONE_QUEUE, ThreeCallers, begun, config_of, crewed, flush, pops, pushes};
use shared_system::{PlainCaller, PlainSystem};
use std::alloc::Global;
use std::ops::Range;
use std::process::Abort;
use std::sync::Wait;
use std::test::Fail;
use work_queue::Work;

/// The ticket of the Work at the front, 0 where there is none.
fn popped<R: Wait>(rt: &R, system: &PlainSystem, caller: &mut PlainCaller) -> u64
    requires { IsPlainCallerOf system.now caller.old }
    ensures { IsPlainCallerOf system.now caller.new }
{
    match pops(rt, system, caller) {
        Some(work) => work.ticket(),
        None => 0,
    }
}

/// Pushes Works, one more than there are places; the first that comes back.
fn overfills<R: Wait>(
    rt: &R,
    alloc: Global,
    system: &PlainSystem,
    caller: &mut PlainCaller,
    capacity: u16,
) -> Result<Work, u8>
    requires { IsPlainCallerOf system.now caller.old }
    ensures same { IsPlainCallerOf system.now caller.new }
    ensures fresh { IfOk result (IsFreshWork system.now) }
{
    for cid in 0..=capacity {
        let work = begun(rt, alloc, system, caller, flush(1, cid))?;
        if let Err(back) = pushes(rt, system, caller, work) {
            return Ok(back);
        }
    }
    Err(0)
}

/// Pops these tickets, and then nothing.
fn empties<R: Abort + Wait>(
    rt: &R,
    system: &PlainSystem,
    caller: &mut PlainCaller,
    tickets: Range<u64>,
)
    requires { IsPlainCallerOf system.now caller.old }
    ensures { IsPlainCallerOf system.now caller.new }
{
    for ticket in tickets {
        assert_eq!(rt; popped(rt, system, caller), ticket);
    }
    assert_eq!(rt; popped(rt, system, caller), 0);
}

/// What the worker popped, beside what the fetcher pushed: the queue goes on as before.
fn compares(system: &PlainSystem, crew: &mut ThreeCallers)
    requires { IsCrewOf system.now crew.old }
    ensures { IsCrewOf system.now crew.new }
{
    system
        .works
        .compare(&mut crew.worker.works, &mut crew.fetcher.works);
}

/// That a queue of so many places holds so many Works: one more comes back, and an empty queue gives none.
fn holds<R: Abort + Wait>(
    rt: &R,
    alloc: Global,
    system: &PlainSystem,
    crew: &mut ThreeCallers,
    capacity: u16,
)
    requires { IsCrewOf system.now crew.old }
{
    empties(rt, system, &mut crew.worker, 1..1);
    let Ok(back) = overfills(rt, alloc, system, &mut crew.fetcher, capacity) else {
        panic!(rt; "a Work that comes back")
    };
    let next = u64::from(capacity).wrapping_add(1);
    assert_eq!(rt; back.ticket(), next);
    empties(rt, system, &mut crew.worker, 1..next);
    compares(system, crew);
    assert!(rt; pushes(rt, system, &mut crew.fetcher, back).is_ok());
    empties(rt, system, &mut crew.worker, next..next.wrapping_add(1));
}

/// The same of a new one.
fn new_one_holds<R: Abort + Wait>(rt: &R, alloc: Global, capacity: u16) -> Result<(), Fail>
    requires { 0 < capacity }
{
    let config = config_of(alloc, ONE_QUEUE).ok_or("no configuration")?;
    let (system, mut crew) = crewed(alloc, config, usize::from(capacity)).ok_or("three callers")?;
    holds(rt, alloc, &system, &mut crew, capacity);
    Ok(())
}

#[test]
fn so_many_places_hold_so_many_works(rt: HostRuntime) -> Result<(), Fail> {
    new_one_holds(&rt, rt.alloc(), 1)?;
    new_one_holds(&rt, rt.alloc(), 16)
}
