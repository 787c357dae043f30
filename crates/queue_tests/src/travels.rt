//! A Work on another thread than its fetcher's.

ghost use Rattle.std.specs.Prelude.{◌≡◌};
ghost use Rattle.meet_lock.specs.Passes.{seen};
ghost use Rattle.lock_testing.specs.Callers.{IsCrewOf};
ghost use Rattle.shared_system.specs.Plain.{IsPlainCallerOf, IsPlainWork};

use crate::ends::entries_of;
use lock_testing::{
    Command, ONE_QUEUE, ThreeCallers, WRITE, begun, config_of, crewed, learns, opens, pops, pushes,
    works,
};
use shared_system::{PlainCaller, PlainSystem};
use std::alloc::Global;
use std::process::Abort;
use std::sync::Wait;
use std::test::Fail;
use std::thread::{Threads, join, yield_now};
use step_core::Judged;
use work_queue::{Open, Opened, Work};

/// Makes each task of the Work, to its last Post; how many. What is refused for now is asked again.
///
/// # Errors
///
/// The number of another refusal.
pub(crate) fn ends<R: Wait>(
    rt: &R,
    system: &PlainSystem,
    caller: &mut PlainCaller,
    mut work: Work,
) -> Result<u64, u8>
    requires { IsPlainCallerOf system.now caller.old × IsPlainWork system.now work }
    ensures { IsPlainCallerOf system.now caller.new }
{
    let mut made = 0u64;
    for _ in rt.forever() {
        match works(rt, system, caller, &mut work) {
            Ok(Some(_)) => made = made.wrapping_add(1),
            Ok(None) => break,
            Err(6 | 8) => yield_now(),
            Err(why) => return Err(why),
        }
    }
    Ok(made)
}

// Waits for a Work and ends it.
fn serves<R: Wait>(rt: &R, system: &PlainSystem, caller: &mut PlainCaller) -> Result<u64, u8>
    requires { IsPlainCallerOf system.now caller.old }
    ensures { IsPlainCallerOf system.now caller.new }
{
    for _ in rt.forever() {
        match pops(rt, system, caller) {
            Some(work) => return ends(rt, system, caller, work),
            None => yield_now(),
        }
    }
    // The loop ends by its Work alone.
    unreachable!()
}

// Waits for a notice, and reaps; the number of the refusal, if it is refused.
fn hears<R: Wait>(rt: &R, system: &PlainSystem, caller: &mut PlainCaller) -> Result<(), u8>
    requires { IsPlainCallerOf system.now caller.old }
    ensures { IsPlainCallerOf system.now caller.new }
{
    for _ in rt.forever() {
        if learns(rt, system, caller)? {
            break;
        }
        yield_now();
    }
    match opens(rt, system, caller, Open::Reap(1)) {
        Ok(Opened::Reaped { .. }) => Ok(()),
        Ok(_) => Err(0),
        Err(why) => Err(why),
    }
}

// A worker and a host, each on a thread; how each ended, and what it owned.
fn both<R: Threads + Wait + Sync>(
    rt: &R,
    system: &PlainSystem,
    worker: PlainCaller,
    host: PlainCaller,
) -> (
    (Result<u64, u8>, PlainCaller),
    (Result<(), u8>, PlainCaller),
)
    requires { IsPlainCallerOf system.now worker × IsPlainCallerOf system.now host }
    ensures { IsPlainCallerOf system.now result.0.1 × IsPlainCallerOf system.now result.1.1 }
{
    join(
        rt,
        move || -> (Result<u64, u8>, PlainCaller)
            requires { IsPlainCallerOf system.now worker }
            ensures { IsPlainCallerOf system.entry.now result.1 }
        {
            let mut caller = worker;
            let made = serves(rt, system, &mut caller);
            (made, caller)
        },
        move || -> (Result<(), u8>, PlainCaller)
            requires { IsPlainCallerOf system.now host }
            ensures { IsPlainCallerOf system.entry.now result.1 }
        {
            let mut caller = host;
            let heard = hears(rt, system, &mut caller);
            (heard, caller)
        },
    )
}

// Two passes see one history.
fn meets<R: Abort>(rt: &R, system: &PlainSystem, one: &mut PlainCaller, two: &mut PlainCaller)
    requires { IsPlainCallerOf system.now one.old × IsPlainCallerOf system.now two.old }
    ensures same { IsPlainCallerOf system.now one.new × IsPlainCallerOf system.now two.new }
    ensures met { seen one.new.pass ≡ seen two.new.pass }
{
    if system.engine.meet(&mut one.pass, &mut two.pass).is_err() {
        panic!(rt; "the lock was held")
    }
}

// A Write, published, fetched and pushed.
fn sends<R: Abort + Wait>(rt: &R, alloc: Global, system: &PlainSystem, caller: &mut PlainCaller)
    requires { IsPlainCallerOf system.now caller.old }
    ensures { IsPlainCallerOf system.now caller.new }
{
    let write = Command {
        opcode: WRITE,
        queue: 1,
        cid: 1,
        block: 3,
        byte: 0xa1,
    };
    let Ok(work) = begun(rt, alloc, system, caller, write) else {
        panic!(rt; "a Work")
    };
    assert_eq!(rt; work.ticket(), 1);
    assert!(rt; matches!(work.judged(), Judged::Single(_, _)));
    assert!(rt; pushes(rt, system, caller, work).is_ok());
}

// Its three tasks are made there, and the host that learnt of the Post reaps at once. After their run the two passes
// meet. The host.
fn travels<R: Abort + Threads + Wait + Sync>(
    rt: &R,
    system: &PlainSystem,
    crew: ThreeCallers,
) -> PlainCaller
    requires { IsCrewOf system.now crew }
    ensures { IsPlainCallerOf system.now result }
{
    let ThreeCallers { host, worker, .. } = crew;
    let ((made, mut worker), (heard, mut host)) = both(rt, system, worker, host);
    meets(rt, system, &mut worker, &mut host);
    assert_eq!(rt; made, Ok(3));
    assert_eq!(rt; heard, Ok(()));
    host
}

#[test]
fn a_work_ends_on_another_thread(rt: HostRuntime) -> Result<(), Fail> {
    let config = config_of(rt.alloc(), ONE_QUEUE).ok_or("no configuration")?;
    let (system, mut crew) = crewed(rt.alloc(), config, 4).ok_or("three callers")?;
    sends(&rt, rt.alloc(), &system, &mut crew.fetcher);
    let host = travels(&rt, &system, crew);
    assert_eq!(rt; entries_of(system, host)?, 6);
    Ok(())
}
