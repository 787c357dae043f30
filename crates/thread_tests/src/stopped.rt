//! A stop flag that is set while a worker is held.

ghost use Rattle.std.specs.Prelude.{All, IfOk};
ghost use Rattle.shared_system.specs.Callers.{IsCallerOf, IsWorkerOf};

use crate::calls::{WriteCall, closed, legal_length};
use crate::played::ready;
use history::Config;
use hosts::{Crew, Gate, Point, run_crew};
use shared_system::{CallerPasses, Callers, HostPasses, System, system_of};
use std::alloc::{AllocError as NoMemory, Global};
use std::sync::Wait;
use std::sync::atomic::{AtomicBool, AtomicU64, Ordering};
use std::test::Fail;
use std::thread::{Threads, yield_now};

/// How long the worker is held at most, and how long somebody waits for a Fetch.
const TURNS: u32 = 1_000_000;

/// How long the flag stays as it is once enough was fetched, so that the fetcher asks once more.
const FEW_TURNS: u32 = 1_000;

/// Counts Fetches, and holds the worker after its first Grant until it is let go.
#[derive(Drop)]
struct HoldsWorker {
    fetched: AtomicU64,
    is_held: AtomicBool,
    is_free: AtomicBool,
}

impl Gate for HoldsWorker {
    fn pass(&self, point: Point, ticket: u64) {
        if point == Point::Fetched {
            self.fetched.fetch_add(1, Ordering::SeqCst);
        } else if point == Point::Granted && ticket == 1 {
            self.is_held.store(true, Ordering::SeqCst);
            for _ in 0..TURNS {
                if self.is_free.load(Ordering::SeqCst) {
                    return;
                }
                yield_now();
            }
        }
    }
}

impl HoldsWorker {
    fn new() -> HoldsWorker {
        HoldsWorker {
            fetched: AtomicU64::new(0),
            is_held: AtomicBool::new(false),
            is_free: AtomicBool::new(false),
        }
    }

    // Whether the worker is held, and so many Fetches were made.
    fn is_reached(&self, fetches: u64) -> bool {
        self.is_held.load(Ordering::SeqCst) && self.fetched.load(Ordering::SeqCst) >= fetches
    }
}

// Sets the stop flag once the worker is held and so many Fetches were made, and lets the worker go.
fn stops(system: &System<HoldsWorker>, fetches: u64) {
    for _ in 0..TURNS {
        if system.gate.is_reached(fetches) {
            break;
        }
        yield_now();
    }
    for _ in 0..FEW_TURNS {
        yield_now();
    }
    system.stop.set();
    system.gate.is_free.store(true, Ordering::SeqCst);
}

// The crew, and who stops it.
fn until_stopped<R: Threads + Wait + Sync>(
    rt: &R,
    alloc: Global,
    system: &System<HoldsWorker>,
    callers: Callers,
    fetches: u64,
) -> Result<CallerPasses, NoMemory>
    requires crew { IsCallerOf system.now callers.fetcher × All (IsWorkerOf system.now) callers.workers.items }
    ensures { IfOk result (IsCallerOf system.now) }
{
    let Crew { fetcher, ends, .. } = run_crew(
        rt,
        alloc,
        system,
        1,
        callers,
        |_hosts: Vec<HostPasses>| -> () { stops(system, fetches) },
    );
    ends?;
    Ok(fetcher)
}

// How many entries the history has, which is legal, of these Writes and one worker, which is held until the stop flag
// is set after so many Fetches.
fn stopped<R: Threads + Wait + Sync>(
    rt: &R,
    alloc: Global,
    config: Config,
    writes: &[WriteCall],
    fetches: u64,
) -> Result<usize, Fail> {
    let (system, callers) = system_of(alloc, config, HoldsWorker::new(), 1)?;
    let callers = ready(alloc, &system, &config, callers, 1, writes)?;
    let caller = until_stopped(rt, alloc, &system, callers, fetches)?;
    let (core, _) = closed(system, caller)?;
    legal_length(alloc, &core)
}

// One ticket may be in flight, and the worker has it: the fetcher, which asks for the second Write again and again,
// ends, and the worker makes no further task. A Publish, a Fetch and a Grant stand there.
#[test]
fn a_fetcher_that_waits_for_room_is_stopped(rt: HostRuntime) -> Result<(), Fail> {
    let config = Config::new(8, 1, 1, 0, 0, 1, 8, 8, 1)?;
    let writes = [(0, 0, 1), (1, 1, 1)];
    assert_eq!(rt; stopped(&rt, rt.alloc(), config, &writes, 1)?, 3);
    Ok(())
}

// The worker has the first Work, sixteen fill the queue, and the fetcher has one more: a Publish, these Fetches and a
// Grant.
#[test]
fn a_fetcher_beside_a_full_queue_is_stopped(rt: HostRuntime) -> Result<(), Fail> {
    let config = Config::new(8, 1, 1, 0, 0, 1, 32, 32, 32)?;
    let mut writes: [WriteCall; 20] = [(0, 0, 1); 20];
    for cid in 0..20u8 {
        writes[usize::from(cid)] = (cid, 0, 1);
    }
    assert_eq!(rt; stopped(&rt, rt.alloc(), config, &writes, 18)?, 20);
    Ok(())
}

// The crew where what runs beside it wants memory: it says so, and the flag is set.
fn wants_memory<R: Threads + Wait + Sync>(rt: &R, alloc: Global) -> Result<(bool, bool), Fail> {
    let config = Config::new(8, 1, 1, 0, 0, 1, 8, 8, 8)?;
    let (system, callers) = system_of(alloc, config, HoldsWorker::new(), 2)?;
    let crew = run_crew(
        rt,
        alloc,
        &system,
        1,
        callers,
        |_hosts: Vec<HostPasses>| -> Result<(), NoMemory> { Err(NoMemory) },
    );
    Ok((crew.beside.is_err(), system.stop.is_set()))
}

#[test]
fn want_of_memory_beside_the_crew_stops_it(rt: HostRuntime) -> Result<(), Fail> {
    assert_eq!(rt; wants_memory(&rt, rt.alloc())?, (true, true));
    Ok(())
}
