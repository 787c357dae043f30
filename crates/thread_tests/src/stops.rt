//! Hosts that are stopped from outside.

ghost use Rattle.std.specs.Prelude.{◌≡◌, All, IfOk};
ghost use Rattle.shared_system.specs.Callers.{IsHostOf, IsCallerOf, IsWorkerOf};
ghost use Rattle.nvme_model.specs.Array.{IsRange};

use history::Config;
use history_check::check;
use hosts::{Crew, Gate, Point, run_crew};
use nvme_model::array::Range;
use race_hosts::{Play, run_hosts};
use shared_system::{CallerPasses, Callers, HostPasses, System, system_of};
use std::alloc::{AllocError as NoMemory, Global};
use std::sync::Wait;
use std::sync::atomic::{AtomicUsize, Ordering};
use std::test::Fail;
use std::thread::{Threads, join, yield_now};
use step_core::Core;

/// More rounds than a test has time for.
const ROUNDS: u32 = u32::MAX;

/// How many Fetches, Grants and Blocks are made before the hosts are stopped.
const ENOUGH: usize = 500;

/// Counts Fetches, Grants and Blocks.
#[derive(Drop)]
struct StepCount {
    made: AtomicUsize,
}

impl Gate for StepCount {
    fn pass(&self, point: Point, _ticket: u64) {
        if point != Point::Posting {
            self.made.fetch_add(1, Ordering::SeqCst);
        }
    }
}

// Sets the stop flag once enough steps were made, or the hosts have ended.
fn stops_late(system: &System<StepCount>) {
    for _ in 0..u64::MAX {
        if system.stop.is_set() || system.gate.made.load(Ordering::SeqCst) >= ENOUGH {
            break;
        }
        yield_now();
    }
    system.stop.set();
}

// The hosts, and the stop flag behind them.
fn hosts_to_the_end<R: Threads + Wait + Sync>(
    rt: &R,
    alloc: Global,
    system: &System<StepCount>,
    play: &Play,
    callers: Vec<HostPasses>,
) -> Result<(), NoMemory>
    requires callers { All (IsHostOf system.now play.now.config) callers.items }
    requires slots { IsRange play.now.slots }
{
    let (_, ended) = run_hosts(rt, alloc, system, play, callers);
    system.stop.set();
    ended
}

// The hosts, and who stops them.
fn play_hosts<R: Threads + Wait + Sync>(
    rt: &R,
    alloc: Global,
    system: &System<StepCount>,
    play: &Play,
    callers: Vec<HostPasses>,
) -> Result<(), NoMemory>
    requires callers { All (IsHostOf system.now play.now.config) callers.items }
    requires slots { IsRange play.now.slots }
{
    let (ended, ()) = join(
        rt,
        move || -> Result<(), NoMemory>
            requires { All (IsHostOf system.now play.now.config) callers.items × IsRange play.now.slots }
        { hosts_to_the_end(rt, alloc, system, play, callers) },
        || stops_late(system),
    );
    ended
}

// The crew, and beside it the hosts; and whether these say that they made all their rounds.
fn all<R: Threads + Wait + Sync>(
    rt: &R,
    alloc: Global,
    system: &System<StepCount>,
    play: &Play,
    callers: Callers,
) -> Result<(CallerPasses, bool), NoMemory>
    requires crew { IsCallerOf system.now callers.fetcher × All (IsWorkerOf system.now) callers.workers.items }
    requires hosts { All (IsHostOf system.now play.now.config) callers.hosts.items }
    requires slots { IsRange play.now.slots }
    ensures { IfOk result (λ r. IsCallerOf system.now r.0) }
{
    let Crew {
        fetcher,
        beside,
        ends,
        ..
    } = run_crew(
        rt,
        alloc,
        system,
        2,
        callers,
        |hosts: Vec<HostPasses>| -> Result<(), NoMemory>
            requires { All (IsHostOf system.now play.now.config) hosts.items × IsRange play.now.slots }
        { play_hosts(rt, alloc, system, play, hosts) },
    );
    ends?;
    Ok((fetcher, beside.is_ok()))
}

// The controller of a race that is stopped, and whether its hosts say that they made all their rounds.
fn stopped<R: Threads + Wait + Sync>(
    rt: &R,
    alloc: Global,
    config: Config,
) -> Result<(Core, bool), Fail> {
    let gate = StepCount {
        made: AtomicUsize::new(0),
    };
    let (system, callers) = system_of(alloc, config, gate, 2)?;
    let play = Play {
        config,
        slots: Range { slba: 0, blocks: 2 },
        rounds: ROUNDS,
    };
    let (caller, is_whole) = all(rt, alloc, &system, &play, callers)?;
    let System { engine, .. } = system;
    let core = engine.close(caller.pass).ok_or("the lock isn't free")?;
    Ok((core, is_whole))
}

#[test]
fn a_stop_flag_ends_all_loops(rt: HostRuntime) -> Result<(), Fail> {
    let config = Config::new(64, 1, 1, 0, 0, 2, 8, 8, 16)?;
    let (core, is_whole) = stopped(&rt, rt.alloc(), config)?;
    assert!(rt; !is_whole);
    let history = core.history().as_slice();
    assert!(rt; history.len() >= ENOUGH);
    assert!(rt; check(rt.alloc(), &core.config(), history).is_ok());
    Ok(())
}
