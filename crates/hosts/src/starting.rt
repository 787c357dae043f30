//! Starts the threads of a crew. Where no thread can be had the stop flag is set, and the passes come back.

ghost use Rattle.std.specs.Prelude.{[], ◌+◌, ◌≡◌, ◌≤◌, All, IfErr, IfOk, OnOk, map, vec_len};
ghost use Rattle.std.specs.Vec.{vec_capacity};
ghost use Rattle.shared_system.specs.Callers.{Continues, IsCallerOf, IsWorkerOf, WorkerContinues};
ghost use Rattle.hosts.specs.Crews.{IsFetcherBack, IsWorkerBack};
ghost use Rattle.hosts.specs.Returning.{AreParted};

use crate::fetching::fetcher;
use crate::gate::Gate;
use crate::joining::{Handles, Returned};
use crate::working::worker;
use shared_system::{CallerPasses, System, WorkerPasses};
use std::alloc::AllocError as NoMemory;
use std::snapshot::Snapshot;
use std::sync::Wait;
use std::thread::{Promise, PromisedHandle, Scope, Threads};

/// The fetcher's passes come back, of the same system, and its pass of the engine has seen no less.
#[derive(Drop)]
pub(crate) struct FetcherBack<G> {
    system: Snapshot<System<G>>,
    caller: Snapshot<CallerPasses>,
}

impl<G> Promise<Returned<CallerPasses>> for FetcherBack<G> {
    ghost kept_by = { λ p r. Continues p.system.value p.caller.value r.0 };
}

/// The same of a worker's passes.
#[derive(Drop)]
pub(crate) struct WorkerBack<G> {
    system: Snapshot<System<G>>,
    caller: Snapshot<WorkerPasses>,
}

impl<G> Promise<Returned<WorkerPasses>> for WorkerBack<G> {
    ghost kept_by = { λ p r. WorkerContinues p.system.value p.caller.value r.0 };
}

/// The fetcher's thread, or its passes where none could be had.
pub(crate) type Fetching<Q> = Result<PromisedHandle<Returned<CallerPasses>, Q>, CallerPasses>;

fn fetches<R: Wait, G: Gate>(
    rt: &R,
    system: &System<G>,
    mut caller: CallerPasses,
    queues: u16,
) -> Returned<CallerPasses>
    requires own { IsCallerOf system.now caller }
    requires some { 1 ≤ queues }
    ensures { Continues system.now caller result.0 }
{
    let end = fetcher(rt, system, &mut caller, queues);
    (caller, end)
}

fn works<R: Wait, G: Gate>(
    rt: &R,
    system: &System<G>,
    mut own: WorkerPasses,
) -> Returned<WorkerPasses>
    requires { IsWorkerOf system.now own }
    ensures { WorkerContinues system.now own result.0 }
{
    let end = worker(rt, system, &mut own.caller, &mut own.notices);
    (own, end)
}

/// Starts the fetcher.
pub(crate) fn start_fetcher<'s, E, R: Threads + Wait + Sync, G: Gate + Sync>(
    rt: &'s R,
    scope: &Scope<'s, E>,
    system: &'s System<G>,
    caller: CallerPasses,
    queues: u16,
) -> Fetching<FetcherBack<G>>
    requires own { IsCallerOf system.now caller }
    requires some { 1 ≤ queues }
    ensures starts { IfOk result (λ h. IsFetcherBack system.now caller h.promise) }
    ensures back { IfErr result (Continues system.now caller) }
{
    let promise = FetcherBack {
        system: Snapshot::of(system),
        caller: Snapshot::of(&caller),
    };
    let started = scope.spawn_with(
        promise,
        move || -> Returned<CallerPasses>
            requires { IsCallerOf system.now caller × (1 ≤ queues) }
            ensures { Continues system.entry.now caller result.0 }
        { fetches(rt, system, caller, queues) },
    );
    match started {
        Ok(child) => Ok(child),
        Err(refused) => {
            system.stop.set();

            // The refused start gives the closure back, which is run at once: its loop sees the
            // flag and ends. So passes come back in one way.
            let run = refused.value;
            let (caller, _) = run();
            Err(caller)
        }
    }
}

// Starts a worker with these passes.
fn start_worker<'s, E, R: Threads + Wait + Sync, G: Gate + Sync>(
    rt: &'s R,
    scope: &Scope<'s, E>,
    system: &'s System<G>,
    own: WorkerPasses,
) -> Result<PromisedHandle<Returned<WorkerPasses>, WorkerBack<G>>, WorkerPasses>
    requires { IsWorkerOf system.now own }
    ensures starts { IfOk result (λ h. IsWorkerBack system.now own h.promise) }
    ensures back { IfErr result (WorkerContinues system.now own) }
{
    let promise = WorkerBack {
        system: Snapshot::of(system),
        caller: Snapshot::of(&own),
    };
    let started = scope.spawn_with(
        promise,
        move || -> Returned<WorkerPasses>
            requires { IsWorkerOf system.now own }
            ensures { WorkerContinues system.entry.now own result.0 }
        { works(rt, system, own) },
    );
    match started {
        Ok(child) => Ok(child),
        Err(refused) => {
            system.stop.set();
            let run = refused.value;
            let (own, _) = run();
            Err(own)
        }
    }
}

/// Starts a worker with each of these, the last first. At `Err` one couldn't be started: those before it run, and the
/// passes of the others stay.
pub(crate) fn start_workers<'s, E, R: Threads + Wait + Sync, G: Gate + Sync>(
    rt: &'s R,
    scope: &Scope<'s, E>,
    system: &'s System<G>,
    callers: &mut Vec<WorkerPasses>,
    started: &mut Handles<WorkerPasses, WorkerBack<G>>,
) -> Result<(), NoMemory>
    requires callers { All (IsWorkerOf system.now) callers.old.items }
    requires none { started.old.items ≡ [] }
    requires room { vec_len callers.old ≤ vec_capacity started.old }
    ensures parted { AreParted (WorkerContinues system.now)
        (IsWorkerBack system.now) callers.old.items callers.new.items
        (map (λ h. h.promise) started.new.items) }
    ensures room { vec_len callers.new + vec_len started.new ≤ vec_capacity callers.new }
    ensures all { OnOk result (callers.new.items ≡ []) }
{
    for _ in 0..callers.len() {
        let own = callers.pop().unwrap();
        match start_worker(rt, scope, system, own) {
            Ok(child) => started.push_reserved(child),
            Err(back) => {
                callers.push_reserved(back);
                return Err(NoMemory);
            }
        }
    }
    Ok(())
}
