//! The threads round one engine.

ghost use Rattle.std.specs.List.{AllZip};
ghost use Rattle.std.specs.Prelude.{[], ◌+◌, ◌++◌, ◌≡◌, ◌≤◌, All, IfErr, IfOk, List, Ok, OnOk, map, reverse, vec_len};
ghost use Rattle.std.specs.Vec.{vec_capacity};
ghost use Rattle.shared_system.specs.Callers.{Continues, IsCallerOf, IsWorkerOf, WorkerContinues};
ghost use Rattle.hosts.specs.Returning.{GaveBack};

use crate::gate::Gate;
use crate::joining::{Handles, Returned, join_each};
use crate::starting::{Fetching, WorkerBack, start_fetcher, start_workers};
use shared_system::{CallerPasses, Callers, HostPasses, System, WorkerPasses};
use std::alloc::{AllocError as NoMemory, Global};
use std::sync::Wait;
use std::thread;
use std::thread::{Promise, Scope, Threads};

/// What comes back of a crew, once all its threads have ended.
#[derive(Drop)]
pub struct Crew<T> {
    pub fetcher: CallerPasses,
    /// In the order in which they were given.
    pub workers: Vec<WorkerPasses>,
    /// What was given by what ran beside it.
    pub beside: T,
    /// Ok only where each thread was started, and says Ok.
    pub ends: Result<(), NoMemory>,
}

// What the fetcher gave back.
fn fetched<R: Threads, Q: Promise<Returned<CallerPasses>>>(
    rt: &R,
    fetching: Fetching<Q>,
) -> Returned<CallerPasses>
    ensures runs { IfOk fetching (λ h. Q.kept_by h.promise result) }
    ensures back { IfErr fetching (λ h. result.0 ≡ h) }
{
    match fetching {
        Ok(child) => child.join(rt),
        Err(caller) => (caller, Err(NoMemory)),
    }
}

// Joins the workers and the fetcher. Ok is answered only where all were started and say so.
fn ended<R: Threads, P: Promise<Returned<WorkerPasses>>, Q: Promise<Returned<CallerPasses>>>(
    rt: &R,
    begun: Result<(), NoMemory>,
    started: Handles<WorkerPasses, P>,
    workers: &mut Vec<WorkerPasses>,
    fetching: Fetching<Q>,
) -> Returned<CallerPasses>
    requires room { vec_len workers.old + vec_len started ≤ vec_capacity workers.old }
    ensures begun { OnOk result.1 (begun ≡ Ok tt) }
    ensures workers { (back : List WorkerPasses) × (workers.new.items ≡ workers.old.items ++ back)
        × AllZip (GaveBack P.kept_by result.1) (reverse (map (λ h. h.promise) started.items)) back }
    ensures fetcher { IfOk fetching (λ h. GaveBack Q.kept_by result.1 h.promise result.0) }
    ensures back { IfErr fetching (λ h. result.0 ≡ h) }
{
    let ends = join_each(rt, started, workers);
    let (caller, end) = fetched(rt, fetching);
    let joined = begun.and(ends);
    let all = joined.and(end);
    (caller, all)
}

// The crew, and beside it, in this scope.
fn in_scope<'s, E, R: Threads + Wait + Sync, G: Gate + Sync, T, F: FnOnce(Vec<HostPasses>) -> T>(
    rt: &'s R,
    scope: &Scope<'s, E>,
    system: &'s System<G>,
    queues: u16,
    callers: Callers,
    mut started: Handles<WorkerPasses, WorkerBack<G>>,
    beside: F,
) -> Crew<T>
    requires some { 1 ≤ queues }
    requires crew { IsCallerOf system.now callers.fetcher × All (IsWorkerOf system.now) callers.workers.items }
    requires room { (started.items ≡ []) × (vec_len callers.workers ≤ vec_capacity started) }
    requires beside { F.pre beside callers.hosts }
    ensures fetcher { Continues system.now callers.fetcher result.fetcher }
    ensures workers { AllZip (WorkerContinues system.now) callers.workers.items result.workers.items }
    ensures beside { F.post beside callers.hosts result.beside }
{
    let Callers {
        fetcher,
        mut workers,
        hosts,
    } = callers;
    let fetching = start_fetcher(rt, scope, system, fetcher, queues);
    let begun = start_workers(rt, scope, system, &mut workers, &mut started);
    let beside = beside(hosts);
    system.stop.set();
    let (fetcher, ends) = ended(rt, begun, started, &mut workers, fetching);
    Crew {
        fetcher,
        workers,
        beside,
        ends,
    }
}

// What comes back where there is no room for the handles of threads.
#[tactic(auto, using(shared_system::proofs::Going::goes_same, crate::proofs::Crews::workers_same))]
fn without_threads<G: Gate, T, F: FnOnce(Vec<HostPasses>) -> T>(
    system: &System<G>,
    callers: Callers,
    beside: F,
) -> Crew<T>
    requires crew { IsCallerOf system.now callers.fetcher × All (IsWorkerOf system.now) callers.workers.items }
    requires beside { F.pre beside callers.hosts }
    ensures fetcher { Continues system.now callers.fetcher result.fetcher }
    ensures workers { AllZip (WorkerContinues system.now) callers.workers.items result.workers.items }
    ensures beside { F.post beside callers.hosts result.beside }
{
    system.stop.set();
    let Callers {
        fetcher,
        workers,
        hosts,
    } = callers;
    Crew {
        fetcher,
        workers,
        beside: beside(hosts),
        ends: Err(NoMemory),
    }
}

/// A fetcher of the submission queues from 1 to `queues`, and the workers, each on a thread of its own, while `beside`
/// runs on this one with the passes of the hosts. When that has ended the stop flag is set, and all threads are joined.
/// The passes of fetcher and workers come back, however their loops ended, and what `beside` gave.
///
/// Where a growth is refused or a thread couldn't be started the stop flag is set, and `ends` is `Err`.
pub fn run_crew<R: Threads + Wait + Sync, G: Gate + Sync, T, F: FnOnce(Vec<HostPasses>) -> T>(
    rt: &R,
    alloc: Global,
    system: &System<G>,
    queues: u16,
    callers: Callers,
    beside: F,
) -> Crew<T>
    requires some { 1 ≤ queues }
    requires crew { IsCallerOf system.now callers.fetcher × All (IsWorkerOf system.now) callers.workers.items }
    requires beside { F.pre beside callers.hosts }
    ensures fetcher { Continues system.now callers.fetcher result.fetcher }
    ensures workers { AllZip (WorkerContinues system.now) callers.workers.items result.workers.items }
    ensures beside { F.post beside callers.hosts result.beside }
{
    let Ok(started) = Vec::with_capacity(alloc, callers.workers.len()) else {
        return without_threads(system, callers, beside);
    };

    // One scope has the fetcher and the workers, and another, within it, the hosts: a function that
    // is passed in can't itself be run on a thread.
    thread::scope(
        thread::scope_env(),
        rt,
        |scope| -> Crew<T>
            requires some { 1 ≤ queues }
            requires crew { IsCallerOf system.now callers.fetcher × All (IsWorkerOf system.now) callers.workers.items }
            requires room { (started.items ≡ []) × (vec_len callers.workers ≤ vec_capacity started) }
            requires beside { F.pre beside callers.hosts }
            ensures fetcher { Continues system.entry.now callers.fetcher result.fetcher }
            ensures workers { AllZip (WorkerContinues system.entry.now) callers.workers.items result.workers.items }
            ensures beside { F.post beside callers.hosts result.beside }
        { in_scope(rt, scope, system, queues, callers, started, beside) },
    )
}
