//! Writes that hosts publish and reap, beside a fetcher and workers that serve them.

ghost use Rattle.std.specs.Prelude.{All, IfOk};
ghost use Rattle.shared_system.specs.Callers.{IsHostOf, IsCallerOf, IsWorkerOf};
ghost use Rattle.thread_tests.specs.Listening.{IsListening};

use crate::calls::{WriteCall, adds_all, closed, legal_length, publishes, reaps};
use history::Config;
use hosts::{Crew, Gate, run_crew};
use shared_system::{CallerPasses, Callers, HostPasses, System, system_of};
use std::alloc::{AllocError as NoMemory, Global};
use std::sync::Wait;
use std::test::Fail;
use std::thread::Threads;

/// How many submission queues have the Writes, how many workers serve them, and how many completions each host reaps.
#[derive(Clone, Copy)]
pub(crate) struct Numbers {
    pub queues: u16,
    pub workers: u16,
    pub count: u16,
}

// The same hosts, whatever they will have seen.
fn listening<G>(_system: &System<G>, _config: &Config, hosts: Vec<HostPasses>) -> Vec<HostPasses>
    requires { All (IsHostOf _system.now _config.now) hosts.items }
    ensures { All (IsListening _system.now) result.items }
{
    hosts
}

// Publishes the Writes on this submission queue.
fn sends<G>(
    alloc: Global,
    system: &System<G>,
    host: &mut HostPasses,
    queue: u16,
    writes: &[WriteCall],
) -> bool
    requires { IsListening system.now host.old }
    ensures { IsListening system.now host.new }
{
    let mut batch = Vec::new(alloc);
    adds_all(alloc, &mut batch, writes).is_ok() && publishes(system, &mut host.pass, queue, batch)
}

// Publishes them on so many; whether there was room and memory.
fn sends_all<G>(
    alloc: Global,
    system: &System<G>,
    host: &mut HostPasses,
    queues: u16,
    writes: &[WriteCall],
) -> bool
    requires { IsListening system.now host.old }
    ensures { IsListening system.now host.new }
{
    let mut all = true;
    for queue in 1..=queues {
        all &= sends(alloc, system, host, queue, writes);
    }
    all
}

// Publishes them by the last host; None where that can't be.
fn sent<G>(
    alloc: Global,
    system: &System<G>,
    hosts: &mut Vec<HostPasses>,
    queues: u16,
    writes: &[WriteCall],
) -> Option<()>
    requires { All (IsListening system.now) hosts.old.items }
    ensures { All (IsListening system.now) hosts.new.items }
{
    let mut host = hosts.pop()?;
    let all = sends_all(alloc, system, &mut host, queues, writes);
    if hosts.push(host).is_ok() && all {
        Some(())
    } else {
        None
    }
}

// Reaps so many completions of this host's queue; how many say success.
fn ends_one<R: Wait, G>(rt: &R, system: &System<G>, mut host: HostPasses, count: u16) -> u16
    requires { IsListening system.now host }
{
    reaps(rt, system, &mut host, count)
}

// The same of each host's queue.
fn reaped_by<R: Wait, G>(rt: &R, system: &System<G>, mut hosts: Vec<HostPasses>, count: u16) -> u16
    requires { All (IsListening system.now) hosts.items }
{
    let mut good = 0u16;
    for _ in 0..hosts.len() {
        if let Some(host) = hosts.pop() {
            good = good.saturating_add(ends_one(rt, system, host, count));
        }
    }
    good
}

// The crew and, beside it, the hosts.
fn both<R: Threads + Wait + Sync, G: Gate + Sync>(
    rt: &R,
    alloc: Global,
    system: &System<G>,
    callers: Callers,
    numbers: Numbers,
) -> Result<(CallerPasses, u16), NoMemory>
    requires crew { IsCallerOf system.now callers.fetcher × All (IsWorkerOf system.now) callers.workers.items }
    requires hosts { All (IsListening system.now) callers.hosts.items }
    ensures { IfOk result (λ r. IsCallerOf system.now r.0) }
{
    let Crew {
        fetcher,
        beside,
        ends,
        ..
    } = run_crew(
        rt,
        alloc,
        system,
        numbers.queues.max(1),
        callers,
        |hosts: Vec<HostPasses>| -> u16
            requires { All (IsListening system.now) hosts.items }
        { reaped_by(rt, system, hosts, numbers.count) },
    );
    ends?;
    Ok((fetcher, beside))
}

/// These callers, once the last host has published the Writes on so many submission queues.
pub(crate) fn ready<G>(
    alloc: Global,
    system: &System<G>,
    config: &Config,
    callers: Callers,
    queues: u16,
    writes: &[WriteCall],
) -> Result<Callers, NoMemory>
    requires crew { IsCallerOf system.now callers.fetcher × All (IsWorkerOf system.now) callers.workers.items }
    requires hosts { All (IsHostOf system.now config.now) callers.hosts.items }
    ensures crew { IfOk result (λ h. IsCallerOf system.now h.fetcher × All (IsWorkerOf system.now) h.workers.items) }
    ensures hosts { IfOk result (λ h. All (IsListening system.now) h.hosts.items) }
{
    let Callers {
        fetcher,
        workers,
        hosts,
    } = callers;
    let mut hosts = listening(system, config, hosts);
    if sent(alloc, system, &mut hosts, queues, writes).is_none() {
        return Err(NoMemory);
    }
    Ok(Callers {
        fetcher,
        workers,
        hosts,
    })
}

// The Writes by these callers; the fetcher's passes come back.
fn plays<R: Threads + Wait + Sync, G: Gate + Sync>(
    rt: &R,
    alloc: Global,
    system: &System<G>,
    config: &Config,
    callers: Callers,
    numbers: Numbers,
    writes: &[WriteCall],
) -> Result<(CallerPasses, u16), NoMemory>
    requires crew { IsCallerOf system.now callers.fetcher × All (IsWorkerOf system.now) callers.workers.items }
    requires hosts { All (IsHostOf system.now config.now) callers.hosts.items }
    ensures { IfOk result (λ r. IsCallerOf system.now r.0) }
{
    let callers = ready(alloc, system, config, callers, numbers.queues, writes)?;
    both(rt, alloc, system, callers, numbers)
}

/// The Writes on each submission queue: how many completions say success, how many entries the history has, which is
/// legal, and the gate.
pub(crate) fn played<R: Threads + Wait + Sync, G: Gate + Drop + Sync>(
    rt: &R,
    alloc: Global,
    config: &Config,
    gate: G,
    numbers: Numbers,
    writes: &[WriteCall],
) -> Result<(u16, usize, G), Fail> {
    let (system, callers) = system_of(alloc, *config, gate, numbers.workers)?;
    let (caller, good) = plays(rt, alloc, &system, config, callers, numbers, writes)?;
    let (core, gate) = closed(system, caller)?;
    Ok((good, legal_length(alloc, &core)?, gate))
}
