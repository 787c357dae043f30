//! A race is closed with all passes of its engine.

ghost use Rattle.std.specs.Prelude.{[], ◌+◌, ◌<◌, ◌≡◌, ◌≤◌, IfOk, vec_len};
ghost use Rattle.std.specs.Vec.{vec_capacity};
ghost use Rattle.meet_lock.specs.Passes.{number};
ghost use Rattle.race.specs.Ended.{EndDown, HasEnded, HaveEnded};
ghost use Rattle.many_host_laws.specs.Closing.{HasRounds, KeepsSlots};

use hosts::OpenGate;
use meet_lock::Pass;
use race_hosts::Play;
use shared_system::{Callers, HostPasses, System, WorkerPasses};
use std::alloc::{AllocError as NoMemory, Global};
use step_core::Core;

// One pass more, behind those of the numbers before its own.
#[tactic(auto, using(crate::proofs::Ended::passes_more))]
fn put_pass(
    _system: &System<OpenGate>,
    _play: &Play,
    _servers: usize,
    passes: &mut Vec<Pass<Core>>,
    pass: Pass<Core>,
)
    requires passes { HaveEnded _system.now.engine _play.now _servers passes.old.items }
    requires pass { HasEnded _system.now.engine _play.now _servers pass }
    requires number { number pass ≡ vec_len passes.old + 1 }
    requires room { vec_len passes.old < vec_capacity passes.old }
    ensures passes { HaveEnded _system.now.engine _play.now _servers passes.new.items }
    ensures len { vec_len passes.new ≡ vec_len passes.old + 1 }
    ensures capacity { vec_capacity passes.new ≡ vec_capacity passes.old }
{
    passes.push_reserved(pass);
}

// The last of these workers, with the lowest number.
#[tactic(auto, using(crate::proofs::Ended::end_last, crate::proofs::Ended::end_rest))]
fn last_worker(
    _system: &System<OpenGate>,
    _play: &Play,
    _servers: usize,
    _top: usize,
    workers: &mut Vec<WorkerPasses>,
) -> WorkerPasses
    requires workers { EndDown (λ w. w.caller.pass) _system.now.engine _play.now _servers _top
        workers.old.items }
    requires some { 1 ≤ vec_len workers.old }
    ensures rest { EndDown (λ w. w.caller.pass) _system.now.engine _play.now _servers _top
        workers.new.items }
    ensures last { HasEnded _system.now.engine _play.now _servers result.caller.pass }
    ensures number { number result.caller.pass + vec_len workers.new ≡ _top }
    ensures count { vec_len workers.new + 1 ≡ vec_len workers.old }
{
    workers.pop().unwrap()
}

// The passes of workers, the last worker's first.
fn put_workers(
    system: &System<OpenGate>,
    play: &Play,
    servers: usize,
    mut workers: Vec<WorkerPasses>,
    passes: &mut Vec<Pass<Core>>,
)
    requires workers { EndDown (λ w. w.caller.pass) system.now.engine play.now servers
        (vec_len workers) workers.items }
    requires passes { passes.old.items ≡ [] }
    requires room { vec_len workers ≤ vec_capacity passes.old }
    ensures passes { HaveEnded system.now.engine play.now servers passes.new.items }
    ensures len { vec_len passes.new ≡ vec_len workers }
    ensures capacity { vec_capacity passes.new ≡ vec_capacity passes.old }
{
    let top = workers.len();
    for _ in 0..top {
        let worker = last_worker(system, play, servers, top, &mut workers);
        put_pass(system, play, servers, passes, worker.caller.pass);
    }
}

// The last of these hosts, with the lowest number.
#[tactic(auto, using(crate::proofs::Ended::end_last, crate::proofs::Ended::end_rest))]
fn last_host(
    _system: &System<OpenGate>,
    _play: &Play,
    _servers: usize,
    _top: usize,
    hosts: &mut Vec<HostPasses>,
) -> HostPasses
    requires hosts { EndDown (λ h. h.pass) _system.now.engine _play.now _servers _top hosts.old.items }
    requires some { 1 ≤ vec_len hosts.old }
    ensures rest { EndDown (λ h. h.pass) _system.now.engine _play.now _servers _top
        hosts.new.items }
    ensures last { HasEnded _system.now.engine _play.now _servers result.pass }
    ensures number { number result.pass + vec_len hosts.new ≡ _top }
    ensures count { vec_len hosts.new + 1 ≡ vec_len hosts.old }
{
    hosts.pop().unwrap()
}

// The passes of hosts, the last host's first.
fn put_hosts(
    system: &System<OpenGate>,
    play: &Play,
    servers: usize,
    mut hosts: Vec<HostPasses>,
    passes: &mut Vec<Pass<Core>>,
)
    requires hosts { EndDown (λ h. h.pass) system.now.engine play.now servers
        (servers + vec_len hosts) hosts.items }
    requires passes { HaveEnded system.now.engine play.now servers passes.old.items }
    requires servers { vec_len passes.old ≡ servers }
    requires room { servers + vec_len hosts ≤ vec_capacity passes.old }
    ensures passes { HaveEnded system.now.engine play.now servers passes.new.items }
    ensures len { vec_len passes.new ≡ servers + vec_len hosts }
{
    let count = hosts.len();
    let top = servers + count;
    for _ in 0..count {
        let host = last_host(system, play, servers, top, &mut hosts);
        put_pass(system, play, servers, passes, host.pass);
    }
}

/// Room for the passes of so many workers, a fetcher and a host of each completion queue.
pub fn room_for(alloc: Global, play: &Play, workers: u16) -> Result<Vec<Pass<Core>>, NoMemory>
    ensures { IfOk result (λ r. (r.items ≡ []) × (workers + 1 + play.now.config.cqs ≤ vec_capacity r)) }
{
    let cqs = play.config.numbers().cqs;
    Vec::with_capacity(alloc, usize::from(workers) + 1 + usize::from(cqs))
}

/// The controller, closed with the passes of all who raced: its history keeps the slots, and has all rounds of each
/// host.
pub fn closed(
    system: System<OpenGate>,
    play: &Play,
    callers: Callers,
    mut passes: Vec<Pass<Core>>,
) -> Core
    requires workers { EndDown (λ w. w.caller.pass) system.engine play.now
        (vec_len callers.workers + 1) (vec_len callers.workers) callers.workers.items }
    requires fetcher { (number callers.fetcher.pass ≡ vec_len callers.workers + 1)
        × HasEnded system.engine play.now (vec_len callers.workers + 1) callers.fetcher.pass }
    requires hosts { EndDown (λ h. h.pass) system.engine play.now (vec_len callers.workers + 1)
        (vec_len callers.workers + 1 + play.now.config.cqs) callers.hosts.items }
    requires count { vec_len callers.hosts ≡ play.now.config.cqs }
    requires few { vec_len callers.workers + 1 + play.now.config.cqs ≤ vec_capacity passes }
    requires room { passes.items ≡ [] }
    ensures config { result.config ≡ play.now.config }
    ensures slots { KeepsSlots play.now.config play.now.slots result.past }
    ensures rounds { HasRounds play.now.config play.now.slots play.now.rounds result.past }
{
    let Callers {
        fetcher,
        workers,
        hosts,
    } = callers;
    let servers = workers.len() + 1;
    put_workers(&system, play, servers, workers, &mut passes);
    put_pass(&system, play, servers, &mut passes, fetcher.pass);
    put_hosts(&system, play, servers, hosts, &mut passes);
    let System { engine, .. } = system;
    engine.close_all(passes).unwrap()
}
