//! The callers of a race, from one turn to the next.

ghost use Rattle.std.specs.Prelude.{◌+◌, ◌≡◌, ◌≤◌, ◌<◌, IfOk, vec_len};
ghost use Rattle.std.specs.Vec.{vec_capacity};
ghost use Rattle.meet_lock.specs.Passes.{number};
ghost use Rattle.shared_system.specs.Callers.{AreLastHosts, IsHostOf, IsLastPass};
ghost use Rattle.race.specs.Ended.{EndDown, HasEnded};
ghost use Rattle.race.specs.Racers.{AreOver, AreRacers, IsRacer, racer_pass};
ghost use Rattle.nvme_model.specs.Array.{IsRange};

use crate::servers::Servers;
use hosts::OpenGate;
use many_host_laws::{what_a_hosts_pass_claimed, what_a_hosts_pass_did};
use race_hosts::{Host, Play, Rounds, host_of};
use shared_system::{HostPasses, System};
use std::alloc::{AllocError as NoMemory, Global};

/// A host, and its rounds.
#[derive(Drop)]
pub struct Racer<'a> {
    pub host: Host<'a>,
    pub rounds: Rounds<'a>,
}

/// All callers, each with what it has in hand.
#[derive(Drop)]
pub struct Racers<'a> {
    pub servers: Servers,
    pub hosts: Vec<Racer<'a>>,
}

// A host with these passes, which has begun no round.
fn racer_of<'a>(
    alloc: Global,
    system: &'a System<OpenGate>,
    play: &Play,
    _servers: usize,
    caller: HostPasses,
) -> Result<Racer<'a>, NoMemory>
    requires caller { IsHostOf system.now play.now.config caller }
    requires last { IsLastPass play.now.config (_servers + play.now.config.cqs) caller }
    requires slots { IsRange play.now.slots }
    ensures racer { IfOk result (IsRacer system.entry.now play.now _servers) }
    ensures number { IfOk result (λ r. number (racer_pass r) ≡ number caller.pass) }
{
    let Ok(host) = host_of(alloc, &play.config, system, caller, play.slots) else {
        return Err(NoMemory);
    };
    Ok(Racer {
        host,
        rounds: Rounds::of(play.rounds),
    })
}

// One host more, behind those with the passes before its own.
fn put_racer<'a>(
    _system: &System<OpenGate>,
    _play: &Play,
    _servers: usize,
    racers: &mut Vec<Racer<'a>>,
    racer: Racer<'a>,
)
    requires racers { AreRacers _system.now _play.now _servers racers.old.items }
    requires racer { IsRacer _system.now _play.now _servers racer }
    requires number { number (racer_pass racer) ≡ _servers + vec_len racers.old + 1 }
    requires room { vec_len racers.old < vec_capacity racers.old }
    ensures racers { AreRacers _system.now _play.now _servers racers.new.items }
    ensures len { vec_len racers.new ≡ vec_len racers.old + 1 }
    ensures capacity { vec_capacity racers.new ≡ vec_capacity racers.old }
{
    racers.push_reserved(racer);
}

// The passes of the last of these hosts, that of the lowest number.
fn last_caller(
    _system: &System<OpenGate>,
    _play: &Play,
    _all: usize,
    hosts: &mut Vec<HostPasses>,
) -> HostPasses
    requires hosts { AreLastHosts _system.now _play.now.config _all hosts.old.items }
    requires some { 1 ≤ vec_len hosts.old }
    ensures rest { AreLastHosts _system.now _play.now.config _all hosts.new.items }
    ensures own { IsHostOf _system.now _play.now.config result }
    ensures last { IsLastPass _play.now.config _all result }
    ensures queue { result.queue + vec_len hosts.new ≡ _play.now.config.cqs }
    ensures count { vec_len hosts.new + 1 ≡ vec_len hosts.old }
{
    hosts.pop().unwrap()
}

/// A host with each of these passes, in the order of their numbers.
///
/// # Errors
///
/// `NoMemory` where a growth is refused.
pub(crate) fn racers_of<'a>(
    alloc: Global,
    system: &'a System<OpenGate>,
    play: &Play,
    servers: usize,
    mut hosts: Vec<HostPasses>,
) -> Result<Vec<Racer<'a>>, NoMemory>
    requires hosts { AreLastHosts system.now play.now.config (servers + play.now.config.cqs) hosts.items }
    requires count { vec_len hosts ≡ play.now.config.cqs }
    requires few { servers + vec_len hosts < 65536 }
    requires slots { IsRange play.now.slots }
    ensures racers { IfOk result (λ r. AreRacers system.entry.now play.now servers r.items) }
    ensures count { IfOk result (λ r. vec_len r ≡ play.now.config.cqs) }
{
    let count = hosts.len();
    let all = servers + count;
    let mut racers = Vec::with_capacity(alloc, count)?;
    for _ in 0..count {
        let caller = last_caller(system, play, all, &mut hosts);
        let racer = racer_of(alloc, system, play, servers, caller)?;
        put_racer(system, play, servers, &mut racers, racer);
    }
    Ok(racers)
}

/// The last of these hosts, that of the highest number.
pub(crate) fn last_racer<'a>(
    _system: &System<OpenGate>,
    _play: &Play,
    _servers: usize,
    racers: &mut Vec<Racer<'a>>,
) -> Racer<'a>
    requires racers { AreRacers _system.now _play.now _servers racers.old.items }
    requires some { 1 ≤ vec_len racers.old }
    ensures rest { AreRacers _system.now _play.now _servers racers.new.items }
    ensures last { IsRacer _system.now _play.now _servers result }
    ensures number { number (racer_pass result) ≡ _servers + vec_len racers.new + 1 }
    ensures over { AreOver racers.old.items → result.rounds.left ≡ 0 }
    ensures rest_over { AreOver racers.old.items → AreOver racers.new.items }
    ensures count { vec_len racers.new + 1 ≡ vec_len racers.old }
{
    racers.pop().unwrap()
}

// The passes of a host whose rounds are over.
fn caller_of(
    _system: &System<OpenGate>,
    _play: &Play,
    _servers: usize,
    racer: Racer<'_>,
) -> HostPasses
    requires racer { IsRacer _system.now _play.now _servers racer }
    requires over { racer.rounds.left ≡ 0 }
    ensures ended { HasEnded _system.now.engine _play.now _servers result.pass }
    ensures number { number result.pass ≡ number (racer_pass racer.entry) }
{
    let Racer { host, rounds: _ } = racer;
    what_a_hosts_pass_did(&host.driver);
    what_a_hosts_pass_claimed(&host.driver);
    host.into_caller()
}

// The passes of one host more, behind those with higher numbers.
fn put_caller(
    _system: &System<OpenGate>,
    _play: &Play,
    _servers: usize,
    _top: usize,
    hosts: &mut Vec<HostPasses>,
    caller: HostPasses,
)
    requires hosts { EndDown (λ h. h.pass) _system.now.engine _play.now _servers _top hosts.old.items }
    requires caller { HasEnded _system.now.engine _play.now _servers caller.pass }
    requires number { number caller.pass + vec_len hosts.old ≡ _top }
    requires room { vec_len hosts.old < vec_capacity hosts.old }
    ensures hosts { EndDown (λ h. h.pass) _system.now.engine _play.now _servers _top hosts.new.items }
    ensures len { vec_len hosts.new ≡ vec_len hosts.old + 1 }
    ensures capacity { vec_capacity hosts.new ≡ vec_capacity hosts.old }
{
    hosts.push_reserved(caller);
}

/// The passes of hosts whose rounds are over, those of the last host first.
///
/// # Errors
///
/// `NoMemory` where a growth is refused.
pub(crate) fn hosts_back(
    alloc: Global,
    system: &System<OpenGate>,
    play: &Play,
    servers: usize,
    mut racers: Vec<Racer<'_>>,
) -> Result<Vec<HostPasses>, NoMemory>
    requires racers { AreRacers system.now play.now servers racers.items }
    requires over { AreOver racers.items }
    requires few { servers + vec_len racers < 65536 }
    ensures hosts { IfOk result (λ h. EndDown (λ g. g.pass) system.now.engine play.now servers
        (servers + vec_len racers.entry) h.items) }
    ensures count { IfOk result (λ h. vec_len h ≡ vec_len racers.entry) }
{
    let count = racers.len();
    let top = servers + count;
    let mut hosts = Vec::with_capacity(alloc, count)?;
    for _ in 0..count {
        let racer = last_racer(system, play, servers, &mut racers);
        let caller = caller_of(system, play, servers, racer);
        put_caller(system, play, servers, top, &mut hosts, caller);
    }
    Ok(hosts)
}
