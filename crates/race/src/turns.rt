//! A turn of one caller of a race.

ghost use Rattle.std.specs.Prelude.{◌≡◌, ◌≤◌, ◌<◌, ◌+◌, All, OnOk, vec_len};
ghost use Rattle.meet_lock.specs.Passes.{number};
ghost use Rattle.shared_system.specs.Callers.{IsWorkerOf, WorkerContinues};
ghost use Rattle.hosts.specs.Stages.{IsFetchStage, IsFetchTurn, IsWorkStage, IsWorkTurn};
ghost use Rattle.race.specs.Racers.{AreRaceWorkers, AreRacers, IsRaceFetcher, IsRacer, racer_pass};
ghost use Rattle.race.specs.Turns.{MovesAt};

use crate::racers::Racer;
use hosts::{FetchStage, OpenGate, WorkStage, fetch_turn, work_turn};
use race_hosts::{Play, RoundStage, Rounds, busy_turn, host_turn};
use shared_system::{CallerPasses, System, WorkerPasses};
use std::alloc::AllocError as NoMemory;
use std::mem;
use std::sync::Wait;

/// One turn of the fetcher.
///
/// # Errors
///
/// `NoMemory` where a growth is refused.
pub fn fetcher_turn<R: Wait>(
    rt: &R,
    system: &System<OpenGate>,
    _play: &Play,
    _servers: usize,
    queues: u16,
    fetcher: &mut CallerPasses,
    fetching: &mut FetchStage,
) -> Result<(), NoMemory>
    requires fetcher { IsRaceFetcher system.now _play.now _servers fetcher.old }
    requires fetching { IsFetchStage system.now queues fetching.old }
    requires some { 1 ≤ queues }
    ensures fetcher { IsRaceFetcher system.now _play.now _servers fetcher.new }
    ensures fetching { IsFetchStage system.now queues fetching.new }
    ensures next { OnOk result (IsFetchTurn queues fetching.old fetching.new) }
{
    let stage = mem::replace(fetching, FetchStage::Asks(1));
    *fetching = fetch_turn(rt, system, fetcher, queues, stage)?;
    Ok(())
}

// One turn of a worker.
fn work_once<R: Wait>(
    rt: &R,
    system: &System<OpenGate>,
    worker: &mut WorkerPasses,
    working: &mut WorkStage,
) -> Result<(), NoMemory>
    requires worker { IsWorkerOf system.now worker.old }
    requires working { IsWorkStage system.now working.old }
    ensures worker { WorkerContinues system.now worker.old worker.new }
    ensures working { IsWorkStage system.now working.new }
    ensures next { OnOk result (IsWorkTurn working.old working.new) }
{
    let stage = mem::replace(working, WorkStage::Idle);
    *working = work_turn(rt, system, &mut worker.caller, &mut worker.notices, stage)?;
    Ok(())
}

/// One turn of the worker at this place.
///
/// # Errors
///
/// `NoMemory` where a growth is refused.
pub fn worker_turn<R: Wait>(
    rt: &R,
    system: &System<OpenGate>,
    _play: &Play,
    _top: usize,
    workers: &mut Vec<WorkerPasses>,
    working: &mut Vec<WorkStage>,
    place: usize,
) -> Result<(), NoMemory>
    requires workers { AreRaceWorkers system.now _play.now (_top + 1) _top workers.old.items }
    requires working { All (IsWorkStage system.now) working.old.items }
    requires place { (place < vec_len workers.old) × (place < vec_len working.old) }
    ensures workers { AreRaceWorkers system.now _play.now (_top + 1) _top workers.new.items }
    ensures working { All (IsWorkStage system.now) working.new.items }
    ensures count { (vec_len workers.new ≡ vec_len workers.old) × (vec_len working.new ≡ vec_len working.old) }
    ensures goes { MovesAt (WorkerContinues system.now) place workers.old.items workers.new.items }
    ensures next { OnOk result (MovesAt IsWorkTurn place working.old.items working.new.items) }
{
    work_once(rt, system, &mut workers[place], &mut working[place])
}

// One turn of a host.
fn host_once<R: Wait>(
    rt: &R,
    system: &System<OpenGate>,
    _play: &Play,
    _servers: usize,
    racer: &mut Racer<'_>,
) -> Result<(), NoMemory>
    requires { IsRacer system.now _play.now _servers racer.old }
    ensures racer { OnOk result (IsRacer system.now _play.now _servers racer.new) }
    ensures number { OnOk result (number (racer_pass racer.new) ≡ number (racer_pass racer.old)) }
{
    let rounds = mem::replace(&mut racer.rounds, Rounds::of(0));
    racer.rounds = host_turn(rt, system, &mut racer.host, rounds)?;
    Ok(())
}

/// One turn of the host at this place.
///
/// # Errors
///
/// `NoMemory` where a growth is refused, or a round can't be begun.
pub(crate) fn racer_turn<R: Wait>(
    rt: &R,
    system: &System<OpenGate>,
    _play: &Play,
    _servers: usize,
    racers: &mut Vec<Racer<'_>>,
    place: usize,
) -> Result<(), NoMemory>
    requires racers { AreRacers system.now _play.now _servers racers.old.items }
    requires place { place < vec_len racers.old }
    ensures racers { OnOk result (AreRacers system.now _play.now _servers racers.new.items) }
    ensures count { vec_len racers.new ≡ vec_len racers.old }
{
    host_once(rt, system, _play, _servers, &mut racers[place])
}

// One turn of a host that finds the controller busy.
fn busy_once<R: Wait>(
    rt: &R,
    system: &System<OpenGate>,
    _play: &Play,
    _servers: usize,
    racer: &mut Racer<'_>,
)
    requires { IsRacer system.now _play.now _servers racer.old }
    ensures racer { IsRacer system.now _play.now _servers racer.new }
    ensures number { number (racer_pass racer.new) ≡ number (racer_pass racer.old) }
{
    let stage = mem::replace(&mut racer.rounds.stage, RoundStage::Ready);
    racer.rounds.stage = busy_turn(rt, system, &mut racer.host, stage);
}

/// One turn of the host at this place, which finds the controller busy.
pub(crate) fn busy_racer_turn<R: Wait>(
    rt: &R,
    system: &System<OpenGate>,
    _play: &Play,
    _servers: usize,
    racers: &mut Vec<Racer<'_>>,
    place: usize,
)
    requires racers { AreRacers system.now _play.now _servers racers.old.items }
    requires place { place < vec_len racers.old }
    ensures racers { AreRacers system.now _play.now _servers racers.new.items }
    ensures count { vec_len racers.new ≡ vec_len racers.old }
{
    busy_once(rt, system, _play, _servers, &mut racers[place]);
}
