//! Who fetches.

ghost use Rattle.std.specs.Prelude.{◌≡◌, ◌≤◌, ◌+◌, ◌%◌, IfOk};
ghost use Rattle.hosts.specs.Declining.{IsFetchUnmade};
ghost use Rattle.shared_system.specs.Callers.{Continues, IsCallerOf, IsPushableWork};
ghost use Rattle.hosts.specs.Asking.{IsNoWork, IsFetchedReady};
ghost use Rattle.hosts.specs.Stages.{IsFetchStage, IsFetchTurn, IsQueueIn};
ghost use Rattle.hosts.specs.declared.fetching.FetchStage.{FetchStage};

use crate::gate::{Gate, Point};
use meet_lock::Unmade;
use nvme_model::refusal::Why;
use shared_system::{CallerPasses, System};
use std::alloc::AllocError as NoMemory;
use std::sync::Wait;
use std::thread::yield_now;
use step_core::FetchCall;
use work_queue::Work;

/// What a fetcher does in its next turn.
#[derive(Drop)]
pub enum FetchStage {
    /// It asks for a Fetch of this submission queue.
    Asks(u16),
    /// It pushes this Work, and then asks for a Fetch of this submission queue.
    Pushes(Work, u16),
}

/// What came of asking for a Fetch.
enum Fetched {
    Work(Work),
    /// No entry waits there, or there is no such queue.
    Nothing,
    /// Another caller had the controller, or as many tickets are in flight as may be.
    Again,
    NoMemory,
}

// What comes of a Fetch that isn't made.
fn unfetched(unmade: Unmade<FetchCall, Why>) -> Fetched
    requires { IsFetchUnmade unmade }
    ensures ready { IsNoWork result }
{
    match unmade {
        Unmade::Busy(_) => Fetched::Again,
        Unmade::Refused(Why::NoQueue | Why::NoEntry) => Fetched::Nothing,
        Unmade::Refused(Why::JobsFull) => Fetched::Again,
        Unmade::Refused(Why::NoMemory) => Fetched::NoMemory,
        // No other refusal meets a Fetch.
        Unmade::Refused(_) => unreachable!(),
    }
}

// Asks for one Fetch of this submission queue.
#[tactic(auto, using(shared_system::proofs::Going::goes_fetched, shared_system::proofs::Going::fetched_ready))]
fn fetch<G: Gate>(system: &System<G>, caller: &mut CallerPasses, queue: u16) -> Fetched
    requires { IsCallerOf system.now caller.old }
    ensures goes { Continues system.now caller.old caller.new }
    ensures ready { IsFetchedReady system.now result }
{
    match system.engine.fetch(&mut caller.pass, queue) {
        Ok(work) => Fetched::Work(work),
        Err(unmade) => unfetched(unmade),
    }
}

// The submission queue whose turn is behind this one's.
fn queue_after(queue: u16, queues: u16) -> u16
    requires some { 1 ≤ queues }
    ensures value { result ≡ queue % queues + 1 }
    ensures inside { IsQueueIn queues result }
{
    queue % queues + 1
}

// Takes the next command of this submission queue, if one waits. Where it can't be taken for now that queue is asked
// again, else the next one.
#[tactic(auto, using(shared_system::proofs::Going::goes_same))]
fn asks<G: Gate>(
    system: &System<G>,
    caller: &mut CallerPasses,
    queues: u16,
    queue: u16,
) -> Result<FetchStage, NoMemory>
    requires own { IsCallerOf system.now caller.old }
    requires queue { IsQueueIn queues queue }
    ensures goes { Continues system.now caller.old caller.new }
    ensures stage { IfOk result (IsFetchStage system.now queues) }
    ensures next { IfOk result (IsFetchTurn queues (FetchStage.Asks queue)) }
{
    let after = queue_after(queue, queues);
    match fetch(system, caller, queue) {
        Fetched::Work(work) => {
            system.gate.pass(Point::Fetched, work.ticket());
            Ok(FetchStage::Pushes(work, after))
        }
        Fetched::Nothing => {
            yield_now();
            Ok(FetchStage::Asks(after))
        }
        Fetched::Again => {
            yield_now();
            Ok(FetchStage::Asks(queue))
        }
        Fetched::NoMemory => {
            system.stop.set();
            Err(NoMemory)
        }
    }
}

// Pushes the Work, which stays where the queue is full.
#[tactic(auto, using(shared_system::proofs::Going::goes_push))]
fn pushes<R: Wait, G: Gate>(
    rt: &R,
    system: &System<G>,
    caller: &mut CallerPasses,
    _queues: u16,
    work: Work,
    queue: u16,
) -> FetchStage
    requires own { IsCallerOf system.now caller.old }
    requires ready { IsPushableWork system.now work }
    requires queue { IsQueueIn _queues queue }
    ensures goes { Continues system.now caller.old caller.new }
    ensures stage { IsFetchStage system.now _queues result }
    ensures next { IsFetchTurn _queues (FetchStage.Pushes work queue) result }
{
    match system.works.push(rt, &mut caller.works, work) {
        Ok(()) => FetchStage::Asks(queue),
        Err(back) => {
            yield_now();
            FetchStage::Pushes(back, queue)
        }
    }
}

/// One turn of a fetcher of the submission queues from 1 to `queues`: it asks for one Fetch, or pushes the Work that it
/// has. Lets others run where nothing came of it. A command is taken of each queue that has one, in turn.
///
/// # Errors
///
/// `NoMemory` where a growth is refused; nothing was fetched. The stop flag is set then.
pub fn fetch_turn<R: Wait, G: Gate>(
    rt: &R,
    system: &System<G>,
    caller: &mut CallerPasses,
    queues: u16,
    stage: FetchStage,
) -> Result<FetchStage, NoMemory>
    requires own { IsCallerOf system.now caller.old }
    requires stage { IsFetchStage system.now queues stage }
    ensures goes { Continues system.now caller.old caller.new }
    ensures stage { IfOk result (IsFetchStage system.now queues) }
    ensures next { IfOk result (IsFetchTurn queues stage) }
{
    match stage {
        FetchStage::Asks(queue) => asks(system, caller, queues, queue),
        FetchStage::Pushes(work, queue) => { Ok(pushes(rt, system, caller, queues, work, queue)) }
    }
}

/// Makes a fetcher's turns, from the first submission queue on, until the stop flag is set.
///
/// # Errors
///
/// `NoMemory` where a growth is refused. The stop flag is set then.
#[tactic(auto, using(shared_system::proofs::Going::goes_same))]
pub fn fetcher<R: Wait, G: Gate>(
    rt: &R,
    system: &System<G>,
    caller: &mut CallerPasses,
    queues: u16,
) -> Result<(), NoMemory>
    requires own { IsCallerOf system.now caller.old }
    requires some { 1 ≤ queues }
    ensures goes { Continues system.now caller.old caller.new }
{
    let mut stage = FetchStage::Asks(1);
    for _ in rt.forever() {
        if system.stop.is_set() {
            return Ok(());
        }
        stage = fetch_turn(rt, system, caller, queues, stage)?;
    }
    // The loop ends by its returns alone.
    unreachable!()
}
