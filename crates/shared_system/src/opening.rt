//! Systems, and what their callers own.

ghost use Rattle.std.specs.Prelude.{◌≡◌, ◌<◌, ◌≤◌, ◌+◌, ◌-◌, All, IfOk, IfSome, MatchOption, length, vec_len};
ghost use Rattle.std.specs.Vec.{vec_capacity};
ghost use Rattle.work_queue.specs.QueuePasses as queue;
ghost use Rattle.shared_system.specs.Capacities.{HasCapacities};
ghost use Rattle.shared_system.specs.Callers.{AreFirstPasses, AreFirstPlaces, AreCallersOf, AreHostsOf, AreLastHosts};
ghost use Rattle.shared_system.specs.Callers.{AreLastWorkers, ArePlaces, AreSpares, IsHostOf, IsLastPass, IsCallerOf};
ghost use Rattle.shared_system.specs.Callers.{IsOneOf};
ghost use Rattle.shared_system.specs.Callers.{IsPlaceAt, IsWorkerOf};
ghost use Rattle.meet_lock.specs.Passes.{number};

use crate::rows::{Row, notice_queues};
use crate::stop::Stop;
use crate::system::{CallerPasses, Callers, HostPasses, System, WorkerPasses};
use history::Config;
use meet_lock::Pass;
use std::alloc::{AllocError as NoMemory, Global};
use step_core::Core;
use work_queue::{Engine, MessageQueue, Notice, QueuePass, Work};

/// How many Works wait for a worker at most.
const WORKS: usize = 16;

// The last of these passes of the engine, of which there are so many.
#[tactic(auto, using(crate::proofs::Systems::pass_last, crate::proofs::Systems::passes_rest))]
fn last_pass<G>(
    _system: &System<G>,
    _config: &Config,
    _all: usize,
    passes: &mut Vec<Pass<Core>>,
) -> Option<Pass<Core>>
    requires { AreFirstPasses _system.now _config.now _all passes.old.items }
    ensures rest { AreFirstPasses _system.now _config.now _all passes.new.items }
    ensures last { IfSome result (λ p. IsOneOf _system.now _config.now _all p × (number p ≡ vec_len passes.new + 1)) }
    ensures count { MatchOption result (vec_len passes.old ≡ 0) (λ _. vec_len passes.new + 1 ≡ vec_len passes.old) }
{
    passes.pop()
}

// The last of these passes, which are of the first queues of notices.
#[tactic(auto, using(crate::proofs::Systems::place_last, crate::proofs::Systems::places_rest))]
fn last_place<G>(_system: &System<G>, places: &mut Row) -> Option<QueuePass<Notice>>
    requires { AreFirstPlaces _system.now places.old.items }
    ensures rest { AreFirstPlaces _system.now places.new.items }
    ensures last { IfSome result (IsPlaceAt _system.now (vec_len places.new)) }
    ensures count { MatchOption result (vec_len places.old ≡ 0) (λ _. vec_len places.new + 1 ≡ vec_len places.old) }
{
    places.pop()
}

// One host more, behind those of the completion queues after its own.
fn put_host<G>(
    _system: &System<G>,
    _config: &Config,
    _all: usize,
    hosts: &mut Vec<HostPasses>,
    host: HostPasses,
)
    requires hosts { AreLastHosts _system.now _config.now _all hosts.old.items }
    requires host { IsHostOf _system.now _config.now host }
    requires pass { IsLastPass _config.now _all host }
    requires place { host.queue + vec_len hosts.old ≡ _config.now.cqs }
    requires room { vec_len hosts.old < vec_capacity hosts.old }
    ensures hosts { AreLastHosts _system.now _config.now _all hosts.new.items }
    ensures len { vec_len hosts.new ≡ vec_len hosts.old + 1 }
    ensures capacity { vec_capacity hosts.new ≡ vec_capacity hosts.old }
{
    hosts.push_reserved(host);
}

// The host of this completion queue, with the last pass of each kind; None where none is left.
fn next_host<G>(
    system: &System<G>,
    config: &Config,
    all: usize,
    passes: &mut Vec<Pass<Core>>,
    places: &mut Row,
    queue: u16,
) -> Option<HostPasses>
    requires passes { AreFirstPasses system.now config.now all passes.old.items }
    requires number { vec_len passes.old + config.now.cqs ≡ all + queue }
    requires places { AreFirstPlaces system.now places.old.items }
    requires queue { (vec_len places.old ≡ queue) × (1 ≤ queue) × (queue ≤ config.now.cqs) }
    requires queues { length system.now.notices.items ≡ config.now.cqs }
    ensures passes { AreFirstPasses system.now config.now all passes.new.items }
    ensures places { AreFirstPlaces system.now places.new.items }
    ensures host { IfSome result (λ h. IsHostOf system.now config.now h × (h.queue ≡ queue)) }
    ensures pass { IfSome result (IsLastPass config.now all) }
    ensures count { MatchOption result (vec_len passes.old ≡ 0) (λ _. (vec_len passes.new + 1 ≡ vec_len passes.old)
        × (vec_len places.new + 1 ≡ vec_len places.old)) }
{
    let pass = last_pass(system, config, all, passes)?;
    let notices = last_place(system, places).unwrap();
    Some(HostPasses {
        pass,
        queue,
        notices,
    })
}

// A host for each completion queue, from the last to the first.
#[tactic(auto, using(crate::proofs::Systems::first_places, crate::proofs::Systems::places_count))]
fn hosts_of<G>(
    alloc: Global,
    system: &System<G>,
    config: &Config,
    passes: &mut Vec<Pass<Core>>,
    mut places: Row,
) -> Result<Vec<HostPasses>, NoMemory>
    requires passes { AreFirstPasses system.now config.now (vec_len passes.old) passes.old.items }
    requires places { ArePlaces system.now.engine system.now.notices.items places.items }
    requires queues { length system.now.notices.items ≡ config.now.cqs }
    requires room { config.now.cqs ≤ vec_len passes.old }
    ensures hosts { IfOk result (λ h. AreHostsOf system.now config.now (vec_len passes.old) h.items) }
    ensures passes { AreFirstPasses system.now config.now (vec_len passes.old) passes.new.items }
    ensures rest { IfOk result (λ _. vec_len passes.new + config.now.cqs ≡ vec_len passes.old) }
{
    let count = config.numbers().cqs;
    let all = passes.len();
    let mut hosts = Vec::with_capacity(alloc, usize::from(count))?;
    for k in 0..count {
        let host = next_host(system, config, all, passes, &mut places, count - k).unwrap();
        put_host(system, config, all, &mut hosts, host);
    }
    Ok(hosts)
}

/// What workers are to own: as many passes as rows, of each kind.
#[derive(Drop)]
struct WorkerSpares {
    passes: Vec<Pass<Core>>,
    works: Vec<QueuePass<Work>>,
    rows: Vec<Row>,
}

// What one worker is to own; None where nothing is left.
fn take_worker<G>(
    system: &System<G>,
    config: &Config,
    all: usize,
    spares: &mut WorkerSpares,
) -> Option<WorkerPasses>
    requires { AreSpares system.now config.now all spares.old }
    ensures rest { AreSpares system.now config.now all spares.new }
    ensures worker { IfSome result (IsWorkerOf system.now) }
    ensures pass { IfSome result (λ w. IsOneOf system.now config.now all w.caller.pass
        × (number w.caller.pass ≡ vec_len spares.new.rows + 1)) }
    ensures count { MatchOption result (vec_len spares.old.rows ≡ 0) (λ _. vec_len spares.new.rows + 1
        ≡ vec_len spares.old.rows) }
{
    let notices = spares.rows.pop()?;
    let pass = last_pass(system, config, all, &mut spares.passes).unwrap();
    let works = spares.works.pop().unwrap();
    Some(WorkerPasses {
        caller: CallerPasses { pass, works },
        notices,
    })
}

// One worker more, behind those with the passes after its own.
fn put_worker<G>(
    _system: &System<G>,
    _config: &Config,
    _all: usize,
    _count: usize,
    workers: &mut Vec<WorkerPasses>,
    worker: WorkerPasses,
)
    requires workers { AreLastWorkers _system.now _config.now _all _count workers.old.items }
    requires worker { IsWorkerOf _system.now worker }
    requires pass { IsOneOf _system.now _config.now _all worker.caller.pass }
    requires number { number worker.caller.pass + vec_len workers.old ≡ _count }
    requires room { vec_len workers.old < vec_capacity workers.old }
    ensures workers { AreLastWorkers _system.now _config.now _all _count workers.new.items }
    ensures len { vec_len workers.new ≡ vec_len workers.old + 1 }
    ensures capacity { vec_capacity workers.new ≡ vec_capacity workers.old }
{
    workers.push_reserved(worker);
}

// A worker for each row.
fn workers_of<G>(
    alloc: Global,
    system: &System<G>,
    config: &Config,
    all: usize,
    mut spares: WorkerSpares,
) -> Result<Vec<WorkerPasses>, NoMemory>
    requires { AreSpares system.now config.now all spares }
    ensures workers { IfOk result (λ w. All (IsWorkerOf system.now) w.items) }
    ensures each { IfOk result (λ w. AreLastWorkers system.now config.now all (vec_len spares.rows) w.items) }
    ensures count { IfOk result (λ w. vec_len w ≡ vec_len spares.rows) }
{
    let count = spares.rows.len();
    let mut workers = Vec::with_capacity(alloc, count)?;
    for _ in 0..count {
        let worker = take_worker(system, config, all, &mut spares).unwrap();
        put_worker(system, config, all, count, &mut workers, worker);
    }
    Ok(workers)
}

// What the fetcher is to own, the last of each kind.
fn take_fetcher<G>(
    system: &System<G>,
    config: &Config,
    all: usize,
    passes: &mut Vec<Pass<Core>>,
    works: &mut Vec<QueuePass<Work>>,
) -> Option<CallerPasses>
    requires passes { AreFirstPasses system.now config.now all passes.old.items }
    requires works { All (queue.IsPlaceOf system.now.engine system.now.works) works.old.items }
    requires count { vec_len passes.old ≡ vec_len works.old }
    ensures passes { AreFirstPasses system.now config.now all passes.new.items }
    ensures works { All (queue.IsPlaceOf system.now.engine system.now.works) works.new.items }
    ensures caller { IfSome result (IsCallerOf system.now) }
    ensures pass { IfSome result (λ h. IsOneOf system.now config.now all h.pass
        × (number h.pass ≡ vec_len passes.old)) }
    ensures count { MatchOption result (vec_len works.old ≡ 0) (λ _. (vec_len works.new + 1 ≡ vec_len works.old)
        × (vec_len passes.new ≡ vec_len works.new)) }
{
    let works = works.pop()?;
    let pass = last_pass(system, config, all, passes).unwrap();
    Some(CallerPasses { pass, works })
}

// Passes of a fetcher, of a worker for each row but the last, and of hosts.
#[tactic(auto, using(crate::proofs::Systems::callers_are))]
fn callers_of<G>(
    alloc: Global,
    system: &System<G>,
    config: &Config,
    mut passes: Vec<Pass<Core>>,
    mut works: Vec<QueuePass<Work>>,
    mut rows: Vec<Row>,
) -> Result<Callers, NoMemory>
    requires passes { AreFirstPasses system.now config.now (vec_len passes) passes.items }
    requires works { All (queue.IsPlaceOf system.now.engine system.now.works) works.items }
    requires rows { All (λ row. ArePlaces system.now.engine system.now.notices.items row.items) rows.items }
    requires queues { (1 ≤ config.now.cqs) × (length system.now.notices.items ≡ config.now.cqs) }
    requires some { 0 < vec_len rows }
    requires count { (vec_len passes ≡ vec_len rows + config.now.cqs) × (vec_len works ≡ vec_len rows) }
    ensures { IfOk result (AreCallersOf system.now config.now (vec_len rows - 1)) }
{
    let row = rows.pop().unwrap();
    let all = passes.len();
    let hosts = hosts_of(alloc, system, config, &mut passes, row)?;
    let fetcher = take_fetcher(system, config, all, &mut passes, &mut works).unwrap();
    let spares = WorkerSpares {
        passes,
        works,
        rows,
    };
    let workers = workers_of(alloc, system, config, all, spares)?;
    Ok(Callers {
        fetcher,
        workers,
        hosts,
    })
}

/// A system of a new controller, with the passes of a fetcher, of so many workers, and of a host of each completion
/// queue. Its queue of Works holds 16, and each queue of notices as many as a completion queue has slots.
///
/// # Errors
///
/// `NoMemory` where a growth is refused.
#[tactic(auto, using(crate::proofs::Systems::some_slots, crate::proofs::Systems::some_queues))]
pub fn system_of<G: Drop>(
    alloc: Global,
    config: Config,
    gate: G,
    workers: u16,
) -> Result<(System<G>, Callers), NoMemory>
    ensures callers { IfOk result (λ h. AreCallersOf h.0 config workers h.1) }
    ensures capacities { IfOk result (λ h. HasCapacities h.0 config) }
{
    let numbers = config.numbers();
    let count = usize::from(workers) + 1;
    let (engine, passes) = Engine::of_config(alloc, config, count + usize::from(numbers.cqs))?;
    let (works, places) = MessageQueue::<Work>::new(alloc, &engine, WORKS, count)?;
    let (notices, rows) = notice_queues(alloc, &engine, numbers.cqs, numbers.cq_size, count)?;
    let system = System {
        engine,
        works,
        notices,
        stop: Stop::new(),
        gate,
    };
    let callers = callers_of(alloc, &system, &config, passes, places, rows)?;
    Ok((system, callers))
}
