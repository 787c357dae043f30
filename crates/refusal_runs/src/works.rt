//! A run by an engine: a host publishes and reaps, a fetcher's Works go through a queue, and a worker makes all that a
//! Work asks for and tells of it. What is refused for want of memory is asked for again.

ghost use Rattle.std.specs.Prelude.{IfSome};
ghost use Rattle.lock_testing.specs.Callers.{IsCrewOf};
ghost use Rattle.shared_system.specs.Plain.{IsFreshWork, IsPlainCallerOf, IsPlainWork};

use crate::runs::{TURNS, system};
use crate::script::RefusalRun;
use history::Config;
use lock_testing::{
    NO_MEMORY, ThreeCallers, closed, crew_of, fetches, learns, open, opens, pops, pushes, works,
};
use meet_lock::Declined;
use nvme_model::refusal::Why;
use nvme_model::submission::Submissions;
use shared_system::{PlainCaller, PlainSystem};
use std::alloc::Global;
use std::sync::Wait;
use step_core::{Core, Refused, Step};
use work_queue::{Open, Work};

/// How many messages a queue holds.
const CAPACITY: usize = 16;

// The same controller with one completion queue, so that all completions are told of.
fn single(config: Config) -> Option<Config> {
    let mut numbers = config.numbers();
    numbers.cqs = 1;
    Config::from_numbers(&numbers).ok()
}

// A Publish; it is asked again with the batch that came back.
pub(crate) fn publishes(
    system: &PlainSystem,
    caller: &mut PlainCaller,
    queue: u16,
    batch: Submissions,
    told: &mut u64,
)
    requires { IsPlainCallerOf system.now caller.old }
    ensures { IsPlainCallerOf system.now caller.new }
{
    let mut next = batch;
    for _ in 0..TURNS {
        match open(system, caller, Open::Publish(queue, next)) {
            Err(Declined::Refused(Refused::Publish(Why::NoMemory, back))) => next = back,
            Ok(_) | Err(Declined::Refused(_) | Declined::Busy(_)) => return,
        }
        *told = told.wrapping_add(1);
    }
}

// The Work of a Fetch, out of the queue.
pub(crate) fn fetched<R: Wait>(
    rt: &R,
    system: &PlainSystem,
    crew: &mut ThreeCallers,
    queue: u16,
    told: &mut u64,
) -> Option<Work>
    requires { IsCrewOf system.now crew.old }
    ensures same { IsCrewOf system.now crew.new }
    ensures work { IfSome result (IsFreshWork system.now) }
{
    for _ in 0..TURNS {
        match fetches(rt, system, &mut crew.fetcher, queue) {
            Ok(work) => {
                pushes(rt, system, &mut crew.fetcher, work).ok()?;
                return pops(rt, system, &mut crew.worker);
            }
            Err(NO_MEMORY) => *told = told.wrapping_add(1),
            Err(_) => return None,
        }
    }
    None
}

// Makes all tasks of a Work, up to one that is refused for another cause.
pub(crate) fn ends<R: Wait>(
    rt: &R,
    system: &PlainSystem,
    caller: &mut PlainCaller,
    work: Work,
    told: &mut u64,
)
    requires { IsPlainCallerOf system.now caller.old × IsPlainWork system.now work }
    ensures { IsPlainCallerOf system.now caller.new }
{
    let mut work = work;
    for _ in 0..TURNS {
        match works(rt, system, caller, &mut work) {
            Ok(Some(_)) => {}
            Ok(None) => return,
            Err(NO_MEMORY) => *told = told.wrapping_add(1),
            Err(_) => return,
        }
    }
}

// The host learns all that it was told.
fn hears<R: Wait>(rt: &R, system: &PlainSystem, caller: &mut PlainCaller)
    requires { IsPlainCallerOf system.now caller.old }
    ensures { IsPlainCallerOf system.now caller.new }
{
    for _ in 0..CAPACITY {
        if learns(rt, system, caller) != Ok(true) {
            return;
        }
    }
}

// The host learns, and reaps.
fn reaps<R: Wait>(
    rt: &R,
    system: &PlainSystem,
    caller: &mut PlainCaller,
    queue: u16,
    told: &mut u64,
)
    requires { IsPlainCallerOf system.now caller.old }
    ensures { IsPlainCallerOf system.now caller.new }
{
    hears(rt, system, caller);
    for _ in 0..TURNS {
        match opens(rt, system, caller, Open::Reap(queue)) {
            Err(NO_MEMORY) => *told = told.wrapping_add(1),
            Ok(_) | Err(_) => return,
        }
    }
}

// A step by the caller whose it is. A worker makes Grants, Blocks and Posts unasked.
fn make<R: Wait>(rt: &R, system: &PlainSystem, crew: &mut ThreeCallers, step: Step, told: &mut u64)
    requires { IsCrewOf system.now crew.old }
    ensures { IsCrewOf system.now crew.new }
{
    match step {
        Step::Publish(queue, batch) => publishes(system, &mut crew.host, queue, batch, told),
        Step::Fetch(queue) => {
            if let Some(work) = fetched(rt, system, crew, queue, told) {
                ends(rt, system, &mut crew.worker, work, told);
            }
        }
        Step::Reap(queue) => reaps(rt, system, &mut crew.host, queue, told),
        Step::Grant(_) | Step::Block(_) | Step::Post(_) => {}
    }
}

// All steps, each by the caller whose it is.
fn make_each<R: Wait>(
    rt: &R,
    system: &PlainSystem,
    crew: &mut ThreeCallers,
    steps: Vec<Step>,
    told: &mut u64,
)
    requires { IsCrewOf system.now crew.old }
    ensures { IsCrewOf system.now crew.new }
{
    for step in steps {
        make(rt, system, crew, step, told);
    }
}

/// The engine, its queues, and who steps.
pub(crate) fn manned(
    alloc: Global,
    config: Config,
    told: &mut u64,
) -> Option<(PlainSystem, ThreeCallers)>
    ensures { IfSome result (λ h. IsCrewOf h.0 h.1) }
{
    let (system, mut callers) = system(alloc, single(config)?, CAPACITY, 3, told)?;
    let crew = crew_of(alloc, &system, &mut callers)?;
    Some((system, crew))
}

/// The controller after the run.
pub(crate) fn by_works<R: Wait>(
    rt: &R,
    alloc: Global,
    run: RefusalRun,
    told: &mut u64,
) -> Option<Core> {
    let (system, mut crew) = manned(alloc, run.config, told)?;
    make_each(rt, &system, &mut crew, run.steps, told);
    closes(system, crew)
}

// The controller, with the host's pass.
pub(crate) fn closes(system: PlainSystem, crew: ThreeCallers) -> Option<Core>
    requires { IsCrewOf system crew }
{
    closed(system, crew.host)
}
