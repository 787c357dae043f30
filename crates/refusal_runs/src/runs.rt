//! A run's steps, each asked for again after want of memory.

ghost use Rattle.std.specs.Prelude.{◌≡◌, ◌<◌, [], IfSome};
ghost use Rattle.meet_lock.specs.Passes.{IsPassOfLock, IsSame};
ghost use Rattle.shared_system.specs.Plain.{ArePlainCallers};

use crate::script::RefusalRun;
use history::Config;
use meet_lock::{Declined, Pass, Shared};
use nvme_model::refusal::Why;
use shared_system::{PlainCallers, PlainSystem, plain_system_of};
use std::alloc::Global;
use step_core::{Answer, Core, Refused, Step};

/// How often a step is asked again after want of memory, at most.
pub(crate) const TURNS: u32 = 1000;

/// A new controller, asked for again after want of memory.
pub(crate) fn controller(alloc: Global, config: Config, told: &mut u64) -> Option<Core>
    ensures { IfSome result (λ core. core.past ≡ []) }
{
    for _ in 0..TURNS {
        match Core::new(alloc, config) {
            Ok(core) => return Some(core),
            Err(_) => *told = told.wrapping_add(1),
        }
    }
    None
}

/// A system of a new controller, with so many callers, asked for again after want of memory. Each of its queues holds
/// `capacity` messages.
pub(crate) fn system(
    alloc: Global,
    config: Config,
    capacity: usize,
    count: usize,
    told: &mut u64,
) -> Option<(PlainSystem, PlainCallers)>
    requires { (0 < capacity) × (0 < count) }
    ensures callers { IfSome result (λ h. ArePlainCallers h.0 h.1) }
    ensures config { IfSome result (λ h. h.0.config ≡ config) }
{
    for _ in 0..TURNS {
        match plain_system_of(alloc, config, capacity, count) {
            Ok(made) => return Some(made),
            Err(_) => *told = told.wrapping_add(1),
        }
    }
    None
}

// Another step of the same, but for a Publish.
fn same(step: &Step) -> Option<Step> {
    match step {
        Step::Publish(_, _) => None,
        Step::Fetch(queue) => Some(Step::Fetch(*queue)),
        Step::Grant(ticket) => Some(Step::Grant(*ticket)),
        Step::Block(ticket) => Some(Step::Block(*ticket)),
        Step::Post(ticket) => Some(Step::Post(*ticket)),
        Step::Reap(queue) => Some(Step::Reap(*queue)),
    }
}

// The queue of a Publish.
fn queue_of(step: &Step) -> u16 {
    match step {
        Step::Publish(queue, _) => *queue,
        Step::Fetch(_) | Step::Grant(_) | Step::Block(_) | Step::Post(_) | Step::Reap(_) => 0,
    }
}

// The step that was refused for want of memory, to be asked again.
fn again(refused: Refused, queue: u16, kept: Option<Step>) -> Option<Step> {
    match refused {
        Refused::Publish(Why::NoMemory, batch) => Some(Step::Publish(queue, batch)),
        Refused::Step(Why::NoMemory) => kept,
        Refused::Publish(..) | Refused::Step(_) => None,
    }
}

/// Makes a step, asked for again after want of memory.
pub(crate) fn insist(core: &mut Core, step: Step, told: &mut u64) {
    let mut asked = Some(step);
    for _ in 0..TURNS {
        let Some(step) = asked else {
            return;
        };
        let (queue, kept) = (queue_of(&step), same(&step));
        let Err(refused) = core.step(step) else {
            return;
        };
        asked = again(refused, queue, kept);
        if asked.is_some() {
            *told = told.wrapping_add(1);
        }
    }
}

// A step by a pass; its refusal, if it is refused.
fn attempt(shared: &Shared<Core>, pass: &mut Pass<Core>, step: Step) -> Option<Refused>
    requires { IsPassOfLock shared.now pass.old }
    ensures { IsSame pass.old pass.new }
{
    match shared.attempt(pass, step) {
        Ok(_) => None,
        Err(Declined::Refused(refused)) => Some(refused),
        Err(Declined::Busy(_)) => None,
    }
}

// The same by a pass.
fn insist_by_pass(shared: &Shared<Core>, pass: &mut Pass<Core>, step: Step, told: &mut u64)
    requires { IsPassOfLock shared.now pass.old }
    ensures { IsSame pass.old pass.new }
{
    let mut asked = Some(step);
    for _ in 0..TURNS {
        let Some(step) = asked else {
            return;
        };
        let (queue, kept) = (queue_of(&step), same(&step));
        let Some(refused) = attempt(shared, pass, step) else {
            return;
        };
        asked = again(refused, queue, kept);
        if asked.is_some() {
            *told = told.wrapping_add(1);
        }
    }
}

/// All steps by a controller.
pub(crate) fn by_steps(alloc: Global, run: RefusalRun, told: &mut u64) -> Option<Core> {
    let mut core = controller(alloc, run.config, told)?;
    for step in run.steps {
        insist(&mut core, step, told);
    }
    Some(core)
}

// All steps by the one pass of a lock.
fn make_each(shared: &Shared<Core>, pass: &mut Pass<Core>, steps: Vec<Step>, told: &mut u64)
    requires { IsPassOfLock shared.now pass.old }
    ensures { IsSame pass.old pass.new }
{
    for step in steps {
        insist_by_pass(shared, pass, step, told);
    }
}

// A lock of a new controller and its one pass, asked for again after want of memory.
fn locked(alloc: Global, config: Config, told: &mut u64) -> Option<(Shared<Core>, Pass<Core>)>
    ensures { IfSome result (λ l. IsPassOfLock l.0 l.1) }
{
    let mut core = controller(alloc, config, told)?;
    for _ in 0..TURNS {
        match Shared::new(alloc, core, 1) {
            Ok((shared, mut passes)) => {
                let pass = passes.pop()?;
                return Some((shared, pass));
            }
            Err((back, _)) => core = back,
        }
        *told = told.wrapping_add(1);
    }
    None
}

/// All steps by the one pass of a lock.
pub(crate) fn by_a_pass(alloc: Global, run: RefusalRun, told: &mut u64) -> Option<Core> {
    let (shared, mut pass) = locked(alloc, run.config, told)?;
    make_each(&shared, &mut pass, run.steps, told);
    shared.close(pass)
}

/// How many of these answers are want of memory.
pub(crate) fn wants(answers: &[Result<Answer, Refused>]) -> u64 {
    let mut count: u64 = 0;
    for answer in answers {
        if let Err(Refused::Publish(Why::NoMemory, _) | Refused::Step(Why::NoMemory)) = answer {
            count = count.wrapping_add(1);
        }
    }
    count
}
