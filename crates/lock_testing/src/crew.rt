//! Three callers on one thread.

ghost use Rattle.std.specs.Prelude.{◌≡◌, ◌<◌, IfSome};
ghost use Rattle.meet_lock.specs.Passes.{config_of};
ghost use Rattle.lock_testing.specs.Callers.{IsCrewOf};
ghost use Rattle.shared_system.specs.Plain.{ArePlainCallers, IsPlainCallerOf};

use history::Config;
use shared_system::{PlainCaller, PlainCallers, PlainSystem, plain_system_of, take_caller};
use std::alloc::Global;
use step_core::Core;
use work_queue::Work;

/// Three callers on one thread.
#[derive(Drop)]
pub struct ThreeCallers {
    /// It publishes, learns and reaps.
    pub host: PlainCaller,
    pub fetcher: PlainCaller,
    /// It grants, blocks and posts, with the Works that it popped.
    pub worker: PlainCaller,
    pub works: Vec<Work>,
    /// How many notices the host learnt of.
    pub learnt: u64,
}

/// Three of these callers, without Works; None where there are fewer.
pub fn crew_of(
    alloc: Global,
    system: &PlainSystem,
    callers: &mut PlainCallers,
) -> Option<ThreeCallers>
    requires { ArePlainCallers system.now callers.old }
    ensures { IfSome result (IsCrewOf system.now) }
{
    let host = take_caller(system, callers)?;
    let fetcher = take_caller(system, callers)?;
    let worker = take_caller(system, callers)?;
    Some(ThreeCallers {
        host,
        fetcher,
        worker,
        works: Vec::new(alloc),
        learnt: 0,
    })
}

/// A system of a new controller, whose queues have so many places, with three callers. None where memory is refused.
pub fn crewed(alloc: Global, config: Config, capacity: usize) -> Option<(PlainSystem, ThreeCallers)>
    requires { 0 < capacity }
    ensures { IfSome result (λ h. IsCrewOf h.0 h.1) }
{
    let (system, mut callers) = plain_system_of(alloc, config, capacity, 3).ok()?;
    let crew = crew_of(alloc, &system, &mut callers)?;
    Some((system, crew))
}

/// The controller, once nobody has the lock.
pub fn closed(system: PlainSystem, caller: PlainCaller) -> Option<Core>
    requires { IsPlainCallerOf system caller }
    ensures { IfSome result (λ core. core.config ≡ config_of caller.pass) }
{
    let PlainSystem { engine, .. } = system;
    engine.close(caller.pass)
}
