//! An engine is closed, with one of its passes or with all.

ghost use Rattle.std.specs.Prelude.{◌<◌};
ghost use Rattle.shared_system.specs.Plain.{IsPlainCallerOf};

use lock_testing::{ONE_QUEUE, closed, config_of};
use shared_system::{PlainCaller, PlainSystem};
use std::alloc::Global;
use std::test::Fail;
use step_core::Core;
use work_queue::Engine;

/// The controller of a new engine of so many passes, closed with all of them.
fn closed_by_all(alloc: Global, count: usize) -> Result<Core, Fail>
    requires { 0 < count }
{
    let config = config_of(alloc, ONE_QUEUE).ok_or("no configuration")?;
    let (engine, passes) = Engine::of_config(alloc, config, count)?;
    match engine.close_all(passes) {
        Some(core) => Ok(core),
        None => Err(Fail::from("the lock isn't free")),
    }
}

/// How long the history of a system is, once nobody has the lock.
pub(crate) fn entries_of(system: PlainSystem, caller: PlainCaller) -> Result<usize, Fail>
    requires { IsPlainCallerOf system caller }
{
    let core = closed(system, caller).ok_or("the lock isn't free")?;
    Ok(core.history().len())
}

#[test]
fn an_engine_is_closed_with_all_its_passes(rt: HostRuntime) -> Result<(), Fail> {
    let core = closed_by_all(rt.alloc(), 3)?;
    assert_eq!(rt; core.history().len(), 0);
    Ok(())
}

#[test]
fn three_hundred_passes_close_an_engine(rt: HostRuntime) -> Result<(), Fail> {
    let core = closed_by_all(rt.alloc(), 300)?;
    assert_eq!(rt; core.history().len(), 0);
    Ok(())
}
