//! Calls of an engine and its queues that take no memory.

ghost use Rattle.std.specs.Prelude.{IfSome};
ghost use Rattle.lock_testing.specs.Callers.{IsCrewOf};
ghost use Rattle.shared_system.specs.Plain.{IsFreshWork};

use crate::script::{RefusalRun, run_of};
use crate::works::{closes, ends, fetched, manned, publishes};
use lock_testing::{CONFIG, ThreeCallers, learns, pops, pushes};
use shared_system::PlainSystem;
use std::alloc::Global;
use std::sync::Wait;
use step_core::Step;
use work_queue::Work;

/// Two Flushes: of the first all is made, so that a Notice waits, and of the second its Work is at hand.
const LINES: &str = "publish 1 flush 0 1 0 0 - / publish 1 flush 0 2 0 0 -";

// What stands before: the Work of the second Flush.
fn begins<R: Wait>(
    rt: &R,
    system: &PlainSystem,
    crew: &mut ThreeCallers,
    steps: Vec<Step>,
) -> Option<Work>
    requires { IsCrewOf system.now crew.old }
    ensures same { IsCrewOf system.now crew.new }
    ensures work { IfSome result (IsFreshWork system.now) }
{
    let mut told = 0;
    for step in steps {
        if let Step::Publish(queue, batch) = step {
            publishes(system, &mut crew.host, queue, batch, &mut told);
        }
    }
    let work = fetched(rt, system, crew, 1, &mut told)?;
    ends(rt, system, &mut crew.worker, work, &mut told);
    fetched(rt, system, crew, 1, &mut told)
}

// A Work goes through its queue, a Notice is learnt, and two passes meet.
fn quiet_calls<R: Wait>(
    rt: &R,
    system: &PlainSystem,
    crew: &mut ThreeCallers,
    work: Work,
) -> Option<()>
    requires { IsCrewOf system.now crew.old × IsFreshWork system.now work }
    ensures { IsCrewOf system.now crew.new }
{
    pushes(rt, system, &mut crew.fetcher, work).ok()?;
    pops(rt, system, &mut crew.worker)?;
    if learns(rt, system, &mut crew.host) != Ok(true) {
        return None;
    }
    system
        .engine
        .meet(&mut crew.host.pass, &mut crew.fetcher.pass)
        .ok()
}

// Makes what stands before, and then them.
fn calls<R: Wait>(
    rt: &R,
    system: &PlainSystem,
    crew: &mut ThreeCallers,
    steps: Vec<Step>,
    is_first: bool,
) -> Option<()>
    requires { IsCrewOf system.now crew.old }
    ensures { IsCrewOf system.now crew.new }
{
    let work = begins(rt, system, crew, steps)?;
    if is_first {
        return Some(());
    }
    quiet_calls(rt, system, crew, work)
}

/// Makes them, and closes the engine, whose controller has the history; None where one didn't go as with memory.
pub(crate) fn make_quiet<R: Wait>(rt: &R, alloc: Global, is_first: bool) -> Option<()> {
    let RefusalRun { config, steps } = run_of(alloc, CONFIG, LINES)?;
    let (system, mut crew) = manned(alloc, config, &mut 0)?;
    let made = calls(rt, &system, &mut crew, steps, is_first);
    if is_first || made.is_none() {
        return made;
    }
    let core = closes(system, crew)?;
    (core.history().len() == 5).then_some(())
}
