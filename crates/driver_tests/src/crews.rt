//! A fetcher and a worker, each with passes of its own.

ghost use Rattle.std.specs.Prelude.{IfOk, IfSome};
ghost use Rattle.driver_tests.specs.Crews.{AreCrewOf};
ghost use Rattle.shared_system.specs.Plain.{ArePlainCallers, IsFreshWork, IsPlainCallerOf};

use driver_testing::ends;
use lock_testing::{number, open, pops, pushes};
use meet_lock::Declined;
use shared_system::{PlainCaller, PlainCallers, PlainSystem, take_caller};
use std::process::Abort;
use std::sync::Wait;
use std::test::Fail;
use work_queue::{Open, Opened, Work};

/// A fetcher, which pushes what it fetches, and a worker, which pops it.
#[derive(Drop)]
pub(crate) struct ServerPair {
    pub(crate) fetcher: PlainCaller,
    pub(crate) worker: PlainCaller,
}

/// Two of these callers.
pub(crate) fn crew_of(system: &PlainSystem, spares: &mut PlainCallers) -> Result<ServerPair, Fail>
    requires { ArePlainCallers system.now spares.old }
    ensures rest { ArePlainCallers system.now spares.new }
    ensures crew { IfOk result (λ c. AreCrewOf system.now c.fetcher c.worker) }
{
    let fetcher = take_caller(system, spares).ok_or("a fetcher")?;
    let worker = take_caller(system, spares).ok_or("a worker")?;
    Ok(ServerPair { fetcher, worker })
}

// Fetches the next command, or pair; else the number of the refusal, 12 where another caller had the controller.
fn fetched(system: &PlainSystem, fetcher: &mut PlainCaller, queue: u16) -> Result<Work, u8>
    requires { IsPlainCallerOf system.now fetcher.old }
    ensures same { IsPlainCallerOf system.now fetcher.new }
    ensures work { IfOk result (IsFreshWork system.now) }
{
    match open(system, fetcher, Open::Fetch(queue)) {
        Ok(Opened::Fetched(work)) => Ok(work),
        Ok(Opened::Published | Opened::Reaped { .. }) => Err(0),
        Err(Declined::Refused(refused)) => Err(number(refused)),
        Err(Declined::Busy(_)) => Err(12),
    }
}

// The Work goes through the queue; None where it is lost.
fn carried<R: Wait>(rt: &R, system: &PlainSystem, crew: &mut ServerPair, work: Work) -> Option<Work>
    requires crew { AreCrewOf system.now crew.old.fetcher crew.old.worker }
    requires work { IsFreshWork system.now work }
    ensures crew { AreCrewOf system.now crew.new.fetcher crew.new.worker }
    ensures work { IfSome result (IsFreshWork system.now) }
{
    if pushes(rt, system, &mut crew.fetcher, work).is_err() {
        return None;
    }
    pops(rt, system, &mut crew.worker)
}

// One command, or pair, is served, and each of its completions told of; 0, or the number of the Fetch's refusal.
fn serves_one<R: Abort + Wait>(
    rt: &R,
    system: &PlainSystem,
    crew: &mut ServerPair,
    queue: u16,
) -> u8
    requires { AreCrewOf system.now crew.old.fetcher crew.old.worker }
    ensures { AreCrewOf system.now crew.new.fetcher crew.new.worker }
{
    let work = match fetched(system, &mut crew.fetcher, queue) {
        Ok(work) => work,
        Err(why) => return why,
    };
    match carried(rt, system, crew, work) {
        Some(work) => assert!(rt; ends(rt, system, &mut crew.worker, work)),
        None => assert!(rt; false, "a Work is lost"),
    }
    0
}

/// All commands of a submission queue are served, until no entry is left there.
pub(crate) fn crew_serves<R: Abort + Wait>(
    rt: &R,
    system: &PlainSystem,
    crew: &mut ServerPair,
    queue: u16,
)
    requires { AreCrewOf system.now crew.old.fetcher crew.old.worker }
    ensures { AreCrewOf system.now crew.new.fetcher crew.new.worker }
{
    for _ in rt.forever() {
        let why = serves_one(rt, system, crew, queue);
        if why != 0 {
            assert_eq!(rt; why, 3);
            return;
        }
    }
}
