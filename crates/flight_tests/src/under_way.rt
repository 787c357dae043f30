//! A host with its calls in flight, and the Works of a server that aren't begun.

ghost use Rattle.std.specs.Prelude.{All};
ghost use Rattle.work_queue.specs.Engines.{IsPassOfEngine, IsWorkOf};
ghost use Rattle.driver_testing.specs.Hosts.{IsTestHost};
ghost use Rattle.shared_system.specs.Plain.{IsPlainCallerOf};
ghost use Rattle.flight_tests.specs.Flights.{AreInFlight};

use crate::flights::{begins_one, ends_one, no_calls};
use driver_cas::{Call, Fault, SharedPort};
use driver_testing::{AnswerWords, Ask, TestHost, ends, fetches, hears};
use meet_lock::Pass;
use shared_system::{PlainCaller, PlainSystem};
use std::alloc::{AllocError as NoMemory, Global};
use std::sync::Wait;
use step_core::Core;
use work_queue::Work;

/// A host with its calls in flight.
#[derive(Drop)]
pub(crate) struct CallsInFlight<'a> {
    pub(crate) host: TestHost<'a>,
    pub(crate) calls: Vec<Call<SharedPort<'a>>>,
}

/// A host with no call in flight.
pub(crate) fn flight_of<'a>(
    alloc: Global,
    system: &PlainSystem,
    host: TestHost<'a>,
) -> CallsInFlight<'a>
    requires { IsTestHost system.now host }
    ensures { AreInFlight system.now result.host result.calls.items }
{
    // (named by the contract alone)
    let _ = system;
    let calls = no_calls(alloc, &host.driver);
    CallsInFlight { host, calls }
}

/// Begins a call, and puts it behind the others.
///
/// # Errors
///
/// What the driver answers, and `NoMemory` where there is no room for one call more; the others stay.
pub(crate) fn launches(
    system: &PlainSystem,
    flight: &mut CallsInFlight<'_>,
    ask: Ask,
) -> Result<(), Fault>
    requires { AreInFlight system.now flight.old.host flight.old.calls.items }
    ensures { AreInFlight system.now flight.new.host flight.new.calls.items }
{
    // (named by the contract alone)
    let _ = system;
    begins_one(&mut flight.host.driver, &mut flight.calls, ask)
}

/// Polls the call at a place, the first at 0, until it is answered, at most so many times: what it was told, and how
/// often it was polled. It is in flight no longer. None where there is no such call.
pub(crate) fn lands(
    system: &PlainSystem,
    flight: &mut CallsInFlight<'_>,
    place: usize,
    most: u32,
) -> Option<(AnswerWords, u32)>
    requires { AreInFlight system.now flight.old.host flight.old.calls.items }
    ensures { AreInFlight system.now flight.new.host flight.new.calls.items }
{
    // (named by the contract alone)
    let _ = system;
    ends_one(&mut flight.host.driver, &mut flight.calls, place, most)
}

/// Learns all notices that are there; how many.
pub(crate) fn hears_all<R: Wait>(
    rt: &R,
    system: &PlainSystem,
    flight: &mut CallsInFlight<'_>,
) -> u32
    requires { AreInFlight system.now flight.old.host flight.old.calls.items }
    ensures { AreInFlight system.now flight.new.host flight.new.calls.items }
{
    hears(rt, system, &mut flight.host)
}

/// Takes at most one notice; whether it took one.
pub(crate) fn listens<R: Wait>(rt: &R, system: &PlainSystem, flight: &mut CallsInFlight<'_>) -> bool
    requires { AreInFlight system.now flight.old.host flight.old.calls.items }
    ensures { AreInFlight system.now flight.new.host flight.new.calls.items }
{
    let host = &mut flight.host;
    host.driver.listen(rt, &system.notices, &mut host.place)
}

/// Both hosts have seen the whole history so far; false where another caller had the controller.
pub(crate) fn meets(
    system: &PlainSystem,
    one: &mut CallsInFlight<'_>,
    two: &mut CallsInFlight<'_>,
) -> bool
    requires one { AreInFlight system.now one.old.host one.old.calls.items }
    requires two { AreInFlight system.now two.old.host two.old.calls.items }
    ensures one { AreInFlight system.now one.new.host one.new.calls.items }
    ensures two { AreInFlight system.now two.new.host two.new.calls.items }
{
    // (named by the contract alone)
    let _ = system;
    one.host.driver.meet(&mut two.host.driver).is_ok()
}

/// The host and a server have seen the whole history so far; false where another caller had the controller.
pub(crate) fn meets_server(
    system: &PlainSystem,
    one: &mut CallsInFlight<'_>,
    server: &mut PlainCaller,
) -> bool
    requires one { AreInFlight system.now one.old.host one.old.calls.items }
    requires server { IsPlainCallerOf system.now server.old }
    ensures one { AreInFlight system.now one.new.host one.new.calls.items }
    ensures server { IsPlainCallerOf system.now server.new }
{
    // (named by the contract alone)
    let _ = system;
    one.host.driver.meet_pass(&mut server.pass).is_ok()
}

/// The host's pass, given back.
pub(crate) fn pass_of(system: &PlainSystem, flight: CallsInFlight<'_>) -> Pass<Core>
    requires { AreInFlight system.now flight.host flight.calls.items }
    ensures { IsPassOfEngine system.now.engine result }
{
    // (named by the contract alone)
    let _ = system;
    let CallsInFlight { host, calls: _ } = flight;
    host.driver.into_port().into_pass()
}

/// Fetches all commands of a submission queue, and puts their Works behind the others; how many.
///
/// # Errors
///
/// `NoMemory`; a Work that there is no room for is dropped.
pub(crate) fn fetches_all(
    system: &PlainSystem,
    server: &mut PlainCaller,
    queue: u16,
    works: &mut Vec<Work>,
) -> Result<u32, NoMemory>
    requires server { IsPlainCallerOf system.now server.old }
    requires works { All (IsWorkOf system.now.engine) works.old.items }
    ensures server { IsPlainCallerOf system.now server.new }
    ensures works { All (IsWorkOf system.now.engine) works.new.items }
{
    let mut count: u32 = 0;
    for _ in 0..1024 {
        let Some(work) = fetches(system, server, queue) else {
            return Ok(count);
        };
        works.push(work)?;
        count = count.saturating_add(1);
    }
    Ok(count)
}

/// Makes all tasks of the newest Work; whether there was one and none was refused.
pub(crate) fn ends_newest<R: Wait>(
    rt: &R,
    system: &PlainSystem,
    server: &mut PlainCaller,
    works: &mut Vec<Work>,
) -> bool
    requires server { IsPlainCallerOf system.now server.old }
    requires works { All (IsWorkOf system.now.engine) works.old.items }
    ensures server { IsPlainCallerOf system.now server.new }
    ensures works { All (IsWorkOf system.now.engine) works.new.items }
{
    let Some(work) = works.pop() else {
        return false;
    };
    ends(rt, system, server, work)
}
