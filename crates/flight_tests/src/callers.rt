//! Hosts on the completion queues of a system.

ghost use Rattle.std.specs.Prelude.{◌≡◌, ◌≤◌, IfOk, IfSome, true};
ghost use Rattle.driver_testing.specs.Hosts.{IsTestHost, uses};
ghost use Rattle.shared_system.specs.Plain.{ArePlainCallers, IsPlainCallerOf};
ghost use Rattle.flight_tests.specs.Flights.{AreInFlight};

use crate::under_way::{CallsInFlight, flight_of};
use driver_testing::{TestHost, host_of};
use nvme_model::array::Range;
use shared_system::{PlainCaller, PlainCallers, PlainSystem, take_caller};
use std::alloc::Global;
use std::test::Fail;

const NO_SLOTS: Range = Range { slba: 0, blocks: 0 };

/// A server, or what is to be a host.
pub(crate) fn server_of(
    system: &PlainSystem,
    spares: &mut PlainCallers,
) -> Result<PlainCaller, Fail>
    requires { ArePlainCallers system.now spares.old }
    ensures rest { ArePlainCallers system.now spares.new }
    ensures server { IfOk result (IsPlainCallerOf system.now) }
{
    match take_caller(system, spares) {
        Some(server) => Ok(server),
        None => Err(Fail::from("a server")),
    }
}

// With no call in flight, where it was made.
fn flying<'a>(
    alloc: Global,
    system: &'a PlainSystem,
    made: Option<TestHost<'a>>,
) -> Result<CallsInFlight<'a>, Fail>
    requires { IfSome made (IsTestHost system.now) }
    ensures { IfOk result (λ f. AreInFlight system.entry.now f.host f.calls.items) }
{
    match made {
        Some(host) => Ok(flight_of(alloc, system, host)),
        None => Err(Fail::from("a host")),
    }
}

/// Host 1, on submission queues 1 and 2, which use completion queue 1.
pub(crate) fn on_both<'a>(
    alloc: Global,
    system: &'a PlainSystem,
    spares: &mut PlainCallers,
) -> Result<CallsInFlight<'a>, Fail>
    requires own { ArePlainCallers system.now spares.old }
    requires some { 1 ≤ system.now.config.cqs }
    requires one { uses system.now.config 1 1 ≡ true }
    requires two { uses system.now.config 1 2 ≡ true }
    ensures { IfOk result (λ f. AreInFlight system.entry.now f.host f.calls.items) }
{
    let queues = [1, 2].to_vec(alloc)?;
    let caller = server_of(system, spares)?;
    flying(
        alloc,
        system,
        host_of(alloc, system, caller, 1, NO_SLOTS, 1, queues),
    )
}

/// Host h, on submission queue h, which uses completion queue h.
pub(crate) fn on_own<'a>(
    alloc: Global,
    system: &'a PlainSystem,
    caller: PlainCaller,
    h: u16,
) -> Result<CallsInFlight<'a>, Fail>
    requires caller { IsPlainCallerOf system.now caller }
    requires there { (1 ≤ h) × (h ≤ system.now.config.cqs) }
    requires own { uses system.now.config h h ≡ true }
    ensures { IfOk result (λ f. AreInFlight system.entry.now f.host f.calls.items) }
{
    let queues = [h].to_vec(alloc)?;
    flying(
        alloc,
        system,
        host_of(alloc, system, caller, u32::from(h), NO_SLOTS, h, queues),
    )
}
