//! The calls of one driver that are in flight.

ghost use Rattle.std.specs.Prelude.{◌≡◌, ◌∷◌, MatchOption};
ghost use Rattle.driver_cas.specs.Drivers.{IsCallOf, port_of};
ghost use Rattle.flight_tests.specs.Flights.{AreCallsOf};

use driver_cas::{Call, Driver, Fault, Port};
use driver_testing::{AnswerWords, Ask, begins, polled};
use std::alloc::Global;

/// No calls.
pub(crate) fn no_calls<P: Port>(alloc: Global, driver: &Driver<P>) -> Vec<Call<P>>
    ensures { AreCallsOf driver.now result.items }
{
    // (named by the contract alone)
    let _ = driver;
    Vec::new(alloc)
}

/// Begins a call, and puts it behind the others.
///
/// # Errors
///
/// What the driver answers, and `NoMemory` where there is no room for one call more; the others stay.
pub(crate) fn begins_one<P: Port>(
    driver: &mut Driver<P>,
    calls: &mut Vec<Call<P>>,
    ask: Ask,
) -> Result<(), Fault>
    requires { AreCallsOf driver.old calls.old.items }
    ensures later { P.follows (port_of driver.old) (port_of driver.new) }
    ensures calls { AreCallsOf driver.new calls.new.items }
{
    if let Err(_) = calls.reserve(1) {
        return Err(Fault::NoMemory);
    }
    let call = begins(driver, ask)?;
    calls.push_reserved(call);
    Ok(())
}

// Takes the call at a place, the first at 0, out of the list.
fn takes<P: Port>(driver: &Driver<P>, calls: &mut Vec<Call<P>>, place: usize) -> Option<Call<P>>
    requires { AreCallsOf driver.now calls.old.items }
    ensures { MatchOption result (calls.new ≡ calls.old) (λ k. AreCallsOf driver.now (k ∷ calls.new.items)) }
{
    // (named by the contract alone)
    let _ = driver;
    if place < calls.len() {
        Some(calls.remove(place))
    } else {
        None
    }
}

/// Polls the call at a place, the first at 0, until it is answered, at most so many times: what it was told, and how
/// often it was polled. It is in flight no longer, and one that wasn't answered keeps its CIDs. None where there
/// is no such call.
pub(crate) fn ends_one<P: Port>(
    driver: &mut Driver<P>,
    calls: &mut Vec<Call<P>>,
    place: usize,
    most: u32,
) -> Option<(AnswerWords, u32)>
    requires { AreCallsOf driver.old calls.old.items }
    ensures later { P.follows (port_of driver.old) (port_of driver.new) }
    ensures calls { AreCallsOf driver.new calls.new.items }
{
    let mut next = takes(driver, calls, place)?;
    for k in 0..most {
        let (told, back) = polled(driver, next);
        let Some(call) = back else {
            return Some((told, k + 1));
        };
        next = call;
    }
    Some((AnswerWords::Pending, most))
}
