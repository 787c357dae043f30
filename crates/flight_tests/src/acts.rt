//! What a test has a driver do, in turn.

ghost use Rattle.flight_tests.specs.Flights.{AreCallsOf};

use crate::flights::{begins_one, ends_one, no_calls};
use driver_cas::{Call, Driver, Fault};
use driver_testing::{AnswerWords, Ask, Fake};
use std::alloc::Global;
use std::process::Abort;

#[derive(Clone, Copy)]
pub(crate) enum CallAct {
    /// Begins so many of these calls. Each is begun, and is in flight behind the others.
    Begin(u16, Ask),
    /// Begins a call, which is refused so.
    Refused(Ask, Fault),
    /// Polls the call at this place, the first at 0, so many times at most; it is told this at the last of them. It is
    /// in flight no longer.
    End(usize, u32, AnswerWords),
}

// Does so.
fn acts<R: Abort>(rt: &R, driver: &mut Driver<Fake>, calls: &mut Vec<Call<Fake>>, act: CallAct)
    requires { AreCallsOf driver.old calls.old.items }
    ensures { AreCallsOf driver.new calls.new.items }
{
    match act {
        CallAct::Begin(count, ask) => {
            for _ in 0..count {
                let begun = begins_one(driver, calls, ask);
                assert_eq!(rt; begun, Ok(()));
            }
        }
        CallAct::Refused(ask, fault) => {
            let begun = begins_one(driver, calls, ask);
            let want = Err(fault);
            assert_eq!(rt; begun, want);
        }
        CallAct::End(place, polls, told) => {
            let ended = ends_one(driver, calls, place, polls);
            let want = Some((told, polls));
            assert_eq!(rt; ended, want);
        }
    }
}

/// Does so, from a driver with no calls on.
pub(crate) fn acts_all<R: Abort>(
    rt: &R,
    alloc: Global,
    driver: &mut Driver<Fake>,
    all: &[CallAct],
) {
    let mut calls = no_calls(alloc, driver);
    for act in all {
        acts(rt, driver, &mut calls, *act);
    }
}
