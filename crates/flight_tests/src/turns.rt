//! What a test has a host and a server do, in turn.

ghost use Rattle.shared_system.specs.Plain.{IsPlainCallerOf};
ghost use Rattle.flight_tests.specs.Flights.{AreInFlight};

use crate::under_way::{CallsInFlight, lands, launches, listens};
use driver_cas::Fault;
use driver_testing::{AnswerWords, Ask, serves};
use shared_system::{PlainCaller, PlainSystem};
use std::process::Abort;
use std::sync::Wait;

#[derive(Clone, Copy)]
pub(crate) enum BenchTurn {
    /// The host begins a call. It is in flight behind the others.
    Begin(Ask),
    /// The host begins a call, which is refused so.
    Refused(Ask, Fault),
    /// The server serves all commands of this submission queue.
    Serve(u16),
    /// The host listens; whether it took a notice.
    Listen(bool),
    /// The host polls the call at this place, the first at 0, so many times at most; it is told this at the last of
    /// them. It is in flight no longer.
    End(usize, u32, AnswerWords),
}

/// Makes it.
pub(crate) fn turns<R: Abort + Wait>(
    rt: &R,
    system: &PlainSystem,
    server: &mut PlainCaller,
    flight: &mut CallsInFlight<'_>,
    turn: BenchTurn,
)
    requires { IsPlainCallerOf system.now server.old × AreInFlight system.now flight.old.host flight.old.calls.items }
    ensures { IsPlainCallerOf system.now server.new × AreInFlight system.now flight.new.host flight.new.calls.items }
{
    match turn {
        BenchTurn::Begin(ask) => {
            let begun = launches(system, flight, ask);
            assert_eq!(rt; begun, Ok(()));
        }
        BenchTurn::Refused(ask, fault) => {
            let begun = launches(system, flight, ask);
            let want = Err(fault);
            assert_eq!(rt; begun, want);
        }
        BenchTurn::Serve(queue) => assert!(rt; serves(rt, system, server, queue)),
        BenchTurn::Listen(took) => {
            let heard = listens(rt, system, flight);
            assert_eq!(rt; heard, took);
        }
        BenchTurn::End(place, polls, told) => {
            let ended = lands(system, flight, place, polls);
            let want = Some((told, polls));
            assert_eq!(rt; ended, want);
        }
    }
}

/// Makes them all.
pub(crate) fn turns_all<R: Abort + Wait>(
    rt: &R,
    system: &PlainSystem,
    server: &mut PlainCaller,
    flight: &mut CallsInFlight<'_>,
    all: &[BenchTurn],
)
    requires { IsPlainCallerOf system.now server.old × AreInFlight system.now flight.old.host flight.old.calls.items }
    ensures { IsPlainCallerOf system.now server.new × AreInFlight system.now flight.new.host flight.new.calls.items }
{
    for turn in all {
        turns(rt, system, server, flight, *turn);
    }
}
