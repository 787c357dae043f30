//! 64 calls in flight on each of two submission queues of one completion queue, answered in reverse order.

ghost use Rattle.std.specs.Prelude.{◌≡◌, IfOk};
ghost use Rattle.history.specs.Config.{config_numbers};
ghost use Rattle.shared_system.specs.Plain.{ArePlainCallers, IsPlainCallerOf};
ghost use Rattle.flight_tests.specs.Flights.{AreInFlight};

use crate::callers::{on_both, server_of};
use crate::under_way::{CallsInFlight, ends_newest, fetches_all, hears_all, lands, launches};
use driver_cas::Fault;
use driver_testing::{AnswerWords, Ask, Fill};
use history::Config;
use shared_system::{PlainCaller, PlainCallers, PlainSystem, plain_system_of};
use std::alloc::{AllocError as NoMemory, Global};
use std::process::Abort;
use std::sync::Wait;
use std::test::Fail;

// How many there are. That of number n, from 1, is of block n - 1 alone.
const CALLS: u8 = 128;

/// What each call asks for.
#[derive(Clone, Copy, Debug)]
enum CallKind {
    /// To write its number.
    Writes,
    Reads,
    /// Whether there is its number or, where that is even, the next.
    Compares,
}

fn ask_of(kind: CallKind, number: u8) -> Ask {
    let slba = u64::from(number.saturating_sub(1));
    match kind {
        CallKind::Writes => Ask::Write(slba, Fill(number, 512)),
        CallKind::Reads => Ask::Read(slba, 1),
        CallKind::Compares => Ask::Compare(slba, Fill(number | 1, 512)),
    }
}

// What it is told where each number is written.
fn told_of(kind: CallKind, number: u8) -> AnswerWords {
    match kind {
        CallKind::Writes => AnswerWords::Written,
        CallKind::Reads => AnswerWords::Read(512, number),
        CallKind::Compares if number % 2 == 1 => AnswerWords::Equal,
        CallKind::Compares => AnswerWords::Differs,
    }
}

// A system of `config2 128 1 1 0 0 2 65 129 128 1`.
fn wide(alloc: Global) -> Result<(PlainSystem, PlainCallers), Fail>
    ensures own { IfOk result (λ b. ArePlainCallers b.0 b.1) }
    ensures config { IfOk result (λ b. b.0.config ≡ config_numbers 128 1 1 0 0 2 65 129 128 1) }
{
    let Ok(config) = Config::with_cqs(128, 1, 1, 0, 0, 2, 65, 129, 128, 1) else {
        return Err(Fail::from("the configuration is refused"));
    };
    Ok(plain_system_of(alloc, config, 128, 2)?)
}

// Begins all calls, and one too many.
fn all_begun<R: Abort>(rt: &R, system: &PlainSystem, flight: &mut CallsInFlight<'_>, kind: CallKind)
    requires { AreInFlight system.now flight.old.host flight.old.calls.items }
    ensures { AreInFlight system.now flight.new.host flight.new.calls.items }
{
    for number in 1..=CALLS {
        let begun = launches(system, flight, ask_of(kind, number));
        assert_eq!(rt; begun, Ok(()), "{number}");
    }
    let begun = launches(system, flight, ask_of(kind, 1));
    assert_eq!(rt; begun, Err(Fault::RingFull));
}

// 64 are fetched from each submission queue, and served from the newest to the oldest.
fn all_ended<R: Abort + Wait>(
    rt: &R,
    alloc: Global,
    system: &PlainSystem,
    server: &mut PlainCaller,
) -> Result<(), NoMemory>
    requires { IsPlainCallerOf system.now server.old }
    ensures { IsPlainCallerOf system.now server.new }
{
    let mut works = Vec::new(alloc);
    for queue in 1..3 {
        assert_eq!(rt; fetches_all(system, server, queue, &mut works)?, 64);
    }
    for _ in 0..CALLS {
        assert!(rt; ends_newest(rt, system, server, &mut works));
    }
    Ok(())
}

// Both, and the host learns of all.
fn all_served<R: Abort + Wait>(
    rt: &R,
    alloc: Global,
    system: &PlainSystem,
    server: &mut PlainCaller,
    flight: &mut CallsInFlight<'_>,
    kind: CallKind,
) -> Result<(), NoMemory>
    requires { IsPlainCallerOf system.now server.old × AreInFlight system.now flight.old.host flight.old.calls.items }
    ensures { IsPlainCallerOf system.now server.new × AreInFlight system.now flight.new.host flight.new.calls.items }
{
    all_begun(rt, system, flight, kind);
    all_ended(rt, alloc, system, server)?;
    assert_eq!(rt; hears_all(rt, system, flight), u32::from(CALLS));
    Ok(())
}

// Each is answered by its first poll, from the newest to the oldest, which is the order of their completions.
fn newest_first<R: Abort>(
    rt: &R,
    system: &PlainSystem,
    flight: &mut CallsInFlight<'_>,
    kind: CallKind,
)
    requires { AreInFlight system.now flight.old.host flight.old.calls.items }
    ensures { AreInFlight system.now flight.new.host flight.new.calls.items }
{
    for number in (1..=CALLS).rev() {
        let want = Some((told_of(kind, number), 1));
        assert_eq!(rt;
            lands(system, flight, usize::from(number) - 1, 1),
            want,
            "{kind:?} {number}"
        );
    }
}

// The oldest is answered by its poll that reaps the last completion, and each other then by its first.
fn oldest_first<R: Abort>(
    rt: &R,
    system: &PlainSystem,
    flight: &mut CallsInFlight<'_>,
    kind: CallKind,
)
    requires { AreInFlight system.now flight.old.host flight.old.calls.items }
    ensures { AreInFlight system.now flight.new.host flight.new.calls.items }
{
    for number in 1..=CALLS {
        let polls = if number == 1 { u32::from(CALLS) } else { 1 };
        let want = Some((told_of(kind, number), polls));
        assert_eq!(rt; lands(system, flight, 0, polls), want, "{kind:?} {number}");
    }
}

// So for each kind of call.
fn all_kinds<R: Abort + Wait>(
    rt: &R,
    alloc: Global,
    system: &PlainSystem,
    server: &mut PlainCaller,
    flight: &mut CallsInFlight<'_>,
) -> Result<(), Fail>
    requires { IsPlainCallerOf system.now server.old × AreInFlight system.now flight.old.host flight.old.calls.items }
{
    for kind in [CallKind::Writes, CallKind::Reads, CallKind::Compares] {
        all_served(rt, alloc, system, server, flight, kind)?;
        newest_first(rt, system, flight, kind);
        all_served(rt, alloc, system, server, flight, kind)?;
        oldest_first(rt, system, flight, kind);
    }
    Ok(())
}

// That by a server and host 1.
fn both_do<R: Abort + Wait>(
    rt: &R,
    alloc: Global,
    system: &PlainSystem,
    spares: &mut PlainCallers,
) -> Result<(), Fail>
    requires own { ArePlainCallers system.now spares.old }
    requires config { system.now.config ≡ config_numbers 128 1 1 0 0 2 65 129 128 1 }
{
    let mut server = server_of(system, spares)?;
    let mut flight = on_both(alloc, system, spares)?;
    all_kinds(rt, alloc, system, &mut server, &mut flight)
}

#[test]
fn each_is_answered_by_its_own(rt: HostRuntime) -> Result<(), Fail> {
    let (system, mut spares) = wide(rt.alloc())?;
    both_do(&rt, rt.alloc(), &system, &mut spares)
}
