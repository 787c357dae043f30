//! What hosts learn of others: by meeting them, and by notices.

ghost use Rattle.std.specs.Prelude.{◌≡◌, ◌≤◌, IfOk, true};
ghost use Rattle.history.specs.Config.{config_numbers};
ghost use Rattle.driver_testing.specs.Hosts.{uses};
ghost use Rattle.shared_system.specs.Plain.{ArePlainCallers, IsPlainCallerOf};
ghost use Rattle.flight_tests.specs.Flights.{AreInFlight};

use crate::callers::{on_own, server_of};
use crate::full::core_after;
use crate::turns::{BenchTurn, turns};
use crate::under_way::{CallsInFlight, meets, meets_server};
use driver_testing::{AnswerWords, Ask, Fill, small_system};
use history::Config;
use history_check::check;
use lock_testing::text;
use shared_system::{PlainCaller, PlainCallers, PlainSystem, plain_system_of};
use std::alloc::{AllocError as NoMemory, Global};
use std::process::Abort;
use std::sync::Wait;
use std::test::Fail;
use step_core::Core;

const READ: Ask = Ask::Read(2, 1);

const ZEROS: AnswerWords = AnswerWords::Read(512, 0);

/// What one of two hosts does with a server, or both.
#[derive(Clone, Copy)]
enum Deed {
    One(BenchTurn),
    Two(BenchTurn),
    /// They meet, and neither is Busy.
    Meet,
    /// The first meets the server, and neither is Busy.
    MeetServer,
}

// Does so.
fn does<R: Abort + Wait>(
    rt: &R,
    system: &PlainSystem,
    server: &mut PlainCaller,
    one: &mut CallsInFlight<'_>,
    two: &mut CallsInFlight<'_>,
    deed: Deed,
)
    requires server { IsPlainCallerOf system.now server.old }
    requires one { AreInFlight system.now one.old.host one.old.calls.items }
    requires two { AreInFlight system.now two.old.host two.old.calls.items }
    ensures server { IsPlainCallerOf system.now server.new }
    ensures one { AreInFlight system.now one.new.host one.new.calls.items }
    ensures two { AreInFlight system.now two.new.host two.new.calls.items }
{
    match deed {
        Deed::One(turn) => turns(rt, system, server, one, turn),
        Deed::Two(turn) => turns(rt, system, server, two, turn),
        Deed::Meet => assert!(rt; meets(system, one, two)),
        Deed::MeetServer => assert!(rt; meets_server(system, one, server)),
    }
}

// Does them all.
fn does_all<R: Abort + Wait>(
    rt: &R,
    system: &PlainSystem,
    server: &mut PlainCaller,
    one: &mut CallsInFlight<'_>,
    two: &mut CallsInFlight<'_>,
    all: &[Deed],
)
    requires server { IsPlainCallerOf system.now server.old }
    requires one { AreInFlight system.now one.old.host one.old.calls.items }
    requires two { AreInFlight system.now two.old.host two.old.calls.items }
    ensures server { IsPlainCallerOf system.now server.new }
    ensures one { AreInFlight system.now one.new.host one.new.calls.items }
    ensures two { AreInFlight system.now two.new.host two.new.calls.items }
{
    for deed in all {
        does(rt, system, server, one, two, *deed);
    }
}

// So with these two hosts, each on the queues of its own number.
fn both_do<R: Abort + Wait>(
    rt: &R,
    alloc: Global,
    system: &PlainSystem,
    spares: &mut PlainCallers,
    hosts: (u16, u16),
    all: &[Deed],
) -> Result<(), Fail>
    requires own { ArePlainCallers system.now spares.old }
    requires one { (1 ≤ hosts.0) × (hosts.0 ≤ system.now.config.cqs) × (uses system.now.config hosts.0 hosts.0 ≡ true) }
    requires two { (1 ≤ hosts.1) × (hosts.1 ≤ system.now.config.cqs) × (uses system.now.config hosts.1 hosts.1 ≡ true) }
{
    let mut server = server_of(system, spares)?;
    let mut one = on_own(alloc, system, server_of(system, spares)?, hosts.0)?;
    let mut two = on_own(alloc, system, server_of(system, spares)?, hosts.1)?;
    does_all(rt, system, &mut server, &mut one, &mut two, all);
    Ok(())
}

// Hosts 1 and 2, on a system of their own.
fn hosts_do<R: Abort + Wait>(rt: &R, alloc: Global, all: &[Deed]) -> Result<(), Fail> {
    let (system, mut spares) = small_system(alloc, 4, 3).ok_or("memory")?;
    both_do(rt, alloc, &system, &mut spares, (1, 2), all)
}

// A system of `config 8 1 1 0 0 4 4 4 8`.
fn of_four(alloc: Global) -> Result<(PlainSystem, PlainCallers), Fail>
    ensures own { IfOk result (λ b. ArePlainCallers b.0 b.1) }
    ensures config { IfOk result (λ b. b.0.config ≡ config_numbers 8 1 1 0 0 4 4 4 8 4) }
{
    let Ok(config) = Config::new(8, 1, 1, 0, 0, 4, 4, 4, 8) else {
        return Err(Fail::from("the configuration is refused"));
    };
    Ok(plain_system_of(alloc, config, 4, 3)?)
}

// Hosts 3 and 4, whose ports are those of completion queues 3 and 4.
fn last_hosts_do<R: Abort + Wait>(rt: &R, alloc: Global, all: &[Deed]) -> Result<(), Fail> {
    let (system, mut spares) = of_four(alloc)?;
    both_do(rt, alloc, &system, &mut spares, (3, 4), all)
}

// Host a writes, host b reads what it wrote, and they meet between all that.
fn round(byte: u8, a: u16, b: u16) -> [Deed; 13] {
    [
        Deed::One(BenchTurn::Begin(Ask::Write(2, Fill(byte, 512)))),
        Deed::Meet,
        Deed::One(BenchTurn::Serve(a)),
        Deed::One(BenchTurn::Listen(true)),
        Deed::One(BenchTurn::End(0, 1, AnswerWords::Written)),
        Deed::Meet,
        Deed::MeetServer,
        Deed::Two(BenchTurn::Begin(READ)),
        Deed::Two(BenchTurn::Serve(b)),
        Deed::Two(BenchTurn::Listen(true)),
        Deed::Two(BenchTurn::End(0, 1, AnswerWords::Read(512, byte))),
        Deed::Meet,
        Deed::Meet,
    ]
}

// Eight such rounds.
fn rounds(alloc: Global, a: u16, b: u16) -> Result<Vec<Deed>, NoMemory> {
    let mut all = Vec::new(alloc);
    for byte in 1..9 {
        for deed in round(byte, a, b) {
            all.push(deed)?;
        }
    }
    Ok(all)
}

#[test]
fn hosts_that_work_meet(rt: HostRuntime) -> Result<(), Fail> {
    let all = rounds(rt.alloc(), 1, 2)?;
    hosts_do(&rt, rt.alloc(), all.as_slice())
}

// The ports of completion queues 3 and 4 meet as those of 1 and 2 do.
#[test]
fn hosts_of_later_queues_meet(rt: HostRuntime) -> Result<(), Fail> {
    let all = rounds(rt.alloc(), 3, 4)?;
    last_hosts_do(&rt, rt.alloc(), all.as_slice())
}

// An empty queue tells of no completion, so that none is reaped, though one is posted; and meeting doesn't either.
#[test]
fn only_notices_are_counted(rt: HostRuntime) -> Result<(), Fail> {
    let all = [
        Deed::One(BenchTurn::Begin(READ)),
        Deed::One(BenchTurn::Begin(READ)),
        Deed::One(BenchTurn::Listen(false)),
        Deed::One(BenchTurn::Serve(1)),
        Deed::Meet,
        Deed::One(BenchTurn::End(0, 1, AnswerWords::Pending)),
        Deed::One(BenchTurn::Listen(true)),
        Deed::One(BenchTurn::Listen(true)),
        Deed::One(BenchTurn::Listen(false)),
        Deed::One(BenchTurn::End(0, 2, ZEROS)),
        Deed::One(BenchTurn::Begin(READ)),
        Deed::One(BenchTurn::End(0, 1, AnswerWords::Pending)),
    ];
    hosts_do(&rt, rt.alloc(), &all)
}

// The notices of the other completion queue come first.
#[test]
fn a_notice_of_another_queue_is_not_counted(rt: HostRuntime) -> Result<(), Fail> {
    let all = [
        Deed::Two(BenchTurn::Begin(READ)),
        Deed::Two(BenchTurn::Serve(2)),
        Deed::One(BenchTurn::Begin(READ)),
        Deed::One(BenchTurn::Begin(READ)),
        Deed::One(BenchTurn::Serve(1)),
        Deed::One(BenchTurn::Listen(true)),
        Deed::One(BenchTurn::End(0, 1, AnswerWords::Pending)),
        Deed::One(BenchTurn::Listen(true)),
        Deed::One(BenchTurn::Listen(true)),
        Deed::One(BenchTurn::Listen(false)),
        Deed::One(BenchTurn::End(0, 2, ZEROS)),
        Deed::Two(BenchTurn::End(0, 1, AnswerWords::Pending)),
    ];
    hosts_do(&rt, rt.alloc(), &all)
}

// The lines of a Write of A1 to block 2 under CID 0.
const LINES: &[u8] =
    b"publish 1 01000000010000000000000000000000000000000000000000000000000000000000000000000000020000000000000000000000000000000000000000000000 A1
fetch 1 1 1 ok
grant 1 0 2 1 w
block 1 0 2 written *
post 1 00000000000000000100010000000100 -
reap 1 00000000000000000100010000000100
";

// That the history of a controller is these lines, and legal.
fn is_written<R: Abort>(rt: &R, alloc: Global, core: &Core) -> Result<(), Fail> {
    let entries = core.history().as_slice();
    assert!(rt; check(alloc, &core.config(), entries).is_ok());
    assert!(rt; text(alloc, entries)?.as_slice() == LINES);
    Ok(())
}

#[test]
fn the_pass_comes_back(rt: HostRuntime) -> Result<(), Fail> {
    let turns = [
        BenchTurn::Begin(Ask::Write(2, Fill(0xa1, 512))),
        BenchTurn::Serve(1),
        BenchTurn::Listen(true),
        BenchTurn::End(0, 1, AnswerWords::Written),
    ];
    let core = core_after(&rt, rt.alloc(), 4, &turns)?;
    is_written(&rt, rt.alloc(), &core)
}
