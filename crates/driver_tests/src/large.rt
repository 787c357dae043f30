//! Calls of 256 blocks, the most there are, in one unit and in 256.

ghost use Rattle.std.specs.Prelude.{◌≡◌, ◌≤◌, IfOk, true};
ghost use Rattle.history.specs.Config.{config_numbers};
ghost use Rattle.driver_cas.specs.Drivers.{IsCallOf, IsSameDriver, port_of};
ghost use Rattle.driver_testing.specs.Hosts.{IsTestHost, uses};
ghost use Rattle.shared_system.specs.Plain.{ArePlainCallers, IsPlainCallerOf};
ghost use Rattle.driver_testing.specs.Calls.{IsCallAsked};

use driver_cas::laws::a_start_keeps_the_other_calls;
use driver_cas::{Call, Driver, Fault, Port, SharedPort};
use driver_testing::{AnswerWords, Ask, Fill, TestHost, answers, asked, desk_of, hears, serves};
use history::Config;
use shared_system::{PlainCaller, PlainCallers, PlainSystem, plain_system_of};
use std::alloc::Global;
use std::process::Abort;
use std::snapshot::Snapshot;
use std::sync::Wait;
use std::test::Fail;

// The bytes of 256 blocks, and of 255.
const ALL: usize = 131072;

const ALL_BUT_ONE: usize = 130560;

/// A call of 256 blocks from block 0 on, each of whose bytes is this one; or any other call.
#[derive(Clone, Copy, Debug)]
enum Whole {
    Other(Ask),
    Write(u8),
    Compare(u8),
    /// A Compare and Write: from the first to the second.
    Swap(u8, u8),
}

// A system of `config 256 AWUN 255 0 0 2 4 4 8`.
fn large(alloc: Global, awun: u16) -> Result<(PlainSystem, PlainCallers), Fail>
    ensures own { IfOk result (λ b. ArePlainCallers b.0 b.1) }
    ensures config { IfOk result (λ b. b.0.config ≡ config_numbers 256 awun 255 0 0 2 4 4 8 2) }
{
    let Ok(config) = Config::new(256, awun, 255, 0, 0, 2, 4, 4, 8) else {
        return Err(Fail::from("the configuration is refused"));
    };
    Ok(plain_system_of(alloc, config, 4, 2)?)
}

// 256 blocks whose bytes are all this one. No contract says so: what they hold is for the controller to answer by.
fn filled(byte: u8) -> [u8; ALL] {
    [byte; ALL]
}

// Begins a call of a driver.
fn whole_asked<P: Port>(driver: &mut Driver<P>, whole: Whole) -> Result<Call<P>, Fault>
    ensures same { IsSameDriver driver.old driver.new }
    ensures later { P.follows (port_of driver.old) (port_of driver.new) }
    ensures asked { IsCallAsked driver.old driver.new result }
{
    match whole {
        Whole::Other(ask) => asked(driver, ask),
        Whole::Write(byte) => driver.start_write(0, &filled(byte)),
        Whole::Compare(byte) => driver.start_compare(0, &filled(byte)),
        Whole::Swap(old, new) => driver.start_compare_and_write(0, &filled(old), &filled(new)),
    }
}

// Begins a call of the host.
fn begins_whole<'a>(
    system: &PlainSystem,
    host: &mut TestHost<'a>,
    whole: Whole,
) -> Result<Call<SharedPort<'a>>, Fault>
    requires { IsTestHost system.now host.old }
    ensures same { IsTestHost system.now host.new }
    ensures call { IfOk result (IsCallOf host.new.driver) }
{
    // (named by the contract alone)
    let _ = system;
    let before = Snapshot::of(&host.driver);
    let begun = whole_asked(&mut host.driver, whole);
    a_start_keeps_the_other_calls(&before, &host.driver);
    begun
}

// How a call is answered, once its queue is served.
fn served<R: Wait>(
    rt: &R,
    system: &PlainSystem,
    server: &mut PlainCaller,
    host: &mut TestHost<'_>,
    whole: Whole,
) -> Result<AnswerWords, Fault>
    requires { IsPlainCallerOf system.now server.old × IsTestHost system.now host.old }
    ensures { IsPlainCallerOf system.now server.new × IsTestHost system.now host.new }
{
    let call = begins_whole(system, host, whole)?;
    serves(rt, system, server, 1);
    hears(rt, system, host);
    Ok(answers(host, call, 2))
}

// That each call is answered so.
fn all_served<R: Abort + Wait>(
    rt: &R,
    system: &PlainSystem,
    server: &mut PlainCaller,
    host: &mut TestHost<'_>,
    rows: &[(Whole, AnswerWords)],
)
    requires { IsPlainCallerOf system.now server.old × IsTestHost system.now host.old }
    ensures { IsPlainCallerOf system.now server.new × IsTestHost system.now host.new }
{
    for row in rows {
        let (whole, told) = *row;
        let want = Ok(told);
        assert_eq!(rt; served(rt, system, server, host, whole), want, "{whole:?}");
    }
}

// So by a server and a host of this system.
fn answered_on<R: Abort + Wait>(
    rt: &R,
    alloc: Global,
    system: &PlainSystem,
    spares: &mut PlainCallers,
    rows: &[(Whole, AnswerWords)],
) -> Result<(), Fail>
    requires own { ArePlainCallers system.now spares.old }
    requires queue { (uses system.now.config 1 1 ≡ true) × (1 ≤ system.now.config.cqs) }
{
    let Some((mut server, mut host)) = desk_of(alloc, system, spares, 0) else {
        return Err(Fail::from("a host"));
    };
    all_served(rt, system, &mut server, &mut host, rows);
    Ok(())
}

// So on a system of its own, whose units have at most `awun` and one blocks.
fn answers_all<R: Abort + Wait>(
    rt: &R,
    alloc: Global,
    awun: u16,
    rows: &[(Whole, AnswerWords)],
) -> Result<(), Fail> {
    let (system, mut spares) = large(alloc, awun)?;
    answered_on(rt, alloc, &system, &mut spares, rows)
}

// Each kind of call, equal, differing in each block, and differing in the last alone.
fn kinds() -> [(Whole, AnswerWords); 17] {
    let reads = Whole::Other(Ask::Read(0, 256));
    [
        (reads, AnswerWords::Read(ALL, 0)),
        (Whole::Write(0xa1), AnswerWords::Written),
        (reads, AnswerWords::Read(ALL, 0xa1)),
        (Whole::Compare(0xa1), AnswerWords::Equal),
        (Whole::Compare(0xb2), AnswerWords::Differs),
        (Whole::Swap(0xa1, 0xb2), AnswerWords::Swapped),
        (reads, AnswerWords::Read(ALL, 0xb2)),
        (Whole::Swap(0xa1, 0xc3), AnswerWords::Differs),
        (
            Whole::Other(Ask::Write(255, Fill(0xc3, 512))),
            AnswerWords::Written,
        ),
        (Whole::Compare(0xb2), AnswerWords::Differs),
        (Whole::Swap(0xb2, 0xd4), AnswerWords::Differs),
        (reads, AnswerWords::Mixed),
        (
            Whole::Other(Ask::Read(0, 255)),
            AnswerWords::Read(ALL_BUT_ONE, 0xb2),
        ),
        (
            Whole::Other(Ask::Read(255, 1)),
            AnswerWords::Read(512, 0xc3),
        ),
        (Whole::Other(Ask::WriteZeroes(0, 256)), AnswerWords::Written),
        (Whole::Compare(0), AnswerWords::Equal),
        (reads, AnswerWords::Read(ALL, 0)),
    ]
}

#[test]
fn calls_of_256_blocks_are_answered(rt: HostRuntime) -> Result<(), Fail> {
    let rows = kinds();
    answers_all(&rt, rt.alloc(), 255, &rows)?;
    answers_all(&rt, rt.alloc(), 0, &rows)
}
