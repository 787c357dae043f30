//! What each call is answered, served before the next.

ghost use Rattle.std.specs.Prelude.{◌≤◌};
ghost use Rattle.driver_testing.specs.Hosts.{IsTestHost};
ghost use Rattle.shared_system.specs.Plain.{IsPlainCallerOf};

use driver_cas::Fault;
use driver_testing::{
    AnswerWords, Ask, Fill, TestHost, answers, desk_of, hears, serves, small_system, starts,
};
use shared_system::{PlainCaller, PlainSystem};
use std::alloc::Global;
use std::process::Abort;
use std::sync::Wait;
use std::test::Fail;

// How a call is answered, once its queue is served.
fn served<R: Wait>(
    rt: &R,
    system: &PlainSystem,
    server: &mut PlainCaller,
    host: &mut TestHost<'_>,
    ask: Ask,
) -> Result<AnswerWords, Fault>
    requires { IsPlainCallerOf system.now server.old × IsTestHost system.now host.old }
    ensures { IsPlainCallerOf system.now server.new × IsTestHost system.now host.new }
{
    let call = starts(host, ask)?;
    serves(rt, system, server, 1);
    hears(rt, system, host);
    Ok(answers(host, call, 2))
}

// That each call is answered so.
fn all_answered<R: Abort + Wait>(
    rt: &R,
    system: &PlainSystem,
    server: &mut PlainCaller,
    host: &mut TestHost<'_>,
    rows: &[(Ask, Result<AnswerWords, Fault>)],
)
    requires { IsPlainCallerOf system.now server.old × IsTestHost system.now host.old }
    ensures { IsPlainCallerOf system.now server.new × IsTestHost system.now host.new }
{
    for row in rows {
        let (ask, want) = *row;
        assert_eq!(rt; served(rt, system, server, host, ask), want, "{ask:?}");
    }
}

// That each call of a host with so many slots is answered so.
fn answers_all<R: Abort + Wait>(
    rt: &R,
    alloc: Global,
    slots: u32,
    rows: &[(Ask, Result<AnswerWords, Fault>)],
) -> Result<(), Fail>
    requires { slots ≤ 65536 }
{
    let Some((system, mut spares)) = small_system(alloc, 4, 2) else {
        return Err(Fail::from("a system"));
    };
    let Some((mut server, mut host)) = desk_of(alloc, &system, &mut spares, slots) else {
        return Err(Fail::from("a host"));
    };
    all_answered(rt, &system, &mut server, &mut host, rows);
    Ok(())
}

#[test]
fn calls_are_answered(rt: HostRuntime) -> Result<(), Fail> {
    let rows = [
        (Ask::Read(2, 0), Err(Fault::Length)),
        (Ask::Write(2, Fill(0xa1, 511)), Err(Fault::Length)),
        (
            Ask::CompareAndWrite(2, Fill(0xa1, 512), Fill(0xb2, 1024)),
            Err(Fault::Length),
        ),
        (Ask::Read(2, 257), Err(Fault::TooLong)),
        (
            Ask::CompareAndWrite(2, Fill(0xa1, 1536), Fill(0xb2, 1536)),
            Err(Fault::TooLong),
        ),
        (Ask::Write(1, Fill(0xa1, 1024)), Err(Fault::SlotArea)),
        (Ask::WriteZeroes(1, 1), Err(Fault::SlotArea)),
        (
            Ask::CompareAndWrite(0, Fill(0xa1, 512), Fill(0xb2, 512)),
            Err(Fault::SlotArea),
        ),
        (Ask::Read(0, 1), Ok(AnswerWords::Read(512, 0))),
        (Ask::Read(8, 1), Ok(AnswerWords::Failed(0, 0x80))),
        (Ask::Write(2, Fill(0xa1, 512)), Ok(AnswerWords::Written)),
        (Ask::Compare(2, Fill(0xa1, 512)), Ok(AnswerWords::Equal)),
        (
            Ask::CompareAndWrite(2, Fill(0xa1, 512), Fill(0xb2, 512)),
            Ok(AnswerWords::Swapped),
        ),
        (Ask::Read(2, 1), Ok(AnswerWords::Read(512, 0xb2))),
        (Ask::Compare(2, Fill(0xa1, 512)), Ok(AnswerWords::Differs)),
        (
            Ask::CompareAndWrite(2, Fill(0xa1, 512), Fill(0xa1, 512)),
            Ok(AnswerWords::Differs),
        ),
        (Ask::Read(2, 1), Ok(AnswerWords::Read(512, 0xb2))),
        (Ask::Compare(0, Fill(0xa1, 1024)), Ok(AnswerWords::Differs)),
        (
            Ask::CompareAndWrite(7, Fill(0xa1, 1024), Fill(0xb2, 1024)),
            Ok(AnswerWords::Failed(0, 0x80)),
        ),
    ];
    answers_all(&rt, rt.alloc(), 2, &rows)
}

#[test]
fn zeros_are_written(rt: HostRuntime) -> Result<(), Fail> {
    let rows = [
        (Ask::Write(0, Fill(0xa1, 1024)), Ok(AnswerWords::Written)),
        (Ask::Read(0, 2), Ok(AnswerWords::Read(1024, 0xa1))),
        (Ask::WriteZeroes(1, 1), Ok(AnswerWords::Written)),
        (Ask::Read(1, 1), Ok(AnswerWords::Read(512, 0))),
        (Ask::Read(0, 1), Ok(AnswerWords::Read(512, 0xa1))),
        (Ask::WriteZeroes(7, 2), Ok(AnswerWords::Failed(0, 0x80))),
        (Ask::WriteZeroes(2, 1), Ok(AnswerWords::Written)),
        (Ask::WriteZeroes(2, 0), Err(Fault::Length)),
        (Ask::WriteZeroes(2, 257), Err(Fault::TooLong)),
    ];
    answers_all(&rt, rt.alloc(), 0, &rows)
}
