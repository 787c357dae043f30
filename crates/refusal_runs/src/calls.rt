//! The calls of a driver, each served before the next, and asked for again after want of memory.

ghost use Rattle.std.specs.Prelude.{◌≡◌, IfSome};
ghost use Rattle.driver_cas.specs.Drivers.{IsCallOf};
ghost use Rattle.history.specs.Config.{config_numbers};
ghost use Rattle.work_queue.specs.Engines.{IsWorkOf};
ghost use Rattle.driver_testing.specs.Hosts.{IsTestHost};
ghost use Rattle.shared_system.specs.Plain.{ArePlainCallers, IsPlainCallerOf};

use crate::runs::TURNS;
use driver_cas::{Call, Fault, SharedPort};
use driver_testing::{
    AnswerWords, Ask, Fill, TestHost, fetches, hears, host_of, makes, polls, starts,
};
use nvme_model::array::Range;
use shared_system::{PlainCaller, PlainCallers, PlainSystem, take_caller};
use std::alloc::Global;
use std::sync::Wait;
use work_queue::Work;

/// How often a host is asked for.
const HOSTS: u32 = 7;

/// How often a Fetch is asked for, where one command waits at most.
const FETCHES: u32 = 3;

const SLOTS: Range = Range { slba: 0, blocks: 1 };

const A1: Fill = Fill(0xa1, 512);

const B2: Fill = Fill(0xb2, 512);

/// Calls, and what each is told.
const CALLS: [(Ask, AnswerWords); 10] = [
    (Ask::Write(2, A1), AnswerWords::Written),
    (Ask::Read(2, 1), AnswerWords::Read(512, 0xa1)),
    (Ask::Compare(2, A1), AnswerWords::Equal),
    (Ask::Compare(2, B2), AnswerWords::Differs),
    (Ask::CompareAndWrite(2, A1, B2), AnswerWords::Swapped),
    (Ask::CompareAndWrite(2, A1, B2), AnswerWords::Differs),
    (Ask::Read(2, 1), AnswerWords::Read(512, 0xb2)),
    (Ask::WriteZeroes(2, 1), AnswerWords::Written),
    (Ask::Read(1, 3), AnswerWords::Read(1536, 0)),
    (Ask::Read(8, 1), AnswerWords::Failed(0, 0x80)),
];

// Makes all tasks of a Work.
fn ends<R: Wait>(rt: &R, system: &PlainSystem, server: &mut PlainCaller, work: Work, told: &mut u64)
    requires { IsPlainCallerOf system.now server.old × IsWorkOf system.now.engine work }
    ensures { IsPlainCallerOf system.now server.new }
{
    let mut work = work;
    for _ in 0..TURNS {
        match makes(rt, system, server, &mut work) {
            Some(true) => {}
            Some(false) => return,
            None => *told = told.wrapping_add(1),
        }
    }
}

/// Serves the command that waits in a submission queue, if one does.
pub(crate) fn serves<R: Wait>(
    rt: &R,
    system: &PlainSystem,
    server: &mut PlainCaller,
    queue: u16,
    told: &mut u64,
)
    requires { IsPlainCallerOf system.now server.old }
    ensures { IsPlainCallerOf system.now server.new }
{
    for _ in 0..FETCHES {
        if let Some(work) = fetches(system, server, queue) {
            ends(rt, system, server, work, told);
        }
    }
}

// Begins a call.
fn begins<'a>(
    _system: &PlainSystem,
    host: &mut TestHost<'a>,
    ask: Ask,
    told: &mut u64,
) -> Option<Call<SharedPort<'a>>>
    requires { IsTestHost _system.now host.old }
    ensures same { IsTestHost _system.now host.new }
    ensures call { IfSome result (IsCallOf host.new.driver) }
{
    for _ in 0..TURNS {
        match starts(host, ask) {
            Ok(call) => return Some(call),
            Err(Fault::NoMemory) => *told = told.wrapping_add(1),
            Err(_) => return None,
        }
    }
    None
}

// Polls a call until it is answered.
fn answers<'a>(
    _system: &PlainSystem,
    host: &mut TestHost<'a>,
    call: Call<SharedPort<'a>>,
    told: &mut u64,
) -> Option<AnswerWords>
    requires { IsTestHost _system.now host.old × IsCallOf host.old.driver call }
    ensures { IsTestHost _system.now host.new }
{
    let mut next = call;
    for _ in 0..TURNS {
        let (now, back) = polls(host, next);
        let Some(same) = back else {
            return Some(now);
        };
        if now == AnswerWords::Later(Fault::NoMemory) {
            *told = told.wrapping_add(1);
        }
        next = same;
    }
    None
}

// What a call is told, once it is served.
fn served<R: Wait>(
    rt: &R,
    system: &PlainSystem,
    server: &mut PlainCaller,
    host: &mut TestHost<'_>,
    ask: Ask,
    told: &mut u64,
) -> Option<AnswerWords>
    requires { IsPlainCallerOf system.now server.old × IsTestHost system.now host.old }
    ensures { IsPlainCallerOf system.now server.new × IsTestHost system.now host.new }
{
    let call = begins(system, host, ask, told)?;
    serves(rt, system, server, 1, told);
    hears(rt, system, host);
    answers(system, host, call, told)
}

/// Makes all calls of a host, each served; whether each is told what is wanted.
pub(crate) fn makes_all<R: Wait>(
    rt: &R,
    system: &PlainSystem,
    server: &mut PlainCaller,
    host: &mut TestHost<'_>,
    told: &mut u64,
) -> bool
    requires { IsPlainCallerOf system.now server.old × IsTestHost system.now host.old }
    ensures { IsPlainCallerOf system.now server.new }
{
    for (ask, wanted) in CALLS {
        if served(rt, system, server, host, ask, told) != Some(wanted) {
            return false;
        }
    }
    true
}

/// Host 1, on submission queue 1.
pub(crate) fn host<'a>(
    alloc: Global,
    system: &'a PlainSystem,
    spares: &mut PlainCallers,
    told: &mut u64,
) -> Option<TestHost<'a>>
    requires own { ArePlainCallers system.now spares.old }
    requires config { system.now.config ≡ config_numbers 8 1 1 0 0 2 4 4 8 2 }
    ensures { IfSome result (IsTestHost system.entry.now) }
{
    for _ in 0..HOSTS {
        if let Ok(queues) = [1].to_vec(alloc) {
            let caller = take_caller(system, spares)?;
            let host = host_of(alloc, system, caller, 1, SLOTS, 1, queues);
            if host.is_some() {
                return host;
            }
        }
        *told = told.wrapping_add(1);
    }
    None
}
