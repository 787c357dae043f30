//! Submission queues that are full.

ghost use Rattle.std.specs.Prelude.{◌≡◌, ◌≤◌, IfOk, true};
ghost use Rattle.history.specs.Config.{config_numbers};
ghost use Rattle.work_queue.specs.Engines.{IsPassOfEngine};
ghost use Rattle.driver_testing.specs.Hosts.{uses};
ghost use Rattle.shared_system.specs.Plain.{ArePlainCallers};

use crate::callers::{on_both, server_of};
use crate::sent::{Sent, one, published_in, two};
use crate::turns::{BenchTurn, turns_all};
use crate::under_way::pass_of;
use driver_cas::Fault;
use driver_testing::{AnswerWords, Ask, Fill};
use history::Config;
use meet_lock::Pass;
use shared_system::{PlainCallers, PlainSystem, plain_system_of};
use std::alloc::Global;
use std::process::Abort;
use std::sync::Wait;
use std::test::Fail;
use step_core::Core;

const READ: Ask = Ask::Read(1, 1);

const PAIR: Ask = Ask::CompareAndWrite(1, Fill(0xa1, 512), Fill(0xb2, 512));

const FULL: Fault = Fault::RingFull;

const ZEROS: AnswerWords = AnswerWords::Read(512, 0);

// A system of `config2 8 1 1 0 0 2 SQ 8 8 1`.
fn narrow(alloc: Global, sq: u16) -> Result<(PlainSystem, PlainCallers), Fail>
    ensures own { IfOk result (λ b. ArePlainCallers b.0 b.1) }
    ensures config { IfOk result (λ b. b.0.config ≡ config_numbers 8 1 1 0 0 2 sq 8 8 1) }
{
    let Ok(config) = Config::with_cqs(8, 1, 1, 0, 0, 2, sq, 8, 8, 1) else {
        return Err(Fail::from("the configuration is refused"));
    };
    Ok(plain_system_of(alloc, config, 8, 2)?)
}

// The pass of host 1 on both submission queues, after these turns.
fn pass_after<R: Abort + Wait>(
    rt: &R,
    alloc: Global,
    system: &PlainSystem,
    spares: &mut PlainCallers,
    turns: &[BenchTurn],
) -> Result<Pass<Core>, Fail>
    requires own { ArePlainCallers system.now spares.old }
    requires some { 1 ≤ system.now.config.cqs }
    requires one { uses system.now.config 1 1 ≡ true }
    requires two { uses system.now.config 1 2 ≡ true }
    ensures { IfOk result (IsPassOfEngine system.now.engine) }
{
    let mut server = server_of(system, spares)?;
    let mut flight = on_both(alloc, system, spares)?;
    turns_all(rt, system, &mut server, &mut flight, turns);
    Ok(pass_of(system, flight))
}

/// The controller after these turns of a host and a server, where a submission queue has room for one entry less than
/// `sq`.
pub(crate) fn core_after<R: Abort + Wait>(
    rt: &R,
    alloc: Global,
    sq: u16,
    turns: &[BenchTurn],
) -> Result<Core, Fail> {
    let (system, mut spares) = narrow(alloc, sq)?;
    let pass = pass_after(rt, alloc, &system, &mut spares, turns)?;
    let PlainSystem { engine, .. } = system;
    match engine.close(pass) {
        Some(core) => Ok(core),
        None => Err(Fail::from("the lock isn't free")),
    }
}

// That these turns publish these batches.
fn publishes<R: Abort + Wait>(
    rt: &R,
    alloc: Global,
    sq: u16,
    turns: &[BenchTurn],
    all: &[Sent],
) -> Result<(), Fail> {
    let core = core_after(rt, alloc, sq, turns)?;
    let sent = published_in(alloc, core.history().as_slice())?;
    assert_eq!(rt; sent.as_slice(), all);
    Ok(())
}

#[test]
fn one_entry_fills_a_queue(rt: HostRuntime) -> Result<(), Fail> {
    let turns = [
        BenchTurn::Refused(PAIR, FULL),
        BenchTurn::Begin(READ),
        BenchTurn::Begin(READ),
        BenchTurn::Refused(READ, FULL),
        BenchTurn::Refused(PAIR, FULL),
        BenchTurn::Serve(1),
        BenchTurn::Begin(READ),
        BenchTurn::Refused(READ, FULL),
        BenchTurn::Serve(1),
        BenchTurn::Serve(2),
        BenchTurn::Listen(true),
        BenchTurn::Listen(true),
        BenchTurn::Listen(true),
        BenchTurn::End(0, 1, ZEROS),
        BenchTurn::End(0, 2, ZEROS),
        BenchTurn::End(0, 1, ZEROS),
    ];
    publishes(
        &rt,
        rt.alloc(),
        2,
        &turns,
        &[one(1, 0), one(2, 0), one(1, 1)],
    )
}

// A pair goes to the first submission queue that has room for both of its entries.
#[test]
fn two_entries_fill_a_queue(rt: HostRuntime) -> Result<(), Fail> {
    let turns = [
        BenchTurn::Begin(READ),
        BenchTurn::Begin(PAIR),
        BenchTurn::Begin(READ),
        BenchTurn::Refused(READ, FULL),
        BenchTurn::Refused(PAIR, FULL),
        BenchTurn::Serve(2),
        BenchTurn::Begin(READ),
        BenchTurn::Refused(PAIR, FULL),
        BenchTurn::Serve(1),
        BenchTurn::Begin(PAIR),
        BenchTurn::Serve(1),
        BenchTurn::Serve(2),
        BenchTurn::Listen(true),
        BenchTurn::Listen(true),
        BenchTurn::Listen(true),
        BenchTurn::Listen(true),
        BenchTurn::Listen(true),
        BenchTurn::Listen(true),
        BenchTurn::Listen(true),
        BenchTurn::Listen(false),
        BenchTurn::End(0, 3, ZEROS),
        BenchTurn::End(0, 1, AnswerWords::Differs),
        BenchTurn::End(0, 1, ZEROS),
        BenchTurn::End(0, 3, ZEROS),
        BenchTurn::End(0, 1, AnswerWords::Differs),
    ];
    let all = [one(1, 0), two(2, 0, 1), one(1, 1), one(2, 2), two(1, 2, 3)];
    publishes(&rt, rt.alloc(), 3, &turns, &all)
}
