//! The steps of a run through an engine, its works and its notices, by three callers of one thread.

ghost use Rattle.std.specs.Prelude.{All, IfOk, IfSome};
ghost use Rattle.lock_testing.specs.Callers.{IsCrewOf};
ghost use Rattle.shared_system.specs.Plain.{IsFreshWork, IsPlainCallerOf, IsPlainWork};

use crate::passes::BUSY;
use lock_testing::{NO_MEMORY, ThreeCallers, attempt, learns, number, open, pops, pushes, tells};
use meet_lock::Declined;
use shared_system::{PlainCaller, PlainSystem};
use std::alloc::{AllocError, Global};
use std::sync::Wait;
use std::test::Fail;
use step_core::Step;
use work_queue::{Open, Opened, Task, Work};

/// How an opening was answered: 0 or the number of its refusal, and the Work of a Fetch.
pub(crate) fn opened(
    system: &PlainSystem,
    caller: &mut PlainCaller,
    request: Open,
) -> (u8, Option<Work>)
    requires { IsPlainCallerOf system.now caller.old }
    ensures same { IsPlainCallerOf system.now caller.new }
    ensures fresh { IfSome result.1 (IsFreshWork system.now) }
{
    match open(system, caller, request) {
        Ok(Opened::Fetched(work)) => (0, Some(work)),
        Ok(_) => (0, None),
        Err(Declined::Refused(refused)) => (number(refused), None),
        Err(Declined::Busy(_)) => (BUSY, None),
    }
}

/// The Work goes through the queue to the worker.
fn callers_over<R: Wait>(
    rt: &R,
    system: &PlainSystem,
    crew: &mut ThreeCallers,
    work: Work,
) -> Result<(), Fail>
    requires { IsCrewOf system.now crew.old × IsFreshWork system.now work }
    ensures { IfOk result (λ _. IsCrewOf system.now crew.new) }
{
    if pushes(rt, system, &mut crew.fetcher, work).is_err() {
        return Err(Fail::from("no place for a Work"));
    }
    match pops(rt, system, &mut crew.worker) {
        Some(work) => Ok(crew.works.push(work)?),
        None => Err(Fail::from("no Work")),
    }
}

/// A Fetch. Its Work goes to the worker.
fn fetch<R: Wait>(
    rt: &R,
    system: &PlainSystem,
    crew: &mut ThreeCallers,
    queue: u16,
) -> Result<u8, Fail>
    requires { IsCrewOf system.now crew.old }
    ensures { IfOk result (λ _. IsCrewOf system.now crew.new) }
{
    let (answer, fetched) = opened(system, &mut crew.fetcher, Open::Fetch(queue));
    if let Some(work) = fetched {
        callers_over(rt, system, crew, work)?;
    }
    Ok(answer)
}

// Found, where it is the Work of this ticket, or else one of the others.
fn put_by(
    _system: &PlainSystem,
    work: Work,
    ticket: u64,
    found: &mut Option<Work>,
    others: &mut Vec<Work>,
) -> Result<(), AllocError>
    requires work { IsPlainWork _system.now work }
    requires both { IfSome found.old (IsPlainWork _system.now) × All (IsPlainWork _system.now) others.old.items }
    ensures found { IfSome found.new (IsPlainWork _system.now) }
    ensures others { All (IsPlainWork _system.now) others.new.items }
{
    if work.ticket() == ticket {
        *found = Some(work);
        return Ok(());
    }
    others.push(work)?;
    Ok(())
}

// The same of all Works.
fn put_all(
    system: &PlainSystem,
    works: &mut Vec<Work>,
    ticket: u64,
    found: &mut Option<Work>,
    others: &mut Vec<Work>,
) -> Result<(), AllocError>
    requires works { All (IsPlainWork system.now) works.old.items }
    requires both { IfSome found.old (IsPlainWork system.now) × All (IsPlainWork system.now) others.old.items }
    ensures found { IfSome found.new (IsPlainWork system.now) }
    ensures others { All (IsPlainWork system.now) others.new.items }
{
    for _ in 0..works.len() {
        if let Some(work) = works.pop() {
            put_by(system, work, ticket, found, others)?;
        }
    }
    Ok(())
}

/// The Work of this ticket, out of these.
fn take_work(
    alloc: Global,
    system: &PlainSystem,
    works: &mut Vec<Work>,
    ticket: u64,
) -> Result<Option<Work>, AllocError>
    requires { All (IsPlainWork system.now) works.old.items }
    ensures rest { All (IsPlainWork system.now) works.new.items }
    ensures found { IfOk result (λ w. IfSome w (IsPlainWork system.now)) }
{
    let mut found = None;
    let mut others = Vec::new(alloc);
    let end = put_all(system, works, ticket, &mut found, &mut others);
    *works = others;
    end.and(Ok(found))
}

/// The task, where it is the one that is next; None where it isn't.
fn asks<R: Wait>(
    rt: &R,
    system: &PlainSystem,
    caller: &mut PlainCaller,
    work: &mut Work,
    task: Task,
) -> Option<u8>
    requires { IsPlainCallerOf system.now caller.old × IsPlainWork system.now work.old }
    ensures { IsPlainCallerOf system.now caller.new × IsPlainWork system.now work.new }
{
    let next = work.next_task()?;
    if next != task {
        return None;
    }
    match attempt(system, caller, work, next) {
        Ok(answer) => {
            if !tells(rt, system, caller, work, &answer) {
                return Some(NO_MEMORY);
            }
            Some(0)
        }
        Err(Declined::Refused(refused)) => Some(number(refused)),
        Err(Declined::Busy(_)) => Some(BUSY),
    }
}

/// A task of this ticket, by the Work that the worker has; None where there is no such Work or it isn't its turn.
fn work_on<R: Wait>(
    rt: &R,
    alloc: Global,
    system: &PlainSystem,
    crew: &mut ThreeCallers,
    ticket: u64,
    task: Task,
) -> Result<Option<u8>, Fail>
    requires { IsCrewOf system.now crew.old }
    ensures { IfOk result (λ _. IsCrewOf system.now crew.new) }
{
    let Some(mut work) = take_work(alloc, system, &mut crew.works, ticket)? else {
        return Ok(None);
    };
    let answer = asks(rt, system, &mut crew.worker, &mut work, task);
    crew.works.push(work)?;
    Ok(answer)
}

/// The host learns what it was told.
fn hears<R: Wait>(rt: &R, system: &PlainSystem, crew: &mut ThreeCallers) -> Result<(), Fail>
    requires { IsCrewOf system.now crew.old }
    ensures { IfOk result (λ _. IsCrewOf system.now crew.new) }
{
    for _ in rt.forever() {
        match learns(rt, system, &mut crew.host) {
            Ok(true) => crew.learnt = crew.learnt.wrapping_add(1),
            Ok(false) => break,
            Err(_) => return Err(Fail::from("the lock was held")),
        }
    }
    Ok(())
}

/// A step by the caller whose it is: 0 or the number of its refusal, None where its ticket's Work can't be asked for
/// it.
fn make<R: Wait>(
    rt: &R,
    alloc: Global,
    system: &PlainSystem,
    crew: &mut ThreeCallers,
    step: Step,
) -> Result<Option<u8>, Fail>
    requires { IsCrewOf system.now crew.old }
    ensures { IfOk result (λ _. IsCrewOf system.now crew.new) }
{
    match step {
        Step::Publish(queue, batch) => {
            let (answer, _) = opened(system, &mut crew.host, Open::Publish(queue, batch));
            Ok(Some(answer))
        }
        Step::Fetch(queue) => Ok(Some(fetch(rt, system, crew, queue)?)),
        Step::Grant(ticket) => work_on(rt, alloc, system, crew, ticket, Task::Grant),
        Step::Block(ticket) => work_on(rt, alloc, system, crew, ticket, Task::Block),
        Step::Post(ticket) => work_on(rt, alloc, system, crew, ticket, Task::Post),
        Step::Reap(queue) => {
            hears(rt, system, crew)?;
            let (answer, _) = opened(system, &mut crew.host, Open::Reap(queue));
            Ok(Some(answer))
        }
    }
}

/// The steps, and how each was answered; at the end the host learns what it was told.
pub(crate) fn make_all<R: Wait>(
    rt: &R,
    alloc: Global,
    system: &PlainSystem,
    crew: &mut ThreeCallers,
    steps: Vec<Step>,
) -> Result<Vec<Option<u8>>, Fail>
    requires { IsCrewOf system.now crew.old }
    ensures { IfOk result (λ _. IsCrewOf system.now crew.new) }
{
    let mut answers = Vec::new(alloc);
    for step in steps {
        answers.push(make(rt, alloc, system, crew, step)?)?;
    }
    hears(rt, system, crew)?;
    Ok(answers)
}
