//! Steps of one caller, and messages from one to another.

ghost use Rattle.std.specs.Prelude.{◌≡◌, IfErr, IfOk, IfSome, None};
ghost use Rattle.meet_lock.specs.Passes.{config_of, seen};
ghost use Rattle.nvme_model.specs.Passes.{entries};
ghost use Rattle.ticket_laws.specs.Tasks.{task_fault};
ghost use Rattle.work_queue.specs.Duties.{duty_of, task_step};
ghost use Rattle.work_queue.specs.Engines.{its};
ghost use Rattle.work_queue.specs.Notices.{IsNoticeOf};
ghost use Rattle.work_queue.specs.Posted.{IsAnswerPosted};
ghost use Rattle.lock_testing.specs.Callers.{IsFreshOpening};
ghost use Rattle.shared_system.specs.Plain.{IsFreshWork, IsPlainCallerOf, IsPlainWork};

use crate::plain::number;
use meet_lock::Declined;
use shared_system::{PlainCaller, PlainSystem};
use std::sync::Wait;
use std::thread::yield_now;
use step_core::{Answer, Step};
use work_queue::{Notice, Open, Opened, Task, Work};

/// The number of want of memory.
pub const NO_MEMORY: u8 = 11;

/// A number of no refusal: a wait that was too long.
pub const LATE: u8 = 97;

/// A number of no refusal: another step came back, or another message was there.
pub const STRANGE: u8 = 99;

/// A Publish, a Fetch or a Reap.
#[tactic(auto, using(crate::proofs::Callers::fetched_fresh))]
pub fn open(
    system: &PlainSystem,
    caller: &mut PlainCaller,
    request: Open,
) -> Result<Opened, Declined>
    requires { IsPlainCallerOf system.now caller.old }
    ensures same { IsPlainCallerOf system.now caller.new }
    ensures fresh { IfOk result (IsFreshOpening system.now) }
{
    system.engine.attempt_open(&mut caller.pass, request)
}

/// The opening, asked again while another caller has the lock.
///
/// # Errors
///
/// The number of its refusal.
pub fn opens<R: Wait>(
    rt: &R,
    system: &PlainSystem,
    caller: &mut PlainCaller,
    request: Open,
) -> Result<Opened, u8>
    requires { IsPlainCallerOf system.now caller.old }
    ensures same { IsPlainCallerOf system.now caller.new }
    ensures fresh { IfOk result (IsFreshOpening system.now) }
{
    let mut next = request;
    for _ in rt.forever() {
        match open(system, caller, next) {
            Ok(opened) => return Ok(opened),
            Err(Declined::Busy(Step::Publish(queue, batch))) => next = Open::Publish(queue, batch),
            Err(Declined::Busy(Step::Fetch(queue))) => next = Open::Fetch(queue),
            Err(Declined::Busy(Step::Reap(queue))) => next = Open::Reap(queue),
            Err(Declined::Busy(_)) => return Err(STRANGE),
            Err(Declined::Refused(refused)) => return Err(number(refused)),
        }
        yield_now();
    }
    // The loop ends by its answer alone.
    unreachable!()
}

/// A Fetch.
///
/// # Errors
///
/// The number of its refusal.
pub fn fetches<R: Wait>(
    rt: &R,
    system: &PlainSystem,
    caller: &mut PlainCaller,
    queue: u16,
) -> Result<Work, u8>
    requires { IsPlainCallerOf system.now caller.old }
    ensures same { IsPlainCallerOf system.now caller.new }
    ensures fresh { IfOk result (IsFreshWork system.now) }
{
    match opens(rt, system, caller, Open::Fetch(queue)) {
        Ok(Opened::Fetched(work)) => Ok(work),
        Ok(_) => Err(STRANGE),
        Err(why) => Err(why),
    }
}

/// The Work, put at the back; or it comes back.
pub fn pushes<R: Wait>(
    rt: &R,
    system: &PlainSystem,
    caller: &mut PlainCaller,
    work: Work,
) -> Result<(), Work>
    requires own { IsPlainCallerOf system.now caller.old }
    requires fresh { IsFreshWork system.now work }
    ensures same { IsPlainCallerOf system.now caller.new }
    ensures back { IfErr result (IsFreshWork system.now) }
{
    system.works.push(rt, &mut caller.works, work)
}

/// The Work at the front.
pub fn pops<R: Wait>(rt: &R, system: &PlainSystem, caller: &mut PlainCaller) -> Option<Work>
    requires { IsPlainCallerOf system.now caller.old }
    ensures same { IsPlainCallerOf system.now caller.new }
    ensures work { IfSome result (IsFreshWork system.now) }
{
    system.works.pop(rt, &mut caller.works)
}

/// The task, if no other caller has the lock.
///
/// # Errors
///
/// As `Engine::attempt_work`.
pub fn attempt(
    system: &PlainSystem,
    caller: &mut PlainCaller,
    work: &mut Work,
    task: Task,
) -> Result<Answer, Declined>
    requires own { IsPlainCallerOf system.now caller.old × IsPlainWork system.now work.old }
    requires allowed { task_fault (duty_of work.old.work) work.old.work.ticket (its work.old)
        (task_step task work.old.work.ticket) ≡ None }
    ensures same { IsPlainCallerOf system.now caller.new × IsPlainWork system.now work.new }
    ensures posted { IfOk result (IsAnswerPosted (config_of caller.new.pass) (entries (seen caller.new.pass))
        work.new.queue) }
{
    system.engine.attempt_work(&mut caller.pass, work, task)
}

/// A Notice of what was posted, where that is a completion and there is one completion queue.
///
/// # Errors
///
/// The number of want of memory.
pub fn noted(
    system: &PlainSystem,
    caller: &mut PlainCaller,
    _work: &Work,
    answer: &Answer,
) -> Result<Option<Notice>, u8>
    requires own { IsPlainCallerOf system.now caller.old }
    requires posted { IsAnswerPosted (config_of caller.old.pass) (entries (seen caller.old.pass)) _work.now.queue
        answer.now }
    ensures same { IsPlainCallerOf system.now caller.new }
    ensures notice { IfOk result (λ n. IfSome n (IsNoticeOf system.now.engine)) }
    ensures posted { IsAnswerPosted (config_of caller.new.pass) (entries (seen caller.new.pass)) _work.now.queue
        answer.now }
{
    let Answer::Posted(cqe) = answer else {
        return Ok(None);
    };
    if system.config.numbers().cqs != 1 {
        return Ok(None);
    }
    match Notice::new(&system.engine, &mut caller.pass, 1, *cqe) {
        Ok(notice) => Ok(Some(notice)),
        Err(_) => Err(NO_MEMORY),
    }
}

/// That Notice, put into the queue; whether there was room and memory for it.
pub fn tells<R: Wait>(
    rt: &R,
    system: &PlainSystem,
    caller: &mut PlainCaller,
    _work: &Work,
    answer: &Answer,
) -> bool
    requires own { IsPlainCallerOf system.now caller.old }
    requires posted { IsAnswerPosted (config_of caller.old.pass) (entries (seen caller.old.pass)) _work.now.queue
        answer.now }
    ensures { IsPlainCallerOf system.now caller.new }
{
    match noted(system, caller, _work, answer) {
        Ok(Some(notice)) => system.notices.push(rt, &mut caller.notices, notice).is_ok(),
        Ok(None) => true,
        Err(_) => false,
    }
}

/// The answer to the task that is next, asked again while another caller has the lock; None where there is none. What
/// was posted is told.
///
/// # Errors
///
/// The number of its refusal.
pub fn works<R: Wait>(
    rt: &R,
    system: &PlainSystem,
    caller: &mut PlainCaller,
    work: &mut Work,
) -> Result<Option<Answer>, u8>
    requires { IsPlainCallerOf system.now caller.old × IsPlainWork system.now work.old }
    ensures { IsPlainCallerOf system.now caller.new × IsPlainWork system.now work.new }
{
    for _ in rt.forever() {
        let Some(task) = work.next_task() else {
            break;
        };
        match attempt(system, caller, work, task) {
            Ok(answer) => {
                if !tells(rt, system, caller, work, &answer) {
                    return Err(NO_MEMORY);
                }
                return Ok(Some(answer));
            }
            Err(Declined::Refused(refused)) => return Err(number(refused)),
            Err(Declined::Busy(_)) => {}
        }
        yield_now();
    }
    Ok(None)
}

/// Learns one notice, if one is there; whether there was.
///
/// # Errors
///
/// A number, where another caller had the lock.
pub fn learns<R: Wait>(rt: &R, system: &PlainSystem, caller: &mut PlainCaller) -> Result<bool, u8>
    requires { IsPlainCallerOf system.now caller.old }
    ensures { IsPlainCallerOf system.now caller.new }
{
    let Some(mut notice) = system.notices.pop(rt, &mut caller.notices) else {
        return Ok(false);
    };
    match system.engine.learn(&mut caller.pass, &mut notice) {
        Ok(()) => Ok(true),
        Err(_) => Err(STRANGE),
    }
}
