//! Serving on one thread, and the notice of a completion.

ghost use Rattle.std.specs.Prelude.{◌≡◌, ◌≤◌, ◌<◌, ◌+◌, ◌-◌, ◌%◌, IfOk, IfSome, None};
ghost use Rattle.nvme_model.specs.Config.{completion_queue};
ghost use Rattle.nvme_model.specs.Passes.{entries};
ghost use Rattle.ticket_laws.specs.Tasks.{task_fault};
ghost use Rattle.meet_lock.specs.Passes.{config_of, seen};
ghost use Rattle.work_queue.specs.Duties.{duty_of, task_step};
ghost use Rattle.work_queue.specs.Engines as engine;
ghost use Rattle.work_queue.specs.Notices.{IsNoticeOf};
ghost use Rattle.work_queue.specs.Posted.{IsAnswerPosted, IsPostedTo};
ghost use Rattle.shared_system.specs.Callers.{AreNoticesOf, Continues, IsCallerOf, IsWordOf, IsWorkerOf};
ghost use Rattle.shared_system.specs.Callers.{WorkerContinues};

use crate::system::{CallerPasses, System, WorkerPasses};
use std::alloc::AllocError as NoMemory;
use std::sync::Wait;
use step_core::Answer;
use work_queue::{Notice, QueuePass, Task, Work};

/// The place, from 0, of the completion queue that a submission queue uses, where there are so many.
pub fn completion_place(queue: u16, count: usize) -> u16
    requires some { 1 ≤ count }
    ensures value { result ≡ (queue - 1) % count }
    ensures below { result < 65535 }
{
    (usize::from(queue.saturating_sub(1)) % count) as u16
}

/// The notice of this completion, which is posted to that completion queue.
///
/// # Errors
///
/// `NoMemory` where a growth is refused.
#[tactic(auto, using(crate::proofs::Going::goes_noted))]
pub fn notice_of<G>(
    system: &System<G>,
    caller: &mut CallerPasses,
    queue: u16,
    cqe: [u8; 16],
) -> Result<Notice, NoMemory>
    requires own { IsCallerOf system.now caller.old }
    requires there { IsPostedTo (config_of caller.old.pass) (entries (seen caller.old.pass)) queue cqe }
    ensures goes { Continues system.now caller.old caller.new }
    ensures notice { IfOk result (λ n. IsNoticeOf system.now.engine n × IsWordOf queue n) }
{
    Notice::new(&system.engine, &mut caller.pass, queue, cqe)
}

// Tells the host of its completion queue of this completion, where there is memory and room; whether there was.
fn tells<R: Wait, G>(
    rt: &R,
    system: &System<G>,
    caller: &mut CallerPasses,
    notices: &mut Vec<QueuePass<Notice>>,
    queue: u16,
    cqe: [u8; 16],
) -> bool
    requires own { IsCallerOf system.now caller.old }
    requires notices { AreNoticesOf system.now (config_of caller.old.pass).cqs notices.old.items }
    requires there { IsPostedTo (config_of caller.old.pass) (entries (seen caller.old.pass))
        (completion_queue (config_of caller.old.pass) queue) cqe }
    ensures goes { Continues system.now caller.old caller.new }
    ensures notices { AreNoticesOf system.now (config_of caller.new.pass).cqs notices.new.items }
{
    let place = completion_place(queue, system.notices.len());
    match notice_of(system, caller, place + 1, cqe) {
        Ok(notice) => {
            let place = usize::from(place);
            system.notices[place]
                .push(rt, &mut notices[place], notice)
                .is_ok()
        }
        Err(_) => false,
    }
}

// Tells of what was posted, if it is a completion; whether that could be told.
#[tactic(auto, using(crate::proofs::Going::goes_same))]
fn told<R: Wait, G>(
    rt: &R,
    system: &System<G>,
    caller: &mut CallerPasses,
    notices: &mut Vec<QueuePass<Notice>>,
    queue: u16,
    answer: Answer,
) -> bool
    requires own { IsCallerOf system.now caller.old }
    requires notices { AreNoticesOf system.now (config_of caller.old.pass).cqs notices.old.items }
    requires posted { IsAnswerPosted (config_of caller.old.pass) (entries (seen caller.old.pass)) queue answer }
    ensures goes { Continues system.now caller.old caller.new }
    ensures notices { AreNoticesOf system.now (config_of caller.new.pass).cqs notices.new.items }
{
    match answer {
        Answer::Posted(cqe) => tells(rt, system, caller, notices, queue, cqe),
        Answer::Published
        | Answer::Fetched(_)
        | Answer::Granted { .. }
        | Answer::Blocked(_)
        | Answer::Reaped { .. } => true,
    }
}

// What comes of a step that wasn't made.
fn nothing<T, U: Drop>(_unmade: U) -> Option<T>
    ensures { result ≡ None }
{
    None
}

// Makes a task that is in its place; None where it is declined.
fn attempt<G>(
    system: &System<G>,
    caller: &mut CallerPasses,
    work: &mut Work,
    task: Task,
) -> Option<Answer>
    requires own { IsCallerOf system.now caller.old × engine.IsWorkOf system.now.engine work.old }
    requires allowed { task_fault (duty_of work.old.work) work.old.work.ticket (engine.its work.old)
        (task_step task work.old.work.ticket) ≡ None }
    ensures goes { Continues system.now caller.old caller.new }
    ensures work { engine.IsWorkOf system.now.engine work.new × (work.new.queue ≡ work.old.queue) }
    ensures posted { IfSome result (IsAnswerPosted (config_of caller.new.pass) (entries (seen caller.new.pass))
        work.new.queue) }
{
    match system.engine.attempt_work(&mut caller.pass, work, task) {
        Ok(answer) => Some(answer),
        Err(declined) => nothing(declined),
    }
}

// Makes all tasks of a Work, and tells of its completions; whether nothing was declined.
#[tactic(auto, using(crate::proofs::Going::goes_same))]
fn finish<R: Wait, G>(
    rt: &R,
    system: &System<G>,
    caller: &mut CallerPasses,
    notices: &mut Vec<QueuePass<Notice>>,
    work: Work,
) -> bool
    requires own { IsCallerOf system.now caller.old × engine.IsWorkOf system.now.engine work }
    requires notices { AreNoticesOf system.now (config_of caller.old.pass).cqs notices.old.items }
    ensures goes { Continues system.now caller.old caller.new }
    ensures notices { AreNoticesOf system.now (config_of caller.new.pass).cqs notices.new.items }
{
    let mut work = work;
    for _ in rt.forever() {
        let Some(task) = work.next_task() else {
            return true;
        };
        let Some(answer) = attempt(system, caller, &mut work, task) else {
            return false;
        };
        if !told(rt, system, caller, notices, work.queue(), answer) {
            return false;
        }
    }
    // The loop ends by its returns alone.
    unreachable!()
}

// Fetches the next command, or pair, of a submission queue; None where that is declined.
#[tactic(auto, using(crate::proofs::Going::goes_fetched, crate::proofs::Going::fetched_ready))]
fn fetch<G>(system: &System<G>, caller: &mut CallerPasses, queue: u16) -> Option<Work>
    requires { IsCallerOf system.now caller.old }
    ensures goes { Continues system.now caller.old caller.new }
    ensures work { IfSome result (engine.IsWorkOf system.now.engine) }
{
    match system.engine.fetch(&mut caller.pass, queue) {
        Ok(work) => Some(work),
        Err(unmade) => nothing(unmade),
    }
}

/// Serves all commands of a submission queue, one after the other, and tells the host of each completion; whether
/// nothing was declined but the last Fetch.
///
/// It serves beside no other server: where a unit would have to wait for another one's, its Work is given up.
#[tactic(auto, using(crate::proofs::Going::goes_same))]
pub fn serve<R: Wait, G>(rt: &R, system: &System<G>, server: &mut WorkerPasses, queue: u16) -> bool
    requires { IsWorkerOf system.now server.old }
    ensures goes { WorkerContinues system.now server.old server.new }
{
    for _ in rt.forever() {
        let Some(work) = fetch(system, &mut server.caller, queue) else {
            return true;
        };
        if !finish(rt, system, &mut server.caller, &mut server.notices, work) {
            return false;
        }
    }
    // The loop ends by its returns alone.
    unreachable!()
}
