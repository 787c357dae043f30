//! Who does the work.

ghost use Rattle.std.specs.Prelude.{IfOk, IfSome};
ghost use Rattle.nvme_model.specs.Passes.{entries};
ghost use Rattle.meet_lock.specs.Passes.{config_of, seen};
ghost use Rattle.work_queue.specs.Posted.{IsAnswerPosted};
ghost use Rattle.work_queue.specs.Engines as engine;
ghost use Rattle.shared_system.specs.Callers.{AreNoticesOf, Continues, IsCallerOf};
ghost use Rattle.hosts.specs.Stages.{HasNotices, IsPushableNotice, IsRestOf, IsStageBehind, IsWorkStage, IsWorkTurn};
ghost use Rattle.hosts.specs.declared.working.WorkStage.{WorkStage};

use crate::attempting::{TriedTask, attempt};
use crate::gate::{Gate, Point};
use crate::telling::{put, word_of};
use shared_system::{CallerPasses, System};
use std::alloc::AllocError as NoMemory;
use std::sync::Wait;
use std::thread::yield_now;
use step_core::Answer;
use work_queue::{Notice, QueuePass, Task, Work};

/// What a worker does in its next turn.
#[derive(Drop)]
pub enum WorkStage {
    /// It takes the Work at the front of the queue.
    Idle,
    /// It asks for the next task of this Work.
    Works(Work),
    /// It pushes the notice of a completion of this Work, and goes on with the Work.
    Tells(Work, Notice),
}

// The Work at the front of the queue.
#[tactic(auto, using(shared_system::proofs::Going::goes_push))]
fn taken<R: Wait, G: Gate>(rt: &R, system: &System<G>, caller: &mut CallerPasses) -> Option<Work>
    requires { IsCallerOf system.now caller.old }
    ensures goes { Continues system.now caller.old caller.new }
    ensures work { IfSome result (engine.IsWorkOf system.now.engine) }
{
    system.works.pop(rt, &mut caller.works)
}

// Goes on with a Work, through the gate where its next task is a Post; Idle where it has none.
fn goes_on<G: Gate>(system: &System<G>, work: Work) -> WorkStage
    requires { engine.IsWorkOf system.now.engine work }
    ensures stage { IsWorkStage system.now result }
    ensures rest { IsRestOf work result }
{
    match work.next_task() {
        Some(Task::Post) => {
            system.gate.pass(Point::Posting, work.ticket());
            WorkStage::Works(work)
        }
        Some(Task::Grant | Task::Block) => WorkStage::Works(work),
        None => WorkStage::Idle,
    }
}

// Takes a Work, if one waits.
fn takes<R: Wait, G: Gate>(rt: &R, system: &System<G>, caller: &mut CallerPasses) -> WorkStage
    requires { IsCallerOf system.now caller.old }
    ensures goes { Continues system.now caller.old caller.new }
    ensures stage { IsWorkStage system.now result }
    ensures next { IsWorkTurn WorkStage.Idle result }
{
    match taken(rt, system, caller) {
        Some(work) => goes_on(system, work),
        None => {
            yield_now();
            WorkStage::Idle
        }
    }
}

// What is next of a Work behind a task that was made. Goes through the gate behind a Grant and a Block; what was posted
// is to be told.
#[tactic(auto, using(shared_system::proofs::Going::goes_same))]
fn made<G: Gate>(
    system: &System<G>,
    caller: &mut CallerPasses,
    work: Work,
    answer: Answer,
) -> Result<WorkStage, NoMemory>
    requires own { IsCallerOf system.now caller.old × engine.IsWorkOf system.now.engine work }
    requires queues { HasNotices system.now (config_of caller.old.pass).cqs }
    requires told { IsAnswerPosted (config_of caller.old.pass) (entries (seen caller.old.pass)) work.queue answer }
    ensures goes { Continues system.now caller.old caller.new }
    ensures stage { IfOk result (IsWorkStage system.now) }
    ensures next { IfOk result (IsStageBehind work) }
{
    match answer {
        Answer::Granted { .. } => {
            system.gate.pass(Point::Granted, work.ticket());
            Ok(goes_on(system, work))
        }
        Answer::Blocked(_) => {
            system.gate.pass(Point::Blocked, work.ticket());
            Ok(goes_on(system, work))
        }
        Answer::Posted(cqe) => {
            let notice = word_of(system, caller, work.queue(), cqe)?;
            Ok(WorkStage::Tells(work, notice))
        }
        Answer::Published | Answer::Fetched(_) | Answer::Reaped { .. } => Ok(goes_on(system, work)),
    }
}

// Asks for the next task of a Work.
#[tactic(auto, using(shared_system::proofs::Going::goes_same, crate::proofs::Turns::done_now))]
fn works<G: Gate>(
    system: &System<G>,
    caller: &mut CallerPasses,
    mut work: Work,
) -> Result<WorkStage, NoMemory>
    requires own { IsCallerOf system.now caller.old × engine.IsWorkOf system.now.engine work }
    requires queues { HasNotices system.now (config_of caller.old.pass).cqs }
    ensures goes { Continues system.now caller.old caller.new }
    ensures stage { IfOk result (IsWorkStage system.now) }
    ensures next { IfOk result (IsWorkTurn (WorkStage.Works work)) }
{
    let Some(task) = work.next_task() else {
        return Ok(WorkStage::Idle);
    };
    match attempt(system, caller, &mut work, task) {
        TriedTask::Made(answer) => made(system, caller, work, answer),
        TriedTask::Again => {
            yield_now();
            Ok(WorkStage::Works(work))
        }
        TriedTask::NoMemory => {
            system.stop.set();
            Err(NoMemory)
        }
    }
}

// Pushes the notice of a completion of a Work, which stays where the queue of notices is full.
fn tells<R: Wait, G: Gate>(
    rt: &R,
    system: &System<G>,
    _caller: &CallerPasses,
    notices: &mut Vec<QueuePass<Notice>>,
    work: Work,
    notice: Notice,
) -> WorkStage
    requires notices { AreNoticesOf system.now (config_of _caller.now.pass).cqs notices.old.items }
    requires work { engine.IsWorkOf system.now.engine work }
    requires notice { IsPushableNotice system.now notice }
    ensures notices { AreNoticesOf system.now (config_of _caller.now.pass).cqs notices.new.items }
    ensures stage { IsWorkStage system.now result }
    ensures next { IsWorkTurn (WorkStage.Tells work notice) result }
{
    let place = usize::from(notice.queue() - 1);
    match put(rt, system, place, &mut notices[place], notice) {
        Ok(()) => goes_on(system, work),
        Err(back) => {
            yield_now();
            WorkStage::Tells(work, back)
        }
    }
}

/// One turn of a worker: it takes a Work from the queue, asks for one task, or pushes the notice of a completion to the
/// host of its completion queue. Lets others run where nothing came of it.
///
/// # Errors
///
/// `NoMemory` where a growth is refused. The stop flag is set then, and the Work is dropped.
#[tactic(auto, using(shared_system::proofs::Going::goes_same, shared_system::proofs::Going::notices_on))]
pub fn work_turn<R: Wait, G: Gate>(
    rt: &R,
    system: &System<G>,
    caller: &mut CallerPasses,
    notices: &mut Vec<QueuePass<Notice>>,
    stage: WorkStage,
) -> Result<WorkStage, NoMemory>
    requires own { IsCallerOf system.now caller.old }
    requires notices { AreNoticesOf system.now (config_of caller.old.pass).cqs notices.old.items }
    requires stage { IsWorkStage system.now stage }
    ensures goes { Continues system.now caller.old caller.new }
    ensures notices { AreNoticesOf system.now (config_of caller.new.pass).cqs notices.new.items }
    ensures stage { IfOk result (IsWorkStage system.now) }
    ensures next { IfOk result (IsWorkTurn stage) }
{
    match stage {
        WorkStage::Idle => Ok(takes(rt, system, caller)),
        WorkStage::Works(work) => works(system, caller, work),
        WorkStage::Tells(work, notice) => Ok(tells(rt, system, caller, notices, work, notice)),
    }
}

/// Makes a worker's turns until the stop flag is set: takes each Work from the queue and makes all its tasks to the
/// last Post. Each completion is told to the host of its completion queue.
///
/// # Errors
///
/// `NoMemory` where a growth is refused. The stop flag is set then.
#[tactic(auto, using(shared_system::proofs::Going::goes_same))]
pub fn worker<R: Wait, G: Gate>(
    rt: &R,
    system: &System<G>,
    caller: &mut CallerPasses,
    notices: &mut Vec<QueuePass<Notice>>,
) -> Result<(), NoMemory>
    requires own { IsCallerOf system.now caller.old }
    requires notices { AreNoticesOf system.now (config_of caller.old.pass).cqs notices.old.items }
    ensures goes { Continues system.now caller.old caller.new }
    ensures notices { AreNoticesOf system.now (config_of caller.new.pass).cqs notices.new.items }
{
    let mut stage = WorkStage::Idle;
    for _ in rt.forever() {
        if system.stop.is_set() {
            return Ok(());
        }
        stage = work_turn(rt, system, caller, notices, stage)?;
    }
    // The loop ends by its returns alone.
    unreachable!()
}
