//! A task of a Work, asked for once.

ghost use Rattle.std.specs.Prelude.{◌≡◌, None};
ghost use Rattle.ticket_laws.specs.Tasks.{task_fault};
ghost use Rattle.work_queue.specs.Duties.{duty_of, task_step};
ghost use Rattle.work_queue.specs.Engines as engine;
ghost use Rattle.hosts.specs.Declining.{IsTaskDeclined};
ghost use Rattle.shared_system.specs.Callers.{Continues, IsCallerOf};
ghost use Rattle.hosts.specs.Asking.{HasEntries, IsNotMade, IsTaskTold};

use crate::gate::Gate;
use meet_lock::Declined;
use nvme_model::refusal::Why;
use shared_system::{CallerPasses, System};
use step_core::{Answer, Refused};
use work_queue::{Task, Work};

/// What came of asking for a task.
pub(crate) enum TriedTask {
    Made(Answer),
    /// Another caller had the controller, or it is refused for now.
    Again,
    NoMemory,
}

// What comes of a task in its place that was declined.
fn unmade(declined: Declined) -> TriedTask
    requires { IsTaskDeclined declined }
    ensures { IsNotMade result }
{
    match declined {
        Declined::Busy(_) => TriedTask::Again,
        Declined::Refused(Refused::Step(Why::Conflict | Why::CqFull)) => TriedTask::Again,
        Declined::Refused(Refused::Step(Why::NoMemory)) => TriedTask::NoMemory,
        // No other refusal meets a task in its place.
        Declined::Refused(Refused::Step(_) | Refused::Publish(..)) => unreachable!(),
    }
}

/// Asks for a task that is in its place.
pub(crate) fn attempt<G: Gate>(
    system: &System<G>,
    caller: &mut CallerPasses,
    work: &mut Work,
    task: Task,
) -> TriedTask
    requires own { IsCallerOf system.now caller.old × engine.IsWorkOf system.now.engine work.old }
    requires allowed { task_fault (duty_of work.old.work) work.old.work.ticket (engine.its work.old)
        (task_step task work.old.work.ticket) ≡ None }
    ensures goes { Continues system.now caller.old caller.new }
    ensures work { engine.IsWorkOf system.now.engine work.new × (work.new.work ≡ work.old.work)
        × (work.new.queue ≡ work.old.queue) }
    ensures entries { HasEntries (engine.its work.old) (engine.its work.new) result }
    ensures told { IsTaskTold caller.new work.new.queue result }
{
    match system.engine.attempt_work(&mut caller.pass, work, task) {
        Ok(answer) => TriedTask::Made(answer),
        Err(declined) => unmade(declined),
    }
}
