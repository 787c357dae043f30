//! Serving commands, and telling of their completions.

ghost use Rattle.std.specs.Prelude.{◌≡◌, IfSome};
ghost use Rattle.nvme_model.specs.Config.{completion_queue};
ghost use Rattle.nvme_model.specs.Passes.{entries};
ghost use Rattle.meet_lock.specs.Passes.{config_of, seen};
ghost use Rattle.work_queue.specs.Engines.{IsWorkOf};
ghost use Rattle.work_queue.specs.Posted.{IsAnswerPosted};
ghost use Rattle.driver_testing.specs.Hosts.{ServesOn};
ghost use Rattle.shared_system.specs.Plain.{IsPlainCallerOf};

use shared_system::{PlainCaller, PlainSystem};
use std::sync::Wait;
use step_core::Answer;
use work_queue::{Notice, Work};

// The completion queue of a submission queue.
#[tactic(auto, using(shared_system::proofs::Systems::some_queues))]
fn completion_queue(system: &PlainSystem, queue: u16) -> u16
    ensures value { result ≡ completion_queue system.now.config queue }
{
    let count = system.config.numbers().cqs;
    queue.saturating_sub(1) % count + 1
}

/// Fetches the next command, or pair, of a submission queue; None where it is refused.
#[tactic(auto, using(shared_system::proofs::Going::fetched_ready, crate::proofs::Serving::fetched_serves))]
pub fn fetches(system: &PlainSystem, server: &mut PlainCaller, queue: u16) -> Option<Work>
    requires { IsPlainCallerOf system.now server.old }
    ensures same { IsPlainCallerOf system.now server.new }
    ensures serves { ServesOn server.old server.new }
    ensures work { IfSome result (IsWorkOf system.now.engine) }
{
    match system.engine.fetch(&mut server.pass, queue) {
        Ok(work) => Some(work),
        Err(_) => None,
    }
}

// Tells of a completion that was posted, where it was one of completion queue 1; whether it could.
#[tactic(auto, using(shared_system::proofs::Servers::noted))]
fn tells<R: Wait>(
    rt: &R,
    system: &PlainSystem,
    server: &mut PlainCaller,
    queue: u16,
    answer: &Answer,
) -> bool
    requires own { IsPlainCallerOf system.now server.old }
    requires posted { IsAnswerPosted (config_of server.old.pass) (entries (seen server.old.pass)) queue answer.now }
    ensures same { IsPlainCallerOf system.now server.new }
    ensures serves { ServesOn server.old server.new }
{
    let Answer::Posted(cqe) = answer else {
        return true;
    };
    let queue = completion_queue(system, queue);
    let Ok(notice) = Notice::new(&system.engine, &mut server.pass, queue, *cqe) else {
        return false;
    };
    system.notices.push(rt, &mut server.notices, notice).is_ok()
}

/// Makes the Work's next task, and tells of what it posted; whether there was a task. None where it was refused.
pub fn makes<R: Wait>(
    rt: &R,
    system: &PlainSystem,
    server: &mut PlainCaller,
    work: &mut Work,
) -> Option<bool>
    requires { IsPlainCallerOf system.now server.old × IsWorkOf system.now.engine work.old }
    ensures same { IsPlainCallerOf system.now server.new × IsWorkOf system.now.engine work.new }
    ensures serves { ServesOn server.old server.new }
{
    let Some(task) = work.next_task() else {
        return Some(false);
    };
    let queue = work.queue();
    let Ok(answer) = system.engine.attempt_work(&mut server.pass, work, task) else {
        return None;
    };
    if tells(rt, system, server, queue, &answer) {
        Some(true)
    } else {
        None
    }
}

/// Makes all tasks of a Work; whether none was refused.
#[tactic(auto, using(crate::proofs::Serving::serves_through))]
pub fn ends<R: Wait>(rt: &R, system: &PlainSystem, server: &mut PlainCaller, work: Work) -> bool
    requires { IsPlainCallerOf system.now server.old × IsWorkOf system.now.engine work }
    ensures same { IsPlainCallerOf system.now server.new }
    ensures serves { ServesOn server.old server.new }
{
    let mut work = work;
    for _ in rt.forever() {
        match makes(rt, system, server, &mut work) {
            Some(true) => {}
            Some(false) => break,
            None => return false,
        }
    }
    true
}

/// Serves all commands of a submission queue; whether nothing was refused but the last Fetch.
#[tactic(auto, using(crate::proofs::Serving::serves_through))]
pub fn serves<R: Wait>(rt: &R, system: &PlainSystem, server: &mut PlainCaller, queue: u16) -> bool
    requires { IsPlainCallerOf system.now server.old }
    ensures same { IsPlainCallerOf system.now server.new }
    ensures serves { ServesOn server.old server.new }
{
    for _ in rt.forever() {
        let Some(work) = fetches(system, server, queue) else {
            break;
        };
        if !ends(rt, system, server, work) {
            return false;
        }
    }
    true
}
