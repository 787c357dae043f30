//! Serving a disk: its commands one after the other.

ghost use Rattle.std.specs.Arc.{arc_value};
ghost use Rattle.std.specs.Prelude.{IfSome};
ghost use Rattle.slot_disk.specs.Hosts.{IsServer};
ghost use Rattle.work_queue.specs.Engines.{IsWorkOf};

use crate::setting::Setting;
use meet_lock::Pass;
use step_core::Core;
use work_queue::Work;

// Makes the next task of a Work; whether there was one. None where it was declined.
#[tactic(auto, using(crate::proofs::Servers::server_worked, crate::proofs::Servers::server_declined))]
fn makes(setting: &Setting, server: &mut Pass<Core>, work: &mut Work) -> Option<bool>
    requires server { IsServer (arc_value setting.now.engine) setting.now.config server.old }
    requires work { IsWorkOf (arc_value setting.now.engine) work.old }
    ensures server { IsServer (arc_value setting.now.engine) setting.now.config server.new }
    ensures work { IsWorkOf (arc_value setting.now.engine) work.new }
{
    let Some(task) = work.next_task() else {
        return Some(false);
    };
    match setting.engine.attempt_work(server, work, task) {
        Ok(_) => Some(true),
        Err(_) => None,
    }
}

// Makes all tasks of a Work; whether none was declined.
fn finishes(setting: &Setting, server: &mut Pass<Core>, work: Work) -> bool
    requires server { IsServer (arc_value setting.now.engine) setting.now.config server.old }
    requires work { IsWorkOf (arc_value setting.now.engine) work }
    ensures { IsServer (arc_value setting.now.engine) setting.now.config server.new }
{
    let mut work = work;
    for _ in 0..u64::MAX {
        match makes(setting, server, &mut work) {
            Some(true) => {}
            Some(false) => return true,
            None => return false,
        }
    }
    false
}

// Fetches from a submission queue; None where it was declined.
fn fetches(setting: &Setting, server: &mut Pass<Core>, queue: u16) -> Option<Work>
    requires { IsServer (arc_value setting.now.engine) setting.now.config server.old }
    ensures server { IsServer (arc_value setting.now.engine) setting.now.config server.new }
    ensures work { IfSome result (IsWorkOf (arc_value setting.now.engine)) }
{
    match setting.engine.fetch(server, queue) {
        Ok(work) => Some(work),
        Err(_) => None,
    }
}

/// Serves all that was published to a submission queue; whether nothing was declined but the last Fetch.
pub(crate) fn serves(setting: &Setting, server: &mut Pass<Core>, queue: u16) -> bool
    requires { IsServer (arc_value setting.now.engine) setting.now.config server.old }
    ensures { IsServer (arc_value setting.now.engine) setting.now.config server.new }
{
    for _ in 0..u64::MAX {
        let Some(work) = fetches(setting, server, queue) else {
            return true;
        };
        if !finishes(setting, server, work) {
            return false;
        }
    }
    false
}
