//! The server and the hosts, one after the other.

ghost use Rattle.std.specs.Prelude.{IfSome, IsSome, vec_len, ◌≤◌};
ghost use Rattle.slots_example.specs.Hosts.{AreCallersLeft, IsLockHost};
ghost use Rattle.shared_system.specs.Callers.{IsWorkerOf};

use history::Config;
use nvme_model::array::Range;
use race_hosts::{Host, host_of};
use shared_system::{Callers, System, WorkerPasses};
use std::alloc::Global;

/// A server; None where no worker's passes are left.
pub(crate) fn next_server<G>(
    _system: &System<G>,
    _config: &Config,
    callers: &mut Callers,
) -> Option<WorkerPasses>
    requires { AreCallersLeft _system.now _config.now callers.old }
    ensures left { AreCallersLeft _system.now _config.now callers.new }
    ensures server { IfSome result (IsWorkerOf _system.now) }
    ensures some { 1 ≤ vec_len callers.old.workers → IsSome result }
{
    callers.workers.pop()
}

/// The host of the next completion queue, whose number is its own too. Its one slot is block 0. None where no host's
/// passes are left, or memory is refused.
pub(crate) fn next_host<'a, G>(
    alloc: Global,
    config: &Config,
    system: &'a System<G>,
    callers: &mut Callers,
) -> Option<Host<'a>>
    requires { AreCallersLeft system.now config.now callers.old }
    ensures left { AreCallersLeft system.entry.now config.now callers.new }
    ensures host { IfSome result (IsLockHost system.entry.now) }
{
    let passes = callers.hosts.pop()?;
    let slot = Range { slba: 0, blocks: 1 };
    match host_of(alloc, config, system, passes, slot) {
        Ok(host) => Some(host),
        Err(_) => None,
    }
}
