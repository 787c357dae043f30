//! What the host of a completion queue has once its driver is made.

ghost use Rattle.std.specs.List.Sorted.{IsStrictlyIncreasing};
ghost use Rattle.std.specs.Prelude.{◌≡◌, ◌≤◌, ◌<◌, ◌+◌, All, IfErr, IfOk, OnOk, length, true, vec_len};
ghost use Rattle.meet_lock.specs.Passes.{IsSame, number, seen};
ghost use Rattle.shared_system.specs.Callers.{IsHostOf};
ghost use Rattle.driver_cas.specs.Drivers as driver;
ghost use Rattle.driver_cas.specs.Ports.{pass_of};
ghost use Rattle.slot_alloc.specs.Areas.{area};
ghost use Rattle.many_host_laws.specs.Hosts.{IsHost};
ghost use Rattle.race_hosts.specs.Hosts.{HasEach, HasEachBelow, IsHosting, port_queue, rounds_begun, uses};
ghost use Rattle.race_hosts.specs.Playing.{HostPassesContinue};
ghost use Rattle.nvme_model.specs.Array.{IsRange};

use driver_cas::{Driver, SharedPort};
use history::Config;
use many_host_laws::driver_laws::a_new_driver_is_a_host;
use nvme_model::array::Range;
use shared_system::{HostPasses, System};
use slot_alloc::Slots;
use std::alloc::{AllocError as NoMemory, Global};
use work_queue::{Notice, QueuePass};

/// A host of a system, with its driver.
#[derive(Drop)]
pub struct Host<'a> {
    pub driver: Driver<SharedPort<'a>>,
    /// Those of the driver's slot area.
    pub slots: Slots,
    /// The driver's completion queue, from 1.
    pub queue: u16,
    /// Of its queue of notices.
    pub notices: QueuePass<Notice>,
}

impl<'a> Host<'a> {
    /// Its passes, given back with all that its own has seen. Completions that the driver's calls are owed stay owed.
    pub fn into_caller(self) -> HostPasses
        ensures pass { result.pass ≡ pass_of (driver.port_of self.entry.driver) }
        ensures rest { (result.queue ≡ self.entry.queue) × (result.notices ≡ self.entry.notices) }
    {
        let Host {
            driver,
            queue,
            notices,
            ..
        } = self;
        HostPasses {
            pass: driver.into_port().into_pass(),
            queue,
            notices,
        }
    }
}

// One more submission queue, behind lower ones.
#[tactic(auto, using(crate::proofs::Queues::one_more))]
fn put_queue(
    _config: &Config,
    _queue: u16,
    queues: &mut Vec<u16>,
    next: u16,
) -> Result<(), NoMemory>
    requires rising { IsStrictlyIncreasing queues.old.items }
    requires below { All (λ n. n < next) queues.old.items }
    requires all { All (λ n. uses _config.now _queue n ≡ true) queues.old.items }
    requires uses { uses _config.now _queue next ≡ true }
    requires each { HasEachBelow _config.now _queue next queues.old.items }
    ensures rising { OnOk result (IsStrictlyIncreasing queues.new.items) }
    ensures below { OnOk result (All (λ n. n < next + 1) queues.new.items) }
    ensures all { OnOk result (All (λ n. uses _config.now _queue n ≡ true) queues.new.items) }
    ensures some { OnOk result (1 ≤ vec_len queues.new) }
    ensures each { OnOk result (HasEachBelow _config.now _queue (next + 1) queues.new.items) }
{
    queues.push(next)?;
    Ok(())
}

// The submission queues that use this completion queue, in rising order.
#[tactic(auto, using(crate::proofs::Queues::first_use, crate::proofs::Queues::next_use, crate::proofs::Queues::empty))]
fn submission_queues(alloc: Global, config: &Config, queue: u16) -> Result<Vec<u16>, NoMemory>
    requires there { (1 ≤ queue) × (queue ≤ config.now.cqs) }
    ensures some { IfOk result (λ q. 1 ≤ vec_len q) }
    ensures rising { IfOk result (λ q. IsStrictlyIncreasing q.items) }
    ensures all { IfOk result (λ q. All (λ n. uses config.now queue n ≡ true) q.items) }
    ensures each { IfOk result (λ q. HasEach config.now queue q.items) }
{
    let numbers = config.numbers();
    let mut queues = Vec::new(alloc);
    put_queue(config, queue, &mut queues, queue)?;
    for k in queue..numbers.pairs {
        if k % numbers.cqs == queue - 1 {
            put_queue(config, queue, &mut queues, k + 1)?;
        }
    }
    Ok(queues)
}

/// The host of a completion queue of this configuration's controller, whose number is its host number. Its driver uses
/// all submission queues that use the completion queue, and these blocks are its slots.
///
/// # Errors
///
/// The passes, where a growth is refused.
#[tactic(auto, using(crate::proofs::Playing::caller_kept, crate::proofs::Playing::caller_same))]
pub fn host_of<'a, G>(
    alloc: Global,
    config: &Config,
    system: &'a System<G>,
    caller: HostPasses,
    slots: Range,
) -> Result<Host<'a>, HostPasses>
    requires caller { IsHostOf system.now config.now caller }
    requires slots { IsRange slots }
    ensures hosting { IfOk result (IsHosting system.entry.now) }
    ensures none { IfOk result (λ h. rounds_begun h ≡ 0) }
    ensures queue { IfOk result (λ h. (h.queue ≡ caller.queue) × (port_queue h ≡ caller.queue)) }
    ensures host { IfOk result (λ h. driver.host_of h.driver ≡ caller.queue) }
    ensures acwu { IfOk result (λ h. driver.acwu_of h.driver ≡ config.now.atomic.acwu) }
    ensures slots { IfOk result (λ h. (driver.area_of h.driver ≡ slots) × (area h.slots ≡ slots)) }
    ensures queues { IfOk result (λ h. HasEach config.now caller.queue (driver.queues_used h.driver)) }
    ensures is { IfOk result (λ h. IsHost config.now slots (number caller.pass) caller.queue caller.queue h.driver) }
    ensures pass { IfOk result (λ h. let p = pass_of (driver.port_of h.driver) in
        IsSame caller.pass p × (seen p ≡ seen caller.pass)) }
    ensures back { IfErr result (HostPassesContinue system.entry.now caller) }
{
    let Ok(queues) = submission_queues(alloc, config, caller.queue) else {
        return Err(caller);
    };
    let HostPasses {
        pass,
        queue,
        notices,
    } = caller;
    let acwu = config.numbers().atomic.acwu;
    let port = SharedPort::new(&system.engine, pass, queue);
    match Driver::new(alloc, port, u32::from(queue), acwu, slots, queues) {
        Ok(driver) => {
            a_new_driver_is_a_host(&driver);
            Ok(Host {
                driver,
                slots: Slots::new(slots.slba, slots.blocks),
                queue,
                notices,
            })
        }
        Err((port, _, _)) => Err(HostPasses {
            pass: port.into_pass(),
            queue,
            notices,
        }),
    }
}
