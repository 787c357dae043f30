//! A host, with the driver that it makes calls of.

ghost use Rattle.std.specs.List.Sorted.{IsStrictlyIncreasing};
ghost use Rattle.std.specs.Prelude.{◌≡◌, ◌≤◌, ◌+◌, All, IfSome, [], length, true};
ghost use Rattle.driver_cas.specs.Drivers.{area_of, made};
ghost use Rattle.meet_lock.specs.Passes.{number as number_of, seen};
ghost use Rattle.many_host_laws.specs.Hosts.{IsHost};
ghost use Rattle.driver_testing.specs.Hosts.{IsTestHost, uses};
ghost use Rattle.shared_system.specs.Plain.{IsPlainCallerOf};

use driver_cas::{Driver, SharedPort};
use many_host_laws::driver_laws::a_new_driver_is_a_host;
use nvme_model::array::Range;
use shared_system::{PlainCaller, PlainSystem};
use std::alloc::Global;
use work_queue::{Notice, QueuePass};

/// A host.
#[derive(Drop)]
pub struct TestHost<'a> {
    pub driver: Driver<SharedPort<'a>>,
    pub place: QueuePass<Notice>,
}

/// A host with this number, whose driver uses these submission queues of one completion queue; None where memory is
/// refused.
pub fn host_of<'a>(
    alloc: Global,
    system: &'a PlainSystem,
    caller: PlainCaller,
    number: u32,
    slots: Range,
    queue: u16,
    queues: Vec<u16>,
) -> Option<TestHost<'a>>
    requires caller { IsPlainCallerOf system.now caller }
    requires number { 1 ≤ number }
    requires slots { slots.slba + slots.blocks ≤ 65536 }
    requires there { (1 ≤ queue) × (queue ≤ system.now.config.cqs) }
    requires some { 1 ≤ length queues.items }
    requires rising { IsStrictlyIncreasing queues.items }
    requires uses { All (λ q. uses system.now.config queue q ≡ true) queues.items }
    ensures host { IfSome result (IsTestHost system.entry.now) }
    ensures area { IfSome result (λ h. area_of h.driver ≡ slots) }
    ensures made { IfSome result (λ h. made h.driver ≡ []) }
    ensures is { seen caller.pass ≡ [] →
        IfSome result (λ h. IsHost system.entry.now.config slots (number_of caller.pass) queue number h.driver) }
{
    let PlainCaller { pass, notices, .. } = caller;
    let port = SharedPort::new(&system.engine, pass, queue);
    let acwu = system.config.numbers().atomic.acwu;
    match Driver::new(alloc, port, number, acwu, slots, queues) {
        Ok(driver) => {
            a_new_driver_is_a_host(&driver);
            Some(TestHost {
                driver,
                place: notices,
            })
        }
        Err(_) => None,
    }
}
