//! Drivers that are made of a disk, each over one of its passes.

ghost use Rattle.std.specs.Arc.{arc_value};
ghost use Rattle.std.specs.Prelude.{◌+◌, ◌≡◌, ◌≤◌, IfErr, IfOk, None, OnErr, OnOk};
ghost use Rattle.driver_cas.specs.Drivers.{port_of};
ghost use Rattle.nvme_model.specs.Config.{completion_queue as queue_for};
ghost use Rattle.driver_cas.specs.Ports.{counted_of, engine_of, pass_of, queue_of};
ghost use Rattle.work_queue.specs.Engines.{IsFreshPass};
ghost use Rattle.c_handles.specs.Disks.{disk_config, disk_engine, disk_slots, hosts_had};
ghost use Rattle.c_handles.specs.Making.{HasGiven, HasRoom, IsNewDriver, IsNewcomer, IsNoted, MayRefuseHost};
ghost use Rattle.c_handles.specs.Making.{passes_left};

use crate::disk::Disk;
use crate::numbers::{BAD_NUMBER, NO_HOST, NO_MEMORY, NO_QUEUE, USED_NUMBER, USED_QUEUE};
use driver_cas::{Driver, SharedPort};
use history::Config;
use meet_lock::Pass;
use nvme_model::array::Range;
use slot_check::completion_queue;
use std::alloc::Global;
use std::sync::Arc;
use step_core::Core;
use work_queue::Engine;

// The port of a submission queue's completion queue.
#[tactic(auto, using(crate::proofs::Queues::queue_there))]
fn port_of(config: Config, engine: Arc<Engine>, pass: Pass<Core>, queue: u16) -> SharedPort<'static>
    requires { IsFreshPass (arc_value engine) config pass }
    ensures pass { IsFreshPass (arc_value engine) config (pass_of result) }
    ensures queue { queue_of result ≡ queue_for config queue }
    ensures engine { engine_of result ≡ arc_value engine }
    ensures asks { counted_of result ≡ None }
{
    let _accepted = config.numbers();
    SharedPort::own(engine, pass, completion_queue(&config, queue))
}

// The driver of a host; the pass, where memory is refused.
#[tactic(auto, using(crate::proofs::Queues::owns_one))]
fn driver_of(
    alloc: Global,
    config: Config,
    port: SharedPort<'static>,
    number: u32,
    queue: u16,
    slots: Range,
) -> Result<Driver<SharedPort<'static>>, Pass<Core>>
    requires pass { IsFreshPass (engine_of port) config (pass_of port) }
    requires of { queue_of port ≡ queue_for config queue }
    requires asks { counted_of port ≡ None }
    requires number { 1 ≤ number }
    requires queue { (1 ≤ queue) × (queue ≤ config.pairs) }
    requires slots { slots.slba + slots.blocks ≤ 65536 }
    ensures made { IfOk result (IsNewDriver (engine_of port.entry) config number queue slots) }
    ensures back { IfErr result (IsFreshPass (engine_of port.entry) config) }
{
    let Ok(queues) = [queue].to_vec(alloc) else {
        return Err(port.into_pass());
    };
    let acwu = config.numbers().atomic.acwu;
    match Driver::new(alloc, port, number, acwu, slots, queues) {
        Ok(driver) => Ok(driver),
        Err((port, _, _)) => Err(port.into_pass()),
    }
}

// Why there is no driver of this host on this submission queue: the number of the answer.
#[tactic(auto, using(crate::proofs::Queues::queue_there))]
fn refusal_of(disk: &Disk, number: u32, queue: u16) -> Result<(), u32>
    ensures none { OnOk result ((1 ≤ number) × IsNewcomer disk.now number queue) }
    ensures cause { IfErr result (MayRefuseHost disk.now number queue) }
{
    if number == 0 {
        return Err(BAD_NUMBER);
    }
    if queue == 0 || queue > disk.config.numbers().pairs {
        return Err(NO_QUEUE);
    }
    if disk.numbers.has(number) {
        return Err(USED_NUMBER);
    }
    if disk.numbers.has_host(completion_queue(&disk.config, queue)) {
        return Err(USED_QUEUE);
    }
    Ok(())
}

/// A driver with the disk's slots as this host on this submission queue, over the next of its passes. The host is to be
/// noted (`note_host`), or its driver to be taken back.
///
/// # Errors
///
/// The number of the answer: 115 for the host number 0, 1 where there is no such queue, 124 where a host had the
/// number, 125 where one had the queue's completion queue, 114 where no pass is left, 11 where memory is refused. The
/// pass stays.
pub fn give_driver(
    alloc: Global,
    disk: &mut Disk,
    number: u32,
    queue: u16,
) -> Result<Driver<SharedPort<'static>>, u32>
    ensures same { HasGiven disk.old disk.new × (hosts_had disk.new ≡ hosts_had disk.old) }
    ensures made { IfOk result
        (IsNewDriver (disk_engine disk.old) (disk_config disk.old) number queue (disk_slots disk.old)) }
    ensures new { OnOk result (IsNewcomer disk.old number queue) }
    ensures one { OnOk result (passes_left disk.new + 1 ≡ passes_left disk.old) }
    ensures room { OnOk result (HasRoom disk.new) }
    ensures kept { OnErr result (passes_left disk.new ≡ passes_left disk.old) }
    ensures cause { IfErr result (MayRefuseHost disk.old number queue) }
{
    refusal_of(disk, number, queue)?;
    let Ok(engine) = Arc::try_clone(&disk.engine) else {
        return Err(NO_MEMORY);
    };
    let Some(pass) = disk.passes.pop() else {
        return Err(NO_HOST);
    };
    let port = port_of(disk.config, engine, pass, queue);
    match driver_of(alloc, disk.config, port, number, queue, disk.slots) {
        Ok(driver) => Ok(driver),
        Err(pass) => {
            disk.passes.push(pass).unwrap();
            Err(NO_MEMORY)
        }
    }
}

/// Notes that the host of this number was made on this submission queue: no other host of the disk gets the number, nor
/// the completion queue.
#[tactic(auto, using(crate::proofs::Queues::queue_there))]
pub fn note_host(disk: &mut Disk, number: u32, queue: u16)
    requires { IsNewcomer disk.old number queue }
    ensures same { HasGiven disk.old disk.new × (passes_left disk.new ≡ passes_left disk.old) }
    ensures noted { IsNoted disk.old disk.new number queue }
{
    let _accepted = disk.config.numbers();
    disk.numbers
        .note(completion_queue(&disk.config, queue), number);
}

/// Takes a new driver apart, and puts its pass back into its disk.
pub fn take_back(disk: &mut Disk, driver: Driver<SharedPort<'static>>)
    requires pass { IsFreshPass (disk_engine disk.old) (disk_config disk.old) (pass_of (port_of driver)) }
    requires room { HasRoom disk.old }
    ensures same { HasGiven disk.old disk.new × (hosts_had disk.new ≡ hosts_had disk.old) }
    ensures one { passes_left disk.new ≡ passes_left disk.old + 1 }
{
    let back = driver.into_port().into_pass();
    disk.passes.push(back).unwrap();
}
