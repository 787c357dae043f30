//! Two hosts that own their ports: they swap the same block, one after the other.

ghost use Rattle.std.specs.Arc.{arc_value};
ghost use Rattle.std.specs.Prelude.{◌≡◌, ◌≤◌, IfSome};
ghost use Rattle.driver_cas.specs.Drivers.{IsCallOf};
ghost use Rattle.history.specs.Config.{config_numbers};
ghost use Rattle.meet_lock.specs.Passes.{config_of};
ghost use Rattle.shared_system.specs.Plain.{ArePlainCallers};
ghost use Rattle.work_queue.specs.Engines.{IsPassOfEngine, IsWorkOf};

use driver_cas::{Call, Driver, Poll, Reply, SharedPort};
use history::Config;
use meet_lock::Pass;
use nvme_model::array::Range;
use shared_system::{PlainCallers, PlainSystem, plain_system_of, take_caller};
use std::alloc::Global;
use std::sync::Arc;
use step_core::Core;
use work_queue::{Engine, Open, Opened, Work};

// A host, which owns all that it needs, so it may be kept beside the controller.
type OwnHost = Driver<SharedPort<'static>>;

// A controller and who serves it.
#[derive(Drop)]
struct Disk {
    engine: Arc<Engine>,
    server: Pass<Core>,
    ghost own: { IsPassOfEngine (arc_value engine) server },
}

// Host h, on submission queue h, with no slots.
fn host_of(alloc: Global, engine: &Arc<Engine>, pass: Pass<Core>, h: u16) -> Option<OwnHost>
    requires pass { IsPassOfEngine (arc_value engine.now) pass }
    requires config { config_of pass ≡ config_numbers 8 1 1 0 0 2 4 4 8 2 }
    requires number { (1 ≤ h) × (h ≤ 2) }
{
    let engine = Arc::try_clone(engine).ok()?;
    let port = SharedPort::own(engine, pass, h);
    let none = Range { slba: 0, blocks: 0 };
    let queues = [h].to_vec(alloc).ok()?;
    match Driver::new(alloc, port, u32::from(h), 1, none, queues) {
        Ok(driver) => Some(driver),
        Err(_) => None,
    }
}

// Makes the next task of a Work; whether there was one. None where it was refused.
fn makes(disk: &mut Disk, work: &mut Work) -> Option<bool>
    requires { IsWorkOf (arc_value disk.old.engine) work.old }
    ensures engine { disk.new.engine ≡ disk.old.engine }
    ensures work { IsWorkOf (arc_value disk.new.engine) work.new }
{
    let Some(task) = work.next_task() else {
        return Some(false);
    };
    match disk.engine.attempt_work(&mut disk.server, work, task) {
        Ok(_) => Some(true),
        Err(_) => None,
    }
}

// Serves the next command, or pair, of a submission queue; whether nothing was refused.
fn serve(disk: &mut Disk, queue: u16) -> bool {
    let Ok(mut work) = disk.engine.fetch(&mut disk.server, queue) else {
        return false;
    };
    for _ in 0..u64::MAX {
        match makes(disk, &mut work) {
            Some(true) => {}
            Some(false) => return true,
            None => return false,
        }
    }
    false
}

// Begins to swap zeros in block 3 for this block.
fn swap(host: &mut OwnHost, block: &[u8; 512]) -> Option<Call<SharedPort<'static>>>
    ensures { IfSome result (IsCallOf host.new) }
{
    let Ok(call) = host.start_compare_and_write(3, &[0; 512], block) else {
        return None;
    };
    Some(call)
}

// What a pair is answered, in words: a poll reaps one completion, and a pair has two.
fn told(host: &mut OwnHost, call: Call<SharedPort<'static>>) -> Option<&'static str>
    requires { IsCallOf host.old call }
{
    let Poll::Pending(call) = host.poll(call) else {
        return None;
    };
    match host.poll(call) {
        Poll::Done(Reply::Swapped) => Some("Swapped"),
        Poll::Done(Reply::Differs) => Some("Differs"),
        Poll::Done(Reply::Read(_) | Reply::Written | Reply::Equal)
        | Poll::Pending(_)
        | Poll::Later(..)
        | Poll::Failed(_) => None,
    }
}

// A controller of 8 blocks with two queue pairs, and three callers.
fn system_of(alloc: Global) -> Option<(PlainSystem, PlainCallers)>
    ensures callers { IfSome result (λ h. ArePlainCallers h.0 h.1) }
    ensures config { IfSome result (λ h. h.0.config ≡ config_numbers 8 1 1 0 0 2 4 4 8 2) }
{
    let config = Config::new(8, 1, 1, 0, 0, 2, 4, 4, 8).ok()?;
    plain_system_of(alloc, config, 1, 3).ok()
}

// The next caller's pass.
fn next_pass(system: &PlainSystem, callers: &mut PlainCallers) -> Option<Pass<Core>>
    requires callers { ArePlainCallers system.now callers.old }
    requires config { system.now.config ≡ config_numbers 8 1 1 0 0 2 4 4 8 2 }
    ensures rest { ArePlainCallers system.now callers.new }
    ensures pass { IfSome result (IsPassOfEngine system.now.engine) }
    ensures config { IfSome result (λ p. config_of p ≡ config_numbers 8 1 1 0 0 2 4 4 8 2) }
{
    Some(take_caller(system, callers)?.pass)
}

// The controller, and two hosts.
fn set_up(alloc: Global) -> Option<(Disk, OwnHost, OwnHost)> {
    let (system, mut callers) = system_of(alloc)?;
    let server = next_pass(&system, &mut callers)?;
    let first = next_pass(&system, &mut callers)?;
    let second = next_pass(&system, &mut callers)?;
    let PlainSystem { engine, .. } = system;
    let engine = Arc::new(alloc, engine).ok()?;
    let one = host_of(alloc, &engine, first, 1)?;
    let two = host_of(alloc, &engine, second, 2)?;
    Some((Disk { engine, server }, one, two))
}

// Two swaps of one block, of which one finds what the other wrote.
pub(crate) fn runs<R: AllocGlobal + Print>(rt: &R) -> Option<()> {
    let (mut disk, mut one, mut two) = set_up(rt.alloc())?;
    // Both begin before either is served.
    let a = swap(&mut one, &[0xa1; 512])?;
    let b = swap(&mut two, &[0xb2; 512])?;
    if !(serve(&mut disk, 2) && serve(&mut disk, 1)) {
        return None;
    }
    println!(rt; "host 1: {}", told(&mut one, a)?).ok()?;
    println!(rt; "host 2: {}", told(&mut two, b)?).ok()
}
