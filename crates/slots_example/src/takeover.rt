//! A host that dies and two survivors, on one thread with the server of their controller.

ghost use Rattle.std.specs.Prelude.{IfSome};
ghost use Rattle.slots_example.specs.Hosts.{IsSlotHost};
ghost use Rattle.shared_system.specs.Callers.{IsWorkerOf};
ghost use Rattle.slot_takeover.specs.Takeovers.{HoldsTaken, IsTakingOverOf};

use crate::making::{next_host, next_server};
use crate::taking::{holder_read, is_given_back, won};
use driver_cas::SharedPort;
use history::Config;
use nvme_model::Name;
use race_hosts::Host;
use shared_system::{System, WorkerPasses, serve, system_of};
use slot_takeover::{HeldSlot, Holder, TakingOver, give_back, read_holder, take_over};
use std::sync::Wait;

// The host begins to claim slot 0; whether that was published.
fn claims<G>(_system: &System<G>, host: &mut Host<'_>) -> bool
    requires { IsSlotHost _system.now host.old }
{
    host.slots.claim(&mut host.driver, 0).is_ok()
}

// The host claims slot 0, and dies: nobody asks what came of its claim, and its driver goes with it. So it is fenced,
// and nothing is published on its queues from here on. What it published is served. Whether it was published.
fn claims_and_dies<R: Wait, G>(
    rt: &R,
    system: &System<G>,
    server: &mut WorkerPasses,
    mut host: Host<'_>,
) -> bool
    requires server { IsWorkerOf system.now server.old }
    requires host { IsSlotHost system.now host }
    ensures server { IsWorkerOf system.now server.new }
{
    let is_published = claims(system, &mut host);
    let queue = host.queue;
    drop(host);
    serve(rt, system, server, queue);
    is_published
}

// The host reads who holds slot 0.
fn reads<R: Wait, G>(
    rt: &R,
    system: &System<G>,
    server: &mut WorkerPasses,
    host: &mut Host<'_>,
) -> Option<Holder>
    requires own { IsWorkerOf system.now server.old × IsSlotHost system.now host.old }
    ensures own { IsWorkerOf system.now server.new × IsSlotHost system.now host.new }
{
    let reading = read_holder(&host.slots, &mut host.driver, 0).ok()?;
    serve(rt, system, server, host.queue);
    holder_read(rt, system, host, reading)
}

// The name of a host that died: its number, and the serial of its claim.
#[derive(Clone, Copy)]
struct DeadName {
    host: u32,
    serial: u64,
}

// The name under which a slot is held.
fn dead_name_of(holder: Holder) -> Option<DeadName> {
    match holder {
        Holder::Of(name) => Some(DeadName {
            host: name.host,
            serial: name.serial,
        }),
        Holder::Free | Holder::Foreign => None,
    }
}

// Who holds a slot, in a word.
fn holder_word(holder: Holder) -> &'static str {
    match holder {
        Holder::Free => "nobody",
        Holder::Of(_name) => "a host",
        Holder::Foreign => "somebody foreign",
    }
}

// The host begins to take slot 0 over from a name of another host.
fn begins<'a, G>(
    _system: &System<G>,
    host: &mut Host<'a>,
    dead: DeadName,
) -> Option<TakingOver<SharedPort<'a>>>
    requires host { IsSlotHost _system.now host.old }
    ensures host { IsSlotHost _system.now host.new }
    ensures taking { IfSome result (IsTakingOverOf host.new.driver) }
{
    if dead.host == u32::from(host.queue) || dead.host == 0 || dead.serial == 0 {
        return None;
    }
    let name = Name {
        host: dead.host,
        serial: dead.serial,
    };
    take_over(&host.slots, &mut host.driver, 0, name).ok()
}

// The host gives slot 0 back; whether that is done. Else the slot may stay held.
fn gives<R: Wait, G>(
    rt: &R,
    system: &System<G>,
    server: &mut WorkerPasses,
    host: &mut Host<'_>,
    held: HeldSlot,
) -> bool
    requires own { IsWorkerOf system.now server.old × IsSlotHost system.now host.old }
    requires held { HoldsTaken host.old.driver held }
    ensures own { IsWorkerOf system.now server.new × IsSlotHost system.now host.new }
{
    match give_back(&host.slots, &mut host.driver, held) {
        Ok(giving) => {
            serve(rt, system, server, host.queue);
            is_given_back(rt, system, host, giving)
        }
        Err((held, _)) => {
            held.leave();
            false
        }
    }
}

// Both take slot 0 over from the dead name before either is served. Who has it then gives it back: whether the first
// did, and the second.
fn both_take_over<R: Wait, G>(
    rt: &R,
    system: &System<G>,
    server: &mut WorkerPasses,
    first: &mut Host<'_>,
    second: &mut Host<'_>,
    dead: DeadName,
) -> Option<(bool, bool)>
    requires server { IsWorkerOf system.now server.old }
    requires first { IsSlotHost system.now first.old }
    requires second { IsSlotHost system.now second.old }
    ensures server { IsWorkerOf system.now server.new }
    ensures first { IsSlotHost system.now first.new }
    ensures second { IsSlotHost system.now second.new }
{
    let one = begins(system, first, dead)?;
    let two = begins(system, second, dead)?;
    serve(rt, system, server, first.queue);
    serve(rt, system, server, second.queue);
    let one = won(rt, system, first, one);
    let two = won(rt, system, second, two);
    let one = ends(rt, system, server, first, one);
    let two = ends(rt, system, server, second, two);
    Some((one, two))
}

// The host gives the slot back if it has it; whether it did.
fn ends<R: Wait, G>(
    rt: &R,
    system: &System<G>,
    server: &mut WorkerPasses,
    host: &mut Host<'_>,
    held: Option<HeldSlot>,
) -> bool
    requires own { IsWorkerOf system.now server.old × IsSlotHost system.now host.old }
    requires held { IfSome held (HoldsTaken host.old.driver) }
    ensures own { IsWorkerOf system.now server.new × IsSlotHost system.now host.new }
{
    match held {
        Some(held) => gives(rt, system, server, host, held),
        None => false,
    }
}

// Host 1 claims the slot and dies, and hosts 2 and 3 take it over.
fn plays<R: Print + Wait, G>(
    rt: &R,
    system: &System<G>,
    server: &mut WorkerPasses,
    one: Host<'_>,
    two: &mut Host<'_>,
    three: &mut Host<'_>,
) -> Option<()>
    requires server { IsWorkerOf system.now server.old }
    requires one { IsSlotHost system.now one }
    requires survivors { IsSlotHost system.now two.old × IsSlotHost system.now three.old }
{
    let claimed = claims_and_dies(rt, system, server, one);
    let dead = dead_name_of(reads(rt, system, server, two)?)?;
    let done = both_take_over(rt, system, server, two, three, dead)?;
    let holder = holder_word(reads(rt, system, server, three)?);
    println!(rt; "host 1 claims slot 0, and dies: {claimed}").ok()?;
    println!(rt;
        "host 2 reads who holds it: host {}, serial {}",
        dead.host, dead.serial
    )
    .ok()?;
    println!(rt; "hosts 2 and 3 take it over; who has it gives it back: {done:?}").ok()?;
    println!(rt; "host 3 reads who holds it then: {holder}").ok()
}

// Host 1 claims the slot and dies; hosts 2 and 3 take it over.
pub(crate) fn runs<R: AllocGlobal + Print + Wait>(rt: &R) -> Option<()> {
    // A controller of three queue pairs; host h uses queue h, and its one slot is block 0.
    let config = Config::new(8, 1, 1, 0, 0, 3, 4, 4, 8).ok()?;
    let Ok((system, mut callers)) = system_of(rt.alloc(), config, (), 1) else {
        return None;
    };
    let mut server = next_server(&system, &config, &mut callers)?;
    let one = next_host(rt.alloc(), &config, &system, &mut callers)?;
    let mut two = next_host(rt.alloc(), &config, &system, &mut callers)?;
    let mut three = next_host(rt.alloc(), &config, &system, &mut callers)?;
    plays(rt, &system, &mut server, one, &mut two, &mut three)
}
