//! Two hosts and one slot, by the calls of `slot_alloc`, for programs that keep locks by them; then a host that dies,
//! and two that take its slot over.
#![tactic(auto)]

ghost use Rattle.std.specs.Prelude.{IfSome};
ghost use Rattle.slots_example.specs.Hosts.{IsLockHost};
ghost use Rattle.shared_system.specs.Callers.{IsWorkerOf};
ghost use Rattle.slot_alloc.specs.Claims.{IsHeldBy, IsReleasingOf};

mod listening;
mod making;
mod polling;
mod takeover;
mod taking;

use driver_cas::SharedPort;
use history::Config;
use listening::listens;
use making::{next_host, next_server};
use polling::{held_by, polled, polled_release};
use race_hosts::Host;
use shared_system::{System, WorkerPasses, serve, system_of};
use slot_alloc::{Claim, Progress, Releasing};
use std::process::ExitCode;
use std::sync::Wait;

// The host claims slot 0; None where it didn't get it. A pair has two completions: it listens twice, and polls twice.
fn claims<R: Wait, G>(
    rt: &R,
    system: &System<G>,
    server: &mut WorkerPasses,
    host: &mut Host<'_>,
) -> Option<Claim>
    requires own { IsWorkerOf system.now server.old × IsLockHost system.now host.old }
    ensures own { IsWorkerOf system.now server.new × IsLockHost system.now host.new }
    ensures held { IfSome result (IsHeldBy host.new.driver) }
{
    let Ok(claiming) = host.slots.claim(&mut host.driver, 0) else {
        return None;
    };
    serve(rt, system, server, host.queue);
    listens(rt, system, host);
    listens(rt, system, host);
    match polled(system, host, claiming) {
        Progress::Pending(claiming) => {
            let progress = polled(system, host, claiming);
            held_by(host, progress)
        }
        progress => held_by(host, progress),
    }
}

// The release is served, and polled; whether it is done.
fn ends<'a, R: Wait, G>(
    rt: &R,
    system: &System<G>,
    server: &mut WorkerPasses,
    host: &mut Host<'a>,
    releasing: Releasing<SharedPort<'a>>,
) -> bool
    requires own { IsWorkerOf system.now server.old × IsLockHost system.now host.old }
    requires releasing { IsReleasingOf host.old.driver releasing }
    ensures own { IsWorkerOf system.now server.new × IsLockHost system.now host.new }
{
    serve(rt, system, server, host.queue);
    listens(rt, system, host);
    listens(rt, system, host);
    match polled_release(system, host, releasing) {
        Ok(done) => done,
        Err(releasing) => match polled_release(system, host, releasing) {
            Ok(done) => done,
            Err(_) => false,
        },
    }
}

// The host releases what it holds; whether that is done. Else the slot may stay held.
fn releases<R: Wait, G>(
    rt: &R,
    system: &System<G>,
    server: &mut WorkerPasses,
    host: &mut Host<'_>,
    claim: Claim,
) -> bool
    requires own { IsWorkerOf system.now server.old × IsLockHost system.now host.old }
    requires held { IsHeldBy host.old.driver claim }
    ensures own { IsWorkerOf system.now server.new × IsLockHost system.now host.new }
{
    match host.slots.release(&mut host.driver, claim) {
        Ok(releasing) => ends(rt, system, server, host, releasing),
        Err((claim, _)) => {
            claim.leave();
            false
        }
    }
}

// The slot and the serial of a claim, which stays held.
fn leaves(claim: Option<Claim>) -> Option<(u32, u64)> {
    match claim {
        Some(claim) => Some(claim.leave()),
        None => None,
    }
}

// Host 1 claims the slot, host 2 claims it in vain, and gets it once host 1 has released it.
fn plays<R: Print + Wait, G>(
    rt: &R,
    system: &System<G>,
    server: &mut WorkerPasses,
    one: &mut Host<'_>,
    two: &mut Host<'_>,
) -> Option<()>
    requires { IsWorkerOf system.now server.old × IsLockHost system.now one.old × IsLockHost system.now two.old }
{
    let claim = claims(rt, system, server, one)?;
    let second = leaves(claims(rt, system, server, two));
    let released = releases(rt, system, server, one, claim);
    let third = leaves(claims(rt, system, server, two));
    println!(rt; "host 1 holds slot 0, and host 2 claims it: {second:?}").ok()?;
    println!(rt; "host 1 releases it: {released}").ok()?;
    println!(rt; "host 2 claims it, and leaves it held, slot and serial: {third:?}").ok()
}

fn runs<R: AllocGlobal + Print + Wait>(rt: &R) -> Option<()> {
    // A controller of two queue pairs; host h uses queue h, and its one slot is block 0.
    let config = Config::new(8, 1, 1, 0, 0, 2, 4, 4, 8).ok()?;
    let Ok((system, mut callers)) = system_of(rt.alloc(), config, (), 1) else {
        return None;
    };
    let mut server = next_server(&system, &config, &mut callers)?;
    let mut one = next_host(rt.alloc(), &config, &system, &mut callers)?;
    let mut two = next_host(rt.alloc(), &config, &system, &mut callers)?;
    plays(rt, &system, &mut server, &mut one, &mut two)
}

fn main(rt: HostRuntime) -> ExitCode {
    match (runs(&rt), takeover::runs(&rt)) {
        (Some(()), Some(())) => ExitCode::SUCCESS,
        (None, _) | (_, None) => ExitCode::FAILURE,
    }
}
