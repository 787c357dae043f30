//! The program of docs/DRIVER.md: a Write, and then a Compare and Write of its block, served on the same thread. Then
//! two hosts that own their ports, for programs that can't borrow an engine.
#![tactic(auto)]

ghost use Rattle.std.specs.Prelude.{IfSome, ◌≡◌};
ghost use Rattle.driver_cas.specs.Drivers.{IsCallOf};
ghost use Rattle.driver_cas.specs.declared.shared_port.SharedPort.{SharedPort};
ghost use Rattle.driver_example.specs.Hosts.{IsQueueHost};
ghost use Rattle.history.specs.Config.{config_numbers};
ghost use Rattle.shared_system.specs.Callers.{AreCallersOf, IsHostOf, IsWorkerOf};

mod owned;

use driver_cas::{Call, Driver, Poll, Reply, SharedPort};
use history::Config;
use nvme_model::array::Range;
use shared_system::{Callers, HostPasses, System, WorkerPasses, serve, system_of};
use std::alloc::Global;
use std::process::ExitCode;
use std::sync::Wait;
use work_queue::{Notice, QueuePass};

// The host of completion queue 1: its driver, and its pass of the queue of notices.
#[derive(Drop)]
struct QueueHost<'a> {
    driver: Driver<SharedPort<'a>>,
    notices: QueuePass<Notice>,
}

// Host 1, on submission queue 1. Blocks 0 and 1 are its slots.
fn host_of<'a, G>(
    alloc: Global,
    config: &Config,
    system: &'a System<G>,
    passes: HostPasses,
) -> Option<QueueHost<'a>>
    requires passes { IsHostOf system.now config.now passes }
    requires config { config.now ≡ config_numbers 8 1 1 0 0 1 4 4 8 1 }
    ensures { IfSome result (IsQueueHost system.entry.now) }
{
    let HostPasses { pass, notices, .. } = passes;
    let acwu = config.numbers().atomic.acwu;
    let port = SharedPort::new(&system.engine, pass, 1);
    let slots = Range { slba: 0, blocks: 2 };
    let queues = [1].to_vec(alloc).ok()?;
    match Driver::new(alloc, port, 1, acwu, slots, queues) {
        Ok(driver) => Some(QueueHost { driver, notices }),
        Err(_) => None,
    }
}

// Learns of each completion that was posted.
fn listens<R: Wait, G>(rt: &R, system: &System<G>, host: &mut QueueHost<'_>)
    requires { IsQueueHost system.now host.old }
    ensures host { IsQueueHost system.now host.new }
    ensures calls { (k : Call SharedPort) → IsCallOf host.old.driver k → IsCallOf host.new.driver k }
{
    for _ in rt.forever() {
        if !host
            .driver
            .listen(rt, &system.notices[0], &mut host.notices)
        {
            break;
        }
    }
}

// What a call is answered, in words, once the commands of submission queue 1 are served.
fn served<'a, R: Wait, G>(
    rt: &R,
    system: &System<G>,
    server: &mut WorkerPasses,
    host: &mut QueueHost<'a>,
    call: Call<SharedPort<'a>>,
) -> Option<&'static str>
    requires own { IsWorkerOf system.now server.old × IsQueueHost system.now host.old }
    requires call { IsCallOf host.old.driver call }
    ensures { IsWorkerOf system.now server.new × IsQueueHost system.now host.new }
{
    serve(rt, system, server, 1);
    listens(rt, system, host);
    // A poll reaps one completion, and a pair has two.
    match host.driver.poll(call) {
        Poll::Done(reply) => words(&reply),
        Poll::Pending(call) => match host.driver.poll(call) {
            Poll::Done(reply) => words(&reply),
            Poll::Pending(_) | Poll::Later(_, _) | Poll::Failed(_) => None,
        },
        Poll::Later(_, _) | Poll::Failed(_) => None,
    }
}

fn words(reply: &Reply) -> Option<&'static str> {
    match reply {
        Reply::Written => Some("Written"),
        Reply::Swapped => Some("Swapped"),
        Reply::Read(_) | Reply::Equal | Reply::Differs => None,
    }
}

// The passes of the one worker and of the one host.
fn seats_of<G>(
    _system: &System<G>,
    _config: &Config,
    callers: Callers,
) -> Option<(WorkerPasses, HostPasses)>
    requires { AreCallersOf _system.now _config.now 1 callers }
    ensures server { IfSome result (λ s. IsWorkerOf _system.now s.0) }
    ensures host { IfSome result (λ s. IsHostOf _system.now _config.now s.1) }
{
    let Callers {
        mut workers,
        mut hosts,
        ..
    } = callers;
    Some((workers.pop()?, hosts.pop()?))
}

fn runs<R: AllocGlobal + Print + Wait>(rt: &R) -> Option<()> {
    // A controller of 8 blocks with one queue pair; its engine and queues, with the passes of one worker.
    let Ok(config) = Config::new(8, 1, 1, 0, 0, 1, 4, 4, 8) else {
        return None;
    };
    let Ok((system, callers)) = system_of(rt.alloc(), config, (), 1) else {
        return None;
    };
    let (mut server, passes) = seats_of(&system, &config, callers)?;
    let mut host = host_of(rt.alloc(), &config, &system, passes)?;
    let Ok(write) = host.driver.start_write(2, &[0xa1; 512]) else {
        return None;
    };
    let told = served(rt, &system, &mut server, &mut host, write)?;
    println!(rt; "write: {told}").ok()?;
    let (old, new) = ([0xa1; 512], [0xb2; 512]);
    let Ok(pair) = host.driver.start_compare_and_write(2, &old, &new) else {
        return None;
    };
    let told = served(rt, &system, &mut server, &mut host, pair)?;
    println!(rt; "compare and write: {told}").ok()
}

fn main(rt: HostRuntime) -> ExitCode {
    match (runs(&rt), owned::runs(&rt)) {
        (Some(()), Some(())) => ExitCode::SUCCESS,
        (None, _) | (_, None) => ExitCode::FAILURE,
    }
}
