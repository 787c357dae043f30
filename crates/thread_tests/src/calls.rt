//! What tests publish and reap, and what they close.

ghost use Rattle.std.specs.Prelude.{IfOk, IfSome};
ghost use Rattle.meet_lock.specs.Passes.{IsSame};
ghost use Rattle.work_queue.specs.Engines as engine;
ghost use Rattle.work_queue.specs.Notices.{IsNoticeOf};
ghost use Rattle.shared_system.specs.Callers.{IsCallerOf};
ghost use Rattle.thread_tests.specs.Listening.{IsListening};

use history_check::check;
use meet_lock::{Pass, Unmade};
use nvme_model::submission::{Payload, Submission, Submissions};
use shared_system::{CallerPasses, HostPasses, System};
use std::alloc::{AllocError as NoMemory, Global};
use std::sync::Wait;
use std::test::Fail;
use std::thread::yield_now;
use step_core::Core;
use work_queue::Notice;

/// How often a host looks for a notice.
const TURNS: u32 = 20_000_000;

/// A Write of A1: its CID, its first block and how many.
pub(crate) type WriteCall = (u8, u8, u8);

fn adds(alloc: Global, batch: &mut Vec<Submission>, write: WriteCall) -> Result<(), NoMemory> {
    let (cid, block, blocks) = write;
    let mut entry = [0; 64];
    entry[0] = 1;
    entry[2] = cid;
    entry[4] = 1;
    entry[40] = block;
    entry[48] = blocks.saturating_sub(1);
    let mut bytes = Vec::new(alloc);
    for _ in 0..512 * u32::from(blocks) {
        bytes.push(0xa1)?;
    }
    Ok(batch.push(Submission {
        entry,
        payload: Payload::new(bytes),
    })?)
}

/// Puts the Writes into a batch.
pub(crate) fn adds_all(
    alloc: Global,
    batch: &mut Vec<Submission>,
    writes: &[WriteCall],
) -> Result<(), NoMemory> {
    for write in writes {
        adds(alloc, batch, *write)?;
    }
    Ok(())
}

/// Whether the batch is published on this submission queue.
pub(crate) fn publishes<G>(
    system: &System<G>,
    pass: &mut Pass<Core>,
    queue: u16,
    batch: Vec<Submission>,
) -> bool
    requires { engine.IsPassOfEngine system.now.engine pass.old }
    ensures { IsSame pass.old pass.new }
{
    let batch = Submissions::new(batch);
    system.engine.publish(pass, queue, batch).is_ok()
}

// The next notice.
fn popped<R: Wait, G>(rt: &R, system: &System<G>, host: &mut HostPasses) -> Option<Notice>
    requires { IsListening system.now host.old }
    ensures same { IsListening system.now host.new }
    ensures notice { IfSome result (IsNoticeOf system.now.engine) }
{
    let place = usize::from(host.queue.saturating_sub(1));
    if place >= system.notices.len() {
        return None;
    }
    system.notices[place].pop(rt, &mut host.notices)
}

// Waits for a notice and learns it; the completion that it names, or None where the stop flag was set before or none
// came.
fn heard<R: Wait, G>(rt: &R, system: &System<G>, host: &mut HostPasses) -> Option<[u8; 16]>
    requires { IsListening system.now host.old }
    ensures { IsListening system.now host.new }
{
    for _ in 0..TURNS {
        if let Some(mut notice) = popped(rt, system, host) {
            let _ = system.engine.learn(&mut host.pass, &mut notice);
            return Some(notice.cqe());
        }
        if system.stop.is_set() {
            return None;
        }
        yield_now();
    }
    None
}

// The next completion; None where there is none.
fn reaped<R: Wait, G>(rt: &R, system: &System<G>, host: &mut HostPasses) -> Option<[u8; 16]>
    requires { IsListening system.now host.old }
    ensures { IsListening system.now host.new }
{
    for _ in rt.forever() {
        match system.engine.reap(&mut host.pass, host.queue) {
            Ok(completion) => return Some(completion.cqe),
            Err(Unmade::Busy(_)) => yield_now(),
            Err(Unmade::Refused(_)) => break,
        }
    }
    None
}

/// Reaps so many completions, each at once when it was told; how many say success.
pub(crate) fn reaps<R: Wait, G>(
    rt: &R,
    system: &System<G>,
    host: &mut HostPasses,
    count: u16,
) -> u16
    requires { IsListening system.now host.old }
    ensures { IsListening system.now host.new }
{
    let mut good = 0u16;
    for _ in 0..count {
        let Some(_) = heard(rt, system, host) else {
            return good;
        };
        if let Some(cqe) = reaped(rt, system, host) {
            if cqe[14] <= 1 && cqe[15] == 0 {
                good = good.saturating_add(1);
            }
        }
    }
    good
}

/// The controller, once all threads have ended, and the gate.
pub(crate) fn closed<G: Drop>(system: System<G>, caller: CallerPasses) -> Result<(Core, G), Fail>
    requires { IsCallerOf system caller }
{
    let System { engine, gate, .. } = system;
    let CallerPasses { pass, .. } = caller;
    match engine.close(pass) {
        Some(core) => Ok((core, gate)),
        None => Err(Fail::from("the lock isn't free")),
    }
}

/// How many entries the history has, which is legal.
pub(crate) fn legal_length(alloc: Global, core: &Core) -> Result<usize, Fail> {
    let history = core.history().as_slice();
    match check(alloc, &core.config(), history) {
        Ok(()) => Ok(history.len()),
        Err(_) => Err(Fail::from("the history isn't legal")),
    }
}
