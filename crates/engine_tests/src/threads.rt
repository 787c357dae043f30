//! Four threads, each on a queue of its own.

ghost use Rattle.std.specs.Prelude.{All};
ghost use Rattle.meet_lock.specs.Passes.{IsPassOfLock};

use crate::accounts::{Account, TRIES, writes_one};
use crate::passes::{shared_of, unlocked};
use history::{Entry, write_line};
use lock_testing::{Command, WRITE, config_of, text};
use meet_lock::{Pass, Shared};
use std::alloc::{AllocError, Global};
use std::process::Abort;
use std::sync::atomic::{AtomicU8, Ordering};
use std::test::Fail;
use std::thread::{Threads, map_vec, yield_now};
use step_core::Core;

/// Writes of each thread.
const WRITES: u8 = 16;

/// The account of a thread, or the number of a refusal.
type ThreadEnd = Result<Account, u8>;

/// Waits until four threads have come here, or for a while: so none ends before the last begins. How many came before.
fn gather(come: &AtomicU8) -> u8 {
    let before = come.fetch_add(1, Ordering::SeqCst);
    for _ in 0..TRIES {
        if come.load(Ordering::SeqCst) >= 4 {
            break;
        }
        yield_now();
    }
    before
}

/// The Writes of one thread, to two blocks that all threads write.
fn writes(alloc: Global, shared: &Shared<Core>, mut pass: Pass<Core>, come: &AtomicU8) -> ThreadEnd
    requires { IsPassOfLock shared.now pass }
{
    let place = gather(come);
    let write = Command {
        opcode: WRITE,
        queue: u16::from(place) + 1,
        cid: 0,
        block: 0,
        byte: 0,
    };
    let mut account = Account::new(alloc, write);
    for cid in 0..WRITES {
        account.write.cid = u16::from(cid);
        account.write.block = cid % 2;
        account.write.byte = place.wrapping_mul(WRITES).wrapping_add(cid);
        writes_one(alloc, shared, &mut pass, &mut account)?;
    }
    Ok(account)
}

/// The Writes of a thread for each pass.
fn all_write<R: Threads + Sync>(
    rt: &R,
    alloc: Global,
    shared: &Shared<Core>,
    passes: Vec<Pass<Core>>,
) -> Result<Vec<ThreadEnd>, AllocError>
    requires { All (IsPassOfLock shared.now) passes.items }
{
    let come = AtomicU8::new(0);
    map_vec(
        rt,
        passes,
        &|pass| -> ThreadEnd
            requires { IsPassOfLock shared.now pass }
        { writes(alloc, shared, pass, &come) },
    )
}

/// The queue of an entry, where the ticket n was fetched from the n-th of these queues. Each completion queue has the
/// number of its submission queue.
fn queue_of(fetched: &[u16], entry: &Entry) -> u16 {
    let ticket = match entry {
        Entry::Publish(line) => return line.queue,
        Entry::Fetch(line) => return line.queue,
        Entry::Reap(line) => return line.queue,
        Entry::Grant(line) => line.ticket,
        Entry::Block(line) => line.ticket,
        Entry::Post(line) => line.ticket,
    };
    match fetched.get((ticket as usize).wrapping_sub(1)) {
        Some(queue) => *queue,
        None => 0,
    }
}

/// The lines of a history that belong to this queue.
fn lines_of(alloc: Global, history: &[Entry], queue: u16) -> Result<Vec<u8>, Fail> {
    let mut bytes = Vec::new(alloc);
    let mut fetched = Vec::new(alloc);
    for entry in history {
        if let Entry::Fetch(line) = entry {
            fetched.push(line.queue)?;
        }
        if queue_of(fetched.as_slice(), entry) == queue {
            write_line(entry, &mut bytes)?;
            bytes.push(b'\n')?;
        }
    }
    Ok(bytes)
}

/// That the entries of a queue are those of its account; how many bytes their lines have.
fn check_one<R: Abort>(
    rt: &R,
    alloc: Global,
    history: &[Entry],
    account: &Account,
) -> Result<usize, Fail> {
    let lines = lines_of(alloc, history, account.write.queue)?;
    assert!(rt; lines.as_slice() == account.lines.as_slice());
    Ok(lines.len())
}

/// That each queue's entries are those of its account, which are all.
fn check_history<R: Abort>(
    rt: &R,
    alloc: Global,
    history: &[Entry],
    made: &[ThreadEnd],
) -> Result<(), Fail> {
    let mut all = 0usize;
    for one in made {
        match one {
            Ok(account) => all = all.saturating_add(check_one(rt, alloc, history, account)?),
            Err(why) => panic!(rt; "stopped by {why}"),
        }
    }
    assert_eq!(rt; made.len(), 4);
    assert_eq!(rt; history.len(), 384);
    assert_eq!(rt; text(alloc, history)?.len(), all);
    Ok(())
}

/// A controller of four queue pairs after the Writes of four threads, and what these made.
fn written<R: Threads + Sync>(rt: &R, alloc: Global) -> Result<(Core, Vec<ThreadEnd>), Fail> {
    let config = config_of(alloc, "config 8 1 1 0 0 4 4 4 8").ok_or("no configuration")?;
    let (shared, mut passes) = shared_of(alloc, config, 5)?;
    let last = passes.pop().ok_or("a pass")?;
    let made = all_write(rt, alloc, &shared, passes);
    let core = unlocked(shared, last)?;
    Ok((core, made?))
}

#[test]
fn four_threads_write_on_queues_of_their_own(rt: HostRuntime) -> Result<(), Fail> {
    let (core, made) = written(&rt, rt.alloc())?;
    check_history(&rt, rt.alloc(), core.history().as_slice(), made.as_slice())
}
