//! Works through one queue, from four threads to four.

ghost use Rattle.std.specs.Prelude.{All, IfOk, IfSome};
ghost use Rattle.shared_system.specs.Plain.{IsFreshWork, IsPlainCallerOf, IsPlainWork};

use crate::counts::Counts;
use lock_testing::{LATE, NO_MEMORY, STRANGE, begun, flush, opens, pops, pushes, works};
use shared_system::{PlainCaller, PlainSystem};
use std::alloc::{AllocError, Global};
use std::sync::Wait;
use std::thread::{Threads, map_vec, yield_now};
use step_core::Answer;
use work_queue::{Open, Opened, Work};

/// How many Works each of the four pushers has.
pub(crate) const WORKS: u16 = 25_000;

/// A number of no refusal: a push came back from a queue with room, or a pop found nothing where something was.
const WRONG: u8 = 98;

/// How often a call is made again.
const TRIES: u32 = 50_000_000;

/// The command of a popped Work: its submission queue and its CID.
#[derive(Clone, Copy)]
pub(crate) struct Ended {
    pub queue: u16,
    pub cid: u16,
}

/// What one thread popped, in order, or the number of a refusal.
pub(crate) type Got = Result<Vec<Ended>, u8>;

/// The Work, put at the back, again while it comes back.
fn puts<R: Wait>(
    rt: &R,
    system: &PlainSystem,
    counts: &Counts,
    caller: &mut PlainCaller,
    work: Work,
) -> Result<(), u8>
    requires { IsPlainCallerOf system.now caller.old × IsFreshWork system.now work }
    ensures { IsPlainCallerOf system.now caller.new }
{
    let mut next = work;
    for _ in 0..TRIES {
        let popped = counts.pushes.begins(&counts.pops);
        match pushes(rt, system, caller, next) {
            Ok(()) => {
                counts.pushes.ends();
                return Ok(());
            }
            Err(same) => next = same,
        }
        if !counts.pushes.fails(popped, counts.capacity) {
            return Err(WRONG);
        }
        yield_now();
    }
    Err(LATE)
}

/// The Work at the front, once one is there; None once all are popped.
fn takes<R: Wait>(
    rt: &R,
    system: &PlainSystem,
    counts: &Counts,
    caller: &mut PlainCaller,
) -> Result<Option<Work>, u8>
    requires { IsPlainCallerOf system.now caller.old }
    ensures same { IsPlainCallerOf system.now caller.new }
    ensures work { IfOk result (λ w. IfSome w (IsPlainWork system.now)) }
{
    for _ in 0..TRIES {
        if counts.is_done() {
            return Ok(None);
        }
        let pushed = counts.pops.begins(&counts.pushes);
        if let Some(work) = pops(rt, system, caller) {
            counts.pops.ends();
            return Ok(Some(work));
        }
        if !counts.pops.fails(pushed, 0) {
            return Err(WRONG);
        }
        yield_now();
    }
    Err(LATE)
}

/// The Works of this queue, Flushes with CIDs from 1 on, each fetched and pushed.
fn pusher<R: Wait>(
    rt: &R,
    alloc: Global,
    system: &PlainSystem,
    counts: &Counts,
    caller: &mut PlainCaller,
    queue: u16,
) -> Result<(), u8>
    requires { IsPlainCallerOf system.now caller.old }
{
    for cid in 1..=WORKS {
        let work = begun(rt, alloc, system, caller, flush(queue, cid))?;
        puts(rt, system, counts, caller, work)?;
    }
    Ok(())
}

/// Posts the Work's one completion.
fn posted<R: Wait>(
    rt: &R,
    system: &PlainSystem,
    caller: &mut PlainCaller,
    mut work: Work,
) -> Result<[u8; 16], u8>
    requires { IsPlainCallerOf system.now caller.old × IsPlainWork system.now work }
    ensures { IsPlainCallerOf system.now caller.new }
{
    match works(rt, system, caller, &mut work) {
        Ok(Some(Answer::Posted(cqe))) => Ok(cqe),
        Ok(_) => Err(STRANGE),
        Err(why) => Err(why),
    }
}

/// Posts the Work's one completion, and reaps one of that queue; the command that was posted.
fn ends<R: Wait>(
    rt: &R,
    system: &PlainSystem,
    caller: &mut PlainCaller,
    work: Work,
) -> Result<Ended, u8>
    requires { IsPlainCallerOf system.now caller.old × IsPlainWork system.now work }
    ensures { IsPlainCallerOf system.now caller.new }
{
    let cqe = posted(rt, system, caller, work)?;
    let queue = u16::from_le_bytes([cqe[10], cqe[11]]);
    let cid = u16::from_le_bytes([cqe[12], cqe[13]]);
    match opens(rt, system, caller, Open::Reap(queue)) {
        Ok(Opened::Reaped { .. }) => Ok(Ended { queue, cid }),
        Ok(_) => Err(STRANGE),
        Err(why) => Err(why),
    }
}

/// Ends Works until all are popped; their commands.
fn popper<R: Wait>(
    rt: &R,
    system: &PlainSystem,
    counts: &Counts,
    caller: &mut PlainCaller,
    popped: &mut Vec<Ended>,
) -> Result<(), u8>
    requires { IsPlainCallerOf system.now caller.old }
{
    for _ in 0..TRIES {
        let Some(work) = takes(rt, system, counts, caller)? else {
            return Ok(());
        };
        let ended = ends(rt, system, caller, work)?;
        if popped.push(ended).is_err() {
            return Err(NO_MEMORY);
        }
    }
    Err(LATE)
}

/// One thread: each second that comes pushes, on a queue of its own, and the others pop.
fn plays<R: Wait>(
    rt: &R,
    alloc: Global,
    system: &PlainSystem,
    counts: &Counts,
    mut caller: PlainCaller,
) -> Got
    requires { IsPlainCallerOf system.now caller }
{
    let mut popped = Vec::new(alloc);
    let place = counts.comes();
    let end = if place % 2 == 0 {
        pusher(rt, alloc, system, counts, &mut caller, place / 2 + 1)
    } else {
        popper(rt, system, counts, &mut caller, &mut popped)
    };
    end.and(Ok(popped))
}

/// What each got, on a thread for each caller.
pub(crate) fn crowd<R: Threads + Wait + Sync>(
    rt: &R,
    alloc: Global,
    system: &PlainSystem,
    counts: &Counts,
    callers: Vec<PlainCaller>,
) -> Result<Vec<Got>, AllocError>
    requires { All (IsPlainCallerOf system.now) callers.items }
{
    map_vec(
        rt,
        callers,
        &|caller| -> Got
            requires { IsPlainCallerOf system.now caller }
        { plays(rt, alloc, system, counts, caller) },
    )
}
