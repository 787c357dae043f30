//! Which CIDs calls get, and when these are free again.

ghost use Rattle.std.specs.List.Sorted.{IsStrictlyIncreasing};
ghost use Rattle.std.specs.Prelude.{◌≤◌, length};

use crate::acts::{CallAct, acts_all};
use crate::sent::{Sent, one, published, two};
use driver_cas::{Fault, PortFault};
use driver_testing::{AnswerWords, Ask, Fill, Script, driver_of, good};
use std::alloc::Global;
use std::process::Abort;
use std::test::Fail;

const READ: Ask = Ask::Read(1, 1);

const PAIR: Ask = Ask::CompareAndWrite(1, Fill(0xa1, 512), Fill(0xb2, 512));

const FULL: Fault = Fault::RingFull;

// That a driver of these submission queues, whose port answers so, does this, and with it publishes so many batches,
// the last of which are these.
fn publishes<R: Abort>(
    rt: &R,
    alloc: Global,
    queues: &[u16],
    answers: (&[Option<PortFault>], &[Script]),
    acts: &[CallAct],
    count: usize,
    last: &[Sent],
) -> Result<(), Fail>
    requires some { 1 ≤ length queues.now }
    requires rising { IsStrictlyIncreasing queues.now }
{
    let mut driver = driver_of(alloc, queues, 1, answers.0, answers.1).ok_or("memory")?;
    acts_all(rt, alloc, &mut driver, acts);
    let all = published(alloc, driver)?;
    assert_eq!(rt; all.len(), count);
    let from = count.saturating_sub(last.len());
    assert_eq!(rt; all.as_slice().get(from..), Some(last));
    Ok(())
}

// The batches of 128 Reads.
fn nth(place: usize) -> Sent {
    match place {
        0..64 => one(1, place as u16),
        _ => one(2, (place % 64) as u16),
    }
}

// By submission queue; each call that ends frees its own.
#[test]
fn the_least_free_ones_are_drawn(rt: HostRuntime) -> Result<(), Fail> {
    let acts = [
        CallAct::Begin(128, READ),
        CallAct::Refused(READ, FULL),
        CallAct::Refused(PAIR, FULL),
        CallAct::End(69, 1, AnswerWords::Read(1, 5)),
        CallAct::Begin(1, READ),
        CallAct::Refused(READ, FULL),
        CallAct::End(3, 1, AnswerWords::Read(1, 3)),
        CallAct::Begin(1, READ),
        CallAct::Refused(READ, FULL),
    ];
    let mut all = Vec::new(rt.alloc());
    for place in 0..128 {
        all.push(nth(place))?;
    }
    all.push(one(2, 5))?;
    all.push(one(1, 3))?;
    let reaps = [good(1, 3), good(2, 5)];
    publishes(
        &rt,
        rt.alloc(),
        &[1, 2],
        (&[], &reaps),
        &acts,
        130,
        all.as_slice(),
    )
}

#[test]
fn sixty_three_leave_room_for_a_read(rt: HostRuntime) -> Result<(), Fail> {
    let acts = [
        CallAct::Begin(63, READ),
        CallAct::Refused(PAIR, FULL),
        CallAct::Begin(1, READ),
        CallAct::Refused(READ, FULL),
    ];
    publishes(&rt, rt.alloc(), &[1], (&[], &[]), &acts, 64, &[one(1, 63)])
}

#[test]
fn a_pair_takes_two(rt: HostRuntime) -> Result<(), Fail> {
    let acts = [
        CallAct::Begin(63, READ),
        CallAct::Refused(PAIR, FULL),
        CallAct::End(7, 1, AnswerWords::Read(1, 7)),
        CallAct::Begin(1, PAIR),
        CallAct::Refused(READ, FULL),
        CallAct::End(8, 1, AnswerWords::Read(1, 9)),
        CallAct::Refused(PAIR, FULL),
        CallAct::Begin(1, READ),
        CallAct::Refused(READ, FULL),
    ];
    publishes(
        &rt,
        rt.alloc(),
        &[1],
        (&[], &[good(1, 9), good(1, 7)]),
        &acts,
        65,
        &[two(1, 7, 63), one(1, 9)],
    )
}

#[test]
fn a_pair_goes_where_two_are_free(rt: HostRuntime) -> Result<(), Fail> {
    let acts = [
        CallAct::Begin(63, READ),
        CallAct::Begin(1, PAIR),
        CallAct::Begin(2, READ),
    ];
    let last = [two(2, 0, 1), one(1, 63), one(2, 2)];
    publishes(&rt, rt.alloc(), &[1, 2], (&[], &[]), &acts, 66, &last)
}

// Its completion is dropped.
#[test]
fn a_dropped_call_keeps_its_own(rt: HostRuntime) -> Result<(), Fail> {
    let acts = [
        CallAct::Begin(1, READ),
        CallAct::End(0, 0, AnswerWords::Pending),
        CallAct::Begin(1, READ),
        CallAct::End(0, 2, AnswerWords::Read(1, 1)),
        CallAct::Begin(3, READ),
    ];
    let all = [one(1, 0), one(1, 1), one(1, 1), one(1, 2), one(1, 3)];
    publishes(
        &rt,
        rt.alloc(),
        &[1],
        (&[], &[good(1, 1), good(1, 0)]),
        &acts,
        5,
        &all,
    )
}

// One whose completion came with the poll of another call, which is dropped.
#[test]
fn a_call_keeps_its_own_till_it_is_polled(rt: HostRuntime) -> Result<(), Fail> {
    let acts = [
        CallAct::Begin(64, READ),
        CallAct::End(1, 1, AnswerWords::Pending),
        CallAct::Refused(READ, FULL),
        CallAct::End(0, 1, AnswerWords::Read(1, 0)),
        CallAct::Begin(1, READ),
        CallAct::Refused(READ, FULL),
    ];
    publishes(
        &rt,
        rt.alloc(),
        &[1],
        (&[], &[good(1, 0)]),
        &acts,
        65,
        &[one(1, 0)],
    )
}

// The completion of its first comes with the poll of another call, which is dropped.
#[test]
fn a_pair_keeps_both_till_both_have_ended(rt: HostRuntime) -> Result<(), Fail> {
    let acts = [
        CallAct::Begin(1, PAIR),
        CallAct::Begin(62, READ),
        CallAct::End(1, 1, AnswerWords::Pending),
        CallAct::Refused(READ, FULL),
        CallAct::End(0, 1, AnswerWords::Swapped),
        CallAct::Begin(1, PAIR),
        CallAct::Refused(READ, FULL),
    ];
    publishes(
        &rt,
        rt.alloc(),
        &[1],
        (&[], &[good(1, 1), good(1, 0)]),
        &acts,
        64,
        &[two(1, 0, 1)],
    )
}

// That a driver of two submission queues, whose port refuses so, publishes these.
fn tries<R: Abort>(
    rt: &R,
    alloc: Global,
    refusals: &[Option<PortFault>],
    acts: &[CallAct],
    all: &[Sent],
) -> Result<(), Fail> {
    publishes(rt, alloc, &[1, 2], (refusals, &[]), acts, all.len(), all)
}

// RingFull at the first of its submission queues, at both, and at the first before Busy at the second; Busy and
// NoMemory at the first, where the second would have answered RingFull.
#[test]
fn the_next_queue_is_tried_after_ring_full(rt: HostRuntime) -> Result<(), Fail> {
    let acts = [CallAct::Begin(2, READ)];
    let all = [one(2, 0), one(1, 0)];
    tries(&rt, rt.alloc(), &[Some(PortFault::RingFull)], &acts, &all)?;
    let acts = [CallAct::Refused(READ, FULL), CallAct::Begin(1, PAIR)];
    let both = [Some(PortFault::RingFull), Some(PortFault::RingFull)];
    tries(&rt, rt.alloc(), &both, &acts, &[two(1, 0, 1)])?;
    let acts = [CallAct::Refused(PAIR, Fault::Busy), CallAct::Begin(1, READ)];
    let second = [Some(PortFault::Busy), Some(PortFault::RingFull)];
    tries(&rt, rt.alloc(), &second, &acts, &[one(1, 0)])?;
    for (refusal, fault) in [
        (PortFault::Busy, Fault::Busy),
        (PortFault::NoMemory, Fault::NoMemory),
    ] {
        let acts = [CallAct::Refused(READ, fault), CallAct::Begin(1, PAIR)];
        let first = [Some(PortFault::RingFull), Some(refusal)];
        tries(&rt, rt.alloc(), &first, &acts, &[two(2, 0, 1)])?;
    }
    Ok(())
}
