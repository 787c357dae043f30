//! What has come of a question, of a takeover, and of a release.

ghost use Rattle.std.specs.Prelude.{IfErr, IfOk, IfSome};
ghost use Rattle.slots_example.specs.Hosts.{IsSlotHost};
ghost use Rattle.slot_alloc.specs.Claims.{IsReleasingOf};
ghost use Rattle.slot_takeover.specs.Holders.{IsReadingOf};
ghost use Rattle.slot_takeover.specs.Takeovers.{HoldsTaken, IsTakingOverOf};

use crate::listening::listens;
use driver_cas::SharedPort;
use race_hosts::Host;
use shared_system::System;
use slot_alloc::{Released, Releasing, poll_release};
use slot_takeover::{
    HeldSlot, Holder, HolderPoll, ReadingHolder, TakeoverProgress, TakingOver, poll_holder,
    poll_takeover,
};
use std::sync::Wait;

// The holder, where the question is answered; another one ends.
fn told<P>(poll: HolderPoll<P>) -> Option<Holder> {
    match poll {
        HolderPoll::Done(holder) => Some(holder),
        HolderPoll::Pending(_reading) => None,
        HolderPoll::Later(_fault, _reading) => None,
        HolderPoll::Failed(_fault) => None,
    }
}

/// Who holds the slot, once its block was read: a Read has one completion.
pub(crate) fn holder_read<'a, R: Wait, G>(
    rt: &R,
    system: &System<G>,
    host: &mut Host<'a>,
    reading: ReadingHolder<SharedPort<'a>>,
) -> Option<Holder>
    requires host { IsSlotHost system.now host.old }
    requires reading { IsReadingOf host.old.driver reading }
    ensures host { IsSlotHost system.now host.new }
{
    listens(rt, system, host);
    told(poll_holder(&mut host.driver, reading))
}

// Asks what has come of a takeover: the slot if it was won. It comes back where it isn't answered yet.
fn polled<'a, R: Wait, G>(
    rt: &R,
    system: &System<G>,
    host: &mut Host<'a>,
    taking: TakingOver<SharedPort<'a>>,
) -> Result<Option<HeldSlot>, TakingOver<SharedPort<'a>>>
    requires host { IsSlotHost system.now host.old }
    requires taking { IsTakingOverOf host.old.driver taking }
    ensures host { IsSlotHost system.now host.new }
    ensures held { IfOk result (λ h. IfSome h (HoldsTaken host.new.driver)) }
    ensures back { IfErr result (IsTakingOverOf host.new.driver) }
{
    listens(rt, system, host);
    match poll_takeover(&mut host.driver, taking) {
        TakeoverProgress::Pending(taking) => Err(taking),
        TakeoverProgress::Held(held) => Ok(Some(held)),
        TakeoverProgress::Later(_, _) | TakeoverProgress::Taken | TakeoverProgress::Failed(_) => Ok(
            None,
        ),
    }
}

/// The slot, if the takeover won it. A pair has two completions: it listens twice, and polls twice.
pub(crate) fn won<'a, R: Wait, G>(
    rt: &R,
    system: &System<G>,
    host: &mut Host<'a>,
    taking: TakingOver<SharedPort<'a>>,
) -> Option<HeldSlot>
    requires host { IsSlotHost system.now host.old }
    requires taking { IsTakingOverOf host.old.driver taking }
    ensures host { IsSlotHost system.now host.new }
    ensures held { IfSome result (HoldsTaken host.new.driver) }
{
    match polled(rt, system, host, taking) {
        Ok(held) => held,
        Err(taking) => match polled(rt, system, host, taking) {
            Ok(held) => held,
            Err(_) => None,
        },
    }
}

// Asks what has come of a release: whether it is done. It comes back where it isn't answered yet.
fn polled_release<'a, R: Wait, G>(
    rt: &R,
    system: &System<G>,
    host: &mut Host<'a>,
    giving: Releasing<SharedPort<'a>>,
) -> Result<bool, Releasing<SharedPort<'a>>>
    requires host { IsSlotHost system.now host.old }
    requires giving { IsReleasingOf host.old.driver giving }
    ensures host { IsSlotHost system.now host.new }
    ensures back { IfErr result (IsReleasingOf host.new.driver) }
{
    listens(rt, system, host);
    match poll_release(&mut host.driver, giving) {
        Released::Pending(giving) => Err(giving),
        Released::Released => Ok(true),
        Released::Later(_, _) | Released::Failed(_) => Ok(false),
    }
}

/// Whether a release is done, in two polls.
pub(crate) fn is_given_back<'a, R: Wait, G>(
    rt: &R,
    system: &System<G>,
    host: &mut Host<'a>,
    giving: Releasing<SharedPort<'a>>,
) -> bool
    requires host { IsSlotHost system.now host.old }
    requires giving { IsReleasingOf host.old.driver giving }
    ensures host { IsSlotHost system.now host.new }
{
    match polled_release(rt, system, host, giving) {
        Ok(done) => done,
        Err(giving) => match polled_release(rt, system, host, giving) {
            Ok(done) => done,
            Err(_) => false,
        },
    }
}
