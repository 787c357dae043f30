//! What a host does while it waits.

ghost use Rattle.std.specs.Prelude.{◌≡◌};
ghost use Rattle.driver_cas.specs.declared.shared_port.SharedPort.{SharedPort};
ghost use Rattle.slot_alloc.specs.Claims.{IsClaimingOf, IsHeldBy, IsReleasingOf, IsUnreleased};
ghost use Rattle.slot_alloc.specs.declared.claim.Claim.{Claim};
ghost use Rattle.slot_alloc.specs.declared.claiming.Claiming.{Claiming};
ghost use Rattle.slot_alloc.specs.declared.release.Releasing.{Releasing};
ghost use Rattle.race_hosts.specs.Hosts.{HostContinues, IsHosting, rounds_begun};
ghost use Rattle.race_hosts.specs.Stages.{IsStageOf};

use crate::owned::Host;
use crate::stage::RoundStage;
use driver_cas::Fault;
use shared_system::System;
use slot_alloc::laws::an_untouched_driver_keeps_its_slots;
use std::alloc::AllocError as NoMemory;
use std::snapshot::Snapshot;
use std::sync::Wait;
use std::thread::yield_now;

/// What a host does after a fault.
#[derive(Clone, Copy, Debug, PartialEq, Eq)]
pub(crate) enum AfterFault {
    /// It pauses, and asks again.
    Again,
    /// It never will be made.
    RoundEnds,
    NoMemory,
}

/// What a host does where it couldn't begin a call, or reap, for this cause.
pub(crate) fn next_after(fault: Fault) -> AfterFault {
    match fault {
        Fault::Busy | Fault::RingFull => AfterFault::Again,
        Fault::NoMemory => AfterFault::NoMemory,
        Fault::Length | Fault::TooLong | Fault::Status(_) | Fault::SlotArea | Fault::NoSerial =>
            AfterFault::RoundEnds,
    }
}

/// Ends all loops, since this one can't go on.
pub(crate) fn stops<G>(system: &System<G>) -> NoMemory {
    system.stop.set();
    NoMemory
}

/// Learns the next notice, or lets others run where there is none. What was begun and what is held stays so, and no
/// slot is claimed.
pub(crate) fn pause<R: Wait, G>(rt: &R, system: &System<G>, host: &mut Host<'_>)
    requires { IsHosting system.now host.old }
    ensures goes { HostContinues system.now host.old host.new }
    ensures begun { rounds_begun host.new ≡ rounds_begun host.old }
    ensures held { (c : Claim) → IsHeldBy host.old.driver c → IsHeldBy host.new.driver c }
    ensures claiming { (k : Claiming SharedPort _) → IsClaimingOf host.old.driver k → IsClaimingOf host.new.driver k }
    ensures unreleased { (k : Claiming SharedPort _) → IsClaimingOf host.old.driver k →
        IsUnreleased host.old.driver k → IsUnreleased host.new.driver k }
    ensures releasing { (k : Releasing SharedPort) → IsReleasingOf host.old.driver k →
        IsReleasingOf host.new.driver k }
{
    let before = Snapshot::of(&host.driver);
    let place = usize::from(host.queue - 1);
    if !host
        .driver
        .listen(rt, &system.notices[place], &mut host.notices)
    {
        yield_now();
    }
    an_untouched_driver_keeps_its_slots(&before, &host.driver);
}

/// One turn of a host of whose call nothing comes, since it hasn't ended or would find the controller busy: the host
/// learns the next notice, or lets others run where there is none.
pub fn busy_turn<'a, R: Wait, G>(
    rt: &R,
    system: &System<G>,
    host: &mut Host<'a>,
    stage: RoundStage<'a>,
) -> RoundStage<'a>
    requires own { IsHosting system.now host.old }
    requires stage { IsStageOf host.old stage }
    ensures goes { HostContinues system.now host.old host.new }
    ensures stage { IsStageOf host.new result }
    ensures begun { rounds_begun host.new ≡ rounds_begun host.old }
    ensures same { result ≡ stage.entry }
{
    pause(rt, system, host);
    stage
}
