//! What a survivor does while it waits.

ghost use Rattle.std.specs.Prelude.{◌≡◌, IfErr, OnOk};
ghost use Rattle.race.specs.Fates.{AsksAgain};
ghost use Rattle.driver_cas.specs.declared.shared_port.SharedPort.{SharedPort};
ghost use Rattle.slot_alloc.specs.Claims.{IsReleasingOf};
ghost use Rattle.slot_alloc.specs.declared.release.Releasing.{Releasing};
ghost use Rattle.slot_takeover.specs.Holders.{IsReadingOf};
ghost use Rattle.slot_takeover.specs.Takeovers.{HoldsTaken, IsTakingOverOf};
ghost use Rattle.slot_takeover.specs.declared.held.HeldSlot.{HeldSlot};
ghost use Rattle.slot_takeover.specs.declared.holder.ReadingHolder.{ReadingHolder};
ghost use Rattle.slot_takeover.specs.declared.taking.TakingOver.{TakingOver};
ghost use Rattle.race.specs.Survivors.{IsFencedHost, IsSweepStage, IsSweeping};

use crate::fate::Fate;
use crate::survivor::SweepStage;
use driver_cas::Fault;
use hosts::OpenGate;
use race_hosts::{Host, Play};
use shared_system::{HostPasses, System};
use slot_takeover::laws::an_untouched_driver_keeps_its_takeovers;
use std::alloc::AllocError as NoMemory;
use std::snapshot::Snapshot;
use std::sync::Wait;

/// Learns the next notice, if there is one. What was begun and what was taken over stays so.
pub(crate) fn pause<R: Wait>(rt: &R, system: &System<OpenGate>, _play: &Play, host: &mut Host<'_>)
    requires { IsSweeping system.now _play.now host.old }
    ensures goes { IsSweeping system.now _play.now host.new }
    ensures queue { host.new.queue ≡ host.old.queue }
    ensures reading { (k : ReadingHolder SharedPort) → IsReadingOf host.old.driver k → IsReadingOf host.new.driver k }
    ensures taking { (k : TakingOver SharedPort) → IsTakingOverOf host.old.driver k →
        IsTakingOverOf host.new.driver k }
    ensures held { (h : HeldSlot) → HoldsTaken host.old.driver h → HoldsTaken host.new.driver h }
    ensures giving { (k : Releasing SharedPort) → IsReleasingOf host.old.driver k → IsReleasingOf host.new.driver k }
{
    let before = Snapshot::of(&host.driver);
    let place = usize::from(host.queue - 1);
    host.driver
        .listen(rt, &system.notices[place], &mut host.notices);
    an_untouched_driver_keeps_its_takeovers(&before, &host.driver);
}

/// Pauses, with this in hand.
pub(crate) fn waits<'a, R: Wait>(
    rt: &R,
    system: &System<OpenGate>,
    play: &Play,
    _fates: &[Fate],
    host: &mut Host<'a>,
    stage: SweepStage<'a>,
) -> SweepStage<'a>
    requires own { IsSweeping system.now play.now host.old }
    requires stage { IsSweepStage _fates.now host.old stage }
    ensures goes { IsSweeping system.now play.now host.new }
    ensures stage { IsSweepStage _fates.now host.new result }
{
    pause(rt, system, play, host);
    stage
}

/// Nobody hears what a dead host is told: the next notice of it is dropped, so that its queue doesn't fill.
pub(crate) fn forgets<R: Wait>(rt: &R, system: &System<OpenGate>, fenced: &mut HostPasses)
    requires { IsFencedHost system.now fenced.old }
    ensures { IsFencedHost system.now fenced.new }
{
    let place = usize::from(fenced.queue - 1);
    let _ = system.notices[place].pop(rt, &mut fenced.notices);
}

/// Whether a survivor asks again where this is why a call wasn't begun, or nothing was reaped.
///
/// # Errors
///
/// `NoMemory` where it can't go on.
pub(crate) fn asks_again(fault: Fault) -> Result<(), NoMemory>
    ensures again { OnOk result (AsksAgain fault) }
    ensures no_more { IfErr result (λ _. ¬ (AsksAgain fault)) }
{
    match fault {
        Fault::Busy | Fault::RingFull => Ok(()),
        Fault::Length
        | Fault::TooLong
        | Fault::Status(_)
        | Fault::NoMemory
        | Fault::SlotArea
        | Fault::NoSerial => Err(NoMemory),
    }
}
