//! Turns of a host that releases.

ghost use Rattle.std.specs.Prelude.{◌≡◌, IfOk};
ghost use Rattle.slot_alloc.specs.Claims.{IsHeldBy, IsReleasingOf};
ghost use Rattle.race_hosts.specs.Hosts.{HostContinues, IsHosting, rounds_begun};
ghost use Rattle.race_hosts.specs.Stages.{IsStageOf};

use crate::owned::Host;
use crate::pausing::{AfterFault, busy_turn, next_after, pause, stops};
use crate::stage::RoundStage;
use driver_cas::{Fault, SharedPort};
use shared_system::System;
use slot_alloc::laws::a_held_claim_stays;
use slot_alloc::{Claim, KeptClaim, Released, Releasing, poll_release};
use std::alloc::AllocError as NoMemory;
use std::snapshot::Snapshot;
use std::sync::Wait;

/// Begins to release the slot of a claim. Where that is refused for now the host pauses; where it is for good the round
/// ends, and the slot is left held.
///
/// # Errors
///
/// `NoMemory` where a growth is refused. The stop flag is set then, and the slot is left held.
pub(crate) fn give_back<'a, R: Wait, G>(
    rt: &R,
    system: &System<G>,
    host: &mut Host<'a>,
    claim: Claim,
) -> Result<RoundStage<'a>, NoMemory>
    requires own { IsHosting system.now host.old }
    requires held { IsHeldBy host.old.driver claim }
    ensures goes { HostContinues system.now host.old host.new }
    ensures stage { IfOk result (IsStageOf host.new) }
    ensures begun { rounds_begun host.new ≡ rounds_begun host.old }
{
    let before = Snapshot::of(&host.driver);
    match host.slots.release(&mut host.driver, claim) {
        Ok(releasing) => Ok(RoundStage::Releasing(releasing)),
        Err((back, fault)) => match next_after(fault) {
            AfterFault::Again => {
                a_held_claim_stays(&before, &host.driver, &back);
                pause(rt, system, host);
                Ok(RoundStage::Holding(KeptClaim { claim: back }))
            }
            AfterFault::RoundEnds => {
                back.leave();
                Ok(RoundStage::Ready)
            }
            AfterFault::NoMemory => {
                back.leave();
                Err(stops(system))
            }
        },
    }
}

/// Polls a release. Where it hasn't ended the host pauses, else the round ends.
///
/// # Errors
///
/// `NoMemory` where a growth is refused. The stop flag is set then, and the slot may be held.
pub(crate) fn polls_release<'a, R: Wait, G>(
    rt: &R,
    system: &System<G>,
    host: &mut Host<'a>,
    releasing: Releasing<SharedPort<'a>>,
) -> Result<RoundStage<'a>, NoMemory>
    requires own { IsHosting system.now host.old }
    requires of { IsReleasingOf host.old.driver releasing }
    ensures goes { HostContinues system.now host.old host.new }
    ensures stage { IfOk result (IsStageOf host.new) }
    ensures begun { rounds_begun host.new ≡ rounds_begun host.old }
{
    match poll_release(&mut host.driver, releasing) {
        Released::Released | Released::Failed(_) => Ok(RoundStage::Ready),
        Released::Pending(same) => Ok(busy_turn(rt, system, host, RoundStage::Releasing(same))),
        Released::Later(fault, same) => {
            if fault == Fault::NoMemory {
                return Err(stops(system));
            }
            Ok(busy_turn(rt, system, host, RoundStage::Releasing(same)))
        }
    }
}
