//! Turns of a host that claims.

ghost use Rattle.std.specs.Prelude.{◌+◌, ◌≡◌, ◌≤◌, IfErr, IfOk};
ghost use Rattle.slot_alloc.specs.Claims.{IsClaimingOf, IsUnreleased};
ghost use Rattle.slot_alloc.specs.Counts.{IsPast};
ghost use Rattle.race_hosts.specs.Hosts.{HostContinues, IsHosting, rounds_begun};
ghost use Rattle.race_hosts.specs.Stages.{IsStageOf};

use crate::owned::Host;
use crate::pausing::{AfterFault, busy_turn, next_after, pause, stops};
use crate::stage::{RoundStage, Rounds};
use driver_cas::{Fault, SharedPort};
use shared_system::System;
use slot_alloc::{Claiming, KeptClaim, Progress, poll_claim};
use std::alloc::AllocError as NoMemory;
use std::sync::Wait;

/// Begins a round: claims any slot. Where that is refused for now the host pauses.
///
/// # Errors
///
/// `NoMemory` where it isn't begun: a growth is refused, or the claim is for good. The stop flag is set then.
pub(crate) fn begin<'a, R: Wait, G>(
    rt: &R,
    system: &System<G>,
    host: &mut Host<'a>,
    left: u32,
) -> Result<Rounds<'a>, NoMemory>
    requires own { IsHosting system.now host.old }
    requires some { 1 ≤ left }
    ensures goes { HostContinues system.now host.old host.new }
    ensures stage { IfOk result (λ r. IsStageOf host.new r.stage) }
    ensures sum { IfOk result (λ r. rounds_begun host.new + r.left ≡ rounds_begun host.old + left) }
    ensures none { IfErr result (λ _. rounds_begun host.new ≡ rounds_begun host.old) }
{
    match host.slots.claim_any(&mut host.driver) {
        Ok(claiming) => Ok(Rounds {
            left: left - 1,
            stage: RoundStage::Claiming(claiming),
        }),
        Err(fault) => {
            if next_after(fault) != AfterFault::Again {
                return Err(stops(system));
            }
            pause(rt, system, host);
            Ok(Rounds {
                left,
                stage: RoundStage::Ready,
            })
        }
    }
}

/// Polls a claim of any slot. Where it hasn't ended the host pauses; where it ended without a slot the round does.
///
/// # Errors
///
/// `NoMemory` where a growth is refused. The stop flag is set then.
pub(crate) fn polls<'a, R: Wait, G>(
    rt: &R,
    system: &System<G>,
    host: &mut Host<'a>,
    claiming: Claiming<SharedPort<'a>>,
) -> Result<RoundStage<'a>, NoMemory>
    requires own { IsHosting system.now host.old }
    requires of { IsClaimingOf host.old.driver claiming × IsUnreleased host.old.driver claiming }
    requires past { IsPast claiming 0 }
    ensures goes { HostContinues system.now host.old host.new }
    ensures stage { IfOk result (IsStageOf host.new) }
    ensures begun { rounds_begun host.new ≡ rounds_begun host.old }
{
    match poll_claim(&mut host.driver, claiming) {
        Progress::Held(claim) => Ok(RoundStage::Holding(KeptClaim { claim })),
        Progress::Pending(same) => Ok(busy_turn(rt, system, host, RoundStage::Claiming(same))),
        Progress::Later(fault, same) => {
            if fault == Fault::NoMemory {
                return Err(stops(system));
            }
            Ok(busy_turn(rt, system, host, RoundStage::Claiming(same)))
        }
        Progress::Taken | Progress::AllTaken | Progress::Failed(_) => Ok(RoundStage::Ready),
    }
}
