//! What has come of a claim or of a release.

ghost use Rattle.std.specs.Prelude.{IfErr, IfSome};
ghost use Rattle.slots_example.specs.Hosts.{IsLockHost};
ghost use Rattle.slot_alloc.specs.Claims.{IsClaimingOf, IsHeldBy, IsReleasingOf, IsUnreleased};
ghost use Rattle.slot_alloc.specs.Progresses.{IsClaimingOn, IsHeldOn, IsUnreleasedOn};

use driver_cas::SharedPort;
use race_hosts::Host;
use shared_system::System;
use slot_alloc::{Claim, Claiming, Progress, Released, Releasing, poll_claim, poll_release};

/// Asks what has come of a claim.
pub(crate) fn polled<'a, G>(
    _system: &System<G>,
    host: &mut Host<'a>,
    claiming: Claiming<SharedPort<'a>>,
) -> Progress<SharedPort<'a>>
    requires host { IsLockHost _system.now host.old }
    requires claiming { IsClaimingOf host.old.driver claiming × IsUnreleased host.old.driver claiming }
    ensures host { IsLockHost _system.now host.new }
    ensures claiming { IsClaimingOn host.new.driver result }
    ensures unreleased { IsUnreleasedOn host.new.driver result }
    ensures held { IsHeldOn host.new.driver result }
{
    poll_claim(&mut host.driver, claiming)
}

/// The claim, if it got the slot.
pub(crate) fn held_by<'a>(_host: &Host<'a>, progress: Progress<SharedPort<'a>>) -> Option<Claim>
    requires { IsHeldOn _host.now.driver progress }
    ensures { IfSome result (IsHeldBy _host.now.driver) }
{
    match progress {
        Progress::Held(claim) => Some(claim),
        Progress::Pending(_)
        | Progress::Later(_, _)
        | Progress::Taken
        | Progress::AllTaken
        | Progress::Failed(_) => None,
    }
}

/// Asks what has come of a release: whether it is done. It comes back where it isn't answered yet.
pub(crate) fn polled_release<'a, G>(
    _system: &System<G>,
    host: &mut Host<'a>,
    releasing: Releasing<SharedPort<'a>>,
) -> Result<bool, Releasing<SharedPort<'a>>>
    requires host { IsLockHost _system.now host.old }
    requires releasing { IsReleasingOf host.old.driver releasing }
    ensures host { IsLockHost _system.now host.new }
    ensures back { IfErr result (IsReleasingOf host.new.driver) }
{
    match poll_release(&mut host.driver, releasing) {
        Released::Pending(releasing) => Err(releasing),
        Released::Released => Ok(true),
        Released::Later(_, _) | Released::Failed(_) => Ok(false),
    }
}
