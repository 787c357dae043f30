//! What a host learns of its calls.

ghost use Rattle.driver_cas.specs.declared.shared_port.SharedPort.{SharedPort};
ghost use Rattle.slots_example.specs.Hosts.{IsSlotHost};
ghost use Rattle.slot_alloc.specs.Claims.{IsClaimingOf, IsReleasingOf, IsUnreleased};
ghost use Rattle.slot_alloc.specs.SlotRules.{KeepsSlotRules};
ghost use Rattle.slot_alloc.specs.declared.claiming.Claiming.{Claiming};
ghost use Rattle.slot_alloc.specs.declared.release.Releasing.{Releasing};
ghost use Rattle.slot_takeover.specs.Holders.{IsReadingOf};
ghost use Rattle.slot_takeover.specs.Takeovers.{IsTakingOverOf};
ghost use Rattle.slot_takeover.specs.declared.holder.ReadingHolder.{ReadingHolder};
ghost use Rattle.slot_takeover.specs.declared.taking.TakingOver.{TakingOver};

use race_hosts::Host;
use shared_system::System;
use slot_alloc::laws::an_untouched_driver_keeps_its_slots;
use slot_takeover::laws::an_untouched_driver_keeps_its_takeovers;
use std::snapshot::Snapshot;
use std::sync::Wait;

/// Learns of the next completion, if one was posted. What was begun stays so.
pub(crate) fn listens<R: Wait, G>(rt: &R, system: &System<G>, host: &mut Host<'_>)
    requires { IsSlotHost system.now host.old }
    ensures host { IsSlotHost system.now host.new }
    ensures slot_rules { KeepsSlotRules host.old.driver → KeepsSlotRules host.new.driver }
    ensures claiming { (k : Claiming SharedPort _) → IsClaimingOf host.old.driver k → IsClaimingOf host.new.driver k }
    ensures unreleased { (k : Claiming SharedPort _) → IsClaimingOf host.old.driver k →
        IsUnreleased host.old.driver k → IsUnreleased host.new.driver k }
    ensures releasing { (k : Releasing SharedPort) → IsReleasingOf host.old.driver k →
        IsReleasingOf host.new.driver k }
    ensures reading { (k : ReadingHolder SharedPort) → IsReadingOf host.old.driver k → IsReadingOf host.new.driver k }
    ensures taking { (k : TakingOver SharedPort) → IsTakingOverOf host.old.driver k →
        IsTakingOverOf host.new.driver k }
{
    let before = Snapshot::of(&host.driver);
    let place = usize::from(host.queue - 1);
    host.driver
        .listen(rt, &system.notices[place], &mut host.notices);
    an_untouched_driver_keeps_its_slots(&before, &host.driver);
    an_untouched_driver_keeps_its_takeovers(&before, &host.driver);
}
