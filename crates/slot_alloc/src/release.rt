//! Releases.

ghost use Rattle.std.specs.Prelude.{◌≡◌, IfOk, None};
ghost use Rattle.driver_cas.specs.Drivers.{AsksPort, SharesNoCid, IsCallOf, area_of};
ghost use Rattle.driver_cas.specs.declared.call.Call.{Call};
ghost use Rattle.slot_alloc.specs.Areas.{area};
ghost use Rattle.slot_alloc.specs.SlotRules.{DriverContinues, KeepsSlotRules};
ghost use Rattle.slot_alloc.specs.Claims.{IsHeldBy, IsReleasingOf};
ghost use Rattle.slot_alloc.specs.Counts.{AddsNoClaim};
ghost use Rattle.slot_alloc.specs.Progresses.{IsQuiet};
ghost use Rattle.slot_alloc.specs.Releases.{IsReleaseBegun, IsReleasePolled, later_released, released_by};

use crate::claim::Claim;
use crate::poll::is_swapped;
use crate::progress::Released;
use crate::slots::Slots;
use driver_cas::{Call, Driver, Fault, Poll, Port};
use nvme_model::status::Status;

/// A release that was begun: of this slot, under this serial, by this call. It can't be copied, and one that is dropped
/// keeps its CIDs.
#[derive(Drop)]
pub struct Releasing<P> {
    pub slot: u32,
    pub serial: u64,
    pub call: Call<P>,
}

impl Slots {
    /// Begins to release the slot of a claim: one fused pair is published.
    ///
    /// # Errors
    ///
    /// The claim, and why nothing was published: as of `Driver::start_release`.
    pub fn release<P: Port>(
        &self,
        driver: &mut Driver<P>,
        claim: Claim,
    ) -> Result<Releasing<P>, (Claim, Fault)>
        requires area { area_of driver.old ≡ area self.now }
        requires held { IsHeldBy driver.old claim }
        ensures slot_rules { KeepsSlotRules driver.old → KeepsSlotRules driver.new }
        ensures goes_on { DriverContinues driver.old driver.new (released_by driver.old claim result) }
        ensures is { IsReleaseBegun driver.old driver.new claim result }
        ensures claims { AddsNoClaim driver.old driver.new }
        ensures of { IfOk result (λ k. IsReleasingOf driver.new k) }
        ensures others { (other : Call P) → IsCallOf driver.old other → IsCallOf driver.new other }
    {
        match driver.start_release(self.block(claim.slot), claim.serial) {
            Ok(call) => {
                let Claim { slot, serial } = claim;
                Ok(Releasing { slot, serial, call })
            }
            Err(fault) => Err((claim, fault)),
        }
    }
}

/// What has come of a release. Reaps at most one completion.
pub fn poll_release<P: Port>(driver: &mut Driver<P>, releasing: Releasing<P>) -> Released<P>
    requires of { IsReleasingOf driver.old releasing }
    ensures slot_rules { KeepsSlotRules driver.old → KeepsSlotRules driver.new }
    ensures goes_on { DriverContinues driver.old driver.new None }
    ensures is { IsReleasePolled driver.new releasing result }
    ensures claims { AddsNoClaim driver.old driver.new }
    ensures quiet { IsQuiet driver.old driver.new }
    ensures asks { AsksPort driver.old driver.new releasing.call (later_released result) }
    ensures others { (other : Call P) →
        IsCallOf driver.old other → SharesNoCid releasing.call other → IsCallOf driver.new other }
{
    let Releasing { slot, serial, call } = releasing;
    match driver.poll(call) {
        Poll::Pending(call) => Released::Pending(Releasing { slot, serial, call }),
        Poll::Later(fault, call) => Released::Later(fault, Releasing { slot, serial, call }),
        Poll::Done(reply) => {
            if is_swapped(reply) {
                return Released::Released;
            }
            Released::Failed(Fault::Status(Status::COMPARE_FAILURE))
        }
        Poll::Failed(fault) => Released::Failed(fault),
    }
}
