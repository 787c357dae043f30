//! Releasing a slot that was taken over.

ghost use Rattle.std.specs.Prelude.{◌≡◌, IfOk};
ghost use Rattle.driver_cas.specs.Drivers.{IsSameDriver, area_of};
ghost use Rattle.slot_alloc.specs.Areas.{area};
ghost use Rattle.slot_alloc.specs.Claims.{IsReleasingOf};
ghost use Rattle.slot_alloc.specs.SlotRules.{DriverContinues};
ghost use Rattle.slot_takeover.specs.Takeovers.{HoldsTaken, IsGivingBackBegun, given_back};

use crate::held::HeldSlot;
use driver_cas::{Driver, Fault, Port};
use slot_alloc::{Releasing, Slots};

/// Begins to release a slot that was taken over: one fused pair is published. `poll_release` of `slot_alloc` says what
/// has come of it.
///
/// # Errors
///
/// The slot, and why nothing was published: as of `Driver::start_release`.
pub fn give_back<P: Port>(
    slots: &Slots,
    driver: &mut Driver<P>,
    held: HeldSlot,
) -> Result<Releasing<P>, (HeldSlot, Fault)>
    requires area { area_of driver.old ≡ area slots.now }
    requires held { HoldsTaken driver.old held }
    ensures same { IsSameDriver driver.old driver.new }
    ensures later { P.follows driver.old.port driver.new.port }
    ensures is { IsGivingBackBegun driver.old driver.new held result }
    ensures of { IfOk result (λ k. IsReleasingOf driver.new k) }
    ensures goes_on { DriverContinues driver.old driver.new (given_back driver.old held result) }
{
    match driver.start_release(slots.block(held.slot), held.serial) {
        Ok(call) => {
            let HeldSlot { slot, serial } = held;
            Ok(Releasing { slot, serial, call })
        }
        Err(fault) => Err((held, fault)),
    }
}
