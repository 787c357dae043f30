//! Polling a claim.

ghost use Rattle.std.specs.Prelude.{◌≡◌, ◌≢◌, ◌≤◌, None, false, true, ℕ};
ghost use Rattle.driver_calls.specs.declared.reply.Reply.{Reply};
ghost use Rattle.driver_cas.specs.Drivers.{IsCallOf};
ghost use Rattle.driver_cas.specs.declared.call.Call.{Call};
ghost use Rattle.slot_alloc.specs.SlotRules.{DriverContinues, KeepsSlotRules, ReleasesDrawn};
ghost use Rattle.slot_alloc.specs.Claims.{IsClaimingOf, IsUnreleased};
ghost use Rattle.slot_alloc.specs.Counts.{IsPast, IsPastOn, claims_made};
ghost use Rattle.slot_alloc.specs.Progresses.{IsBesideClaim, IsBesideOn, IsClaimingOn, IsHeldOn, IsLost, IsLostOn};
ghost use Rattle.slot_alloc.specs.Progresses.{IsProgress, IsUnreleasedOn};

use crate::claim::Claim;
use crate::claiming::{ClaimStage, Claiming, Reach, ask, with};
use crate::progress::Progress;
use driver_cas::{Call, Driver, Poll, Port, Reply};
use std::mem;
use std::snapshot::Snapshot;

// Whether a pair's effect said yes.
pub(crate) fn is_swapped(reply: Reply) -> bool
    ensures yes { result ≡ true → reply ≡ Reply.Swapped }
    ensures no_other { result ≡ false → reply ≢ Reply.Swapped }
{
    match reply {
        Reply::Swapped => true,
        Reply::Read(_) | Reply::Written | Reply::Equal | Reply::Differs => false,
    }
}

// Goes on to the next slot where any will do: somebody else has the one at hand, as its claim was told.
fn next<P: Port>(
    driver: &mut Driver<P>,
    claiming: Claiming<P>,
    call: Snapshot<Call<P>>,
    serial: u64,
) -> Progress<P>
    requires lost { IsLost driver.old claiming call.value serial }
    ensures slot_rules { KeepsSlotRules driver.old → KeepsSlotRules driver.new }
    ensures goes_on { DriverContinues driver.old driver.new None }
    ensures is { IsLostOn driver.old driver.new claiming call.value serial result }
    ensures claims { (i : ℕ) → i ≤ claiming.slot →
        (claims_made driver.new i ≡ claims_made driver.old i) × IsPastOn result i }
    ensures of { IsClaimingOn driver.new result }
    ensures unreleased { KeepsSlotRules driver.old → IsUnreleasedOn driver.new result }
    ensures drawn { ReleasesDrawn driver.old → IsUnreleasedOn driver.new result }
    ensures others { (other : Call P) →
        IsCallOf driver.old other → IsCallOf driver.new other × IsBesideOn result other }
{
    let Claiming {
        slots,
        reach,
        slot,
        stage: _,
        began,
        lower,
    } = claiming;
    if reach == Reach::One {
        return Progress::Taken;
    }
    let slot = slot + 1;
    if slot == slots.count {
        return Progress::AllTaken;
    }
    let stage = ClaimStage::Due;
    let lower = with(lower, call, serial);
    let due = Claiming {
        slots,
        reach,
        slot,
        stage,
        began,
        lower,
    };
    ask(driver, due)
}

/// What has come of a claim. Reaps at most one completion; where the slot at hand is somebody else's and any will do,
/// the next slot's pair is published.
pub fn poll_claim<P: Port>(driver: &mut Driver<P>, claiming: Claiming<P>) -> Progress<P>
    requires of { IsClaimingOf driver.old claiming }
    ensures slot_rules { KeepsSlotRules driver.old → KeepsSlotRules driver.new }
    ensures goes_on { DriverContinues driver.old driver.new None }
    ensures is { IsProgress driver.old driver.new claiming claiming.stage result }
    ensures claims { (i : ℕ) → IsPast claiming i →
        (claims_made driver.new i ≡ claims_made driver.old i) × IsPastOn result i }
    ensures of { IsClaimingOn driver.new result }
    ensures held { IsUnreleased driver.old claiming → IsHeldOn driver.new result }
    ensures unreleased { KeepsSlotRules driver.old → IsUnreleased driver.old claiming
        → IsUnreleasedOn driver.new result }
    ensures drawn { ReleasesDrawn driver.old → IsUnreleased driver.old claiming → IsUnreleasedOn driver.new result }
    ensures others { (other : Call P) → IsCallOf driver.old other → IsBesideClaim claiming.stage other →
        IsCallOf driver.new other × IsBesideOn result other }
{
    let mut claiming = claiming;
    let ClaimStage::Asked(call, serial) = mem::replace(&mut claiming.stage, ClaimStage::Due) else {
        return ask(driver, claiming);
    };
    let asked = Snapshot::of(&call);
    match driver.poll(call) {
        Poll::Pending(call) => {
            claiming.stage = ClaimStage::Asked(call, serial);
            Progress::Pending(claiming)
        }
        Poll::Later(fault, call) => {
            claiming.stage = ClaimStage::Asked(call, serial);
            Progress::Later(fault, claiming)
        }
        Poll::Done(reply) => {
            if is_swapped(reply) {
                let slot = claiming.slot;
                return Progress::Held(Claim { slot, serial });
            }
            next(driver, claiming, asked, serial)
        }
        Poll::Failed(fault) => Progress::Failed(fault),
    }
}
