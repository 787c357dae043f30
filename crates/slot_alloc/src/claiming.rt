//! Claims that were begun.

ghost use Rattle.std.specs.Prelude.{[], ◌≡◌, ◌<◌, ◌++◌, ◌∷◌, IfOk, None, ℕ};
ghost use Rattle.driver_cas.specs.Drivers.{IsCallOf, area_of};
ghost use Rattle.slot_alloc.specs.Areas.{area};
ghost use Rattle.slot_alloc.specs.SlotRules.{DriverContinues, KeepsSlotRules, ReleasesDrawn};
ghost use Rattle.slot_alloc.specs.Claims.{IsClaimingOf, IsUnreleased, claims_in};
ghost use Rattle.slot_alloc.specs.Counts.{AddsClaim, IsPast, IsPastOn, claims_made};
ghost use Rattle.slot_alloc.specs.Progresses.{IsClaimAsked, IsBesideOn, IsClaimingOn, IsFirstClaim, IsUnreleasedOn};
ghost use Rattle.slot_alloc.specs.declared.claiming.Reach.{Reach};
ghost use Rattle.driver_cas.specs.declared.call.Call.{Call};

use crate::progress::Progress;
use crate::slots::Slots;
use driver_cas::{Call, Driver, Fault, Port};
use std::snapshot::Snapshot;

/// Which slots a claim may take.
#[derive(Clone, Copy, Debug, PartialEq, Eq)]
pub(crate) enum Reach {
    /// One alone.
    One,
    /// The first that nobody has.
    Any,
}

/// What was done about the slot at hand.
#[derive(Drop)]
pub(crate) enum ClaimStage<P> {
    /// Its claim was begun, under this serial.
    Asked(Call<P>, u64),
    /// It has to be begun.
    Due,
}

// Snapshots, each in the next, since a list would take memory at each slot. Contracts read the
// chain as a list (`claims_in`).
/// The claims of a call that were answered, for contracts alone.
#[derive(Drop)]
pub(crate) enum Lower<P> {
    Nothing,
    /// These, and then this call, under this serial.
    And(Snapshot<Lower<P>>, Snapshot<Call<P>>, u64),
}

// No claims.
pub(crate) fn no_claims<P>() -> Snapshot<Lower<P>>
    ensures { claims_in result.value ≡ [] }
{
    Snapshot::of(&Lower::Nothing)
}

// One more claim.
pub(crate) fn with<P>(
    lower: Snapshot<Lower<P>>,
    call: Snapshot<Call<P>>,
    serial: u64,
) -> Snapshot<Lower<P>>
    ensures { claims_in result.value ≡ claims_in lower.value ++ (call.value, serial) ∷ [] }
{
    let more = Lower::And(lower, call, serial);
    Snapshot::of(&more)
}

/// A claim that was begun. It can't be copied, and one that is dropped keeps its CIDs, and its slot if it is won.
#[derive(Drop)]
pub struct Claiming<P: Port> {
    pub(crate) slots: Slots,
    pub(crate) reach: Reach,
    // The one at hand.
    pub(crate) slot: u32,
    pub(crate) stage: ClaimStage<P>,
    // The driver when the first claim was begun.
    pub(crate) began: Snapshot<Driver<P>>,
    // The claims of the lower slots, where any will do.
    pub(crate) lower: Snapshot<Lower<P>>,
}

impl Slots {
    // Begins the first claim of a call.
    fn begin<P: Port>(
        &self,
        driver: &mut Driver<P>,
        reach: Reach,
        slot: u32,
    ) -> Result<Claiming<P>, Fault>
        requires area { area_of driver.old ≡ area self.now }
        requires slot { slot < (area self.now).blocks }
        requires lower { reach ≡ Reach.Any → slot ≡ 0 }
        ensures slot_rules { KeepsSlotRules driver.old → KeepsSlotRules driver.new }
        ensures goes_on { DriverContinues driver.old driver.new None }
        ensures is { IsFirstClaim driver.old driver.new self.now reach slot result }
        ensures claims { AddsClaim driver.old driver.new slot result }
        ensures past { IfOk result (λ k. IsPast k slot) }
        ensures of { IfOk result (λ k. IsClaimingOf driver.new k) }
        ensures unreleased { KeepsSlotRules driver.old → IfOk result (λ k. IsUnreleased driver.new k) }
        ensures drawn { ReleasesDrawn driver.old → IfOk result (λ k. IsUnreleased driver.new k) }
    {
        let began = Snapshot::of(&*driver);
        let (call, serial) = driver.start_claim(self.block(slot))?;
        Ok(Claiming {
            slots: *self,
            reach,
            slot,
            stage: ClaimStage::Asked(call, serial),
            began,
            lower: no_claims(),
        })
    }

    /// Begins to claim slot `i`: one fused pair is published, and no Read.
    ///
    /// # Errors
    ///
    /// Those of `Driver::start_claim`. Nothing was published, and no serial is used up.
    pub fn claim<P: Port>(&self, driver: &mut Driver<P>, i: u32) -> Result<Claiming<P>, Fault>
        requires area { area_of driver.old ≡ area self.now }
        requires slot { i < (area self.now).blocks }
        ensures slot_rules { KeepsSlotRules driver.old → KeepsSlotRules driver.new }
        ensures goes_on { DriverContinues driver.old driver.new None }
        ensures is { IsFirstClaim driver.old driver.new self.now Reach.One i result }
        ensures claims { AddsClaim driver.old driver.new i result }
        ensures past { IfOk result (λ k. IsPast k i) }
        ensures of { IfOk result (λ k. IsClaimingOf driver.new k) }
        ensures unreleased { KeepsSlotRules driver.old → IfOk result (λ k. IsUnreleased driver.new k) }
        ensures drawn { ReleasesDrawn driver.old → IfOk result (λ k. IsUnreleased driver.new k) }
    {
        self.begin(driver, Reach::One, i)
    }

    /// Begins to claim any slot: the pair of slot 0 is published, and each further slot's by a poll, once the one
    /// before was answered.
    ///
    /// # Errors
    ///
    /// As `claim`.
    pub fn claim_any<P: Port>(&self, driver: &mut Driver<P>) -> Result<Claiming<P>, Fault>
        requires area { area_of driver.old ≡ area self.now }
        ensures slot_rules { KeepsSlotRules driver.old → KeepsSlotRules driver.new }
        ensures goes_on { DriverContinues driver.old driver.new None }
        ensures is { IsFirstClaim driver.old driver.new self.now Reach.Any 0 result }
        ensures claims { AddsClaim driver.old driver.new 0 result }
        ensures past { IfOk result (λ k. IsPast k 0) }
        ensures of { IfOk result (λ k. IsClaimingOf driver.new k) }
        ensures unreleased { KeepsSlotRules driver.old → IfOk result (λ k. IsUnreleased driver.new k) }
        ensures drawn { ReleasesDrawn driver.old → IfOk result (λ k. IsUnreleased driver.new k) }
    {
        self.begin(driver, Reach::Any, 0)
    }
}

/// Begins the claim of the slot at hand, which is due.
pub(crate) fn ask<P: Port>(driver: &mut Driver<P>, claiming: Claiming<P>) -> Progress<P>
    requires of { IsClaimingOf driver.old claiming }
    requires any { claiming.reach ≡ Reach.Any }
    ensures slot_rules { KeepsSlotRules driver.old → KeepsSlotRules driver.new }
    ensures goes_on { DriverContinues driver.old driver.new None }
    ensures is { IsClaimAsked driver.old driver.new claiming result }
    ensures claims { (i : ℕ) → i < claiming.slot →
        (claims_made driver.new i ≡ claims_made driver.old i) × IsPastOn result i }
    ensures of { IsClaimingOn driver.new result }
    ensures unreleased { KeepsSlotRules driver.old → IsUnreleasedOn driver.new result }
    ensures drawn { ReleasesDrawn driver.old → IsUnreleasedOn driver.new result }
    ensures others { (other : Call P) →
        IsCallOf driver.old other → IsCallOf driver.new other × IsBesideOn result other }
{
    let mut claiming = claiming;
    match driver.start_claim(claiming.slots.block(claiming.slot)) {
        Ok((call, serial)) => {
            claiming.stage = ClaimStage::Asked(call, serial);
            Progress::Pending(claiming)
        }
        Err(Fault::NoSerial) => Progress::Failed(Fault::NoSerial),
        Err(fault) => {
            claiming.stage = ClaimStage::Due;
            if fault == Fault::RingFull {
                return Progress::Pending(claiming);
            }
            Progress::Later(fault, claiming)
        }
    }
}
