//! A host that claims slots, and what it has begun.

ghost use Rattle.std.specs.Prelude.{◌≡◌, ◌<◌, ◌≤◌, ◌∷◌, [], IfOk, IfSome};
ghost use Rattle.shared_system.specs.Plain.{ArePlainCallers, IsPlainCallerOf};
ghost use Rattle.slot_alloc.specs.Areas.{area};
ghost use Rattle.slot_alloc.specs.Claims.{IsClaimingOf, IsReleasingOf, IsUnreleased};
ghost use Rattle.driver_cas.specs.Starts.{IsUntouched};
ghost use Rattle.driver_testing.specs.Claimants.{IsClaimantBegun, IsClaimant, IsClaimantReady};
ghost use Rattle.driver_testing.specs.declared.host.TestHost.{TestHost};
ghost use Rattle.driver_testing.specs.declared.claimant.ClaimantStage.{ClaimantStage};

use crate::host::{TestHost, host_of};
use driver_cas::{Driver, Fault, SharedPort};
use nvme_model::array::Range;
use shared_system::{PlainCaller, PlainCallers, PlainSystem, take_caller};
use slot_alloc::laws::an_untouched_driver_keeps_its_slots;
use slot_alloc::{
    Claiming, KeptClaim, Progress, Released, Releasing, Slots, poll_claim, poll_release,
};
use std::alloc::{AllocError as NoMemory, Global};
use std::mem;
use std::snapshot::Snapshot;

/// What a host has begun.
#[derive(Drop)]
pub enum ClaimantStage<'a> {
    Idle,
    Claiming(Claiming<SharedPort<'a>>),
    Holding(KeptClaim),
    Releasing(Releasing<SharedPort<'a>>),
}

/// A host that claims slots, on the submission queue of this number.
#[derive(Drop)]
pub struct Claimant<'a> {
    pub host: TestHost<'a>,
    pub queue: u16,
    pub stage: ClaimantStage<'a>,
}

/// What a host has begun stays so where its driver did nothing.
pub(crate) fn begun_stays<'a>(before: &Snapshot<Driver<SharedPort<'a>>>, host: &TestHost<'a>)
    ensures { (h : TestHost) → before.now.value ≡ h.driver → IsUntouched h.driver host.now.driver
        → (stage : ClaimantStage) →
        IsClaimantBegun h stage → IsClaimantBegun host.now stage }
{
    an_untouched_driver_keeps_its_slots(before, &host.driver);
}

/// Host h, on queue h, with so many slots from block 0 on, which has begun nothing; None where memory is refused.
pub fn claimant_of<'a>(
    alloc: Global,
    system: &'a PlainSystem,
    caller: PlainCaller,
    h: u16,
    _slots: &Slots,
    count: u32,
) -> Option<Claimant<'a>>
    requires caller { IsPlainCallerOf system.now caller }
    requires number { (1 ≤ h) × (h ≤ system.now.config.pairs) }
    requires own { system.now.config.cqs ≡ system.now.config.pairs }
    requires slots { (area _slots.now ≡ record { slba = 0; blocks = count }) × (count ≤ 65536) }
    ensures { IfSome result (IsClaimant system.entry.now _slots.now) }
{
    let Ok(queues) = queues_of(alloc, h) else {
        return None;
    };
    let range = Range {
        slba: 0,
        blocks: count,
    };
    let host = host_of(alloc, system, caller, u32::from(h), range, h, queues)?;
    Some(Claimant {
        host,
        queue: h,
        stage: ClaimantStage::Idle,
    })
}

/// A server, and hosts 1 and 2 with so many slots from block 0 on; None where memory is refused or no pass is left.
pub fn claimants_of<'a>(
    alloc: Global,
    system: &'a PlainSystem,
    spares: &mut PlainCallers,
    slots: &Slots,
    count: u32,
) -> Option<(PlainCaller, Claimant<'a>, Claimant<'a>)>
    requires own { ArePlainCallers system.now spares.old }
    requires queues { (system.now.config.pairs ≡ 2) × (system.now.config.cqs ≡ 2) }
    requires slots { (area slots.now ≡ record { slba = 0; blocks = count }) × (count ≤ 65536) }
    ensures server { IfSome result (λ h. IsPlainCallerOf system.entry.now h.0) }
    ensures one { IfSome result (λ h. IsClaimant system.entry.now slots.now h.1) }
    ensures two { IfSome result (λ h. IsClaimant system.entry.now slots.now h.2) }
{
    let server = take_caller(system, spares)?;
    let one = take_caller(system, spares)?;
    let two = take_caller(system, spares)?;
    let one = claimant_of(alloc, system, one, 1, slots, count)?;
    let two = claimant_of(alloc, system, two, 2, slots, count)?;
    Some((server, one, two))
}

// A list of one queue.
fn queues_of(alloc: Global, queue: u16) -> Result<Vec<u16>, NoMemory>
    ensures { IfOk result (λ q. q.items ≡ queue ∷ []) }
{
    let mut queues = Vec::new(alloc);
    queues.push(queue)?;
    Ok(queues)
}

/// What came of a call.
#[derive(Clone, Copy, Debug, PartialEq, Eq)]
pub enum Came {
    /// Nothing was asked for.
    Nothing,
    /// A claim or a release was begun.
    Begun,
    /// It wasn't, for this cause.
    Refused(Fault),
    Pending,
    Later(Fault),
    /// The slot of this number is held.
    Held(u32),
    Taken,
    AllTaken,
    Failed(Fault),
    Released,
}

// Begins to claim this slot or, where it names none, any.
fn begins<'a>(
    _system: &PlainSystem,
    slots: &Slots,
    host: &mut TestHost<'a>,
    slot: Option<u32>,
) -> Result<Claiming<SharedPort<'a>>, Fault>
    requires ready { IsClaimantReady _system.now slots.now host.old }
    requires slot { IfSome slot (λ i. i < (area slots.now).blocks) }
    ensures ready { IsClaimantReady _system.now slots.now host.new }
    ensures claiming { IfOk result (λ k. IsClaimingOf host.new.driver k × IsUnreleased host.new.driver k) }
{
    match slot {
        Some(i) => slots.claim(&mut host.driver, i),
        None => slots.claim_any(&mut host.driver),
    }
}

/// Begins to claim this slot, or any, where nothing is begun.
pub fn asks(
    system: &PlainSystem,
    slots: &Slots,
    claimant: &mut Claimant<'_>,
    slot: Option<u32>,
) -> Came
    requires claimant { IsClaimant system.now slots.now claimant.old }
    requires slot { IfSome slot (λ i. i < (area slots.now).blocks) }
    ensures { IsClaimant system.now slots.now claimant.new }
{
    let (stage, came) = match mem::replace(&mut claimant.stage, ClaimantStage::Idle) {
        ClaimantStage::Idle => match begins(system, slots, &mut claimant.host, slot) {
            Ok(claiming) => (ClaimantStage::Claiming(claiming), Came::Begun),
            Err(fault) => (ClaimantStage::Idle, Came::Refused(fault)),
        },
        ClaimantStage::Claiming(claiming) => (ClaimantStage::Claiming(claiming), Came::Nothing),
        ClaimantStage::Holding(kept) => (ClaimantStage::Holding(kept), Came::Nothing),
        ClaimantStage::Releasing(releasing) => (ClaimantStage::Releasing(releasing), Came::Nothing),
    };
    claimant.stage = stage;
    came
}

/// Begins to release the slot that is held, if one is.
pub fn gives_back(_system: &PlainSystem, slots: &Slots, claimant: &mut Claimant<'_>) -> Came
    requires { IsClaimant _system.now slots.now claimant.old }
    ensures { IsClaimant _system.now slots.now claimant.new }
{
    let (stage, came) = match mem::replace(&mut claimant.stage, ClaimantStage::Idle) {
        ClaimantStage::Holding(kept) => match slots.release(
            &mut claimant.host.driver,
            kept.into_claim(),
        ) {
            Ok(releasing) => (ClaimantStage::Releasing(releasing), Came::Begun),
            Err((claim, fault)) => (
                ClaimantStage::Holding(KeptClaim { claim }),
                Came::Refused(fault),
            ),
        },
        ClaimantStage::Idle => (ClaimantStage::Idle, Came::Nothing),
        ClaimantStage::Claiming(claiming) => (ClaimantStage::Claiming(claiming), Came::Nothing),
        ClaimantStage::Releasing(releasing) => (ClaimantStage::Releasing(releasing), Came::Nothing),
    };
    claimant.stage = stage;
    came
}

// What has come of a claim.
fn polled_claim<'a>(
    _system: &PlainSystem,
    _slots: &Slots,
    host: &mut TestHost<'a>,
    claiming: Claiming<SharedPort<'a>>,
) -> (ClaimantStage<'a>, Came)
    requires ready { IsClaimantReady _system.now _slots.now host.old }
    requires of { IsClaimingOf host.old.driver claiming × IsUnreleased host.old.driver claiming }
    ensures ready { IsClaimantReady _system.now _slots.now host.new }
    ensures begun { IsClaimantBegun host.new result.0 }
{
    match poll_claim(&mut host.driver, claiming) {
        Progress::Pending(claiming) => (ClaimantStage::Claiming(claiming), Came::Pending),
        Progress::Later(fault, claiming) => (ClaimantStage::Claiming(claiming), Came::Later(fault)),
        Progress::Held(claim) => {
            let slot = claim.slot();
            (
                ClaimantStage::Holding(KeptClaim { claim }),
                Came::Held(slot),
            )
        }
        Progress::Taken => (ClaimantStage::Idle, Came::Taken),
        Progress::AllTaken => (ClaimantStage::Idle, Came::AllTaken),
        Progress::Failed(fault) => (ClaimantStage::Idle, Came::Failed(fault)),
    }
}

// What has come of a release.
fn polled_release<'a>(
    _system: &PlainSystem,
    _slots: &Slots,
    host: &mut TestHost<'a>,
    releasing: Releasing<SharedPort<'a>>,
) -> (ClaimantStage<'a>, Came)
    requires ready { IsClaimantReady _system.now _slots.now host.old }
    requires of { IsReleasingOf host.old.driver releasing }
    ensures ready { IsClaimantReady _system.now _slots.now host.new }
    ensures begun { IsClaimantBegun host.new result.0 }
{
    match poll_release(&mut host.driver, releasing) {
        Released::Pending(releasing) => (ClaimantStage::Releasing(releasing), Came::Pending),
        Released::Later(fault, releasing) => (
            ClaimantStage::Releasing(releasing),
            Came::Later(fault),
        ),
        Released::Released => (ClaimantStage::Idle, Came::Released),
        Released::Failed(fault) => (ClaimantStage::Idle, Came::Failed(fault)),
    }
}

/// Polls what is begun, once.
pub fn polls_begun(system: &PlainSystem, slots: &Slots, claimant: &mut Claimant<'_>) -> Came
    requires { IsClaimant system.now slots.now claimant.old }
    ensures { IsClaimant system.now slots.now claimant.new }
{
    let (stage, came) = match mem::replace(&mut claimant.stage, ClaimantStage::Idle) {
        ClaimantStage::Claiming(claiming) => polled_claim(
            system,
            slots,
            &mut claimant.host,
            claiming,
        ),
        ClaimantStage::Releasing(releasing) => polled_release(
            system,
            slots,
            &mut claimant.host,
            releasing,
        ),
        ClaimantStage::Idle => (ClaimantStage::Idle, Came::Nothing),
        ClaimantStage::Holding(kept) => (ClaimantStage::Holding(kept), Came::Nothing),
    };
    claimant.stage = stage;
    came
}

/// The slot that the host held and the serial of its claim, if it held one, which stays held. What was begun is
/// dropped.
pub fn leaves(
    _system: &PlainSystem,
    _slots: &Slots,
    claimant: &mut Claimant<'_>,
) -> Option<(u32, u64)>
    requires { IsClaimant _system.now _slots.now claimant.old }
    ensures { IsClaimant _system.now _slots.now claimant.new }
{
    match mem::replace(&mut claimant.stage, ClaimantStage::Idle) {
        ClaimantStage::Holding(kept) => Some(kept.into_claim().leave()),
        ClaimantStage::Idle | ClaimantStage::Claiming(_) | ClaimantStage::Releasing(_) => None,
    }
}
