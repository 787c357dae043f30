//! What holds of an allocator's claims and releases, each as the contract of a function that does nothing.

ghost use Rattle.std.specs.Prelude.{[], Err, IfOk, None, Ok, Option, Result, Some, true, ℕ, ◌<◌, ◌^◌, ◌≡◌, ◌≢◌, ◌≤◌};
ghost use Rattle.nvme_model.specs.Array.{has_block};
ghost use Rattle.nvme_model.specs.Passes.{entries};
ghost use Rattle.nvme_model.specs.Slots.{believed, disciplined, holder};
ghost use Rattle.nvme_model.specs.declared.status.Status.{Status};
ghost use Rattle.host_laws.specs.Calls.{PairDiffers, PairSwaps};
ghost use Rattle.driver_calls.specs.Says.{FailedSays};
ghost use Rattle.driver_calls.specs.Views.{IsAlone};
ghost use Rattle.driver_calls.specs.declared.reply.Reply.{Reply};
ghost use Rattle.driver_cas.specs.Drivers.{HasSettings, IsCallOf, IsOneMore, IsSameDriver, answer_to, area_of, before};
ghost use Rattle.driver_cas.specs.Drivers.{host_of, made, number_of, serial_of as last_of};
ghost use Rattle.driver_cas.specs.Ports.{PortFollows, view_of};
ghost use Rattle.driver_cas.specs.SlotStarts.{IsClaimStart, IsReleaseStart};
ghost use Rattle.driver_cas.specs.Requests.{IsStart, pair_request_of, request_of};
ghost use Rattle.driver_cas.specs.Starts.{IsUntouched};
ghost use Rattle.driver_cas.specs.declared.call.Call.{Call};
ghost use Rattle.driver_cas.specs.declared.fault.Fault.{Fault};
ghost use Rattle.driver_cas.specs.declared.shared_port.SharedPort.{SharedPort};
ghost use Rattle.driver_calls.specs.declared.request.CallData.{CallData};
ghost use Rattle.nvme_model.specs.declared.operation.Op.{Op};
ghost use Rattle.slot_log_laws.specs.Calls.{IsName};
ghost use Rattle.slot_log_laws.specs.Hosts.{IsSlotHost, IsSlotView};
ghost use Rattle.slot_log_laws.specs.Swaps.{log_believed};
ghost use Rattle.slot_alloc.specs.Areas.{block_of, claim_serial, slot_of};
ghost use Rattle.slot_alloc.specs.SlotRules.{DriverContinues, KeepsSlotRules, ReleasedName, ReleasesDrawn, is_another};
ghost use Rattle.slot_alloc.specs.SlotRules.{own_name};
ghost use Rattle.slot_alloc.specs.Claims.{ClaimSays, IsCallKept, IsClaimingOf, IsHeldBy, IsReleasingOf, IsUnreleased};
ghost use Rattle.slot_alloc.specs.Claims.{is_other_claim, release_call, claim_stage};
ghost use Rattle.slot_alloc.specs.Counts.{AddsNoClaim};
ghost use Rattle.slot_alloc.specs.Progresses.{IsQuiet};
ghost use Rattle.slot_alloc.specs.Releases.{IsReleasePolled};
ghost use Rattle.slot_alloc.specs.declared.claim.Claim.{Claim};
ghost use Rattle.slot_alloc.specs.declared.claiming.Claiming.{Claiming};
ghost use Rattle.slot_alloc.specs.declared.progress.Released.{Released};
ghost use Rattle.slot_alloc.specs.declared.release.Releasing.{Releasing};

use crate::claim::Claim;
use crate::claiming::Claiming;
use crate::release::Releasing;
use driver_cas::{Driver, Port, SharedPort};
use std::snapshot::Snapshot;

/// Nothing was published by a driver that was made just now.
pub fn a_new_driver_keeps_the_rules<P: Port>(driver: &Driver<P>)
    ensures { made driver.now ≡ [] → KeepsSlotRules driver.now }
{
    let _ = driver;
}

/// Of its own names a driver released none under a serial above its last, whatever it claims and takes over. So a claim
/// that it begins is of a name that wasn't released, also where a takeover keeps it from the rules of slots.
pub fn what_was_released_was_drawn<P: Port>(old: &Snapshot<Driver<P>>, new: &Driver<P>)
    ensures fresh { made new.now ≡ [] → ReleasesDrawn new.now }
    ensures ruled { KeepsSlotRules new.now → ReleasesDrawn new.now }
    ensures stays { DriverContinues old.now.value new.now None →
        ReleasesDrawn old.now.value → ReleasesDrawn new.now }
    ensures released { (l serial : ℕ) →
        DriverContinues old.now.value new.now (Some (l, own_name old.now.value serial)) →
        serial ≤ last_of old.now.value → ReleasesDrawn old.now.value → ReleasesDrawn new.now }
{
    let _ = old;
    let _ = new;
}

/// A driver's other calls touch no slot: what they publish and reap leaves a driver that keeps the rules of slots so,
/// and what it believed it goes on to believe. `poll` is also what is to be known of `meet`, `meet_pass` and `listen`,
/// which make no event.
pub fn other_calls_touch_no_slot<P: Port>(old: &Snapshot<Driver<P>>, new: &Driver<P>)
    ensures start { IsSameDriver old.now.value new.now → P.follows old.now.value.port new.now.port →
        (acwu slba bytes : ℕ) (o : Op) (contents : CallData) (r : Result (Call P) Fault) →
        IsStart old.now.value new.now (request_of acwu (area_of old.now.value) o slba bytes) contents r →
        (KeepsSlotRules old.now.value → KeepsSlotRules new.now) × DriverContinues old.now.value new.now None }
    ensures pair { IsSameDriver old.now.value new.now → P.follows old.now.value.port new.now.port →
        (acwu slba bytes others : ℕ) (contents : CallData) (r : Result (Call P) Fault) →
        IsStart old.now.value new.now (pair_request_of acwu (area_of old.now.value) slba bytes others) contents r →
        (KeepsSlotRules old.now.value → KeepsSlotRules new.now) × DriverContinues old.now.value new.now None }
    ensures poll { IsSameDriver old.now.value new.now → P.follows old.now.value.port new.now.port →
        IsOneMore (made old.now.value) (made new.now) →
        (KeepsSlotRules old.now.value → KeepsSlotRules new.now) × DriverContinues old.now.value new.now None }
{
    let _ = old;
    let _ = new;
}

/// A claim that is begun by itself (`Driver::start_claim`) leaves a driver that keeps the rules of slots so, and what
/// it believed it goes on to believe.
pub fn a_claim_by_itself<P: Port>(old: &Snapshot<Driver<P>>, new: &Driver<P>)
    ensures { HasSettings old.now.value new.now → P.follows old.now.value.port new.now.port →
        (lba : ℕ) (r : Result (Call P × ℕ) Fault) → IsClaimStart old.now.value new.now lba r →
        1 ≤ host_of old.now.value → host_of old.now.value < 2 ^ 32 → IfOk r (λ c. c.1 < 2 ^ 64) →
        has_block (area_of old.now.value) lba ≡ true →
        (KeepsSlotRules old.now.value → KeepsSlotRules new.now) × DriverContinues old.now.value new.now None }
{
    let _ = old;
    let _ = new;
}

/// A release that is begun without its claim (`Driver::start_release` called by itself) leaves all other names as they
/// were, and a driver that keeps the rules of slots goes on so where its log believes the name.
pub fn a_release_by_itself<P: Port>(old: &Snapshot<Driver<P>>, new: &Driver<P>)
    ensures slot_rules { IsSameDriver old.now.value new.now → (lba serial : ℕ) (r : Result (Call P) Fault) →
        IsReleaseStart old.now.value new.now lba serial r →
        IsName (own_name old.now.value serial) → has_block (area_of old.now.value) lba ≡ true →
        log_believed (made old.now.value) lba (own_name old.now.value serial) ≡ true →
        KeepsSlotRules old.now.value → KeepsSlotRules new.now }
    ensures goes_on { IsSameDriver old.now.value new.now → P.follows old.now.value.port new.now.port →
        (lba serial : ℕ) (r : Result (Call P) Fault) → IsReleaseStart old.now.value new.now lba serial r →
        IsName (own_name old.now.value serial) →
        DriverContinues old.now.value new.now (Some (lba, own_name old.now.value serial)) }
{
    let _ = old;
    let _ = new;
}

/// A claim stays held over what its driver goes on to do, but for the release of its own name.
pub fn a_held_claim_stays<P: Port>(old: &Snapshot<Driver<P>>, new: &Driver<P>, claim: &Claim)
    ensures held { (released : Option ReleasedName) → DriverContinues old.now.value new.now released →
        is_another released (block_of (area_of old.now.value) (slot_of claim.now))
        (own_name old.now.value (claim_serial claim.now)) ≡ true →
        IsHeldBy old.now.value claim.now → IsHeldBy new.now claim.now }
{
    let _ = old;
    let _ = new;
    let _ = claim;
}

/// A claim that was begun stays so as long as its call is the driver's. A name that wasn't released isn't, but by its
/// own release.
pub fn a_begun_claim_stays<P: Port>(
    old: &Snapshot<Driver<P>>,
    new: &Driver<P>,
    claiming: &Claiming<P>,
)
    ensures claiming { (released : Option ReleasedName) → DriverContinues old.now.value new.now released →
        IsCallKept new.now (claim_stage claiming.now) →
        IsClaimingOf old.now.value claiming.now → IsClaimingOf new.now claiming.now }
    ensures unreleased { (released : Option ReleasedName) → DriverContinues old.now.value new.now released →
        is_other_claim released old.now.value claiming.now ≡ true → IsClaimingOf old.now.value claiming.now →
        IsUnreleased old.now.value claiming.now → IsUnreleased new.now claiming.now }
{
    let _ = old;
    let _ = new;
    let _ = claiming;
}

/// What was begun and what is held stays so, and no slot is claimed, where the driver did nothing: over `meet`,
/// `meet_pass` and `listen`, and after a fault of a start call.
pub fn an_untouched_driver_keeps_its_slots<P: Port>(old: &Snapshot<Driver<P>>, new: &Driver<P>)
    ensures slot_rules { IsUntouched old.now.value new.now → KeepsSlotRules old.now.value → KeepsSlotRules new.now }
    ensures goes_on { IsUntouched old.now.value new.now → DriverContinues old.now.value new.now None }
    ensures claims { IsUntouched old.now.value new.now → AddsNoClaim old.now.value new.now }
    ensures held { IsUntouched old.now.value new.now →
        (c : Claim) → IsHeldBy old.now.value c → IsHeldBy new.now c }
    ensures claiming { IsUntouched old.now.value new.now →
        (k : Claiming P _) → IsClaimingOf old.now.value k → IsClaimingOf new.now k }
    ensures unreleased { IsUntouched old.now.value new.now → (k : Claiming P _) →
        IsClaimingOf old.now.value k → IsUnreleased old.now.value k → IsUnreleased new.now k }
    ensures releasing { IsUntouched old.now.value new.now →
        (k : Releasing P) → IsReleasingOf old.now.value k → IsReleasingOf new.now k }
{
    let _ = old;
    let _ = new;
}

/// A release that was begun stays so as long as its call is the driver's.
pub fn a_begun_release_stays<P: Port>(
    old: &Snapshot<Driver<P>>,
    new: &Driver<P>,
    releasing: &Releasing<P>,
)
    ensures releasing { (released : Option ReleasedName) → DriverContinues old.now.value new.now released →
        IsCallOf new.now (release_call releasing.now) →
        IsReleasingOf old.now.value releasing.now → IsReleasingOf new.now releasing.now }
{
    let _ = old;
    let _ = new;
    let _ = releasing;
}

/// What a driver that keeps the rules of slots knows of them, where the premises hold of what its port has seen: what
/// the laws of `slot_log_laws` ask for.
pub fn a_driver_that_keeps_the_rules_knows_its_slots(driver: &Driver<SharedPort<'_>>)
    ensures { KeepsSlotRules driver.now →
        IsSlotHost (before driver.now) (area_of driver.now) (host_of driver.now) (view_of driver.now.port) →
        IsSlotView (before driver.now) (area_of driver.now) (host_of driver.now) (last_of driver.now)
        (view_of driver.now.port) }
{
    let _ = driver;
}

/// Where the premises hold of what its port has seen, a driver that keeps the rules of slots keeps the discipline of
/// the slot area, and so does the whole history.
pub fn a_driver_that_keeps_the_rules_keeps_the_discipline(driver: &Driver<SharedPort<'_>>)
    ensures { KeepsSlotRules driver.now →
        IsSlotHost (before driver.now) (area_of driver.now) (host_of driver.now) (view_of driver.now.port) →
        let v = view_of driver.now.port in disciplined v.config (area_of driver.now) (entries v.seen) ≡ true }
{
    let _ = driver;
}

/// Where a claim was won, its effect said yes, and stands in what was seen.
pub fn a_won_slot_was_free(
    driver: &Driver<SharedPort<'_>>,
    began: &Snapshot<Driver<SharedPort<'_>>>,
)
    ensures { IsAlone (before driver.now) (view_of driver.now.port) →
        (lba serial : ℕ) (call : Call SharedPort)
        (s : ClaimSays driver.now began.now.value lba call serial (Ok Reply.Swapped)) →
        PairSwaps (entries (view_of driver.now.port).seen) call.queue (number_of s.at call) }
{
    let _ = driver;
    let _ = began;
}

/// Where a claim failed, the first completion of its pair was reaped with that status: the pair failed its checks and
/// did nothing.
pub fn a_failed_claim_was_told_so(
    driver: &Driver<SharedPort<'_>>,
    began: &Snapshot<Driver<SharedPort<'_>>>,
)
    ensures { IsAlone (before driver.now) (view_of driver.now.port) →
        (lba serial : ℕ) (status : Status) (call : Call SharedPort)
        (s : ClaimSays driver.now began.now.value lba call serial (Err status)) →
        let v = view_of driver.now.port in
        FailedSays v.config (entries v.seen) call.queue (number_of s.at call) status }
{
    let _ = driver;
    let _ = began;
}

/// Where a release was answered, its effect said yes, and stands in what is seen then and later.
pub fn a_released_slot_was_held(
    at: &Snapshot<Driver<SharedPort<'_>>>,
    driver: &Driver<SharedPort<'_>>,
    releasing: &Snapshot<Releasing<SharedPort<'_>>>,
)
    ensures { let k = release_call releasing.now.value in
        IsAlone (before driver.now) (view_of driver.now.port) → HasSettings at.now.value driver.now →
        PortFollows at.now.value.port driver.now.port →
        IsReleasePolled at.now.value releasing.now.value Released.Released →
        PairSwaps (entries (view_of driver.now.port).seen) k.queue (number_of at.now.value k) }
{
    let _ = at;
    let _ = driver;
    let _ = releasing;
}

/// Where a claim was answered that somebody else has its slot, its effect said no, and stands in what was seen.
pub fn a_taken_slot_was_anothers(
    driver: &Driver<SharedPort<'_>>,
    began: &Snapshot<Driver<SharedPort<'_>>>,
)
    ensures { IsAlone (before driver.now) (view_of driver.now.port) →
        (lba serial : ℕ) (call : Call SharedPort)
        (s : ClaimSays driver.now began.now.value lba call serial (Ok Reply.Differs)) →
        PairDiffers (entries (view_of driver.now.port).seen) call.queue (number_of s.at call) }
{
    let _ = driver;
    let _ = began;
}

/// Where the premises hold of what its driver's port has seen, a claim's name is believed of its slot, and holds it.
pub fn a_claim_holds_its_slot(driver: &Driver<SharedPort<'_>>, claim: &Claim)
    ensures believed { IsHeldBy driver.now claim.now → KeepsSlotRules driver.now →
        IsSlotHost (before driver.now) (area_of driver.now) (host_of driver.now) (view_of driver.now.port) →
        let v = view_of driver.now.port in
        believed v.config (entries v.seen) (block_of (area_of driver.now) (slot_of claim.now))
        (own_name driver.now (claim_serial claim.now)) ≡ true }
    ensures holder { IsHeldBy driver.now claim.now → KeepsSlotRules driver.now →
        IsSlotHost (before driver.now) (area_of driver.now) (host_of driver.now) (view_of driver.now.port) →
        let v = view_of driver.now.port in
        holder (entries v.seen) (block_of (area_of driver.now) (slot_of claim.now))
        ≡ Some (own_name driver.now (claim_serial claim.now)) }
{
    let _ = driver;
    let _ = claim;
}

/// Then a release that was begun is answered by success, if it is answered, and a poll of it never gives that it
/// failed.
pub fn a_release_never_fails(
    old: &Snapshot<Driver<SharedPort<'_>>>,
    driver: &Driver<SharedPort<'_>>,
    releasing: &Snapshot<Releasing<SharedPort<'_>>>,
)
    ensures answer { IsReleasingOf old.now.value releasing.now.value → IsQuiet old.now.value driver.now →
        KeepsSlotRules driver.now →
        IsSlotHost (before driver.now) (area_of driver.now) (host_of driver.now) (view_of driver.now.port) →
        (r : Result Reply Status) → answer_to driver.now (release_call releasing.now.value) ≡ Some r →
        r ≡ Ok Reply.Swapped }
    ensures never { IsReleasingOf old.now.value releasing.now.value → IsQuiet old.now.value driver.now →
        KeepsSlotRules driver.now →
        IsSlotHost (before driver.now) (area_of driver.now) (host_of driver.now) (view_of driver.now.port) →
        (fault : Fault) → ¬ (IsReleasePolled driver.now releasing.now.value (Released.Failed fault)) }
{
    let _ = old;
    let _ = driver;
    let _ = releasing;
}

/// Two drivers of unlike hosts that have seen one history never both have a claim of one slot.
pub fn no_slot_is_held_twice(
    one: &Driver<SharedPort<'_>>,
    other: &Driver<SharedPort<'_>>,
    claim: &Claim,
    second: &Claim,
)
    ensures { IsHeldBy one.now claim.now → IsHeldBy other.now second.now → KeepsSlotRules one.now
        → KeepsSlotRules other.now →
        IsSlotHost (before one.now) (area_of one.now) (host_of one.now) (view_of one.now.port) →
        IsSlotHost (before other.now) (area_of other.now) (host_of other.now) (view_of other.now.port) →
        area_of one.now ≡ area_of other.now → (view_of one.now.port).seen ≡ (view_of other.now.port).seen →
        host_of one.now ≢ host_of other.now → slot_of claim.now ≢ slot_of second.now }
{
    let _ = one;
    let _ = other;
    let _ = claim;
    let _ = second;
}
