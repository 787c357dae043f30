//! What holds of slots that were taken over, each as the contract of a function that does nothing.

ghost use Rattle.std.specs.Prelude.{Some, false, true, ℕ, ◌≡◌};
ghost use Rattle.nvme_model.specs.Array.{zeros};
ghost use Rattle.nvme_model.specs.History.{Past};
ghost use Rattle.nvme_model.specs.Passes.{entries};
ghost use Rattle.nvme_model.specs.Slots.{Name, holder};
ghost use Rattle.nvme_model.specs.Value.{value};
ghost use Rattle.driver_calls.specs.Views.{IsAlone};
ghost use Rattle.driver_cas.specs.Drivers.{HasSettings, area_of, before, made, number_of};
ghost use Rattle.driver_cas.specs.Ports.{PortFollows, view_of};
ghost use Rattle.driver_cas.specs.Starts.{IsUntouched};
ghost use Rattle.host_laws.specs.Calls.{PairDiffers, PairSwaps};
ghost use Rattle.slot_alloc.specs.Areas.{block_of, claim_serial, slot_of};
ghost use Rattle.slot_alloc.specs.Claims.{IsHeldBy, IsReleasingOf};
ghost use Rattle.slot_alloc.specs.SlotRules.{own_name};
ghost use Rattle.slot_alloc.specs.declared.release.Releasing.{Releasing};
ghost use Rattle.slot_log_laws.specs.Swaps.{log_released};
ghost use Rattle.host_laws.specs.Rules.{is_cut_off, takeover_disciplined};
ghost use Rattle.host_laws.specs.Takeovers.{still_believed};
ghost use Rattle.slot_takeover.specs.Holders.{IsHolderPolled, IsReadingOf, WasHeldSo, asked_at, holder_in, slot_read};
ghost use Rattle.slot_takeover.specs.Polls.{IsTakeoverPolled};
ghost use Rattle.slot_takeover.specs.Takeovers.{HoldsTaken, IsTakingOverOf, held_serial, slot_held};
ghost use Rattle.slot_takeover.specs.Takeovers.{takeover_call};
ghost use Rattle.slot_takeover.specs.declared.held.HeldSlot.{HeldSlot};
ghost use Rattle.slot_takeover.specs.declared.holder.Holder.{Holder};
ghost use Rattle.slot_takeover.specs.declared.holder.HolderPoll.{HolderPoll};
ghost use Rattle.slot_takeover.specs.declared.holder.ReadingHolder.{ReadingHolder};
ghost use Rattle.slot_takeover.specs.declared.polling.TakeoverProgress.{TakeoverProgress};
ghost use Rattle.slot_takeover.specs.declared.taking.TakingOver.{TakingOver};

use crate::held::HeldSlot;
use crate::holder::ReadingHolder;
use crate::taking::TakingOver;
use driver_cas::{Driver, Port, SharedPort};
use slot_alloc::Claim;
use std::snapshot::Snapshot;

/// What was begun and what was taken over stays so where the driver did nothing: over `meet`, `meet_pass` and `listen`,
/// and after a fault of a start call.
pub fn an_untouched_driver_keeps_its_takeovers<P: Port>(old: &Snapshot<Driver<P>>, new: &Driver<P>)
    ensures taking { IsUntouched old.now.value new.now →
        (k : TakingOver P) → IsTakingOverOf old.now.value k → IsTakingOverOf new.now k }
    ensures held { IsUntouched old.now.value new.now →
        (h : HeldSlot) → HoldsTaken old.now.value h → HoldsTaken new.now h }
    ensures giving { IsUntouched old.now.value new.now →
        (k : Releasing P) → IsReleasingOf old.now.value k → IsReleasingOf new.now k }
    ensures reading { IsUntouched old.now.value new.now →
        (k : ReadingHolder P) → IsReadingOf old.now.value k → IsReadingOf new.now k }
{
    let _ = old;
    let _ = new;
}

/// Where a takeover was told as held, its effect said yes, and stands in what is seen then and later; where it was told
/// as taken, its effect said no.
pub fn a_takeover_was_answered(
    at: &Snapshot<Driver<SharedPort<'_>>>,
    driver: &Driver<SharedPort<'_>>,
    taking: &Snapshot<TakingOver<SharedPort<'_>>>,
)
    ensures held { let k = takeover_call taking.now.value in
        IsAlone (before driver.now) (view_of driver.now.port) → HasSettings at.now.value driver.now →
        PortFollows at.now.value.port driver.now.port → (h : HeldSlot) →
        IsTakeoverPolled at.now.value taking.now.value (TakeoverProgress.Held h) →
        PairSwaps (entries (view_of driver.now.port).seen) k.queue (number_of at.now.value k) }
    ensures taken { let k = takeover_call taking.now.value in
        IsAlone (before driver.now) (view_of driver.now.port) → HasSettings at.now.value driver.now →
        PortFollows at.now.value.port driver.now.port →
        IsTakeoverPolled at.now.value taking.now.value TakeoverProgress.Taken →
        PairDiffers (entries (view_of driver.now.port).seen) k.queue (number_of at.now.value k) }
{
    let _ = at;
    let _ = driver;
    let _ = taking;
}

/// An answer who holds a slot was so at one moment between the start of the question and what is seen now. A name that
/// it tells is the holder's then.
pub fn a_holder_was_read(
    at: &Snapshot<Driver<SharedPort<'_>>>,
    driver: &Driver<SharedPort<'_>>,
    reading: &Snapshot<ReadingHolder<SharedPort<'_>>>,
)
    ensures moment { let k = reading.now.value in
        IsAlone (before driver.now) (view_of driver.now.port) → HasSettings at.now.value driver.now →
        PortFollows at.now.value.port driver.now.port → (h : Holder) →
        IsHolderPolled at.now.value k (HolderPoll.Done h) →
        WasHeldSo (entries (view_of (asked_at k)).seen) (entries (view_of driver.now.port).seen)
        (block_of (area_of driver.now) (slot_read k)) h }
    ensures name { (past : Past) (l : ℕ) (n : Name) → Holder.Of n ≡ holder_in (value past l) →
        holder past l ≡ Some n }
    ensures free { (past : Past) (l : ℕ) → Holder.Free ≡ holder_in (value past l) → value past l ≡ zeros }
{
    let _ = at;
    let _ = driver;
    let _ = reading;
}

/// Where only this driver uses its queues, and the discipline of a slot area with takeovers was kept in what its port
/// has seen, a slot that was taken over and isn't released is still believed of this host, and it holds the slot; as
/// long as no takeover of this host itself was published.
pub fn a_slot_that_was_taken_over_is_held(driver: &Driver<SharedPort<'_>>, held: &HeldSlot)
    ensures believed { let v = view_of driver.now.port in
        let l = block_of (area_of driver.now) (slot_held held.now) in
        HoldsTaken driver.now held.now → IsAlone (before driver.now) v →
        takeover_disciplined v.config (area_of driver.now) (entries v.seen) ≡ true →
        is_cut_off v.config (area_of driver.now) (entries v.seen) v.queue ≡ false →
        log_released (made driver.now) l (own_name driver.now (held_serial held.now)) ≡ false →
        still_believed v.config (entries v.seen) l (own_name driver.now (held_serial held.now)) ≡ true }
    ensures holder { let v = view_of driver.now.port in
        let l = block_of (area_of driver.now) (slot_held held.now) in
        HoldsTaken driver.now held.now → IsAlone (before driver.now) v →
        takeover_disciplined v.config (area_of driver.now) (entries v.seen) ≡ true →
        is_cut_off v.config (area_of driver.now) (entries v.seen) v.queue ≡ false →
        log_released (made driver.now) l (own_name driver.now (held_serial held.now)) ≡ false →
        holder (entries v.seen) l ≡ Some (own_name driver.now (held_serial held.now)) }
{
    let _ = driver;
    let _ = held;
}

/// So is a slot that this driver claimed, before its takeovers or behind them, and beside those of others.
pub fn a_claimed_slot_is_held_among_takeovers(driver: &Driver<SharedPort<'_>>, claim: &Claim)
    ensures believed { let v = view_of driver.now.port in
        let l = block_of (area_of driver.now) (slot_of claim.now) in
        IsHeldBy driver.now claim.now → IsAlone (before driver.now) v →
        takeover_disciplined v.config (area_of driver.now) (entries v.seen) ≡ true →
        is_cut_off v.config (area_of driver.now) (entries v.seen) v.queue ≡ false →
        still_believed v.config (entries v.seen) l (own_name driver.now (claim_serial claim.now)) ≡ true }
    ensures holder { let v = view_of driver.now.port in
        let l = block_of (area_of driver.now) (slot_of claim.now) in
        IsHeldBy driver.now claim.now → IsAlone (before driver.now) v →
        takeover_disciplined v.config (area_of driver.now) (entries v.seen) ≡ true →
        is_cut_off v.config (area_of driver.now) (entries v.seen) v.queue ≡ false →
        holder (entries v.seen) l ≡ Some (own_name driver.now (claim_serial claim.now)) }
{
    let _ = driver;
    let _ = claim;
}
