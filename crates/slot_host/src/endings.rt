//! What comes of a slot host's call by a poll: what is told, what goes on, and what the host has.

ghost use Rattle.std.specs.Prelude.{◌≡◌, List};
ghost use Rattle.slot_host.specs.HostPolls.{HasRoomFor, HasRoomToTake, IsLeft};
ghost use Rattle.slot_host.specs.HostPolls.{claim_left, holder_left, release_left, takeover_left};
ghost use Rattle.slot_host.specs.declared.hold.Hold.{Hold as TheHold};
ghost use Rattle.slot_host.specs.declared.under_way.UnderWay.TheVariants as calls;

use crate::beginning::put_at;
use crate::hold::Hold;
use crate::slot_told::SlotTold;
use crate::under_way::UnderWay;
use driver_cas::Port;
use slot_alloc::{KeptClaim, Progress, Released};
use slot_takeover::{HolderPoll, KeptSlot, TakeoverProgress};

// The call goes on, and this is told.
fn go_on<P: Port>(under_way: &mut UnderWay<P>, call: UnderWay<P>, told: SlotTold) -> SlotTold
    requires { under_way.old ≡ calls.Nothing }
    ensures told { result ≡ told }
    ensures call { under_way.new ≡ call }
{
    *under_way = call;
    told
}

/// Of a claim.
pub(crate) fn end_claim<P: Port>(
    under_way: &mut UnderWay<P>,
    holds: &mut Vec<Hold>,
    progress: Progress<P>,
) -> SlotTold
    requires idle { under_way.old ≡ calls.Nothing }
    requires room { HasRoomFor progress holds.old.items }
    ensures { IsLeft (claim_left holds.old.items progress) result under_way.new holds.new.items }
{
    match progress {
        Progress::Pending(claiming) => go_on(
            under_way,
            UnderWay::Claim(claiming),
            SlotTold::Pending,
        ),
        Progress::Later(fault, claiming) => {
            go_on(under_way, UnderWay::Claim(claiming), SlotTold::Later(fault))
        }
        Progress::Held(claim) => {
            let slot = claim.slot();

            // A claim of any slot that is answered with one that the host has would take its place;
            // the controller can't answer so, since the block has this host's name in it, and no
            // clause says that.
            drop(put_at(holds, slot, Hold::Claimed(KeptClaim { claim })));
            SlotTold::Held(slot)
        }
        Progress::Taken | Progress::AllTaken => SlotTold::Taken,
        Progress::Failed(fault) => SlotTold::Failed(fault),
    }
}

/// Of a release.
pub(crate) fn end_release<P: Port>(under_way: &mut UnderWay<P>, released: Released<P>) -> SlotTold
    requires idle { under_way.old ≡ calls.Nothing }
    ensures { (holds : List TheHold) →
        IsLeft (release_left holds released) result under_way.new holds }
{
    match released {
        Released::Pending(releasing) => go_on(
            under_way,
            UnderWay::Release(releasing),
            SlotTold::Pending,
        ),
        Released::Later(fault, releasing) => {
            go_on(
                under_way,
                UnderWay::Release(releasing),
                SlotTold::Later(fault),
            )
        }
        Released::Released => SlotTold::Released,
        Released::Failed(fault) => SlotTold::Failed(fault),
    }
}

/// Of a takeover.
pub(crate) fn end_takeover<P: Port>(
    under_way: &mut UnderWay<P>,
    holds: &mut Vec<Hold>,
    progress: TakeoverProgress<P>,
) -> SlotTold
    requires idle { under_way.old ≡ calls.Nothing }
    requires room { HasRoomToTake progress holds.old.items }
    ensures { IsLeft (takeover_left holds.old.items progress) result under_way.new holds.new.items }
{
    match progress {
        TakeoverProgress::Pending(taking) => go_on(
            under_way,
            UnderWay::Takeover(taking),
            SlotTold::Pending,
        ),
        TakeoverProgress::Later(fault, taking) => {
            go_on(
                under_way,
                UnderWay::Takeover(taking),
                SlotTold::Later(fault),
            )
        }
        TakeoverProgress::Held(held) => {
            let slot = held.slot();
            drop(put_at(holds, slot, Hold::TakenOver(KeptSlot { held })));
            SlotTold::Held(slot)
        }
        TakeoverProgress::Taken => SlotTold::Taken,
        TakeoverProgress::Failed(fault) => SlotTold::Failed(fault),
    }
}

/// Of the question who holds a slot.
pub(crate) fn end_holder<P: Port>(under_way: &mut UnderWay<P>, polled: HolderPoll<P>) -> SlotTold
    requires idle { under_way.old ≡ calls.Nothing }
    ensures { (holds : List TheHold) → IsLeft (holder_left holds polled) result under_way.new holds }
{
    match polled {
        HolderPoll::Pending(reading) => go_on(
            under_way,
            UnderWay::Holder(reading),
            SlotTold::Pending,
        ),
        HolderPoll::Later(fault, reading) => {
            go_on(under_way, UnderWay::Holder(reading), SlotTold::Later(fault))
        }
        HolderPoll::Done(holder) => SlotTold::Holder(holder),
        HolderPoll::Failed(fault) => SlotTold::Failed(fault),
    }
}
