//! Polling a slot host's call.

ghost use Rattle.std.specs.Prelude.{◌≡◌};
ghost use Rattle.slot_host.specs.declared.under_way.UnderWay.TheVariants as calls;

use crate::endings::{end_claim, end_holder, end_release, end_takeover};
use crate::slot_host::SlotHost;
use crate::slot_told::SlotTold;
use crate::under_way::UnderWay;
use driver_cas::Port;
use slot_alloc::{Claiming, Releasing, poll_claim, poll_release};
use slot_takeover::{ReadingHolder, TakingOver, poll_holder, poll_takeover};
use std::mem;

impl<P: Port> SlotHost<P> {
    ghost use Rattle.slot_host.specs.HostPolls.{ClaimPolls, HolderPolls, HostPolls, ReleasePolls, TakeoverPolls};
    ghost use Rattle.slot_host.specs.SlotHosts.{IsKept, slot_state};
    ghost use Rattle.slot_host.specs.SlotStates.{IsUnderWay};

    fn poll_claim(&mut self, claiming: Claiming<P>) -> SlotTold
        requires kept { IsKept self.old }
        requires idle { (slot_state self.old).under_way ≡ calls.Nothing }
        requires of { IsUnderWay (slot_state self.old).driver (slot_state self.old).took_over (calls.Claim claiming) }
        ensures kept { IsKept self.new }
        ensures polls { ClaimPolls (slot_state self.old) (slot_state self.new) claiming result }
    {
        let progress = poll_claim(&mut self.driver, claiming);
        end_claim(&mut self.under_way, &mut self.holds, progress)
    }

    fn poll_release(&mut self, releasing: Releasing<P>) -> SlotTold
        requires kept { IsKept self.old }
        requires idle { (slot_state self.old).under_way ≡ calls.Nothing }
        requires of { IsUnderWay (slot_state self.old).driver (slot_state self.old).took_over
            (calls.Release releasing) }
        ensures kept { IsKept self.new }
        ensures polls { ReleasePolls (slot_state self.old) (slot_state self.new) releasing result }
    {
        let released = poll_release(&mut self.driver, releasing);
        end_release(&mut self.under_way, released)
    }

    fn poll_takeover(&mut self, taking: TakingOver<P>) -> SlotTold
        requires kept { IsKept self.old }
        requires idle { (slot_state self.old).under_way ≡ calls.Nothing }
        requires of { IsUnderWay (slot_state self.old).driver (slot_state self.old).took_over (calls.Takeover taking) }
        ensures kept { IsKept self.new }
        ensures polls { TakeoverPolls (slot_state self.old) (slot_state self.new) taking result }
    {
        let progress = poll_takeover(&mut self.driver, taking);
        end_takeover(&mut self.under_way, &mut self.holds, progress)
    }

    fn poll_holder(&mut self, reading: ReadingHolder<P>) -> SlotTold
        requires kept { IsKept self.old }
        requires idle { (slot_state self.old).under_way ≡ calls.Nothing }
        requires of { IsUnderWay (slot_state self.old).driver (slot_state self.old).took_over (calls.Holder reading) }
        ensures kept { IsKept self.new }
        ensures polls { HolderPolls (slot_state self.old) (slot_state self.new) reading result }
    {
        let polled = poll_holder(&mut self.driver, reading);
        end_holder(&mut self.under_way, polled)
    }

    /// What has come of the host's call, which goes on where it is pending or put off; None where it has none. Reaps at
    /// most one completion. Of a claim of any slot the next one may be begun.
    pub fn poll(&mut self) -> Option<SlotTold>
        requires kept { IsKept self.old }
        ensures kept { IsKept self.new }
        ensures polls { HostPolls (slot_state self.old) (slot_state self.new) result }
    {
        match mem::replace(&mut self.under_way, UnderWay::Nothing) {
            UnderWay::Nothing => None,
            UnderWay::Claim(claiming) => Some(self.poll_claim(claiming)),
            UnderWay::Release(releasing) => Some(self.poll_release(releasing)),
            UnderWay::Takeover(taking) => Some(self.poll_takeover(taking)),
            UnderWay::Holder(reading) => Some(self.poll_holder(reading)),
        }
    }
}
