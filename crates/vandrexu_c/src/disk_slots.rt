//! What the handle of a slot host owns.

use crate::slot_reply::{SlotReply, number_begun, number_told, reply_told};
use driver_cas::SharedPort;
use nvme_model::Name;
use slot_host::SlotHost;
use std::marker::Model;

/// A slot host of a disk.
#[derive(Drop)]
pub struct DiskSlotHost {
    pub(crate) host: SlotHost<SharedPort<'static>>,
}

impl Model for DiskSlotHost {
    ghost use denote.Signature.{static_lft};
    ghost use Rattle.driver_cas.specs.contracts.shared_port.SharedPort as port;
    ghost use Rattle.driver_cas.specs.contracts.shared_port.SharedPortPort.TheImpl.{ghosts};
    ghost use Rattle.slot_host.specs.SlotHosts.{IsKept, slot_state};
    ghost use Rattle.slot_host.specs.contracts.under_way.UnderWay as calls;
    ghost use Rattle.std.specs.Coded.{codes};
    ghost use Rattle.vandrexu_c.specs.SlotStates.{DiskSlots};

    ghost Value = { DiskSlots };

    ghost coded = { Prim.hlevel (codes, (calls.the_row (port.the_row static_lft) ghosts).coded) };

    ghost view = { λ h. slot_state h.host };

    ghost invariant = { λ h. IsKept h.host };
}

impl DiskSlotHost {
    ghost use Rattle.slot_host.specs.Begins.{AnyClaimTells, ClaimTells, HolderTells, ReleaseTells, TakeoverTells};
    ghost use Rattle.slot_host.specs.HostPolls.{HostPolls};
    ghost use Rattle.vandrexu_c.specs.SlotCalls.{BegunAs, ToldAs};

    /// Begins to claim a slot: the number of the answer.
    pub(crate) fn claim(&mut self, slot: u32) -> u32
        ensures { BegunAs (ClaimTells self.old self.new slot) result }
    {
        number_begun(self.host.claim(slot))
    }

    /// Begins to claim the first slot that nobody has.
    pub(crate) fn claim_any(&mut self) -> u32
        ensures { BegunAs (AnyClaimTells self.old self.new) result }
    {
        number_begun(self.host.claim_any())
    }

    /// Begins to release a slot.
    pub(crate) fn release(&mut self, slot: u32) -> u32
        ensures { BegunAs (ReleaseTells self.old self.new slot) result }
    {
        number_begun(self.host.release(slot))
    }

    /// Begins to take a slot over from the name of a dead host.
    pub(crate) fn take_over(&mut self, slot: u32, dead: Name) -> u32
        ensures { BegunAs (TakeoverTells self.old self.new slot dead) result }
    {
        number_begun(self.host.take_over(slot, dead))
    }

    /// Begins to ask who holds a slot.
    pub(crate) fn ask_holder(&mut self, slot: u32) -> u32
        ensures { BegunAs (HolderTells self.old self.new slot) result }
    {
        number_begun(self.host.ask_holder(slot))
    }

    /// Polls the call: its number, and what it tells.
    pub(crate) fn poll(&mut self) -> (u32, SlotReply)
        ensures { ToldAs (HostPolls self.old self.new) result.0 result.1 }
    {
        let told = self.host.poll();
        (number_told(&told), reply_told(&told))
    }
}
