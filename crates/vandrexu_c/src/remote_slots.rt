//! What the handle of a slot host owns whose controller is somewhere else.

ghost use Rattle.std.specs.Prelude.{◌≤◌, ◌+◌, IfErr, IfOk};
ghost use Rattle.slot_host.specs.SlotHosts.{DidNothing};
ghost use Rattle.vandrexu_c.specs.RemoteSlots.{IsNewRemoteDriver, IsNewRemoteSlots, MayRefuseSlots};

use crate::carrying::{OutgoingEntry, tell_entry};
use crate::numbers::TOO_SMALL;
use crate::slot_reply::{SlotReply, number_begun, number_told, reply_told};
use c_handles::numbers::{BAD_NUMBER, NO_MEMORY, NO_QUEUE, NOTHING_READY};
use driver_cas::Driver;
use nvme_model::Name;
use nvme_model::array::Range;
use nvme_model::submission::Payload;
use remote_host::{Bring, RemotePort, TakeAway};
use slot_host::SlotHost;
use std::alloc::{AllocError as NoMemory, Global};
use std::marker::Model;

/// A slot host whose commands are carried.
#[derive(Drop)]
pub struct RemoteSlotHost {
    pub(crate) host: SlotHost<RemotePort>,
}

impl Model for RemoteSlotHost {
    ghost use Rattle.remote_host.specs.contracts.port.RemotePort as port;
    ghost use Rattle.remote_host.specs.contracts.port.RemotePortPort.TheImpl.{ghosts};
    ghost use Rattle.slot_host.specs.SlotHosts.{IsKept, slot_state};
    ghost use Rattle.slot_host.specs.contracts.under_way.UnderWay as calls;
    ghost use Rattle.std.specs.Coded.{codes};
    ghost use Rattle.vandrexu_c.specs.SlotStates.{RemoteSlots};

    ghost Value = { RemoteSlots };

    ghost coded = { Prim.hlevel (codes, port.the_row.coded, (calls.the_row port.the_row ghosts).coded) };

    ghost view = { λ h. slot_state h.host };

    ghost invariant = { λ h. IsKept h.host };
}

// A driver on one submission queue, whose pairs have one block, and which draws the serials above this one.
fn driver_of(
    alloc: Global,
    number: u32,
    queue: u16,
    slots: Range,
    serial: u64,
) -> Result<Driver<RemotePort>, NoMemory>
    requires number { 1 ≤ number }
    requires slots { slots.slba + slots.blocks ≤ 65536 }
    ensures made { IfOk result (IsNewRemoteDriver number queue slots serial) }
    ensures none { IfOk result (λ d. DidNothing d) }
{
    let queues = [queue].to_vec(alloc)?;
    match Driver::new(alloc, RemotePort::new(alloc), number, 0, slots, queues) {
        Ok(driver) => {
            let mut driver = driver;
            driver.skip_serials(serial);
            Ok(driver)
        }
        Err((_, _, why)) => Err(why),
    }
}

impl RemoteSlotHost {
    ghost use Rattle.slot_host.specs.Begins.{AnyClaimTells, ClaimTells, HolderTells, ReleaseTells, TakeoverTells};
    ghost use Rattle.slot_host.specs.HostPolls.{HostPolls};
    ghost use Rattle.vandrexu_c.specs.SlotCalls.{BegunAs, ToldAs};
    ghost use Rattle.vandrexu_c.specs.RemoteSlots.{SlotsGive, SlotsTake};
    ghost use Rattle.vandrexu_c.specs.Remotes.{AreNumbers};

    /// A host with this number on this submission queue, with these slots. The serials of its names are above this one.
    ///
    /// # Errors
    ///
    /// The number of the answer: 115 for the number 0, 1 for the submission queue 0, 11 where memory is refused.
    pub(crate) fn of(
        alloc: Global,
        number: u32,
        queue: u16,
        slots: Range,
        serial: u64,
    ) -> Result<RemoteSlotHost, u32>
        requires some { 1 ≤ slots.blocks }
        requires slots { slots.slba + slots.blocks ≤ 65536 }
        ensures made { IfOk result (IsNewRemoteSlots number queue slots serial) }
        ensures numbers { IfOk result (λ _. AreNumbers number queue) }
        ensures cause { IfErr result (MayRefuseSlots number queue) }
    {
        if number == 0 {
            return Err(BAD_NUMBER);
        }
        if queue == 0 {
            return Err(NO_QUEUE);
        }
        let Ok(driver) = driver_of(alloc, number, queue, slots, serial) else {
            return Err(NO_MEMORY);
        };
        match SlotHost::new(alloc, driver) {
            Ok(host) => Ok(RemoteSlotHost { host }),
            Err(_) => Err(NO_MEMORY),
        }
    }

    /// Begins to claim a slot: the number of the answer.
    pub(crate) fn claim(&mut self, slot: u32) -> u32
        ensures { BegunAs (ClaimTells self.old self.new slot) result }
    {
        number_begun(self.host.claim(slot))
    }

    /// Begins to claim the first slot that nobody has.
    pub(crate) fn claim_any(&mut self) -> u32
        ensures { BegunAs (AnyClaimTells self.old self.new) result }
    {
        number_begun(self.host.claim_any())
    }

    /// Begins to release a slot.
    pub(crate) fn release(&mut self, slot: u32) -> u32
        ensures { BegunAs (ReleaseTells self.old self.new slot) result }
    {
        number_begun(self.host.release(slot))
    }

    /// Begins to take a slot over from the name of a dead host.
    pub(crate) fn take_over(&mut self, slot: u32, dead: Name) -> u32
        ensures { BegunAs (TakeoverTells self.old self.new slot dead) result }
    {
        number_begun(self.host.take_over(slot, dead))
    }

    /// Begins to ask who holds a slot.
    pub(crate) fn ask_holder(&mut self, slot: u32) -> u32
        ensures { BegunAs (HolderTells self.old self.new slot) result }
    {
        number_begun(self.host.ask_holder(slot))
    }

    /// Polls the call: its number, and what it tells.
    pub(crate) fn poll(&mut self) -> (u32, SlotReply)
        ensures { ToldAs (HostPolls self.old self.new) result.0 result.1 }
    {
        let told = self.host.poll();
        (number_told(&told), reply_told(&told))
    }

    /// Tells the next entry that is to be carried, with its data: the number of the answer.
    pub(crate) fn next_entry(&mut self, entry: &mut OutgoingEntry, out: &mut [u8]) -> u32
        ensures { SlotsGive self.old self.new result entry.old entry.new out.old out.new }
    {
        let Some(next) = self.host.port().peek() else {
            return NOTHING_READY;
        };
        if !tell_entry(next, entry, out) {
            return TOO_SMALL;
        }
        drop(self.host.attend(TakeAway));
        0
    }

    /// Brings a completion with this data: the number of the answer.
    pub(crate) fn bring(&mut self, alloc: Global, cqe: &[u8; 16], bytes: &[u8]) -> u32
        ensures { SlotsTake self.old self.new cqe.now bytes.now result }
    {
        let Ok(payload) = Payload::copy_of(alloc, bytes) else {
            return NO_MEMORY;
        };
        match self.host.attend(Bring { cqe: *cqe, payload }) {
            Ok(()) => 0,
            Err(_) => NO_MEMORY,
        }
    }
}
