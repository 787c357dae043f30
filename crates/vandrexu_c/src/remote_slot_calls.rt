//! A slot host whose controller is somewhere else: made, freed, its calls begun and polled, its entries and completions
//! carried.

ghost use Rattle.std.specs.Prelude.{◌≡◌, None, Some};
ghost use Rattle.c_handles.specs.Owned.{Keeps};
ghost use Rattle.driver_cas.specs.Drivers.{made};
ghost use Rattle.driver_cas.specs.Dropped.{drop_count};
ghost use Rattle.nvme_model.specs.declared.array.Range.{Range};
ghost use Rattle.slot_host.specs.Begins.{AnyClaimTells, ClaimTells, HolderTells, ReleaseTells, TakeoverTells};
ghost use Rattle.slot_host.specs.HostPolls.{HostPolls};
ghost use Rattle.vandrexu_c.specs.RemoteSlots.{IsNewRemoteSlots, MayRefuseSlots, SlotsGive, SlotsTake};
ghost use Rattle.vandrexu_c.specs.SlotCalls.{BegunAs, ToldAs};
ghost use Rattle.vandrexu_c.specs.SlotMaking.{given_area};
ghost use Rattle.vandrexu_c.specs.SlotStates.{RemoteSlots};

use crate::carrying::OutgoingEntry;
use crate::lending::lend;
use crate::numbers::BAD_AREA;
use crate::remote_slot_handle::RemoteSlotHandle;
use crate::remote_slots::RemoteSlotHost;
use crate::slot_making::area_given;
use crate::slot_reply::SlotReply;
use c_handles::numbers::{IN_USE, NO_MEMORY};
use nvme_model::Name;
use std::alloc::Global;

/// Makes a slot host with this number, not 0, on this submission queue, not 0, of a controller that is somewhere else,
/// with so many slots from block `first` on, and puts it into the handle: 0; or 123 where there is no slot, or one is
/// behind block 65,535; or 115 for the number 0; or 1 for the queue 0; or 11 where memory is refused; or 102 where the
/// handle owns one. The serials of its names are above `serial`.
#[unsafe(no_mangle)]
pub extern "C" fn vandrexu_remote_slot_host_new(
    alloc: Global,
    number: u32,
    queue: u16,
    first: u64,
    count: u32,
    serial: u64,
    host: &mut RemoteSlotHandle,
) -> u32
    ensures in_use { (h : RemoteSlots) → host.old.held.host ≡ Some h →
        (result ≡ 102) × (host.new.held.host ≡ Some h) }
    ensures no_area { host.old.held.host ≡ None → given_area first count ≡ None →
        (result ≡ 123) × (host.new.held.host ≡ None) }
    ensures made { (a : Range) → host.old.held.host ≡ None → given_area first count ≡ Some a → result ≡ 0 →
        Keeps host.new.held.host (IsNewRemoteSlots number queue a serial) }
    ensures refused { (a : Range) → host.old.held.host ≡ None → given_area first count ≡ Some a → (result ≡ 0 → ⊥) →
        (host.new.held.host ≡ None) × MayRefuseSlots number queue result }
{
    if host.live != 0 {
        return IN_USE;
    }
    let Some(area) = area_given(first, count) else {
        return BAD_AREA;
    };
    let made = match RemoteSlotHost::of(alloc, number, queue, area, serial) {
        Ok(made) => made,
        Err(told) => return told,
    };
    match Box::new(alloc, made) {
        Ok(owned) => {
            host.put(owned);
            0
        }
        Err(_) => NO_MEMORY,
    }
}

/// Frees what the handle owns. Nothing is done where it owns nothing. What the host has stays held, by its name in the
/// slot's block, and a call that isn't answered is forgotten.
#[unsafe(no_mangle)]
pub extern "C" fn vandrexu_remote_slot_host_free(alloc: Global, host: &mut RemoteSlotHandle)
    ensures { host.new.held.host ≡ None }
{
    drop(host.take(alloc));
}

/// Begins to claim a slot: 0; or 116 where a call is under way; or 118 where there is no such slot; or 120 where the
/// host has it; or the number of the fault; or 101 where the handle owns nothing.
#[unsafe(no_mangle)]
pub extern "C" fn vandrexu_remote_slot_claim(
    alloc: Global,
    host: &mut RemoteSlotHandle,
    slot: u32,
) -> u32
    ensures no_handle { host.old.held.host ≡ None → (result ≡ 101) × (host.new.held.host ≡ None) }
    ensures claims { (h : RemoteSlots) → host.old.held.host ≡ Some h →
        Keeps host.new.held.host (λ j. BegunAs (ClaimTells h j slot) result) }
{
    lend!(alloc, host, mut owned => owned.as_mut().claim(slot))
}

/// Begins to claim the first slot that nobody has: slot 0, and each further one once it is answered that the one before
/// is somebody's: 0; or 116 where a call is under way; or the number of the fault; or 101 where the handle owns
/// nothing.
#[unsafe(no_mangle)]
pub extern "C" fn vandrexu_remote_slot_claim_any(alloc: Global, host: &mut RemoteSlotHandle) -> u32
    ensures no_handle { host.old.held.host ≡ None → (result ≡ 101) × (host.new.held.host ≡ None) }
    ensures claims { (h : RemoteSlots) → host.old.held.host ≡ Some h →
        Keeps host.new.held.host (λ j. BegunAs (AnyClaimTells h j) result) }
{
    lend!(alloc, host, mut owned => owned.as_mut().claim_any())
}

/// Begins to release a slot that the host has, by a claim or by a takeover: 0; or 116 where a call is under way; or 118
/// where there is no such slot; or 119 where the host hasn't it; or the number of the fault; or 101 where the handle
/// owns nothing.
#[unsafe(no_mangle)]
pub extern "C" fn vandrexu_remote_slot_release(
    alloc: Global,
    host: &mut RemoteSlotHandle,
    slot: u32,
) -> u32
    ensures no_handle { host.old.held.host ≡ None → (result ≡ 101) × (host.new.held.host ≡ None) }
    ensures releases { (h : RemoteSlots) → host.old.held.host ≡ Some h →
        Keeps host.new.held.host (λ j. BegunAs (ReleaseTells h j slot) result) }
{
    lend!(alloc, host, mut owned => owned.as_mut().release(slot))
}

/// Begins to take a slot over from the name of a dead host, its number and its serial: 0; or 116 where a call is under
/// way; or 118 where there is no such slot; or 120 where the host has it; or 122 where the name has a zero in it or is
/// of this host; or the number of the fault; or 101 where the handle owns nothing.
#[unsafe(no_mangle)]
pub extern "C" fn vandrexu_remote_slot_take_over(
    alloc: Global,
    host: &mut RemoteSlotHandle,
    slot: u32,
    dead: u32,
    serial: u64,
) -> u32
    ensures no_handle { host.old.held.host ≡ None → (result ≡ 101) × (host.new.held.host ≡ None) }
    ensures takes { (h : RemoteSlots) → host.old.held.host ≡ Some h → Keeps host.new.held.host
        (λ j. BegunAs (TakeoverTells h j slot (record { host = dead; serial = serial }))
        result) }
{
    lend!(alloc, host, mut owned => owned.as_mut().take_over(slot, Name { host: dead, serial }))
}

/// Begins to ask who holds a slot: 0; or 116 where a call is under way; or 118 where there is no such slot; or the
/// number of the fault; or 101 where the handle owns nothing.
#[unsafe(no_mangle)]
pub extern "C" fn vandrexu_remote_slot_ask_holder(
    alloc: Global,
    host: &mut RemoteSlotHandle,
    slot: u32,
) -> u32
    ensures no_handle { host.old.held.host ≡ None → (result ≡ 101) × (host.new.held.host ≡ None) }
    ensures asks { (h : RemoteSlots) → host.old.held.host ≡ Some h →
        Keeps host.new.held.host (λ j. BegunAs (HolderTells h j slot) result) }
{
    lend!(alloc, host, mut owned => owned.as_mut().ask_holder(slot))
}

/// Polls the host's call: 0, and what became of it; or 44 where it failed, with its status; or 45 or 46 where nothing
/// was reaped, and the call goes on; or 117 where the host has no call; or 101 where the handle owns nothing. `reply`
/// is written but for 101.
#[unsafe(no_mangle)]
pub extern "C" fn vandrexu_remote_slot_poll(
    alloc: Global,
    host: &mut RemoteSlotHandle,
    reply: &mut SlotReply,
) -> u32
    ensures no_handle { host.old.held.host ≡ None →
        (result ≡ 101) × (host.new.held.host ≡ None) × (reply.new ≡ reply.old) }
    ensures polls { (h : RemoteSlots) → host.old.held.host ≡ Some h →
        Keeps host.new.held.host (λ j. ToldAs (HostPolls h j) result reply.new) }
{
    let (told, what) = lend!(alloc, host, mut owned => owned.as_mut().poll());
    *reply = what;
    told
}

/// Tells the next entry that is to be carried to the controller; answers as `vandrexu_remote_outgoing`.
#[unsafe(no_mangle)]
pub extern "C" fn vandrexu_remote_slot_outgoing(
    alloc: Global,
    host: &mut RemoteSlotHandle,
    entry: &mut OutgoingEntry,
    out: &mut [u8],
) -> u32
    ensures no_handle { host.old.held.host ≡ None →
        (result ≡ 101) × (host.new.held.host ≡ None) × (entry.new ≡ entry.old) × (out.new ≡ out.old) }
    ensures gives { (h : RemoteSlots) → host.old.held.host ≡ Some h → Keeps host.new.held.host
        (λ j. SlotsGive h j result entry.old entry.new out.old out.new) }
{
    lend!(alloc, host, mut owned => owned.as_mut().next_entry(entry, out))
}

/// Brings a completion, with what a successful Read read, else no bytes: 0; or 11 where memory is refused; or 101 where
/// the handle owns nothing.
#[unsafe(no_mangle)]
pub extern "C" fn vandrexu_remote_slot_incoming(
    alloc: Global,
    host: &mut RemoteSlotHandle,
    cqe: &[u8; 16],
    bytes: &[u8],
) -> u32
    ensures no_handle { host.old.held.host ≡ None → (result ≡ 101) × (host.new.held.host ≡ None) }
    ensures takes { (h : RemoteSlots) → host.old.held.host ≡ Some h → Keeps host.new.held.host
        (λ j. SlotsTake h j cqe.now bytes.now result) }
{
    lend!(alloc, host, mut owned => owned.as_mut().bring(alloc, cqe, bytes))
}

/// How many of the completions that were brought and polled no command waited for: 0, and `count` has it; or 101 where
/// the handle owns nothing.
#[unsafe(no_mangle)]
pub extern "C" fn vandrexu_remote_slot_dropped(
    alloc: Global,
    host: &mut RemoteSlotHandle,
    count: &mut u64,
) -> u32
    ensures no_handle { host.old.held.host ≡ None → (result ≡ 101) × (count.new ≡ count.old) }
    ensures same { host.new.held.host ≡ host.old.held.host }
    ensures count { (h : RemoteSlots) → host.old.held.host ≡ Some h →
        (result ≡ 0) × (count.new ≡ drop_count (made h.driver)) }
{
    let dropped = lend!(alloc, host, owned => owned.as_ref().host.dropped());
    *count = dropped;
    0
}
