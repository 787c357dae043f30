//! A slot host: made, freed, its calls begun and polled.

ghost use Rattle.std.specs.Prelude.{◌≡◌, ◌≤◌, None, Some};
ghost use Rattle.c_handles.specs.Owned.{Keeps};
ghost use Rattle.c_handles.specs.Configurations.{given_numbers};
ghost use Rattle.c_handles.specs.Disks.{IsNewDisk, MayRefuseDisk, disk_slots};
ghost use Rattle.nvme_model.specs.declared.array.Range.{Range};
ghost use Rattle.c_handles.specs.Handles.{disk_in};
ghost use Rattle.c_handles.specs.declared.disk.Disk.{Disk as TheDisk};
ghost use Rattle.slot_host.specs.Begins.{AnyClaimTells, ClaimTells, HolderTells, ReleaseTells, TakeoverTells};
ghost use Rattle.slot_host.specs.HostPolls.{HostPolls};
ghost use Rattle.vandrexu_c.specs.SlotCalls.{BegunAs, ToldAs};
ghost use Rattle.vandrexu_c.specs.SlotMaking.{MakesSlotHost, given_area};
ghost use Rattle.vandrexu_c.specs.SlotStates.{DiskSlots};

use crate::disk_calls::disk_of;
use crate::lending::{fill, lend};
use crate::numbers::BAD_AREA;
use crate::slot_handle::SlotHandle;
use crate::slot_making::{area_given, give_into};
use crate::slot_reply::SlotReply;
use c_handles::numbers::IN_USE;
use c_handles::{DiskHandle, GivenConfig};
use nvme_model::Name;
use std::alloc::Global;

/// Makes a controller with no history and blocks of zeros, with passes for so many hosts, and with so many slots from
/// block `first` on, and puts it into the handle: 0; or 123 where there is no slot, or one is behind block 65,535; or
/// the first fault of the configuration, 21 to 30; or 11 where memory is refused; or 102 where the handle owns one. The
/// handle is then as before.
#[unsafe(no_mangle)]
pub extern "C" fn vandrexu_slot_disk_new(
    alloc: Global,
    config: &GivenConfig,
    hosts: u16,
    first: u64,
    count: u32,
    disk: &mut DiskHandle,
) -> u32
    ensures no_area { given_area first count ≡ None → (result ≡ 123) × (disk_in disk.new ≡ disk_in disk.old) }
    ensures done { (a : Range) → given_area first count ≡ Some a → result ≡ 0 →
        Keeps (disk_in disk.new) (IsNewDisk (given_numbers config.now) hosts a) }
    ensures failed { (result ≡ 0 → ⊥) → disk_in disk.new ≡ disk_in disk.old }
    ensures cause { (a : Range) → given_area first count ≡ Some a → (result ≡ 0 → ⊥) →
        MayRefuseDisk (given_numbers config.now) (disk_in disk.old) result }
{
    let Some(area) = area_given(first, count) else {
        return BAD_AREA;
    };
    fill!(disk.owns(), disk, config, accepted => disk_of(alloc, accepted, hosts, area))
}

/// Makes a host of this number, not 0, on this submission queue, which claims the slots of the disk, with one of the
/// passes of the disk, and puts it into the handle: 0; or 123 where the disk has no slots; or 115 for the number 0; or
/// 1 where there is no such submission queue; or 124 where a host of the disk had the number before, or 125 the
/// queue's completion queue; or 114 where as many hosts were made as the disk was made for; or 11 where memory is
/// refused; or 101 where the disk's handle owns nothing; or 102 where the host's owns one. But for 0, both are then as
/// before.
#[unsafe(no_mangle)]
#[tactic(auto, using(c_handles::proofs::Marks::none_of))]
pub extern "C" fn vandrexu_slot_host_new(
    alloc: Global,
    disk: &mut DiskHandle,
    number: u32,
    queue: u16,
    host: &mut SlotHandle,
) -> u32
    ensures in_use { (h : DiskSlots) → host.old.held.host ≡ Some h →
        (result ≡ 102) × (host.new.held.host ≡ Some h) × (disk_in disk.new ≡ disk_in disk.old) }
    ensures no_disk { host.old.held.host ≡ None → disk_in disk.old ≡ None →
        (result ≡ 101) × (host.new.held.host ≡ None) × (disk_in disk.new ≡ None) }
    ensures no_slots { (d : TheDisk) → host.old.held.host ≡ None → disk_in disk.old ≡ Some d →
        (disk_slots d).blocks ≡ 0 → (result ≡ 123) × (host.new.held.host ≡ None) × (disk_in disk.new ≡ Some d) }
    ensures makes { (d : TheDisk) → host.old.held.host ≡ None → disk_in disk.old ≡ Some d →
        1 ≤ (disk_slots d).blocks →
        Keeps (disk_in disk.new) (λ e. MakesSlotHost d e number queue result host.new.held.host) }
{
    if host.live != 0 {
        return IN_USE;
    }
    lend!(alloc, disk, mut owned => {
        if owned.as_ref().slots().blocks == 0 {
            BAD_AREA
        } else {
            give_into(alloc, owned.as_mut(), number, queue, host)
        }
    })
}

/// Frees what the handle owns. Nothing is done where it owns nothing. What the host has stays held, by its name in the
/// slot's block, and a call that isn't answered is forgotten.
#[unsafe(no_mangle)]
pub extern "C" fn vandrexu_slot_host_free(alloc: Global, host: &mut SlotHandle)
    ensures { host.new.held.host ≡ None }
{
    drop(host.take(alloc));
}

/// Begins to claim a slot: 0; or 116 where a call is under way; or 118 where there is no such slot; or 120 where the
/// host has it; or the number of the fault; or 101 where the handle owns nothing.
#[unsafe(no_mangle)]
pub extern "C" fn vandrexu_slot_claim(alloc: Global, host: &mut SlotHandle, slot: u32) -> u32
    ensures no_handle { host.old.held.host ≡ None → (result ≡ 101) × (host.new.held.host ≡ None) }
    ensures claims { (h : DiskSlots) → host.old.held.host ≡ Some h →
        Keeps host.new.held.host (λ j. BegunAs (ClaimTells h j slot) result) }
{
    lend!(alloc, host, mut owned => owned.as_mut().claim(slot))
}

/// Begins to claim the first slot that nobody has: slot 0, and each further one once it is answered that the one before
/// is somebody's: 0; or 116 where a call is under way; or the number of the fault; or 101 where the handle owns
/// nothing.
#[unsafe(no_mangle)]
pub extern "C" fn vandrexu_slot_claim_any(alloc: Global, host: &mut SlotHandle) -> u32
    ensures no_handle { host.old.held.host ≡ None → (result ≡ 101) × (host.new.held.host ≡ None) }
    ensures claims { (h : DiskSlots) → host.old.held.host ≡ Some h →
        Keeps host.new.held.host (λ j. BegunAs (AnyClaimTells h j) result) }
{
    lend!(alloc, host, mut owned => owned.as_mut().claim_any())
}

/// Begins to release a slot that the host has, by a claim or by a takeover: 0; or 116 where a call is under way; or 118
/// where there is no such slot; or 119 where the host hasn't it; or the number of the fault; or 101 where the handle
/// owns nothing.
#[unsafe(no_mangle)]
pub extern "C" fn vandrexu_slot_release(alloc: Global, host: &mut SlotHandle, slot: u32) -> u32
    ensures no_handle { host.old.held.host ≡ None → (result ≡ 101) × (host.new.held.host ≡ None) }
    ensures releases { (h : DiskSlots) → host.old.held.host ≡ Some h →
        Keeps host.new.held.host (λ j. BegunAs (ReleaseTells h j slot) result) }
{
    lend!(alloc, host, mut owned => owned.as_mut().release(slot))
}

/// Begins to take a slot over from the name of a dead host, its number and its serial: 0; or 116 where a call is under
/// way; or 118 where there is no such slot; or 120 where the host has it; or 122 where the name has a zero in it or is
/// of this host; or the number of the fault; or 101 where the handle owns nothing.
#[unsafe(no_mangle)]
pub extern "C" fn vandrexu_slot_take_over(
    alloc: Global,
    host: &mut SlotHandle,
    slot: u32,
    dead: u32,
    serial: u64,
) -> u32
    ensures no_handle { host.old.held.host ≡ None → (result ≡ 101) × (host.new.held.host ≡ None) }
    ensures takes { (h : DiskSlots) → host.old.held.host ≡ Some h → Keeps host.new.held.host
        (λ j. BegunAs (TakeoverTells h j slot (record { host = dead; serial = serial }))
        result) }
{
    lend!(alloc, host, mut owned => owned.as_mut().take_over(slot, Name { host: dead, serial }))
}

/// Begins to ask who holds a slot: 0; or 116 where a call is under way; or 118 where there is no such slot; or the
/// number of the fault; or 101 where the handle owns nothing.
#[unsafe(no_mangle)]
pub extern "C" fn vandrexu_slot_ask_holder(alloc: Global, host: &mut SlotHandle, slot: u32) -> u32
    ensures no_handle { host.old.held.host ≡ None → (result ≡ 101) × (host.new.held.host ≡ None) }
    ensures asks { (h : DiskSlots) → host.old.held.host ≡ Some h →
        Keeps host.new.held.host (λ j. BegunAs (HolderTells h j slot) result) }
{
    lend!(alloc, host, mut owned => owned.as_mut().ask_holder(slot))
}

/// Polls the host's call: 0, and what became of it; or 44 where it failed, with its status; or 45 or 46 where nothing
/// was reaped, and the call goes on; or 117 where the host has no call; or 101 where the handle owns nothing. `reply`
/// is written but for 101.
#[unsafe(no_mangle)]
pub extern "C" fn vandrexu_slot_poll(
    alloc: Global,
    host: &mut SlotHandle,
    reply: &mut SlotReply,
) -> u32
    ensures no_handle { host.old.held.host ≡ None →
        (result ≡ 101) × (host.new.held.host ≡ None) × (reply.new ≡ reply.old) }
    ensures polls { (h : DiskSlots) → host.old.held.host ≡ Some h →
        Keeps host.new.held.host (λ j. ToldAs (HostPolls h j) result reply.new) }
{
    let (told, what) = lend!(alloc, host, mut owned => owned.as_mut().poll());
    *reply = what;
    told
}
