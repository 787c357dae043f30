//! A disk: made, freed, and served.

ghost use Rattle.std.specs.Prelude.{◌-◌, ◌+◌, ◌≡◌, ◌≤◌, IfOk, None, Some};
ghost use Rattle.c_handles.specs.Owned.{Keeps};
ghost use Rattle.c_handles.specs.Configurations.{given_numbers};
ghost use Rattle.c_handles.specs.Disks.{FetchTells, ForgetTells, IsNewDisk, MayRefuseDisk, ServesDisk};
ghost use Rattle.c_handles.specs.Disks.{TaskTells};
ghost use Rattle.c_handles.specs.Handles.{disk_in};
ghost use Rattle.c_handles.specs.Making.{passes_left};
ghost use Rattle.c_handles.specs.declared.disk.Disk.{Disk as TheDisk};

use crate::lending::{fill, lend};
use c_handles::{Disk, DiskHandle, GivenConfig};
use history::Config;
use nvme_model::array::Range;
use std::alloc::{AllocError as NoMemory, Global};

// The blocks of no slot.
const NO_SLOTS: Range = Range { slba: 0, blocks: 0 };

/// A disk in a box.
pub(crate) fn disk_of(
    alloc: Global,
    config: Config,
    hosts: u16,
    slots: Range,
) -> Result<Box<Disk>, NoMemory>
    requires { slots.slba + slots.blocks ≤ 65536 }
    ensures { IfOk result (λ b. IsNewDisk config hosts slots b.value) }
{
    let disk = Disk::of(alloc, config, hosts, slots)?;
    Ok(Box::new(alloc, disk)?)
}

/// Makes a controller with no history and blocks of zeros, with passes for so many hosts and no slots, and puts it into
/// the handle: 0; or the first fault of the configuration, 21 to 30; or 11 where memory is refused; or 102 where the
/// handle owns one. The handle is then as before.
#[unsafe(no_mangle)]
pub extern "C" fn vandrexu_disk_new(
    alloc: Global,
    config: &GivenConfig,
    hosts: u16,
    disk: &mut DiskHandle,
) -> u32
    ensures done { result ≡ 0 → Keeps (disk_in disk.new)
        (IsNewDisk (given_numbers config.now) hosts (record { slba = 0; blocks = 0 })) }
    ensures failed { (result ≡ 0 → ⊥) → disk_in disk.new ≡ disk_in disk.old }
    ensures cause { (result ≡ 0 → ⊥) → MayRefuseDisk (given_numbers config.now) (disk_in disk.old) result }
{
    fill!(disk.owns(), disk, config, accepted => disk_of(alloc, accepted, hosts, NO_SLOTS))
}

/// Frees what the handle owns. Nothing is done where it owns nothing. Hosts that were made of it stay.
#[unsafe(no_mangle)]
pub extern "C" fn vandrexu_disk_free(alloc: Global, disk: &mut DiskHandle)
    ensures { disk_in disk.new ≡ None }
{
    drop(disk.take(alloc));
}

/// How many hosts, of either kind, can be made of the disk yet: 0, and `count` has it; or 101 where the handle owns
/// nothing.
#[unsafe(no_mangle)]
pub extern "C" fn vandrexu_disk_hosts_left(
    alloc: Global,
    disk: &mut DiskHandle,
    count: &mut usize,
) -> u32
    ensures no_handle { disk_in disk.old ≡ None → (result ≡ 101) × (count.new ≡ count.old) }
    ensures same { disk_in disk.new ≡ disk_in disk.old }
    ensures left { (d : TheDisk) → disk_in disk.old ≡ Some d → (result ≡ 0) × (count.new ≡ passes_left d) }
{
    let left = lend!(alloc, disk, owned => owned.as_ref().hosts_left());
    *count = left;
    0
}

/// Fetches the next command, or fused pair, of a submission queue, and keeps what it has to do: 0; or the number of the
/// refusal; or 113 where what was fetched before isn't finished; or 101 where the handle owns nothing.
#[unsafe(no_mangle)]
pub extern "C" fn vandrexu_disk_fetch(alloc: Global, disk: &mut DiskHandle, queue: u16) -> u32
    ensures no_handle { disk_in disk.old ≡ None → (result ≡ 101) × (disk_in disk.new ≡ None) }
    ensures fetches { (d : TheDisk) → disk_in disk.old ≡ Some d →
        Keeps (disk_in disk.new) (λ e. FetchTells d e queue result) }
{
    lend!(alloc, disk, mut owned => owned.as_mut().fetch(queue))
}

/// Makes the next Grant, Block or Post of what was fetched: 0; or the number of the refusal, and the same is next; or
/// 105 where there is none, and all its completions are posted; or 101 where the handle owns nothing.
#[unsafe(no_mangle)]
pub extern "C" fn vandrexu_disk_task(alloc: Global, disk: &mut DiskHandle) -> u32
    ensures no_handle { disk_in disk.old ≡ None → (result ≡ 101) × (disk_in disk.new ≡ None) }
    ensures makes { (d : TheDisk) → disk_in disk.old ≡ Some d →
        Keeps (disk_in disk.new) (λ e. TaskTells d e result) }
{
    lend!(alloc, disk, mut owned => owned.as_mut().task())
}

/// Forgets the entries of the disk's history before a place, which counts as in `vandrexu_controller_history`: their
/// memory is free for others, and all else is as before. 0; or 12 where another handle had the controller; or 101 where
/// the handle owns nothing.
#[unsafe(no_mangle)]
pub extern "C" fn vandrexu_disk_forget(alloc: Global, disk: &mut DiskHandle, place: u64) -> u32
    ensures no_handle { disk_in disk.old ≡ None → (result ≡ 101) × (disk_in disk.new ≡ None) }
    ensures forgets { (d : TheDisk) → disk_in disk.old ≡ Some d →
        Keeps (disk_in disk.new) (λ e. ForgetTells d (place - 1) e result) }
{
    let before = (place as usize).saturating_sub(1);
    lend!(alloc, disk, mut owned => owned.as_mut().forget(before))
}

/// Serves the next command, or fused pair, of a submission queue to its end, or goes on with what was fetched before
/// and isn't finished: 0 where it is finished then; or the number of the first refusal, and what was fetched is kept;
/// or 101 where the handle owns nothing.
#[unsafe(no_mangle)]
pub extern "C" fn vandrexu_disk_serve(alloc: Global, disk: &mut DiskHandle, queue: u16) -> u32
    ensures no_handle { disk_in disk.old ≡ None → (result ≡ 101) × (disk_in disk.new ≡ None) }
    ensures serves { (d : TheDisk) → disk_in disk.old ≡ Some d →
        Keeps (disk_in disk.new) (λ e. ServesDisk d e queue result) }
{
    lend!(alloc, disk, mut owned => owned.as_mut().serve(queue))
}
