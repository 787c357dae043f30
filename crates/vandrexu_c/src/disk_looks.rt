//! Looks at a disk: the lines of its history, and its blocks.

ghost use Rattle.std.specs.Prelude.{◌≡◌, None, Some};
ghost use Rattle.c_handles.specs.Handles.{disk_in};
ghost use Rattle.c_handles.specs.Owned.{Keeps};
ghost use Rattle.c_handles.specs.declared.disk.Disk.{Disk as TheDisk};
ghost use Rattle.vandrexu_c.specs.DiskLooks.{TellsBlock, TellsCount, TellsLines};

use crate::lending::lend;
use crate::lines::copy_piece;
use c_handles::{Disk, DiskHandle};
use std::alloc::Global;

// Copies the lines of a disk's history from a place on.
fn copy_lines(
    alloc: Global,
    disk: &mut Disk,
    from: usize,
    out: &mut [u8],
    needed: &mut usize,
    next: &mut u64,
) -> u32
    ensures tells { TellsLines disk.old disk.new from out.old out.new result needed.new next.new }
    ensures kept { (result ≡ 0 → ⊥) → (out.new ≡ out.old) × (next.new ≡ next.old) }
{
    match disk.history(alloc, from, out.len()) {
        Ok(piece) => copy_piece(&piece, out, needed, next),
        Err(number) => number,
    }
}

/// Copies lines of the history of a disk from a place on, as `vandrexu_controller_history` does: 0; or 103 where not
/// the first of them fits; or 129 where the first was forgotten; or 11 where memory is refused; or 12 where another
/// handle of the disk had the controller; or 101 where the handle owns nothing.
#[unsafe(no_mangle)]
pub extern "C" fn vandrexu_disk_history(
    alloc: Global,
    disk: &mut DiskHandle,
    from: u64,
    out: &mut [u8],
    needed: &mut usize,
    next: &mut u64,
) -> u32
    ensures no_handle { disk_in disk.old ≡ None → (result ≡ 101) × (disk_in disk.new ≡ None) }
    ensures tells { (d : TheDisk) → disk_in disk.old ≡ Some d →
        Keeps (disk_in disk.new) (λ e. TellsLines d e from out.old out.new result needed.new next.new) }
    ensures kept { (result ≡ 0 → ⊥) → (out.new ≡ out.old) × (next.new ≡ next.old) }
{
    lend!(alloc, disk, mut owned => copy_lines(
        alloc,
        owned.as_mut(),
        from as usize,
        out,
        needed,
        next,
    ))
}

// Tells how many entries the history of a disk has.
fn tell_count(disk: &mut Disk, count: &mut u64) -> u32
    ensures tells { TellsCount disk.old disk.new count.old count.new result }
{
    match disk.history_count() {
        Ok(entries) => {
            *count = entries;
            0
        }
        Err(number) => number,
    }
}

/// How many entries the history of a disk has: 0; or 12 where another handle of the disk had the controller; or 101
/// where the handle owns nothing.
#[unsafe(no_mangle)]
pub extern "C" fn vandrexu_disk_history_count(
    alloc: Global,
    disk: &mut DiskHandle,
    count: &mut u64,
) -> u32
    ensures no_handle { disk_in disk.old ≡ None →
        (result ≡ 101) × (disk_in disk.new ≡ None) × (count.new ≡ count.old) }
    ensures tells { (d : TheDisk) → disk_in disk.old ≡ Some d →
        Keeps (disk_in disk.new) (λ e. TellsCount d e count.old count.new result) }
{
    lend!(alloc, disk, mut owned => tell_count(owned.as_mut(), count))
}

// Copies a block of a disk.
fn copy_block(disk: &mut Disk, lba: u64, out: &mut [u8; 512]) -> u32
    ensures tells { TellsBlock disk.old disk.new lba out.old out.new result }
{
    match disk.medium(lba) {
        Ok(block) => {
            *out = block;
            0
        }
        Err(number) => number,
    }
}

/// Copies a block as it lies in the volume of a disk: 0; or 104 where there is no such block; or 12 where another
/// handle of the disk had the controller; or 101 where the handle owns nothing. Nothing is written where it isn't 0.
#[unsafe(no_mangle)]
pub extern "C" fn vandrexu_disk_medium(
    alloc: Global,
    disk: &mut DiskHandle,
    lba: u64,
    out: &mut [u8; 512],
) -> u32
    ensures no_handle { disk_in disk.old ≡ None →
        (result ≡ 101) × (disk_in disk.new ≡ None) × (out.new ≡ out.old) }
    ensures tells { (d : TheDisk) → disk_in disk.old ≡ Some d →
        Keeps (disk_in disk.new) (λ e. TellsBlock d e lba out.old out.new result) }
{
    lend!(alloc, disk, mut owned => copy_block(owned.as_mut(), lba, out))
}
