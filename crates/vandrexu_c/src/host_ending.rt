//! Ending a host of a disk, and making it again.

ghost use Rattle.std.specs.Prelude.{◌≡◌, IfErr, IfOk, None, OnErr, Some};
ghost use Rattle.c_handles.specs.Handles.{disk_in};
ghost use Rattle.c_handles.specs.Owned.{Keeps};
ghost use Rattle.c_handles.specs.declared.disk.Disk.{Disk as TheDisk};
ghost use Rattle.c_handles.specs.Ended.{IsBesideEnded, hosts_ended};
ghost use Rattle.vandrexu_c.specs.HostEnding.{EndsHost, IsAgain, IsMadeAgain, MakesAgain, MayRefuseAgain};
ghost use Rattle.vandrexu_c.specs.HostStates.{HostState};

use crate::host::DrivenHost;
use crate::host_handle::HostHandle;
use crate::lending::lend;
use c_handles::numbers::{IN_USE, NO_HANDLE, NO_MEMORY, OTHER_HOST};
use c_handles::{Disk, DiskHandle, EndedHost, keep_ended, place_to_end, take_ended};
use std::alloc::Global;

// Ends the host of a handle: its disk keeps it, and the handle owns nothing; or it is told why not.
fn end_of(alloc: Global, disk: &mut Disk, host: &mut HostHandle) -> u32
    ensures empty { host.old.held.host ≡ None →
        (result ≡ 101) × (disk.new ≡ disk.old) × (host.new.held.host ≡ None) }
    ensures ends { (h : HostState) → host.old.held.host ≡ Some h →
        EndsHost disk.old disk.new h result host.new.held.host }
{
    let Some(owned) = host.take(alloc) else {
        return NO_HANDLE;
    };
    match place_to_end(disk, &owned.as_ref().host) {
        Ok(place) => {
            let ended = Box::into_inner(owned);
            keep_ended(disk, place, EndedHost::of(ended.host));
            0
        }
        Err(told) => {
            host.put(owned);
            told
        }
    }
}

/// Ends a host: the disk keeps its number, its submission queue, its driver and the calls that it gave up, and the
/// handle owns nothing: 0; or 116 where the host has a call that it didn't give up; or 130 where the disk made no host
/// of its number, or that one has ended; or 101 where either handle owns nothing. But for 0, both are then as before.
#[unsafe(no_mangle)]
pub extern "C" fn vandrexu_host_end(
    alloc: Global,
    disk: &mut DiskHandle,
    host: &mut HostHandle,
) -> u32
    ensures no_disk { disk_in disk.old ≡ None →
        (result ≡ 101) × (disk_in disk.new ≡ None) × (host.new.held.host ≡ host.old.held.host) }
    ensures no_host { host.old.held.host ≡ None →
        (result ≡ 101) × (disk_in disk.new ≡ disk_in disk.old) × (host.new.held.host ≡ None) }
    ensures ends { (d : TheDisk) (h : HostState) → disk_in disk.old ≡ Some d → host.old.held.host ≡ Some h →
        Keeps (disk_in disk.new) (λ e. EndsHost d e h result host.new.held.host) }
{
    lend!(alloc, disk, mut owned => end_of(alloc, owned.as_mut(), host))
}

// A host that ended, in a box; the host, where memory is refused.
fn again_of(alloc: Global, ended: EndedHost) -> Result<Box<DrivenHost>, EndedHost>
    ensures made { IfOk result (λ b. IsAgain ended b.value) }
    ensures back { IfErr result (λ e. e ≡ ended) }
{
    let host = DrivenHost {
        host: ended.into_host(),
        payload: Vec::new(alloc),
    };
    match Box::new(alloc, host) {
        Ok(host) => Ok(host),
        Err(refused) => Err(EndedHost::of(refused.value.host)),
    }
}

// Makes the host of this number again; where memory is refused the disk keeps it.
fn again(alloc: Global, disk: &mut Disk, number: u32) -> Result<Box<DrivenHost>, u32>
    ensures same { IsBesideEnded disk.old disk.new }
    ensures made { IfOk result (λ b. IsMadeAgain disk.old disk.new number b.value) }
    ensures kept { OnErr result (hosts_ended disk.new ≡ hosts_ended disk.old) }
    ensures cause { IfErr result (MayRefuseAgain disk.old number) }
{
    let Some((place, ended)) = take_ended(disk, number) else {
        return Err(OTHER_HOST);
    };
    match again_of(alloc, ended) {
        Ok(host) => Ok(host),
        Err(ended) => {
            keep_ended(disk, place, ended);
            Err(NO_MEMORY)
        }
    }
}

// Makes the host of this number again, and puts it into a handle that has none.
fn again_into(alloc: Global, disk: &mut Disk, number: u32, host: &mut HostHandle) -> u32
    requires { host.old.held.host ≡ None }
    ensures { MakesAgain disk.old disk.new number result host.new.held.host }
{
    match again(alloc, disk, number) {
        Ok(made) => {
            host.put(made);
            0
        }
        Err(told) => told,
    }
}

/// Puts the host of this number, which ended, into the handle, as it was: 0; or 130 where none of this number ended, or
/// it was made again since; or 11 where memory is refused; or 101 where the disk's handle owns nothing; or 102 where
/// the host's owns one. But for 0, both are then as before.
#[unsafe(no_mangle)]
#[tactic(auto, using(c_handles::proofs::Marks::none_of))]
pub extern "C" fn vandrexu_host_again(
    alloc: Global,
    disk: &mut DiskHandle,
    number: u32,
    host: &mut HostHandle,
) -> u32
    ensures in_use { (h : HostState) → host.old.held.host ≡ Some h →
        (result ≡ 102) × (host.new.held.host ≡ Some h) × (disk_in disk.new ≡ disk_in disk.old) }
    ensures no_disk { host.old.held.host ≡ None → disk_in disk.old ≡ None →
        (result ≡ 101) × (host.new.held.host ≡ None) × (disk_in disk.new ≡ None) }
    ensures makes { (d : TheDisk) → host.old.held.host ≡ None → disk_in disk.old ≡ Some d →
        Keeps (disk_in disk.new) (λ e. MakesAgain d e number result host.new.held.host) }
{
    if host.live != 0 {
        return IN_USE;
    }
    lend!(alloc, disk, mut owned => again_into(alloc, owned.as_mut(), number, host))
}
