//! A host: made, freed, its calls begun and polled.

ghost use Rattle.std.specs.Prelude.{◌*◌, ◌++◌, ◌<◌, ◌≡◌, None, Some, [], drop, length};
ghost use Rattle.c_handles.specs.Owned.{Keeps};
ghost use Rattle.nvme_model.specs.declared.operation.Op.{Op};
ghost use Rattle.driver_calls.specs.declared.request.CallData.{CallData};
ghost use Rattle.driver_cas.specs.Drivers.{acwu_of, area_of};
ghost use Rattle.driver_cas.specs.Requests.{pair_request_of, request_of};
ghost use Rattle.c_handles.specs.Handles.{disk_in};
ghost use Rattle.c_handles.specs.declared.disk.Disk.{Disk as TheDisk};
ghost use Rattle.slab.specs.Slab.{slab_len};
ghost use Rattle.vandrexu_c.specs.Calls.{CallGivenUp, CallPolls};
ghost use Rattle.vandrexu_c.specs.HostStates.{HostState};
ghost use Rattle.vandrexu_c.specs.Hosts.{HostStarts};
ghost use Rattle.vandrexu_c.specs.HostMaking.{MakesHost};

use crate::copying::fits;
use crate::host_handle::HostHandle;
use crate::host_making::give_into;
use crate::host_reply::HostReply;
use crate::lending::lend;
use crate::numbers::TOO_SMALL;
use c_handles::DiskHandle;
use c_handles::numbers::IN_USE;
use std::alloc::Global;

/// Makes a host of this number, not 0, on this submission queue, with one of the passes of the disk, and puts it into
/// the handle: 0; or 115 for the number 0; or 1 where there is no such submission queue; or 124 where a host of the
/// disk had the number before, or 125 the queue's completion queue; or 114 where as many hosts were made as the disk
/// was made for; or 11 where memory is refused; or 101 where the disk's handle owns nothing; or 102 where the host's
/// owns one. But for 0, both are then as before.
#[unsafe(no_mangle)]
#[tactic(auto, using(c_handles::proofs::Marks::none_of))]
pub extern "C" fn vandrexu_host_new(
    alloc: Global,
    disk: &mut DiskHandle,
    number: u32,
    queue: u16,
    host: &mut HostHandle,
) -> u32
    ensures in_use { (h : HostState) → host.old.held.host ≡ Some h →
        (result ≡ 102) × (host.new.held.host ≡ Some h) × (disk_in disk.new ≡ disk_in disk.old) }
    ensures no_disk { host.old.held.host ≡ None → disk_in disk.old ≡ None →
        (result ≡ 101) × (host.new.held.host ≡ None) × (disk_in disk.new ≡ None) }
    ensures makes { (d : TheDisk) → host.old.held.host ≡ None → disk_in disk.old ≡ Some d →
        Keeps (disk_in disk.new) (λ e. MakesHost d e number queue result host.new.held.host) }
{
    if host.live != 0 {
        return IN_USE;
    }
    lend!(alloc, disk, mut owned => give_into(alloc, owned.as_mut(), number, queue, host))
}

/// Frees what the handle owns. Nothing is done where it owns nothing. A call that isn't answered is forgotten.
#[unsafe(no_mangle)]
pub extern "C" fn vandrexu_host_free(alloc: Global, host: &mut HostHandle)
    ensures { host.new.held.host ≡ None }
{
    drop(host.take(alloc));
}

/// Begins to read so many blocks from block `lba` on: 0, and the number of the call; or the number of the fault; or 101
/// where the handle owns nothing.
#[unsafe(no_mangle)]
pub extern "C" fn vandrexu_host_read(
    alloc: Global,
    host: &mut HostHandle,
    lba: u64,
    blocks: u32,
    call: &mut u32,
) -> u32
    ensures no_handle { host.old.held.host ≡ None →
        (result ≡ 101) × (host.new.held.host ≡ None) × (call.new ≡ call.old) }
    ensures starts { (h : HostState) → host.old.held.host ≡ Some h → Keeps host.new.held.host (λ i. HostStarts h i
        (request_of (acwu_of h.host.driver) (area_of h.host.driver) Op.Read lba (512 * blocks))
        (CallData.One []) result call.old call.new) }
{
    lend!(alloc, host, mut owned => owned.as_mut().start_read(lba, blocks, call))
}

/// Begins to write zeros to so many blocks from block `lba` on; answers as `vandrexu_host_read`.
#[unsafe(no_mangle)]
pub extern "C" fn vandrexu_host_write_zeroes(
    alloc: Global,
    host: &mut HostHandle,
    lba: u64,
    blocks: u32,
    call: &mut u32,
) -> u32
    ensures no_handle { host.old.held.host ≡ None →
        (result ≡ 101) × (host.new.held.host ≡ None) × (call.new ≡ call.old) }
    ensures starts { (h : HostState) → host.old.held.host ≡ Some h → Keeps host.new.held.host (λ i. HostStarts h i
        (request_of (acwu_of h.host.driver) (area_of h.host.driver) Op.WriteZeroes lba (512 * blocks))
        (CallData.One []) result call.old call.new) }
{
    lend!(alloc, host, mut owned => owned.as_mut().start_write_zeroes(lba, blocks, call))
}

/// Begins to write this data, 512 bytes a block, from block `lba` on; answers as `vandrexu_host_read`.
#[unsafe(no_mangle)]
pub extern "C" fn vandrexu_host_write(
    alloc: Global,
    host: &mut HostHandle,
    lba: u64,
    contents: &[u8],
    call: &mut u32,
) -> u32
    ensures no_handle { host.old.held.host ≡ None →
        (result ≡ 101) × (host.new.held.host ≡ None) × (call.new ≡ call.old) }
    ensures starts { (h : HostState) → host.old.held.host ≡ Some h → Keeps host.new.held.host (λ i. HostStarts h i
        (request_of (acwu_of h.host.driver) (area_of h.host.driver) Op.Write lba (length contents.now))
        (CallData.One contents.now) result call.old call.new) }
{
    lend!(alloc, host, mut owned => owned.as_mut().start_write(lba, contents, call))
}

/// Begins to compare this data, 512 bytes a block, with the blocks from block `lba` on; answers as
/// `vandrexu_host_read`.
#[unsafe(no_mangle)]
pub extern "C" fn vandrexu_host_compare(
    alloc: Global,
    host: &mut HostHandle,
    lba: u64,
    contents: &[u8],
    call: &mut u32,
) -> u32
    ensures no_handle { host.old.held.host ≡ None →
        (result ≡ 101) × (host.new.held.host ≡ None) × (call.new ≡ call.old) }
    ensures starts { (h : HostState) → host.old.held.host ≡ Some h → Keeps host.new.held.host (λ i. HostStarts h i
        (request_of (acwu_of h.host.driver) (area_of h.host.driver) Op.Compare lba (length contents.now))
        (CallData.One contents.now) result call.old call.new) }
{
    lend!(alloc, host, mut owned => owned.as_mut().start_compare(lba, contents, call))
}

/// Begins to write the desired data to the blocks from block `lba` on where they hold the expected data, as one fused
/// pair; answers as `vandrexu_host_read`.
#[unsafe(no_mangle)]
pub extern "C" fn vandrexu_host_compare_and_write(
    alloc: Global,
    host: &mut HostHandle,
    lba: u64,
    expected: &[u8],
    desired: &[u8],
    call: &mut u32,
) -> u32
    ensures no_handle { host.old.held.host ≡ None →
        (result ≡ 101) × (host.new.held.host ≡ None) × (call.new ≡ call.old) }
    ensures starts { (h : HostState) → host.old.held.host ≡ Some h → Keeps host.new.held.host (λ i. HostStarts h i
        (pair_request_of (acwu_of h.host.driver) (area_of h.host.driver) lba (length expected.now)
        (length desired.now))
        (CallData.Two expected.now desired.now) result call.old call.new) }
{
    lend!(alloc, host, mut owned => owned.as_mut().start_compare_and_write(lba, expected, desired, call))
}

/// Polls the call with this number, and before it one that was given up, where there is one. Each of the two polls
/// reaps at most one completion: 0, and what became of the call; or 44 where it failed, with its status; or 45 or 46
/// where nothing was reaped of it, and the call goes on; or 117 where no call has the number; or 101 where the handle
/// owns nothing. `reply` is written but for 101.
#[unsafe(no_mangle)]
pub extern "C" fn vandrexu_host_poll(
    alloc: Global,
    host: &mut HostHandle,
    call: u32,
    reply: &mut HostReply,
) -> u32
    ensures no_handle { host.old.held.host ≡ None →
        (result ≡ 101) × (host.new.held.host ≡ None) × (reply.new ≡ reply.old) }
    ensures polls { (h : HostState) → host.old.held.host ≡ Some h →
        Keeps host.new.held.host (λ i. CallPolls h i call result reply.new) }
{
    let (told, what) = lend!(alloc, host, mut owned => owned.as_mut().poll(call));
    *reply = what;
    told
}

/// Gives up the call with this number, whose CIDs stay in use until its completions came: 0; or 117 where no call has
/// the number; or 11 where memory is refused; or 101 where the handle owns nothing.
#[unsafe(no_mangle)]
pub extern "C" fn vandrexu_host_give_up(alloc: Global, host: &mut HostHandle, call: u32) -> u32
    ensures no_handle { host.old.held.host ≡ None → (result ≡ 101) × (host.new.held.host ≡ None) }
    ensures gives_up { (h : HostState) → host.old.held.host ≡ Some h →
        Keeps host.new.held.host (λ i. CallGivenUp h i call result) }
{
    lend!(alloc, host, mut owned => owned.as_mut().give_up(call))
}

/// How many calls the host waits for: 0, and `calls` is how many have a number, `given_up` how many were given up; or
/// 101 where the handle owns nothing.
#[unsafe(no_mangle)]
pub extern "C" fn vandrexu_host_waiting(
    alloc: Global,
    host: &mut HostHandle,
    calls: &mut usize,
    given_up: &mut usize,
) -> u32
    ensures no_handle { host.old.held.host ≡ None →
        (result ≡ 101) × (calls.new ≡ calls.old) × (given_up.new ≡ given_up.old) }
    ensures same { host.new.held.host ≡ host.old.held.host }
    ensures counts { (h : HostState) → host.old.held.host ≡ Some h →
        (result ≡ 0) × (calls.new ≡ slab_len h.host.calls) × (given_up.new ≡ length h.host.given_up) }
{
    let waiting = lend!(alloc, host, owned => owned.as_ref().host.waiting());
    *calls = waiting.calls;
    *given_up = waiting.given_up;
    0
}

/// Copies what was read last: 0, and the beginning of `out` has it; or 103 where `out` is too short, and nothing is
/// written there; or 101 where the handle owns nothing. At 0 and 103 `needed` is the count of its bytes.
#[unsafe(no_mangle)]
pub extern "C" fn vandrexu_host_data(
    alloc: Global,
    host: &mut HostHandle,
    out: &mut [u8],
    needed: &mut usize,
) -> u32
    ensures no_handle { host.old.held.host ≡ None → result ≡ 101 }
    ensures same { host.new.held.host ≡ host.old.held.host }
    ensures done { (h : HostState) → host.old.held.host ≡ Some h → result ≡ 0 →
        (needed.new ≡ length h.payload) × (out.new ≡ h.payload ++ drop (length h.payload) out.old) }
    ensures too_small { (h : HostState) → host.old.held.host ≡ Some h → (result ≡ 0 → ⊥) →
        (result ≡ 103) × (needed.new ≡ length h.payload) × (length out.old < length h.payload) }
    ensures kept { (result ≡ 0 → ⊥) → out.new ≡ out.old }
{
    let fit = lend!(alloc, host, owned => fits(owned.as_ref().payload.as_slice(), out, needed));
    if fit { 0 } else { TOO_SMALL }
}
