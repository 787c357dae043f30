//! A remote host: made, freed, its calls begun and polled, its entries and completions carried.

ghost use Rattle.std.specs.Prelude.{◌*◌, ◌++◌, ◌<◌, ◌≡◌, None, Some, [], drop, length};
ghost use Rattle.c_handles.specs.Owned.{Keeps};
ghost use Rattle.nvme_model.specs.declared.operation.Op.{Op};
ghost use Rattle.driver_calls.specs.declared.request.CallData.{CallData};
ghost use Rattle.driver_cas.specs.Drivers.{acwu_of, area_of, made};
ghost use Rattle.driver_cas.specs.Dropped.{drop_count};
ghost use Rattle.driver_cas.specs.Requests.{pair_request_of, request_of};
ghost use Rattle.slab.specs.Slab.{slab_len};
ghost use Rattle.vandrexu_c.specs.Calls.{CallGivenUp};
ghost use Rattle.vandrexu_c.specs.RemoteStates.{RemoteState};
ghost use Rattle.vandrexu_c.specs.Remotes.{IsNewRemote, MayRefuseRemote, RemoteGives, RemotePolls, RemoteStarts};
ghost use Rattle.vandrexu_c.specs.Remotes.{RemoteTakes};

use crate::call_told::number_told;
use crate::carrying::OutgoingEntry;
use crate::copying::fits;
use crate::host_reply::HostReply;
use crate::lending::lend;
use crate::numbers::TOO_SMALL;
use crate::remote::DrivenRemote;
use crate::remote_handle::RemoteHandle;
use c_handles::numbers::{IN_USE, NO_MEMORY};
use nvme_model::array::Range;
use std::alloc::Global;

/// Makes a host of a controller that is somewhere else, with this number, not 0, on this submission queue of it, not 0,
/// and puts it into the handle: 0; or 115 for the number 0; or 1 for the queue 0; or 123 where the slots lie beyond
/// 65,536 blocks; or 11 where memory is refused; or 102 where the handle owns one. A Compare and Write has at most
/// `acwu` and one blocks. No call writes to the `blocks` slots from block `first` on.
#[unsafe(no_mangle)]
pub extern "C" fn vandrexu_remote_new(
    alloc: Global,
    number: u32,
    queue: u16,
    acwu: u16,
    first: u64,
    blocks: u32,
    remote: &mut RemoteHandle,
) -> u32
    ensures in_use { (r : RemoteState) → remote.old.held.remote ≡ Some r →
        (result ≡ 102) × (remote.new.held.remote ≡ Some r) }
    ensures made { remote.old.held.remote ≡ None → result ≡ 0 → Keeps remote.new.held.remote
        (IsNewRemote number acwu queue (record { slba = first; blocks = blocks })) }
    ensures refused { remote.old.held.remote ≡ None → (result ≡ 0 → ⊥) → (remote.new.held.remote ≡ None)
        × MayRefuseRemote number queue (record { slba = first; blocks = blocks }) result }
{
    if remote.live != 0 {
        return IN_USE;
    }
    let slots = Range {
        slba: first,
        blocks,
    };
    let made = match DrivenRemote::of(alloc, number, queue, acwu, slots) {
        Ok(made) => made,
        Err(told) => return told,
    };
    match Box::new(alloc, made) {
        Ok(owned) => {
            remote.put(owned);
            0
        }
        Err(_) => NO_MEMORY,
    }
}

/// Frees what the handle owns. Nothing is done where it owns nothing.
#[unsafe(no_mangle)]
pub extern "C" fn vandrexu_remote_free(alloc: Global, remote: &mut RemoteHandle)
    ensures { remote.new.held.remote ≡ None }
{
    drop(remote.take(alloc));
}

/// Begins to read so many blocks from block `lba` on: 0, and the number of the call; or the number of the fault; or 101
/// where the handle owns nothing.
#[unsafe(no_mangle)]
pub extern "C" fn vandrexu_remote_read(
    alloc: Global,
    remote: &mut RemoteHandle,
    lba: u64,
    blocks: u32,
    call: &mut u32,
) -> u32
    ensures no_handle { remote.old.held.remote ≡ None →
        (result ≡ 101) × (remote.new.held.remote ≡ None) × (call.new ≡ call.old) }
    ensures starts { (r : RemoteState) → remote.old.held.remote ≡ Some r →
        Keeps remote.new.held.remote (λ s. RemoteStarts r s
        (request_of (acwu_of r.host.driver) (area_of r.host.driver) Op.Read lba (512 * blocks)) (CallData.One [])
        result call.old call.new) }
{
    lend!(alloc, remote, mut owned => number_told(owned.as_mut().host.start_read(lba, blocks), call))
}

/// Begins to write zeros to so many blocks from block `lba` on; answers as `vandrexu_remote_read`.
#[unsafe(no_mangle)]
pub extern "C" fn vandrexu_remote_write_zeroes(
    alloc: Global,
    remote: &mut RemoteHandle,
    lba: u64,
    blocks: u32,
    call: &mut u32,
) -> u32
    ensures no_handle { remote.old.held.remote ≡ None →
        (result ≡ 101) × (remote.new.held.remote ≡ None) × (call.new ≡ call.old) }
    ensures starts { (r : RemoteState) → remote.old.held.remote ≡ Some r →
        Keeps remote.new.held.remote (λ s. RemoteStarts r s
        (request_of (acwu_of r.host.driver) (area_of r.host.driver) Op.WriteZeroes lba (512 * blocks))
        (CallData.One []) result call.old call.new) }
{
    lend!(alloc, remote, mut owned => number_told(owned.as_mut().host.start_write_zeroes(lba, blocks), call))
}

/// Begins to write this data, 512 bytes a block, from block `lba` on; answers as `vandrexu_remote_read`.
#[unsafe(no_mangle)]
pub extern "C" fn vandrexu_remote_write(
    alloc: Global,
    remote: &mut RemoteHandle,
    lba: u64,
    contents: &[u8],
    call: &mut u32,
) -> u32
    ensures no_handle { remote.old.held.remote ≡ None →
        (result ≡ 101) × (remote.new.held.remote ≡ None) × (call.new ≡ call.old) }
    ensures starts { (r : RemoteState) → remote.old.held.remote ≡ Some r →
        Keeps remote.new.held.remote (λ s. RemoteStarts r s
        (request_of (acwu_of r.host.driver) (area_of r.host.driver) Op.Write lba (length contents.now))
        (CallData.One contents.now) result call.old call.new) }
{
    lend!(alloc, remote, mut owned => number_told(owned.as_mut().host.start_write(lba, contents), call))
}

/// Begins to compare this data, 512 bytes a block, with the blocks from block `lba` on; answers as
/// `vandrexu_remote_read`.
#[unsafe(no_mangle)]
pub extern "C" fn vandrexu_remote_compare(
    alloc: Global,
    remote: &mut RemoteHandle,
    lba: u64,
    contents: &[u8],
    call: &mut u32,
) -> u32
    ensures no_handle { remote.old.held.remote ≡ None →
        (result ≡ 101) × (remote.new.held.remote ≡ None) × (call.new ≡ call.old) }
    ensures starts { (r : RemoteState) → remote.old.held.remote ≡ Some r →
        Keeps remote.new.held.remote (λ s. RemoteStarts r s
        (request_of (acwu_of r.host.driver) (area_of r.host.driver) Op.Compare lba (length contents.now))
        (CallData.One contents.now) result call.old call.new) }
{
    lend!(alloc, remote, mut owned => number_told(owned.as_mut().host.start_compare(lba, contents), call))
}

/// Begins to write the desired data to the blocks from block `lba` on where they hold the expected data, as one fused
/// pair; answers as `vandrexu_remote_read`.
#[unsafe(no_mangle)]
pub extern "C" fn vandrexu_remote_compare_and_write(
    alloc: Global,
    remote: &mut RemoteHandle,
    lba: u64,
    expected: &[u8],
    desired: &[u8],
    call: &mut u32,
) -> u32
    ensures no_handle { remote.old.held.remote ≡ None →
        (result ≡ 101) × (remote.new.held.remote ≡ None) × (call.new ≡ call.old) }
    ensures starts { (r : RemoteState) → remote.old.held.remote ≡ Some r →
        Keeps remote.new.held.remote (λ s. RemoteStarts r s
        (pair_request_of (acwu_of r.host.driver) (area_of r.host.driver) lba (length expected.now)
        (length desired.now)) (CallData.Two expected.now desired.now) result call.old call.new) }
{
    lend!(alloc, remote, mut owned =>
        number_told(owned.as_mut().host.start_compare_and_write(lba, expected, desired), call))
}

/// Polls the call with this number, and before it one that was given up, where there is one. Each of the two polls
/// reaps at most one completion that was brought: 0, and what became of the call; or 44 where it failed, with its
/// status; or 117 where no call has the number; or 101 where the handle owns nothing. `reply` is written but for 101.
#[unsafe(no_mangle)]
pub extern "C" fn vandrexu_remote_poll(
    alloc: Global,
    remote: &mut RemoteHandle,
    call: u32,
    reply: &mut HostReply,
) -> u32
    ensures no_handle { remote.old.held.remote ≡ None →
        (result ≡ 101) × (remote.new.held.remote ≡ None) × (reply.new ≡ reply.old) }
    ensures polls { (r : RemoteState) → remote.old.held.remote ≡ Some r →
        Keeps remote.new.held.remote (λ s. RemotePolls r s call result reply.new) }
{
    let (told, what) = lend!(alloc, remote, mut owned => owned.as_mut().poll(call));
    *reply = what;
    told
}

/// Gives up the call with this number, whose CIDs stay in use until its completions came: 0; or 117 where no call has
/// the number; or 11 where memory is refused; or 101 where the handle owns nothing.
#[unsafe(no_mangle)]
pub extern "C" fn vandrexu_remote_give_up(
    alloc: Global,
    remote: &mut RemoteHandle,
    call: u32,
) -> u32
    ensures no_handle { remote.old.held.remote ≡ None → (result ≡ 101) × (remote.new.held.remote ≡ None) }
    ensures gives_up { (r : RemoteState) → remote.old.held.remote ≡ Some r →
        Keeps remote.new.held.remote (λ s. CallGivenUp r s call result) }
{
    lend!(alloc, remote, mut owned => owned.as_mut().give_up(call))
}

/// How many calls the host waits for: 0, and `calls` is how many have a number, `given_up` how many were given up; or
/// 101 where the handle owns nothing.
#[unsafe(no_mangle)]
pub extern "C" fn vandrexu_remote_waiting(
    alloc: Global,
    remote: &mut RemoteHandle,
    calls: &mut usize,
    given_up: &mut usize,
) -> u32
    ensures no_handle { remote.old.held.remote ≡ None →
        (result ≡ 101) × (calls.new ≡ calls.old) × (given_up.new ≡ given_up.old) }
    ensures same { remote.new.held.remote ≡ remote.old.held.remote }
    ensures counts { (r : RemoteState) → remote.old.held.remote ≡ Some r →
        (result ≡ 0) × (calls.new ≡ slab_len r.host.calls) × (given_up.new ≡ length r.host.given_up) }
{
    let waiting = lend!(alloc, remote, owned => owned.as_ref().host.waiting());
    *calls = waiting.calls;
    *given_up = waiting.given_up;
    0
}

/// Copies what was read last: 0, and the beginning of `out` has it; or 103 where `out` is too short, and nothing is
/// written there; or 101 where the handle owns nothing. At 0 and 103 `needed` is the count of its bytes.
#[unsafe(no_mangle)]
pub extern "C" fn vandrexu_remote_data(
    alloc: Global,
    remote: &mut RemoteHandle,
    out: &mut [u8],
    needed: &mut usize,
) -> u32
    ensures no_handle { remote.old.held.remote ≡ None → result ≡ 101 }
    ensures same { remote.new.held.remote ≡ remote.old.held.remote }
    ensures done { (r : RemoteState) → remote.old.held.remote ≡ Some r → result ≡ 0 →
        (needed.new ≡ length r.payload) × (out.new ≡ r.payload ++ drop (length r.payload) out.old) }
    ensures too_small { (r : RemoteState) → remote.old.held.remote ≡ Some r → (result ≡ 0 → ⊥) →
        (result ≡ 103) × (needed.new ≡ length r.payload) × (length out.old < length r.payload) }
    ensures kept { (result ≡ 0 → ⊥) → out.new ≡ out.old }
{
    let fit = lend!(alloc, remote, owned => fits(owned.as_ref().payload.as_slice(), out, needed));
    if fit { 0 } else { TOO_SMALL }
}

/// Tells the next entry that is to be carried to the controller: 0, and the beginning of `out` has its data; or 103
/// where `out` is too short, and the entry is told again; or 105 where there is none; or 101 where the handle owns
/// nothing. `entry` is written at 0 and 103.
#[unsafe(no_mangle)]
pub extern "C" fn vandrexu_remote_outgoing(
    alloc: Global,
    remote: &mut RemoteHandle,
    entry: &mut OutgoingEntry,
    out: &mut [u8],
) -> u32
    ensures no_handle { remote.old.held.remote ≡ None →
        (result ≡ 101) × (remote.new.held.remote ≡ None) × (entry.new ≡ entry.old) × (out.new ≡ out.old) }
    ensures gives { (r : RemoteState) → remote.old.held.remote ≡ Some r →
        Keeps remote.new.held.remote (λ s. RemoteGives r s result entry.old entry.new out.old out.new) }
{
    lend!(alloc, remote, mut owned => owned.as_mut().next_entry(entry, out))
}

/// Brings a completion, with what a successful Read read, else no bytes: 0; or 11 where memory is refused; or 101 where
/// the handle owns nothing.
#[unsafe(no_mangle)]
pub extern "C" fn vandrexu_remote_incoming(
    alloc: Global,
    remote: &mut RemoteHandle,
    cqe: &[u8; 16],
    bytes: &[u8],
) -> u32
    ensures no_handle { remote.old.held.remote ≡ None → (result ≡ 101) × (remote.new.held.remote ≡ None) }
    ensures takes { (r : RemoteState) → remote.old.held.remote ≡ Some r →
        Keeps remote.new.held.remote (λ s. RemoteTakes r s cqe.now bytes.now result) }
{
    lend!(alloc, remote, mut owned => owned.as_mut().bring(alloc, cqe, bytes))
}

/// How many of the completions that were brought and polled no command waited for: 0, and `count` has it; or 101 where
/// the handle owns nothing.
#[unsafe(no_mangle)]
pub extern "C" fn vandrexu_remote_dropped(
    alloc: Global,
    remote: &mut RemoteHandle,
    count: &mut u64,
) -> u32
    ensures no_handle { remote.old.held.remote ≡ None → (result ≡ 101) × (count.new ≡ count.old) }
    ensures same { remote.new.held.remote ≡ remote.old.held.remote }
    ensures count { (r : RemoteState) → remote.old.held.remote ≡ Some r →
        (result ≡ 0) × (count.new ≡ drop_count (made r.host.driver)) }
{
    let dropped = lend!(alloc, remote, owned => owned.as_ref().host.dropped());
    *count = dropped;
    0
}
