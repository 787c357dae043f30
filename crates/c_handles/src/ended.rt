//! Hosts that ended: their disk keeps each, until it is asked for by its number.

ghost use Rattle.std.specs.Prelude.{◌≡◌, IfErr, IfOk, MatchOption, None, OnOk, Option, Some, replicate};
ghost use Rattle.std.specs.Prelude.{slice_get, slice_set};
ghost use Rattle.slab.specs.Slab.{slab_len};
ghost use Rattle.remote_host.specs.Calls.{KeepsCalls};
ghost use Rattle.remote_host.specs.HostStates.{state_of};
ghost use Rattle.c_handles.specs.Ended.{HasNoneEnded, IsBesideEnded, IsKeptAt, Lives, MayRefuseEnd};
ghost use Rattle.c_handles.specs.Ended.{hosts_ended};

use crate::disk::Disk;
use crate::numbers::{IN_CALL, OTHER_HOST};
use driver_cas::SharedPort;
use remote_host::CallHost;
use std::alloc::{AllocError as NoMemory, Global};
use std::marker::Model;

/// A host that ended: its driver, with the calls that were given up.
#[derive(Drop)]
pub struct EndedHost {
    host: CallHost<SharedPort<'static>>,
}

impl Model for EndedHost {
    ghost use Rattle.remote_host.specs.Calls.{KeepsCalls};
    ghost use Rattle.remote_host.specs.HostStates.{state_of};
    ghost use Rattle.c_handles.specs.EndedStates.{EndedState};

    ghost Value = { EndedState };

    ghost view = { λ h. state_of h.host };

    ghost invariant = { λ h. KeepsCalls (state_of h.host) };
}

impl EndedHost {
    /// This host, whose calls have no numbers any more.
    pub fn of(host: CallHost<SharedPort<'static>>) -> EndedHost
        requires { KeepsCalls (state_of host) }
        ensures { result ≡ state_of host.entry }
    {
        EndedHost { host }
    }

    /// The host, as it was.
    pub fn into_host(self) -> CallHost<SharedPort<'static>>
        ensures value { state_of result ≡ self }
        ensures kept { KeepsCalls (state_of result) }
    {
        self.host
    }
}

/// Room for so many hosts, of which none ended.
pub(crate) fn none_ended(alloc: Global, queues: u16) -> Result<Vec<Option<EndedHost>>, NoMemory>
    ensures { IfOk result (λ v. v.items ≡ replicate queues None) }
{
    let mut ended = Vec::with_capacity(alloc, usize::from(queues))?;
    for _ in 0..queues {
        let Ok(()) = ended.push(None) else {
            return Err(NoMemory);
        };
    }
    Ok(ended)
}

/// The place at which its disk keeps a host that ends.
///
/// # Errors
///
/// The number of the answer: 116 where the host has a call under a number, 130 where the disk made no host of its
/// number, or that one has ended.
pub fn place_to_end(disk: &Disk, host: &CallHost<SharedPort<'static>>) -> Result<usize, u32>
    ensures lives { IfOk result (Lives disk.now (state_of host.now).driver.host) }
    ensures idle { OnOk result (slab_len (state_of host.now).calls ≡ 0) }
    ensures cause { IfErr result (MayRefuseEnd disk.now (state_of host.now)) }
{
    if host.waiting().calls != 0 {
        return Err(IN_CALL);
    }
    let Some(place) = disk.numbers.place(host.driver().host()) else {
        return Err(OTHER_HOST);
    };
    if disk.ended[place].is_some() {
        return Err(OTHER_HOST);
    }
    Ok(place)
}

/// Keeps a host that ended at this place.
pub fn keep_ended(disk: &mut Disk, place: usize, ended: EndedHost)
    requires { slice_get (hosts_ended disk.old) place ≡ Some None }
    ensures same { IsBesideEnded disk.old disk.new }
    ensures kept { hosts_ended disk.new ≡ slice_set (hosts_ended disk.old) place (Some ended) }
{
    disk.ended[place] = Some(ended);
}

/// Takes the host of this number out, with the place at which it was kept; None where none ended.
pub fn take_ended(disk: &mut Disk, number: u32) -> Option<(usize, EndedHost)>
    ensures same { IsBesideEnded disk.old disk.new }
    ensures taken { MatchOption result
        (HasNoneEnded disk.old number × (hosts_ended disk.new ≡ hosts_ended disk.old))
        (λ t. IsKeptAt disk.old number t.0 t.1
        × (hosts_ended disk.new ≡ slice_set (hosts_ended disk.old) t.0 None)) }
{
    let place = disk.numbers.place(number)?;
    if disk.ended[place].is_none() {
        return None;
    }
    let ended = disk.ended[place].take().unwrap();
    Some((place, ended))
}
