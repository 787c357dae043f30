//! Making a host of a disk.

ghost use Rattle.std.specs.Prelude.{◌≡◌, IfErr, IfOk, None, OnOk};
ghost use Rattle.c_handles.specs.Disks.{disk_config, disk_engine, disk_slots};
ghost use Rattle.c_handles.specs.Making.{HasGiven};
ghost use Rattle.vandrexu_c.specs.Hosts.{IsHostOver, IsNewHost};
ghost use Rattle.vandrexu_c.specs.HostMaking.{IsGiven, IsNotGiven, MakesHost};

use crate::host::DrivenHost;
use crate::host_handle::HostHandle;
use c_handles::numbers::NO_MEMORY;
use c_handles::{Disk, give_driver, note_host, take_back};
use driver_cas::{Driver, SharedPort};
use remote_host::CallHost;
use std::alloc::Global;

// A host in a box; the driver, where memory is refused.
fn host_of(
    alloc: Global,
    driver: Driver<SharedPort<'static>>,
) -> Result<Box<DrivenHost>, Driver<SharedPort<'static>>>
    ensures made { IfOk result (λ b. IsHostOver driver.entry b.value) }
    ensures back { IfErr result (λ d. d ≡ driver.entry) }
{
    let host = DrivenHost {
        host: CallHost::new(alloc, driver),
        payload: Vec::new(alloc),
    };
    match Box::new(alloc, host) {
        Ok(host) => Ok(host),
        Err(refused) => {
            let host = refused.value;
            Err(host.host.into_driver())
        }
    }
}

// Makes a host with the next of the passes; where none is made the pass stays.
fn give(alloc: Global, disk: &mut Disk, number: u32, queue: u16) -> Result<Box<DrivenHost>, u32>
    ensures same { HasGiven disk.old disk.new }
    ensures made { IfOk result (λ b. IsNewHost (disk_engine disk.old) (disk_config disk.old) number queue
        (disk_slots disk.old) b.value) }
    ensures given { OnOk result (IsGiven disk.old disk.new number queue) }
    ensures cause { IfErr result (IsNotGiven disk.old disk.new number queue) }
{
    let driver = match give_driver(alloc, disk, number, queue) {
        Ok(driver) => driver,
        Err(told) => return Err(told),
    };
    match host_of(alloc, driver) {
        Ok(host) => {
            note_host(disk, number, queue);
            Ok(host)
        }
        Err(driver) => {
            take_back(disk, driver);
            Err(NO_MEMORY)
        }
    }
}

/// Makes a host of a disk, and puts it into a handle that has none.
pub(crate) fn give_into(
    alloc: Global,
    disk: &mut Disk,
    number: u32,
    queue: u16,
    host: &mut HostHandle,
) -> u32
    requires { host.old.held.host ≡ None }
    ensures { MakesHost disk.old disk.new number queue result host.new.held.host }
{
    match give(alloc, disk, number, queue) {
        Ok(made) => {
            host.put(made);
            0
        }
        Err(told) => told,
    }
}
