//! Making a slot host of a disk.

ghost use Rattle.std.specs.Prelude.{◌≡◌, ◌≤◌, IfErr, IfOk, None, OnOk};
ghost use Rattle.c_handles.specs.Disks.{disk_config, disk_engine, disk_slots};
ghost use Rattle.c_handles.specs.Making.{HasGiven};
ghost use Rattle.vandrexu_c.specs.HostMaking.{IsGiven, IsNotGiven};
ghost use Rattle.driver_cas.specs.Drivers.{area_of};
ghost use Rattle.slot_host.specs.SlotHosts.{DidNothing, IsHostOver};
ghost use Rattle.vandrexu_c.specs.SlotMaking.{IsNewSlotHost, MakesSlotHost, given_area};

use crate::disk_slots::DiskSlotHost;
use crate::slot_handle::SlotHandle;
use c_handles::numbers::NO_MEMORY;
use c_handles::{Disk, give_driver, note_host, take_back};
use driver_cas::{Driver, SharedPort};
use nvme_model::array::Range;
use slot_host::SlotHost;
use std::alloc::Global;

/// The blocks of so many slots from block `first` on; None where there is none, or one is behind block 65,535.
pub(crate) fn area_given(first: u64, count: u32) -> Option<Range>
    ensures { result ≡ given_area first count }
{
    if count == 0 || first > 65536 || u64::from(count) > 65536 - first {
        return None;
    }
    Some(Range {
        slba: first,
        blocks: count,
    })
}

// A host in a box; the driver, where memory is refused.
fn host_of(
    alloc: Global,
    driver: Driver<SharedPort<'static>>,
) -> Result<Box<DiskSlotHost>, Driver<SharedPort<'static>>>
    requires none { DidNothing driver }
    requires some { 1 ≤ (area_of driver).blocks }
    ensures made { IfOk result (λ b. IsHostOver driver.entry b.value) }
    ensures back { IfErr result (λ d. d ≡ driver.entry) }
{
    let host = match SlotHost::new(alloc, driver) {
        Ok(host) => host,
        Err((driver, _)) => return Err(driver),
    };
    match Box::new(alloc, DiskSlotHost { host }) {
        Ok(host) => Ok(host),
        Err(refused) => {
            let DiskSlotHost { host } = refused.value;
            Err(host.into_driver())
        }
    }
}

// Makes a host with the next of the passes; where none is made the pass stays.
fn give(alloc: Global, disk: &mut Disk, number: u32, queue: u16) -> Result<Box<DiskSlotHost>, u32>
    requires { 1 ≤ (disk_slots disk.old).blocks }
    ensures same { HasGiven disk.old disk.new }
    ensures made { IfOk result (λ b. IsNewSlotHost (disk_engine disk.old) (disk_config disk.old) number queue
        (disk_slots disk.old) b.value) }
    ensures given { OnOk result (IsGiven disk.old disk.new number queue) }
    ensures cause { IfErr result (IsNotGiven disk.old disk.new number queue) }
{
    let driver = match give_driver(alloc, disk, number, queue) {
        Ok(driver) => driver,
        Err(told) => return Err(told),
    };
    match host_of(alloc, driver) {
        Ok(host) => {
            note_host(disk, number, queue);
            Ok(host)
        }
        Err(driver) => {
            take_back(disk, driver);
            Err(NO_MEMORY)
        }
    }
}

/// Makes a host of a disk, and puts it into a handle that has none.
pub(crate) fn give_into(
    alloc: Global,
    disk: &mut Disk,
    number: u32,
    queue: u16,
    host: &mut SlotHandle,
) -> u32
    requires none { host.old.held.host ≡ None }
    requires slots { 1 ≤ (disk_slots disk.old).blocks }
    ensures { MakesSlotHost disk.old disk.new number queue result host.new.held.host }
{
    match give(alloc, disk, number, queue) {
        Ok(made) => {
            host.put(made);
            0
        }
        Err(told) => told,
    }
}
