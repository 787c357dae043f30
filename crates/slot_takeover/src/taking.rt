//! Takeovers that were begun.

ghost use Rattle.std.specs.Prelude.{◌≡◌, ◌≢◌, ◌≤◌, ◌<◌, IfOk, None};
ghost use Rattle.driver_cas.specs.Drivers.{HasSettings, IsCallOf, area_of, host_of};
ghost use Rattle.driver_cas.specs.declared.call.Call.{Call};
ghost use Rattle.slot_alloc.specs.Areas.{area};
ghost use Rattle.slot_alloc.specs.SlotRules.{DriverContinues};
ghost use Rattle.slot_takeover.specs.Takeovers.{IsTakeoverBegun, IsTakingOverOf};

use driver_cas::{Call, Driver, Fault, Port};
use nvme_model::Name;
use slot_alloc::Slots;

/// A takeover that was begun. It can't be copied, and one that is dropped keeps its CIDs, and its slot if it is won.
#[derive(Drop)]
pub struct TakingOver<P> {
    pub(crate) slot: u32,
    pub(crate) dead: Name,
    pub(crate) serial: u64,
    pub(crate) call: Call<P>,
}

// The numbers of a name fit their types.
fn fits(host: u32, serial: u64)
    ensures law { (host < 4294967296) × (serial < 18446744073709551616) }
{
    let _ = (host, serial);
}

// The host number of a name.
fn host_of_name(name: &Name) -> u32
    ensures value { result ≡ name.now.host }
{
    name.host
}

// The serial of a name.
fn serial_of_name(name: &Name) -> u64
    ensures value { result ≡ name.now.serial }
{
    name.serial
}

// Functions, and no methods of `Slots`, since a type has methods in its own crate alone.
/// Begins to take slot `i` over from the name of a dead host: one fused pair is published, from that name to this
/// driver's host and its next serial, and no Read. That the dead host is fenced is for the caller to see.
///
/// # Errors
///
/// Those of `Driver::start_takeover`. Nothing was published, and no serial is used up.
pub fn take_over<P: Port>(
    slots: &Slots,
    driver: &mut Driver<P>,
    i: u32,
    dead: Name,
) -> Result<TakingOver<P>, Fault>
    requires area { area_of driver.old ≡ area slots.now }
    requires slot { i < (area slots.now).blocks }
    requires other { dead.host ≢ host_of driver.old }
    requires named { (1 ≤ dead.host) × (1 ≤ dead.serial) }
    ensures settings { HasSettings driver.old driver.new }
    ensures later { P.follows driver.old.port driver.new.port }
    ensures is { IsTakeoverBegun driver.old driver.new i dead result }
    ensures of { IfOk result (λ k. IsTakingOverOf driver.new k) }
    ensures goes_on { DriverContinues driver.old driver.new None }
{
    let dead_host = host_of_name(&dead);
    let dead_serial = serial_of_name(&dead);
    fits(dead_host, dead_serial);
    let (call, serial) = driver.start_takeover(slots.block(i), dead_host, dead_serial)?;
    Ok(TakingOver {
        slot: i,
        dead,
        serial,
        call,
    })
}
