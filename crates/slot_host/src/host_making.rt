//! Making a slot host, and what it tells of itself.

ghost use Rattle.std.specs.Prelude.{◌≡◌, ◌≤◌, IfErr, IfOk, slice_get};
ghost use Rattle.driver_cas.specs.Drivers.{area_of, made};
ghost use Rattle.driver_cas.specs.Dropped.{drop_count};
ghost use Rattle.driver_cas.specs.Starts.{IsUntouched};
ghost use Rattle.slot_host.specs.Begins.{is_held};
ghost use Rattle.slot_host.specs.SlotHosts.{AreNothing, DidNothing, IsHostOver, IsKept, slot_state};

use crate::beginning::is_had_at;
use crate::hold::Hold;
use crate::slot_host::SlotHost;
use crate::under_way::UnderWay;
use driver_cas::{Attendance, Driver, Port};
use slot_alloc::Slots;
use slot_takeover::laws::an_untouched_driver_keeps_its_takeovers;
use std::alloc::{AllocError as NoMemory, Global};
use std::snapshot::Snapshot;

// So many places with nothing in them.
fn nothing_held(alloc: Global, count: u32) -> Result<Vec<Hold>, NoMemory>
    ensures { IfOk result (λ v. AreNothing v.items count) }
{
    let mut holds = Vec::with_capacity(alloc, count as usize)?;
    for _ in 0..count {
        let Ok(()) = holds.push(Hold::Nothing) else {
            return Err(NoMemory);
        };
    }
    Ok(holds)
}

impl<P: Port> SlotHost<P> {
    /// A host over a driver that did nothing, with its slots: it has none of them.
    ///
    /// # Errors
    ///
    /// The driver, where a growth is refused.
    pub fn new(alloc: Global, driver: Driver<P>) -> Result<SlotHost<P>, (Driver<P>, NoMemory)>
        requires none { DidNothing driver }
        requires some { 1 ≤ (area_of driver).blocks }
        ensures over { IfOk result (λ h. IsHostOver driver (slot_state h)) }
        ensures kept { IfOk result (λ h. IsKept h) }
        ensures back { IfErr result (λ e. e.0 ≡ driver) }
    {
        let number = driver.host();
        let area = driver.area();
        match nothing_held(alloc, area.blocks) {
            Ok(holds) => Ok(SlotHost {
                driver,
                number,
                slots: Slots::new(area.slba, area.blocks),
                holds,
                under_way: UnderWay::Nothing,
                took_over: Snapshot::of(&false),
            }),
            Err(why) => Err((driver, why)),
        }
    }

    /// The driver, given back. What the host has stays held, by its name in the slot's block.
    pub fn into_driver(self) -> Driver<P>
        ensures { result ≡ (slot_state self).driver }
    {
        self.driver
    }

    /// The driver's port, to be looked at.
    pub fn port(&self) -> &P
        ensures { result.now ≡ (slot_state self.now).driver.port }
    {
        self.driver.port()
    }

    /// The driver, to be looked at.
    pub fn driver(&self) -> &Driver<P>
        ensures { result.now ≡ (slot_state self.now).driver }
    {
        &self.driver
    }

    /// Whether the host has this slot.
    pub fn has(&self, slot: u32) -> bool
        ensures { result ≡ is_held (slice_get (slot_state self.now).holds slot) }
    {
        is_had_at(self.holds.as_slice(), slot)
    }

    /// How many of the completions that its port reaped no command waited for.
    pub fn dropped(&self) -> u64
        ensures { result ≡ drop_count (made (slot_state self.now).driver) }
    {
        self.driver.dropped()
    }

    /// Does this at the driver's port. What the host has and its call stay as they are.
    pub fn attend<A: Attendance<P>>(&mut self, attendance: A) -> A::Told
        requires kept { IsKept self.old }
        ensures kept { IsKept self.new }
        ensures untouched { IsUntouched (slot_state self.old).driver (slot_state self.new).driver }
        ensures rest { slot_state self.new ≡ record (slot_state self.old) { driver = (slot_state self.new).driver } }
        ensures told { A.tells attendance (slot_state self.old).driver.port (slot_state self.new).driver.port result }
    {
        let before = Snapshot::of(&self.driver);
        let told = self.driver.attend(attendance);
        an_untouched_driver_keeps_its_takeovers(&before, &self.driver);
        told
    }
}
