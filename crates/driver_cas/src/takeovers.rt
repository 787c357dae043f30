//! Starting to take a slot over from a host that is fenced, for an allocator of slots.

ghost use Rattle.std.specs.Prelude.{◌≡◌, ◌≤◌, ◌<◌, IfOk, true};
ghost use Rattle.nvme_model.specs.Array.{has_block};
ghost use Rattle.driver_cas.specs.Drivers.{HasSettings, host_of};
ghost use Rattle.driver_cas.specs.TakeoverStarts.{IsTakeoverStart};

use crate::call::Call;
use crate::claims::swap;
use crate::driver::Driver;
use crate::fault::Fault;
use crate::port::Port;
use nvme_model::slot_block;

impl<P: Port> Driver<P> {
    /// Begins to take over the slot at block `lba`: to swap the name of the dead host and its serial for the name of
    /// this driver's host and its next serial, which is given beside the call. That the dead host is fenced is for the
    /// caller to see.
    ///
    /// # Errors
    ///
    /// As `start_claim`.
    pub fn start_takeover(
        &mut self,
        lba: u64,
        dead_host: u32,
        dead_serial: u64,
    ) -> Result<(Call<P>, u64), Fault>
        requires inside { has_block self.old.slots lba ≡ true }
        ensures settings { HasSettings self.old self.new }
        ensures later { P.follows self.old.port self.new.port }
        ensures is { IsTakeoverStart self.old self.new lba dead_host dead_serial result }
        ensures law { (1 ≤ host_of self.old) × (host_of self.old < 4294967296)
            × IfOk result (λ r. r.1 < 18446744073709551616) }
    {
        if self.serial == u64::MAX {
            return Err(Fault::NoSerial);
        }
        let serial = self.serial + 1;
        let dead = slot_block(dead_host, dead_serial);
        let name = slot_block(self.host, serial);
        let call = self.start_pair(swap(lba), &dead, &name)?;
        self.serial = serial;
        Ok((call, serial))
    }
}
