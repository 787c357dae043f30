//! Starting to claim and to release a slot, for an allocator of slots.

ghost use Rattle.std.specs.Prelude.{◌≡◌, ◌≤◌, ◌<◌, IfOk, max, true};
ghost use Rattle.nvme_model.specs.Array.{has_block};
ghost use Rattle.driver_cas.specs.Drivers.{HasSettings, IsSameDriver, host_of};
ghost use Rattle.driver_cas.specs.SlotStarts.{IsClaimStart, IsReleaseStart, swap_request};

use crate::call::Call;
use crate::driver::Driver;
use crate::fault::Fault;
use crate::port::Port;
use driver_calls::Request;
use nvme_model::operation::Op;
use nvme_model::slot_block;

// The block of a slot that nobody holds.
const ZEROS: [u8; 512] = [0; 512];

// A fused pair on one block.
pub(crate) fn swap(lba: u64) -> Request
    ensures { result ≡ swap_request lba }
{
    Request {
        op: Op::Pair,
        slba: lba,
        blocks: 1,
    }
}

impl<P: Port> Driver<P> {
    /// Draws no serial up to this one from now on. So a host whose number had a driver before, in a process that ended,
    /// has no name a second time: it gives a serial that none of its drivers came to, as the clock's.
    pub fn skip_serials(&mut self, last: u64)
        ensures settings { HasSettings self.old self.new }
        ensures port { self.new.port ≡ self.old.port }
        ensures cids { self.new.cids ≡ self.old.cids }
        ensures serial { self.new.serial ≡ max self.old.serial last }
    {
        if self.serial < last {
            self.serial = last;
        }
    }

    /// Begins to claim the slot at block `lba`: to swap zeros for the name of this driver's host and its next serial,
    /// which is given beside the call.
    ///
    /// # Errors
    ///
    /// The first that holds: `NoSerial` where the driver has drawn the last; `RingFull` where too few CIDs are free;
    /// `NoMemory`; then what the port answers. Nothing was published, and no serial is used up.
    pub fn start_claim(&mut self, lba: u64) -> Result<(Call<P>, u64), Fault>
        requires inside { has_block self.old.slots lba ≡ true }
        ensures settings { HasSettings self.old self.new }
        ensures later { P.follows self.old.port self.new.port }
        ensures is { IsClaimStart self.old self.new lba result }
        ensures law { (1 ≤ host_of self.old) × (host_of self.old < 4294967296)
            × IfOk result (λ r. r.1 < 18446744073709551616) }
    {
        if self.serial == u64::MAX {
            return Err(Fault::NoSerial);
        }
        let serial = self.serial + 1;
        let name = slot_block(self.host, serial);
        let call = self.start_pair(swap(lba), &ZEROS, &name)?;
        self.serial = serial;
        Ok((call, serial))
    }

    /// Begins to release the slot at block `lba`: to swap the name of this driver's host and this serial for zeros.
    /// That nobody but who holds a slot releases it is for the caller to see.
    ///
    /// # Errors
    ///
    /// The first that holds: `RingFull` where too few CIDs are free; `NoMemory`; then what the port answers. Nothing
    /// was published.
    pub fn start_release(&mut self, lba: u64, serial: u64) -> Result<Call<P>, Fault>
        requires inside { has_block self.old.slots lba ≡ true }
        ensures same { IsSameDriver self.old self.new }
        ensures later { P.follows self.old.port self.new.port }
        ensures is { IsReleaseStart self.old self.new lba serial result }
    {
        let name = slot_block(self.host, serial);
        self.start_pair(swap(lba), &name, &ZEROS)
    }
}
