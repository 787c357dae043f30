//! What a driver tells of itself.

ghost use Rattle.std.specs.Prelude.{◌≡◌};
ghost use Rattle.driver_cas.specs.Drivers.{area_of, host_of, made};
ghost use Rattle.driver_cas.specs.Dropped.{drop_count};

use crate::driver::Driver;
use crate::port::Port;
use nvme_model::array::Range;

impl<P: Port> Driver<P> {
    /// How many of the completions that its port reaped no command waited for: it has no CID of theirs, it comes twice,
    /// or it has a reserved bit.
    pub fn dropped(&self) -> u64
        ensures { result ≡ drop_count (made self.now) }
    {
        self.dropped
    }

    /// The number of its host.
    pub fn host(&self) -> u32
        ensures { result ≡ host_of self.now }
    {
        self.host
    }

    /// Its slot area.
    pub fn area(&self) -> Range
        ensures { result ≡ area_of self.now }
    {
        self.slots
    }

    /// The port, to be looked at.
    pub fn port(&self) -> &P
        ensures { result.now ≡ self.now.port }
    {
        &self.port
    }
}
