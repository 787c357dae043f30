//! What is done at a driver's port beside its calls.

ghost use Rattle.std.specs.Prelude.{◌≡◌};
ghost use Rattle.driver_cas.specs.Drivers.{IsCallOf};
ghost use Rattle.driver_cas.specs.Starts.{IsUntouched};
ghost use Rattle.driver_cas.specs.declared.call.Call.{Call};

use crate::driver::Driver;
use crate::port::Port;

/// What is done at a port, which publishes and reaps nothing by it: what was published is carried away, or a completion
/// is brought.
pub trait Attendance<P: Port> {
    /// What is told of it.
    type Told;

    /// What is told of a port as it was and as it is then.
    ghost tells: { Self → P → P → Self.Told → Type 0 };

    /// Does it.
    fn attend(self, port: &mut P) -> Self::Told
        ensures later { P.follows port.old port.new }
        ensures log { P.log port.new ≡ P.log port.old }
        ensures told { tells self port.old port.new result };
}

impl<P: Port> Driver<P> {
    /// Does this at the driver's port. The driver publishes and reaps nothing by it, and its calls stay its calls.
    pub fn attend<A: Attendance<P>>(&mut self, attendance: A) -> A::Told
        ensures untouched { IsUntouched self.old self.new }
        ensures calls { (k : Call P) → IsCallOf self.old k → IsCallOf self.new k }
        ensures told { A.tells attendance self.old.port self.new.port result }
    {
        attendance.attend(&mut self.port)
    }
}
