//! A slot host over a port to a shared controller: what it sees of others.

ghost use Rattle.std.specs.Prelude.{◌≡◌, IfErr, IfOk};
ghost use Rattle.meet_lock.specs.Lock.{ExtendsByPasses};
ghost use Rattle.meet_lock.specs.Passes.{passes_of, seen};
ghost use Rattle.driver_cas.specs.Listening.{IsPassBeside, SawMore};
ghost use Rattle.driver_cas.specs.Passes.{SawOn};
ghost use Rattle.driver_cas.specs.Starts.{IsUntouched};
ghost use Rattle.slot_host.specs.SlotHosts.{IsKept, slot_state};

use crate::slot_host::SlotHost;
use driver_cas::SharedPort;
use driver_cas::laws::a_later_port_is_later;
use meet_lock::{Busy, Pass};
use slot_takeover::laws::an_untouched_driver_keeps_its_takeovers;
use std::snapshot::Snapshot;
use step_core::Core;

impl<'a> SlotHost<SharedPort<'a>> {
    /// The host's port and a plain pass of its engine, as a server's, have seen the whole history so far, if no other
    /// caller has the controller. What the host has and its call stay as they are. Takes no memory.
    ///
    /// # Errors
    ///
    /// `Busy` where another caller had the controller; nothing was seen.
    pub fn meet_pass(&mut self, pass: &mut Pass<Core>) -> Result<(), Busy>
        requires kept { IsKept self.old }
        requires own { IsPassBeside (slot_state self.old).driver.port pass.old }
        ensures kept { IsKept self.new }
        ensures untouched { IsUntouched (slot_state self.old).driver (slot_state self.new).driver }
        ensures rest { slot_state self.new ≡ record (slot_state self.old) { driver = (slot_state self.new).driver } }
        ensures saw { SawMore (slot_state self.old).driver.port (slot_state self.new).driver.port }
        ensures pass { SawOn pass.old pass.new }
        ensures met { IfOk result (λ _. seen (slot_state self.new).driver.port.pass ≡ seen pass.new) }
        ensures goes_on { IfOk result (λ _. ExtendsByPasses (passes_of pass.old) (seen pass.old) (seen pass.new)) }
        ensures busy { IfErr result (λ _. seen pass.new ≡ seen pass.old) }
    {
        let before = Snapshot::of(&self.driver);
        let met = self.driver.meet_pass(pass);
        a_later_port_is_later(&self.driver);
        an_untouched_driver_keeps_its_takeovers(&before, &self.driver);
        met
    }
}
