//! A driver of a shared controller meets another, and listens for completions.

ghost use Rattle.std.specs.Prelude.{◌≡◌, IfErr, IfOk};
ghost use Rattle.nvme_model.specs.Legal.{IsLegal};
ghost use Rattle.nvme_model.specs.Passes.{entries};
ghost use Rattle.meet_lock.specs.Lock.{ExtendsByPasses};
ghost use Rattle.meet_lock.specs.Passes.{config_of, passes_of, seen};
ghost use Rattle.driver_cas.specs.Drivers.{IsCallOf};
ghost use Rattle.driver_cas.specs.Listening.{IsOfSameEngine, IsPassBeside, IsPlaceFor, Listens, SawMore};
ghost use Rattle.driver_cas.specs.Passes.{SawOn};
ghost use Rattle.driver_cas.specs.Ports.{view_of};
ghost use Rattle.driver_cas.specs.Starts.{IsUntouched};
ghost use Rattle.driver_cas.specs.declared.call.Call.{Call};
ghost use Rattle.driver_cas.specs.declared.shared_port.SharedPort.{SharedPort};

use crate::driver::Driver;
use crate::shared_port::SharedPort;
use meet_lock::{Busy, Pass};
use std::sync::Wait;
use step_core::Core;
use work_queue::{Notice, NoticeQueue, QueuePass};

impl<'a> Driver<SharedPort<'a>> {
    /// Both drivers' ports have seen the whole history so far, if no other caller has the controller. Takes no memory.
    ///
    /// # Errors
    ///
    /// `Busy` where another caller had the controller; nothing has changed.
    pub fn meet(&mut self, other: &mut Driver<SharedPort<'_>>) -> Result<(), Busy>
        requires { IsOfSameEngine self.old.port other.old.port }
        ensures first { IsUntouched self.old self.new }
        ensures second { IsUntouched other.old other.new }
        ensures saw { SawMore self.old.port self.new.port × SawMore other.old.port other.new.port }
        ensures counted { (self.new.port.counted ≡ self.old.port.counted)
            × (other.new.port.counted ≡ other.old.port.counted) }
        ensures calls { (k : Call SharedPort) → IsCallOf self.old k → IsCallOf self.new k }
        ensures others { (k : Call SharedPort) → IsCallOf other.old k → IsCallOf other.new k }
        ensures met { IfOk result (λ _. seen self.new.port.pass ≡ seen other.new.port.pass) }
        ensures goes_on { IfOk result (λ _.
            ExtendsByPasses (passes_of self.old.port.pass) (seen self.old.port.pass) (seen self.new.port.pass)
            × ExtendsByPasses (passes_of other.old.port.pass) (seen other.old.port.pass) (seen other.new.port.pass)) }
        ensures busy { IfErr result (λ _. (view_of self.new.port ≡ view_of self.old.port)
            × (view_of other.new.port ≡ view_of other.old.port)) }
    {
        self.port.meet(&mut other.port)
    }

    /// The driver's port and a plain pass of its engine, as a server's, have seen the whole history so far, if no other
    /// caller has the controller. Takes no memory.
    ///
    /// # Errors
    ///
    /// `Busy` where another caller had the controller; nothing has changed.
    pub fn meet_pass(&mut self, pass: &mut Pass<Core>) -> Result<(), Busy>
        requires own { IsPassBeside self.old.port pass.old }
        ensures untouched { IsUntouched self.old self.new }
        ensures saw { SawMore self.old.port self.new.port }
        ensures pass { SawOn pass.old pass.new }
        ensures legal { IsLegal (config_of pass.old) (entries (seen pass.old))
            → IsLegal (config_of pass.new) (entries (seen pass.new)) }
        ensures counted { self.new.port.counted ≡ self.old.port.counted }
        ensures calls { (k : Call SharedPort) → IsCallOf self.old k → IsCallOf self.new k }
        ensures met { IfOk result (λ _. seen self.new.port.pass ≡ seen pass.new) }
        ensures goes_on { IfOk result (λ _.
            ExtendsByPasses (passes_of self.old.port.pass) (seen self.old.port.pass) (seen self.new.port.pass)
            × ExtendsByPasses (passes_of pass.old) (seen pass.old) (seen pass.new)) }
        ensures busy { IfErr result
            (λ _. (view_of self.new.port ≡ view_of self.old.port) × (seen pass.new ≡ seen pass.old)) }
    {
        self.port.meet_pass(pass)
    }

    /// Takes at most one notice out of a queue of the port's engine; whether it took one. The port then has seen what
    /// the notice had, and a notice of its completion queue lets one more completion be reaped. It may spin beside
    /// other callers, and asks again while one has the controller.
    pub fn listen<R: Wait>(
        &mut self,
        rt: &R,
        notices: &NoticeQueue,
        pass: &mut QueuePass<Notice>,
    ) -> bool
        requires { IsPlaceFor self.old.port notices.now pass.old }
        ensures untouched { IsUntouched self.old self.new }
        ensures calls { (k : Call SharedPort) → IsCallOf self.old k → IsCallOf self.new k }
        ensures place { IsPlaceFor self.new.port notices.now pass.new }
        ensures listens { Listens self.old.port self.new.port pass.old pass.new result }
    {
        let Some(notice) = notices.pop(rt, pass) else {
            return false;
        };
        self.port.hear(rt, notice);
        true
    }
}
