//! A step of any caller.

ghost use Rattle.std.specs.Prelude.{◌≡◌, IfErr, IfOk};

use crate::owner::AnyPass;
use crate::pass::{Declined, Pass};
use crate::shared::Shared;
use controller_interface::{Answer, Machine, Step};

impl<M: Machine> Shared<M, AnyPass> {
    ghost use Rattle.meet_lock.specs.Passes.{Accepted, Declines, IsNotBusy, IsPassOfLock, IsSame, Knows, passes_of};

    /// Makes one step, if no other caller has the lock. It takes no memory but what the machine's step takes.
    ///
    /// # Errors
    ///
    /// `Busy` with the step, where another caller had the lock; nothing has changed. `Refused` where the machine
    /// refused the step.
    pub fn attempt(&self, pass: &mut Pass<M>, step: Step) -> Result<Answer, Declined>
        requires { IsPassOfLock self.now pass.old }
        ensures same { IsSame pass.old pass.new }
        ensures knows { Knows M.legal pass.old pass.new }
        ensures accepted { IfOk result (Accepted M.accepts pass.old pass.new step) }
        ensures declined { IfErr result (Declines M.refuses pass.old pass.new step) }
        ensures alone { passes_of pass.old ≡ 1 → IsNotBusy result }
    {
        let Some(machine) = self.take(&mut pass.seat) else {
            return Err(Declined::Busy(step));
        };
        match self.step_out(&mut pass.seat, machine, step) {
            Ok(answer) => Ok(answer),
            Err(refusal) => Err(Declined::Refused(refusal)),
        }
    }
}
