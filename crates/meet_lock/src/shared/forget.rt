//! The machine forgets the oldest entries of its history.

ghost use Rattle.std.specs.Prelude.{◌≡◌, IsOk, OnErr, OnOk, length, max, min};
ghost use Rattle.meet_lock.specs.Lock.{boxed};

use crate::owner::StepRight;
use crate::pass::{Busy, Pass};
use crate::shared::Shared;
use controller_interface::Machine;

// Lets the machine in the box forget.
fn forgets<M: Machine>(machine: &mut Box<M>, place: usize)
    ensures config { boxed M.config machine.new ≡ boxed M.config machine.old }
    ensures history { boxed M.history machine.new ≡ boxed M.history machine.old }
    ensures forgotten { boxed M.forgotten machine.new
        ≡ max (boxed M.forgotten machine.old) (min place (length (boxed M.history machine.old))) }
{
    machine.forget(place);
}

impl<M: Machine, K: StepRight> Shared<M, K> {
    ghost use Rattle.meet_lock.specs.Passes.{Forgot, IsPassOfLock, IsSame, Knows, mine, passes_of, seen};

    /// The machine forgets the entries of its history before this place, from 0, the oldest first, if no other caller
    /// has the lock. What passes have seen stays, and this one sees the whole history so far, with what is forgotten.
    /// Takes no memory.
    ///
    /// # Errors
    ///
    /// `Busy` where another caller had the lock; nothing has changed.
    pub fn forget(&self, pass: &mut Pass<M>, place: usize) -> Result<(), Busy>
        requires { IsPassOfLock self.now pass.old }
        ensures same { IsSame pass.old pass.new × (mine pass.new ≡ mine pass.old) }
        ensures knows { Knows M.legal pass.old pass.new }
        ensures forgot { OnOk result (Forgot M.config M.history M.forgotten place pass.new) }
        ensures busy { OnErr result (seen pass.new ≡ seen pass.old) }
        ensures alone { passes_of pass.old ≡ 1 → IsOk result }
    {
        let Some(mut machine) = self.take(&mut pass.seat) else {
            return Err(Busy);
        };
        forgets(&mut machine, place);
        self.give_same(&mut pass.seat, machine);
        Ok(())
    }
}
