//! A look at the machine behind the lock.

ghost use Rattle.std.specs.Prelude.{◌≡◌, IfErr, IfOk, OnErr};
ghost use Rattle.std.specs.Box.{box_value};

use crate::glance::Glance;
use crate::owner::StepRight;
use crate::pass::{Busy, Pass};
use crate::shared::Shared;
use controller_interface::Machine;

// What is told of the machine in the box.
fn looked_at<M: Machine, G: Glance<M>>(machine: &Box<M>, glance: G) -> G::Told
    ensures { G.tells glance (box_value machine.now) result }
{
    glance.look(machine)
}

impl<M: Machine, K: StepRight> Shared<M, K> {
    ghost use Rattle.meet_lock.specs.Passes.{Glanced, IsPassOfLock, IsSame, Knows, mine, passes_of, seen};

    /// Looks at the machine, if no other caller has the lock: the pass sees the whole history so far, and what is told
    /// is of a machine with that history. It takes no memory but what the look takes.
    ///
    /// # Errors
    ///
    /// `Busy` where another caller had the lock; nothing has changed.
    pub fn glance<G: Glance<M>>(&self, pass: &mut Pass<M>, glance: G) -> Result<G::Told, Busy>
        requires { IsPassOfLock self.now pass.old }
        ensures same { IsSame pass.old pass.new × (mine pass.new ≡ mine pass.old) }
        ensures knows { Knows M.legal pass.old pass.new }
        ensures told { IfOk result (Glanced M.config M.history (G.tells glance) pass.new) }
        ensures busy { IfErr result (λ _. seen pass.new ≡ seen pass.old) }
        ensures alone { passes_of pass.old ≡ 1 → OnErr result ⊥ }
    {
        let Some(machine) = self.take(&mut pass.seat) else {
            return Err(Busy);
        };
        let told = looked_at(&machine, glance);
        self.give_same(&mut pass.seat, machine);
        Ok(told)
    }
}
