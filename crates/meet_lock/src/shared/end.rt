//! Closing with all passes.

ghost use Rattle.std.specs.Prelude.{◌≡◌, ◌+◌, ◌<◌, IfSome, IsSome, Some, ℕ, slice_get, vec_len};
ghost use Rattle.meet_lock.specs.Lock.{gathering};
ghost use Rattle.meet_lock.specs.SeatSteps.{IsIdle, IsSameSeat};

use crate::owner::StepRight;
use crate::pass::Pass;
use crate::plays::Gather;
use crate::shared::{SeatPlace, Shared, unboxed};
use controller_interface::Machine;

impl<M: Machine, K: StepRight> Shared<M, K> {
    ghost use Rattle.meet_lock.specs.Passes.{IsPassOfLock, IsSeenWhole, config_of, number, passes_of};
    ghost use Rattle.meet_lock.specs.declared.pass.Pass.{Pass};

    // The pass is joined to the seat, so that nobody steps by its number any more.
    fn gather(&self, seat: &mut SeatPlace<M>, pass: Pass<M>)
        requires own { (seat.old.table_id ≡ self.now.table.shared.table_id) × IsPassOfLock self.now pass }
        requires idle { IsIdle seat.old.me }
        requires later { number pass < passes_of pass }
        ensures { IsSameSeat seat.old seat.new
            × (seat.new.me ≡ (gathering seat.old.me.0 pass.seat.me.0, seat.old.me.1)) }
    {
        let Pass { seat: other } = pass;
        self.table.shared.join_seat::<Gather>(seat, other);
    }

    /// The machine, closed with all its passes, in the order in which `new` gave them: its history is what one of them
    /// has seen. With each pass there, nobody has the lock.
    ///
    /// None where no pass is given.
    pub fn close_all(self, passes: Vec<Pass<M>>) -> Option<M>
        requires all { (k : ℕ) (p : Pass M) → slice_get passes.items k ≡ Some p
            → IsPassOfLock self p × (number p ≡ k + 1) × (passes_of p ≡ vec_len passes) }
        ensures config { IfSome result (λ m. (k : ℕ) (p : Pass M) → slice_get passes.items k ≡ Some p
            → M.config m ≡ config_of p) }
        ensures legal { IfSome result (λ m. M.legal (M.config m) (M.history m)) }
        ensures whole { IfSome result (λ m. IsSeenWhole passes.items (M.history m)) }
        ensures some { 0 < vec_len passes → IsSome result }
    {
        let mut rest = passes;
        let Some(last) = rest.pop() else {
            return None;
        };
        let Pass { mut seat } = last;

        // The last pass takes the others in before it takes the lock: a joined number is that of no
        // seat, so the holder isn't one of them, and no step of it can come any more.
        while let Some(pass) = rest.pop() {
            self.gather(&mut seat, pass);
        }
        unboxed(self.take(&mut seat))
    }
}
