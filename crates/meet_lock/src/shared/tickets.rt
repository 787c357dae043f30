//! Steps where each ticket has an owner, the seat that its message carries.

ghost use Rattle.std.specs.Prelude.{◌≡◌, ◌<◌, IfErr, IfOk, true};
ghost use Rattle.nvme_model.specs.Passes.{entries};
ghost use Rattle.ticket_laws.specs.Entries.{named_ticket, names_queue, of_ticket};

use crate::owner::TicketOwner;
use crate::pass::{Declined, Pass, Unmade};
use crate::seats::TicketSeat;
use crate::shared::Shared;
use controller_interface::{Answer, Machine, Step, StepCall};

impl<M: Machine> Shared<M, TicketOwner> {
    ghost use Rattle.meet_lock.specs.Passes.{Declines, IsBack, IsCallMade, IsNotBusy, IsPassOfLock, IsSame, IsTicketOf};
    ghost use Rattle.meet_lock.specs.Passes.{Knows, OpensTicket, declined_by};
    ghost use Rattle.meet_lock.specs.Passes.{Saw, Worked};
    ghost use Rattle.meet_lock.specs.Passes.{its, owned_ticket, passes_of, seen};

    /// Makes a step that names a queue. Its seat owns the ticket that the step made, if it made one.
    ///
    /// # Errors
    ///
    /// As `attempt`, but that the call comes back, or its own refusal.
    pub fn attempt_open<C: StepCall<M>>(
        &self,
        pass: &mut Pass<M>,
        call: C,
    ) -> Result<(C::Told, TicketSeat<M>), Unmade<C, C::Refusal>>
        requires own { IsPassOfLock self.now pass.old }
        requires open { names_queue (C.asks call) ≡ true }
        ensures same { IsSame pass.old pass.new }
        ensures knows { Knows M.legal pass.old pass.new }
        ensures accepted { IfOk result
            (λ r. OpensTicket M.accepts self.now pass.old pass.new (C.asks call) (C.answers r.0) r.1) }
        ensures declined { IfErr result
            (λ u. Declines M.refuses pass.old pass.new (C.asks call) (declined_by C.asks C.refuses u)) }
        ensures back { IfErr result (IsBack call) }
        ensures alone { passes_of pass.old ≡ 1 → IsCallMade result }
    {
        let Some(machine) = self.take(&mut pass.seat) else {
            return Err(Unmade::Busy(call));
        };
        match self.step_out(&mut pass.seat, machine, call) {
            Ok(told) => {
                let seat = self.unload(&mut pass.seat);
                Ok((told, TicketSeat { seat }))
            }
            Err(refusal) => Err(Unmade::Refused(refusal)),
        }
    }

    /// Makes a step of the seat's ticket.
    ///
    /// # Errors
    ///
    /// As `attempt`.
    pub fn attempt_work(
        &self,
        pass: &mut Pass<M>,
        owner: &mut TicketSeat<M>,
        step: Step,
    ) -> Result<Answer, Declined>
        requires own { IsPassOfLock self.now pass.old × IsTicketOf self.now owner.old }
        requires task { (0 < owned_ticket owner.old) × (named_ticket step ≡ owned_ticket owner.old) }
        ensures same { IsSame pass.old pass.new × IsTicketOf self.now owner.new
            × (owned_ticket owner.new ≡ owned_ticket owner.old) }
        ensures knows { Knows M.legal pass.old pass.new }
        ensures accepted { IfOk result (Worked M.accepts pass.old pass.new owner.old owner.new step) }
        ensures declined { IfErr result (λ d. Declines M.refuses pass.old pass.new step d
            × (its owner.new ≡ its owner.old)) }
        ensures whole { IsNotBusy result
            → of_ticket (owned_ticket owner.new) (entries (seen pass.new)) ≡ its owner.new }
        ensures saw { Saw pass.new owner.old owner.new result }
        ensures alone { passes_of pass.old ≡ 1 → IsNotBusy result }
    {
        let Some(machine) = self.take(&mut pass.seat) else {
            return Err(Declined::Busy(step));
        };
        let seat = self.unload(&mut owner.seat);
        self.load(&mut pass.seat, seat);
        let stepped = self.step_out(&mut pass.seat, machine, step);
        owner.seat = self.unload(&mut pass.seat);
        match stepped {
            Ok(answer) => Ok(answer),
            Err(refusal) => Err(Declined::Refused(refusal)),
        }
    }
}
