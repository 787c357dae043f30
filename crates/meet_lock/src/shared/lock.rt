//! The steps on the lock word, and those that take the machine out of its slot and put it back.

ghost use Rattle.std.specs.Prelude.{◌≡◌, [], ◌∷◌, IfErr, IfOk, MatchOption};
ghost use Rattle.nvme_model.specs.Passes.{entries};
ghost use Rattle.nvme_model.specs.declared.entry.Entry.{Entry};
ghost use Rattle.controller_interface.specs.declared.answer.Answer.{Answer};
ghost use Rattle.meet_lock.specs.Lock.{boxed, grown, view_given_back};
ghost use Rattle.meet_lock.specs.MachineSteps.{Made, MadeNone};
ghost use Rattle.meet_lock.specs.SeatSteps.{IsIdle, IsSameSeat, KnowsTicket, MayTell, Missed};
ghost use Rattle.meet_lock.specs.SeatSteps.{Out, OutMore, OutSame, SawAll};

use crate::owner::StepRight;
use crate::plays::{Leave, Take, Write};
use crate::shared::{SeatPlace, Shared};
use controller_interface::{Machine, StepCall};

// Makes the step of the machine in the box.
fn stepped<M: Machine, C: StepCall<M>>(machine: &mut Box<M>, call: C) -> Result<C::Told, C::Refusal>
    ensures config { boxed M.config machine.new ≡ boxed M.config machine.old }
    ensures accepted { IfOk result (λ t. (e : Entry) × (boxed M.history machine.new ≡ e ∷ boxed M.history machine.old)
        × M.accepts (boxed M.config machine.old) (boxed M.history machine.old) (C.asks call) e (C.answers t)) }
    ensures refused { IfErr result (λ r. (boxed M.history machine.new ≡ boxed M.history machine.old)
        × M.refuses (boxed M.config machine.old) (boxed M.history machine.old) (C.asks call) (C.refuses r)) }
{
    call.make(machine)
}

impl<M: Machine, K: StepRight> Shared<M, K> {
    // Takes the lock, and the machine out of its slot.
    pub(crate) fn take(&self, seat: &mut SeatPlace<M>) -> Option<Box<M>>
        requires own { seat.old.table_id ≡ self.now.table.shared.table_id }
        requires idle { IsIdle seat.old.me }
        ensures same { IsSameSeat seat.old seat.new }
        ensures taken { MatchOption result (Missed (boxed M.config) (boxed M.history) M.legal seat.old.me seat.new.me)
            (λ machine. Out (boxed M.config) (boxed M.history) M.legal seat.old.me.0 machine seat.new.me) }
    {
        let shared = &self.table.shared;
        if shared.compare_exchange::<Take<M>>(seat, 0, 0, 1) != 0 {
            return None;
        }
        shared.exchange(seat, 0, None)
    }

    // Makes the step of the machine that the seat took out, and gives it back.
    pub(crate) fn step_out<C: StepCall<M>>(
        &self,
        seat: &mut SeatPlace<M>,
        mut machine: Box<M>,
        call: C,
    ) -> Result<C::Told, C::Refusal>
        requires own { seat.old.table_id ≡ self.now.table.shared.table_id }
        requires out { OutSame (boxed M.config) (boxed M.history) M.legal machine seat.old.me }
        requires may { (e : Entry) (a : Answer)
            → M.accepts seat.old.me.0.config (entries seat.old.me.0.held) (C.asks call) e a
            → MayTell K.owned seat.old.me.0 (entries seat.old.me.0.held) e }
        ensures same { IsSameSeat seat.old seat.new }
        ensures made { IfOk result
            (λ t. Made M.legal M.accepts K.owned (C.asks call) seat.old.me seat.new.me (C.answers t)) }
        ensures refused { IfErr result
            (λ r. MadeNone M.refuses (C.asks call) seat.old.me seat.new.me (C.refuses r)) }
        ensures told { SawAll seat.old.me.0 }
        ensures whole { KnowsTicket seat.new.me.0 }
    {
        match stepped(&mut machine, call) {
            Ok(told) => {
                self.give_more(seat, machine);
                Ok(told)
            }
            Err(refusal) => {
                self.give_same(seat, machine);
                Err(refusal)
            }
        }
    }

    // Puts the machine, which has one entry more, back into its slot, and gives the lock back.
    pub(crate) fn give_more(&self, seat: &mut SeatPlace<M>, machine: Box<M>)
        requires own { seat.old.table_id ≡ self.now.table.shared.table_id }
        requires out { OutMore (boxed M.config) (boxed M.history) M.legal K.owned machine seat.old.me }
        ensures same { IsSameSeat seat.old seat.new }
        ensures more { (e : Entry) → boxed M.history machine ≡ e ∷ entries seat.old.me.0.held
            → seat.new.me ≡ (grown K.owned seat.old.me.0 e, []) }
        ensures told { SawAll seat.old.me.0 }
        ensures whole { KnowsTicket seat.new.me.0 }
    {
        let shared = &self.table.shared;
        drop(shared.exchange(seat, 0, Some(machine)));
        shared.store::<Write<M, K>>(seat, 0, 0);
    }

    // The same, where the history is as it was.
    pub(crate) fn give_same(&self, seat: &mut SeatPlace<M>, machine: Box<M>)
        requires own { seat.old.table_id ≡ self.now.table.shared.table_id }
        requires out { OutSame (boxed M.config) (boxed M.history) M.legal machine seat.old.me }
        ensures same { IsSameSeat seat.old seat.new }
        ensures shown { seat.new.me ≡ (view_given_back seat.old.me.0, []) }
        ensures told { SawAll seat.old.me.0 }
        ensures whole { KnowsTicket seat.new.me.0 }
    {
        let shared = &self.table.shared;
        drop(shared.exchange(seat, 0, Some(machine)));
        shared.store::<Leave<M>>(seat, 0, 0);
    }
}
