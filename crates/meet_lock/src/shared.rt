//! A machine behind a lock: making it, giving out its passes, and closing it.

ghost use Rattle.std.specs.Prelude.{◌≡◌, ◌≤◌, ◌<◌, [], IfOk, IfErr, IfSome, IsSome, ℕ, ◌+◌};
ghost use Rattle.std.specs.Prelude.{Some, option_map, slice_get, vec_len, All};
ghost use Rattle.std.specs.Box.{box_value};
ghost use Rattle.std.specs.Vec.{vec_capacity};
ghost use Rattle.nvme_model.specs.Passes.{IsBeginning, SharedPast, entries, places};
ghost use Rattle.meet_lock.specs.Lock.{AreOfPasses};

mod attempt;
mod end;
mod forget;
mod glance;
mod lock;
mod meet;
mod notes;
mod tickets;

use crate::owner::{AnyPass, StepRight};
use crate::pass::Pass;
use crate::plays::{Give, Lock};
use crate::view::{Start, View};
use atomic_table::{Refused as TableRefused, Seat, Table};
use controller_interface::Machine;
use std::alloc::{AllocError as NoMemory, Global};
use std::snapshot::Snapshot;

// Without a box each attempt moves the whole machine twice.
pub(crate) type SeatPlace<M> = Seat<Option<Box<M>>, View>;

// The machine of a box, where there is one.
pub(crate) fn unboxed<M>(machine: Option<Box<M>>) -> Option<M>
    ensures { result ≡ option_map box_value machine }
{
    match machine {
        Some(machine) => Some(Box::into_inner(machine)),
        None => None,
    }
}

/// A machine that callers share. One word is its lock.
///
/// With `AnyPass` each pass may step each ticket, with `TicketOwner` a ticket is stepped only with the seat that owns
/// it.
#[derive(Drop)]
pub struct Shared<M: Machine, K: StepRight = AnyPass> {
    pub(crate) table: Table<Option<Box<M>>, View, Start<M>, Lock<M, K>, Global>,
    ghost sized: { (table.shared.table_id.words ≡ 1) × (table.shared.table_id.slots ≡ 1) },
}

impl<M: Machine, K: StepRight> Shared<M, K> {
    ghost use Rattle.meet_lock.specs.Passes.{AreNewPasses, IsFirstView, IsNew, IsPassOfLock, config_of, mine, number};
    ghost use Rattle.meet_lock.specs.Passes.{opening_of};
    ghost use Rattle.meet_lock.specs.Passes.{passes_of, seen};
    ghost use Rattle.meet_lock.specs.declared.pass.Pass.{Pass};

    /// The machine with a lock round it, and as many passes as asked for, numbered from 1 in order: each has seen the
    /// machine's history, and made none of it.
    ///
    /// # Errors
    ///
    /// The machine, where a growth is refused.
    pub fn new(
        alloc: Global,
        machine: M,
        passes: usize,
    ) -> Result<(Shared<M, K>, Vec<Pass<M>>), (M, NoMemory)>
        requires some { 0 < passes }
        requires legal { M.legal (M.config machine) (M.history machine) }
        ensures count { IfOk result (λ s. vec_len s.1 ≡ passes) }
        ensures own { IfOk result (λ s. All (IsPassOfLock s.0) s.1.items) }
        ensures each { IfOk result (λ s. (k : ℕ) (p : Pass M) → slice_get s.1.items k ≡ Some p
            → IsPassOfLock s.0 p × IsNew passes (M.config machine) (M.history machine) (k + 1) p) }
        ensures knows { IfOk result (λ s. (k : ℕ) (p : Pass M) → slice_get s.1.items k ≡ Some p
            → M.legal (config_of p) (entries (seen p))) }
        ensures opening { IfOk result (λ s. opening_of M.history s.0 ≡ M.history machine) }
        ensures err { IfErr result (λ e. e.0 ≡ machine) }
    {
        let Ok(mut given) = Vec::with_capacity(alloc, passes) else {
            return Err((machine, NoMemory));
        };
        let Ok(mut slots) = Vec::with_capacity(alloc, 1) else {
            return Err((machine, NoMemory));
        };
        let key = Start {
            passes: passes as u64,
            machine: Snapshot::of(&machine),
        };
        let machine = match Box::new(alloc, machine) {
            Ok(machine) => machine,
            Err(refused) => return Err((refused.value, NoMemory)),
        };
        slots.push_reserved(Some(machine));
        match Table::new(alloc, &[0], slots, &key) {
            Ok((table, seat)) => {
                let shared = Shared { table };
                shared.deal(seat, passes, &mut given);
                Ok((shared, given))
            }
            Err(TableRefused { mut slots }) => {
                let machine = slots.pop().unwrap().unwrap();
                Err((Box::into_inner(machine), NoMemory))
            }
        }
    }

    // Gives out the numbers in order. The first seat has the last one.
    fn deal(&self, mut first: SeatPlace<M>, passes: usize, given: &mut Vec<Pass<M>>)
        requires own { (first.table_id ≡ self.now.table.shared.table_id) × (first.id ≡ 0) × (first.me.1 ≡ []) }
        requires fresh { (0 < passes) × IsFirstView passes first.me.0 }
        requires room { (given.old.items ≡ []) × (passes ≤ vec_capacity given.old) }
        ensures count { vec_len given.new ≡ passes }
        ensures own { All (λ p. p.seat.table_id ≡ first.table_id) given.new.items }
        ensures new { AreNewPasses first.table_id first.me.0 given.new.items }
    {
        for _k in 1..passes {
            given.push_reserved(Pass::of(self.table.shared.split_seat::<Give>(&mut first)));
        }
        given.push_reserved(Pass::of(first));
    }

    /// The machine, where no pass had the lock.
    pub fn close(self, pass: Pass<M>) -> Option<M>
        requires { IsPassOfLock self pass }
        ensures config { IfSome result (λ m. M.config m ≡ config_of pass) }
        ensures legal { IfSome result (λ m. M.legal (M.config m) (M.history m)) }
        ensures begins { IfSome result (λ m. (whole : SharedPast) × (M.history m ≡ entries whole)
            × (b : IsBeginning (seen pass) whole) × AreOfPasses (passes_of pass) b.0
            × (places (number pass) whole ≡ mine pass)) }
        ensures alone { passes_of pass ≡ 1 → IsSome result }
        ensures whole { passes_of pass ≡ 1 → IfSome result (λ m. M.history m ≡ entries (seen pass)) }
    {
        let Shared { table } = self;
        let Pass { seat } = pass;
        let mut closed = table.close_with(seat);
        let word = closed.word(0);
        let slot = closed.take(0);
        closed.free();
        if word == 0 { unboxed(slot) } else { None }
    }
}
