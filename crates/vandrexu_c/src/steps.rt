//! The steps of a controller.

ghost use Rattle.std.specs.Prelude.{◌≡◌, None, Some};
ghost use Rattle.c_handles.specs.Owned.{Keeps};
ghost use Rattle.nvme_model.specs.Steps.{ready};
ghost use Rattle.nvme_model.specs.declared.step.Step.{Step as TheStep};
ghost use Rattle.vandrexu_c.specs.OwnedStates.{OwnedState};
ghost use Rattle.vandrexu_c.specs.Steps.{TellsBlocked, TellsFetched, TellsGranted, TellsPosted, TellsReady};
ghost use Rattle.vandrexu_c.specs.Steps.{TellsReap, TellsStep};

use crate::answers::{BlockedStep, FetchedWork, GrantedUnit, NextStep, step_in};
use crate::held::Handle;
use crate::lending::lend;
use c_handles::numbers::NOTHING_READY;
use std::alloc::Global;

// 0, and what is told lies in the caller's memory; or the number of the refusal.
macro_rules! tell {
    ($done:ident, $out:ident) => {
        match $done {
            Ok(told) => {
                *$out = told;
                0
            }
            Err(number) => number,
        }
    };
}

/// Fetches the next command, or fused pair, of a submission queue, as a ticket: 0, and what that has to do; or the
/// number of the refusal; or 101 where the handle owns nothing. `work` is written at 0 alone.
#[unsafe(no_mangle)]
#[tactic(auto, using(crate::proofs::Marks::told_ok, crate::proofs::Marks::told_err))]
pub extern "C" fn vandrexu_controller_fetch(
    alloc: Global,
    controller: &mut Handle,
    queue: u16,
    work: &mut FetchedWork,
) -> u32
    ensures no_handle { controller.old.held.core ≡ None → (result ≡ 101) × (controller.new.held.core ≡ None) }
    ensures serves { (m : OwnedState) → controller.old.held.core ≡ Some m →
        Keeps controller.new.held.core (TellsStep m (TheStep.Fetch queue) (TellsFetched work.new) result) }
    ensures kept { (result ≡ 0 → ⊥) → work.new ≡ work.old }
{
    let done = lend!(alloc, controller, mut owned => owned.as_mut().fetch(queue));
    tell!(done, work)
}

/// Begins the next unit of a ticket: 0, and its blocks; or the number of the refusal; or 101 where the handle owns
/// nothing. `granted` is written at 0 alone.
#[unsafe(no_mangle)]
#[tactic(auto, using(crate::proofs::Marks::told_ok, crate::proofs::Marks::told_err))]
pub extern "C" fn vandrexu_controller_grant(
    alloc: Global,
    controller: &mut Handle,
    ticket: u64,
    granted: &mut GrantedUnit,
) -> u32
    ensures no_handle { controller.old.held.core ≡ None → (result ≡ 101) × (controller.new.held.core ≡ None) }
    ensures serves { (m : OwnedState) → controller.old.held.core ≡ Some m →
        Keeps controller.new.held.core (TellsStep m (TheStep.Grant ticket) (TellsGranted granted.new) result) }
    ensures kept { (result ≡ 0 → ⊥) → granted.new ≡ granted.old }
{
    let done = lend!(alloc, controller, mut owned => owned.as_mut().grant(ticket));
    tell!(done, granted)
}

/// Makes the next block of a ticket's open unit: 0, and what it found and did; or the number of the refusal; or 101
/// where the handle owns nothing. `blocked` is written at 0 alone.
#[unsafe(no_mangle)]
#[tactic(auto, using(crate::proofs::Marks::told_ok, crate::proofs::Marks::told_err))]
pub extern "C" fn vandrexu_controller_block(
    alloc: Global,
    controller: &mut Handle,
    ticket: u64,
    blocked: &mut BlockedStep,
) -> u32
    ensures no_handle { controller.old.held.core ≡ None → (result ≡ 101) × (controller.new.held.core ≡ None) }
    ensures serves { (m : OwnedState) → controller.old.held.core ≡ Some m →
        Keeps controller.new.held.core (TellsStep m (TheStep.Block ticket) (TellsBlocked blocked.new) result) }
    ensures kept { (result ≡ 0 → ⊥) → blocked.new ≡ blocked.old }
{
    let done = lend!(alloc, controller, mut owned => owned.as_mut().block(ticket));
    tell!(done, blocked)
}

/// Posts the next completion of a ticket: 0, and its 16 bytes; or the number of the refusal; or 101 where the handle
/// owns nothing. `cqe` is written at 0 alone.
#[unsafe(no_mangle)]
#[tactic(auto, using(crate::proofs::Marks::told_ok, crate::proofs::Marks::told_err))]
pub extern "C" fn vandrexu_controller_post(
    alloc: Global,
    controller: &mut Handle,
    ticket: u64,
    cqe: &mut [u8; 16],
) -> u32
    ensures no_handle { controller.old.held.core ≡ None → (result ≡ 101) × (controller.new.held.core ≡ None) }
    ensures serves { (m : OwnedState) → controller.old.held.core ≡ Some m →
        Keeps controller.new.held.core (TellsStep m (TheStep.Post ticket) (TellsPosted cqe.new) result) }
    ensures kept { (result ≡ 0 → ⊥) → cqe.new ≡ cqe.old }
{
    let done = lend!(alloc, controller, mut owned => owned.as_mut().post(ticket));
    tell!(done, cqe)
}

/// Takes the next completion of a completion queue: 0, its 16 bytes, and how many bytes a successful Read read, which
/// the controller keeps until the next Reap; or the number of the refusal; or 101 where the handle owns nothing. `cqe`
/// and `count` are written at 0 alone.
#[unsafe(no_mangle)]
#[tactic(auto, using(crate::proofs::Marks::told_ok, crate::proofs::Marks::told_err))]
pub extern "C" fn vandrexu_controller_reap(
    alloc: Global,
    controller: &mut Handle,
    queue: u16,
    cqe: &mut [u8; 16],
    count: &mut usize,
) -> u32
    ensures no_handle { controller.old.held.core ≡ None → (result ≡ 101) × (controller.new.held.core ≡ None) }
    ensures serves { (m : OwnedState) → controller.old.held.core ≡ Some m →
        Keeps controller.new.held.core (TellsReap m (TheStep.Reap queue) cqe.new count.new result) }
    ensures kept { (result ≡ 0 → ⊥) → (cqe.new ≡ cqe.old) × (count.new ≡ count.old) }
{
    let (done, length) =
        lend!(alloc, controller, mut owned => (owned.as_mut().reap(queue), owned.as_ref().payload.len()));
    match done {
        Ok(taken) => {
            *cqe = taken;
            *count = length;
            0
        }
        Err(number) => number,
    }
}

/// The Grant, Block or Post of the least ticket that can go on by itself: 0; or 105 where none can; or 101 where the
/// handle owns nothing. `step` is written at 0 alone.
#[unsafe(no_mangle)]
pub extern "C" fn vandrexu_controller_ready(
    alloc: Global,
    controller: &mut Handle,
    step: &mut NextStep,
) -> u32
    ensures no_handle { controller.old.held.core ≡ None → result ≡ 101 }
    ensures same { controller.new.held.core ≡ controller.old.held.core }
    ensures tells { (m : OwnedState) → controller.old.held.core ≡ Some m →
        TellsReady (ready m.core.config m.core.past) result step.new }
    ensures kept { (result ≡ 0 → ⊥) → step.new ≡ step.old }
{
    let found = lend!(alloc, controller, owned => owned.as_ref().core.ready());
    let Some(next) = found else {
        return NOTHING_READY;
    };
    match step_in(&next) {
        Some(told) => {
            *step = told;
            0
        }
        // What is ready is a step of a ticket.
        None => unreachable!(),
    }
}
