//! Two hosts that claim and release slots, and ask again after want of memory.

ghost use Rattle.std.specs.Prelude.{◌≡◌, ◌<◌, ◌≤◌, IfSome};
ghost use Rattle.history.specs.Config.{config_numbers};
ghost use Rattle.shared_system.specs.Plain.{ArePlainCallers, IsPlainCallerOf};
ghost use Rattle.driver_testing.specs.Claimants.{IsClaimant};
ghost use Rattle.slot_alloc.specs.Areas.{area};

use crate::calls::serves;
use crate::runs::TURNS;
use driver_cas::Fault;
use driver_testing::{Came, Claimant, asks, claimant_of, gives_back, is_served, polls_begun};
use shared_system::{PlainCaller, PlainCallers, PlainSystem, take_caller};
use slot_alloc::Slots;
use std::alloc::Global;
use std::sync::Wait;

/// How many slots there are, from block 0 on.
pub(crate) const COUNT: u32 = 2;

/// How often a host is asked for.
const HOSTS: u32 = 3;

/// What a host wants.
#[derive(Clone, Copy)]
enum Wish {
    /// Slot 0.
    First,
    Any,
    /// To give back the slot that it holds.
    Release,
}

/// Which host asks for what, and what comes of it.
const TURN: [(u16, Wish, Came); 6] = [
    (1, Wish::First, Came::Held(0)),
    (2, Wish::First, Came::Taken),
    (2, Wish::Any, Came::Held(1)),
    (1, Wish::Release, Came::Released),
    (1, Wish::Any, Came::Held(0)),
    (2, Wish::Release, Came::Released),
];

// The host of this number.
fn claimant<'a>(
    alloc: Global,
    system: &'a PlainSystem,
    spares: &mut PlainCallers,
    h: u16,
    slots: &Slots,
    told: &mut u64,
) -> Option<Claimant<'a>>
    requires own { ArePlainCallers system.now spares.old }
    requires config { system.now.config ≡ config_numbers 8 1 1 0 0 2 4 4 8 2 }
    requires number { (1 ≤ h) × (h ≤ 2) }
    requires slots { area slots.now ≡ record { slba = 0; blocks = 2 } }
    ensures rest { ArePlainCallers system.entry.now spares.new }
    ensures claimant { IfSome result (IsClaimant system.entry.now slots.now) }
{
    for _ in 0..HOSTS {
        let caller = take_caller(system, spares)?;
        let made = claimant_of(alloc, system, caller, h, slots, COUNT);
        if made.is_some() {
            return made;
        }
        *told = told.wrapping_add(1);
    }
    None
}

// Begins what a host wants.
fn begins(
    system: &PlainSystem,
    slots: &Slots,
    claimant: &mut Claimant<'_>,
    wish: Wish,
    told: &mut u64,
) -> Came
    requires claimant { IsClaimant system.now slots.now claimant.old }
    requires slots { 0 < (area slots.now).blocks }
    ensures { IsClaimant system.now slots.now claimant.new }
{
    for _ in 0..TURNS {
        let came = match wish {
            Wish::First => asks(system, slots, claimant, Some(0)),
            Wish::Any => asks(system, slots, claimant, None),
            Wish::Release => gives_back(system, slots, claimant),
        };
        if came != Came::Refused(Fault::NoMemory) {
            return came;
        }
        *told = told.wrapping_add(1);
    }
    Came::Nothing
}

// What comes of what was begun.
fn ends<R: Wait>(
    rt: &R,
    system: &PlainSystem,
    server: &mut PlainCaller,
    slots: &Slots,
    claimant: &mut Claimant<'_>,
    told: &mut u64,
) -> Came
    requires server { IsPlainCallerOf system.now server.old }
    requires claimant { IsClaimant system.now slots.now claimant.old }
    ensures server { IsPlainCallerOf system.now server.new }
    ensures claimant { IsClaimant system.now slots.now claimant.new }
{
    for _ in 0..TURNS {
        serves(rt, system, server, claimant.queue, told);
        is_served(rt, system, server, slots, claimant);
        match polls_begun(system, slots, claimant) {
            Came::Pending => {}
            Came::Later(Fault::NoMemory) => *told = told.wrapping_add(1),
            came => return came,
        }
    }
    Came::Nothing
}

// Whether that comes of what a host wants.
fn grants<R: Wait>(
    rt: &R,
    system: &PlainSystem,
    server: &mut PlainCaller,
    slots: &Slots,
    claimant: &mut Claimant<'_>,
    want: (Wish, Came),
    told: &mut u64,
) -> bool
    requires server { IsPlainCallerOf system.now server.old }
    requires claimant { IsClaimant system.now slots.now claimant.old }
    requires slots { 0 < (area slots.now).blocks }
    ensures server { IsPlainCallerOf system.now server.new }
    ensures claimant { IsClaimant system.now slots.now claimant.new }
{
    begins(system, slots, claimant, want.0, told) == Came::Begun
        && ends(rt, system, server, slots, claimant, told) == want.1
}

/// Both in turn; whether all came of it that is wanted.
pub(crate) fn turns<R: Wait>(
    rt: &R,
    system: &PlainSystem,
    server: &mut PlainCaller,
    slots: &Slots,
    one: &mut Claimant<'_>,
    two: &mut Claimant<'_>,
    told: &mut u64,
) -> bool
    requires server { IsPlainCallerOf system.now server.old }
    requires one { IsClaimant system.now slots.now one.old }
    requires two { IsClaimant system.now slots.now two.old }
    requires slots { 0 < (area slots.now).blocks }
    ensures { IsPlainCallerOf system.now server.new }
{
    for (host, wish, came) in TURN {
        let want = (wish, came);
        let is_granted = if host == 1 {
            grants(rt, system, server, slots, one, want, told)
        } else {
            grants(rt, system, server, slots, two, want, told)
        };
        if !is_granted {
            return false;
        }
    }
    true
}

/// Hosts 1 and 2.
pub(crate) fn claimants<'a>(
    alloc: Global,
    system: &'a PlainSystem,
    spares: &mut PlainCallers,
    slots: &Slots,
    told: &mut u64,
) -> Option<(Claimant<'a>, Claimant<'a>)>
    requires own { ArePlainCallers system.now spares.old }
    requires config { system.now.config ≡ config_numbers 8 1 1 0 0 2 4 4 8 2 }
    requires slots { area slots.now ≡ record { slba = 0; blocks = 2 } }
    ensures one { IfSome result (λ h. IsClaimant system.entry.now slots.now h.0) }
    ensures two { IfSome result (λ h. IsClaimant system.entry.now slots.now h.1) }
{
    let one = claimant(alloc, system, spares, 1, slots, told)?;
    let two = claimant(alloc, system, spares, 2, slots, told)?;
    Some((one, two))
}
