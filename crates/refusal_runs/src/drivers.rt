//! Hosts of one controller and its server: one that makes calls, or two that claim slots.

ghost use Rattle.std.specs.Prelude.{◌≡◌, IfSome};
ghost use Rattle.history.specs.Config.{config_numbers};
ghost use Rattle.shared_system.specs.Plain.{ArePlainCallers, IsPlainCallerOf};

use crate::calls::{host, makes_all};
use crate::runs::system;
use crate::slots::{COUNT, claimants, turns};
use history::Config;
use lock_testing::closed;
use shared_system::{PlainCaller, PlainCallers, PlainSystem, take_caller};
use slot_alloc::Slots;
use std::alloc::Global;
use std::sync::Wait;
use step_core::Core;

/// How many completions are told of at once, and how many passes there are: a host that isn't made leaves its own
/// unused.
const MOST: usize = 8;

// Whether all calls, or all claims, are told what is wanted.
fn are_served<R: Wait>(
    rt: &R,
    alloc: Global,
    system: &PlainSystem,
    server: &mut PlainCaller,
    spares: &mut PlainCallers,
    is_slots: bool,
    told: &mut u64,
) -> bool
    requires own { ArePlainCallers system.now spares.old × IsPlainCallerOf system.now server.old }
    requires config { system.now.config ≡ config_numbers 8 1 1 0 0 2 4 4 8 2 }
    ensures { IsPlainCallerOf system.now server.new }
{
    if !is_slots {
        return match host(alloc, system, spares, told) {
            Some(mut host) => makes_all(rt, system, server, &mut host, told),
            None => false,
        };
    }
    let slots = Slots::new(0, COUNT);
    match claimants(alloc, system, spares, &slots, told) {
        Some((mut one, mut two)) => turns(rt, system, server, &slots, &mut one, &mut two, told),
        None => false,
    }
}

// Who served them; None where one was told something else.
fn all_served<R: Wait>(
    rt: &R,
    alloc: Global,
    system: &PlainSystem,
    spares: &mut PlainCallers,
    is_slots: bool,
    told: &mut u64,
) -> Option<PlainCaller>
    requires own { ArePlainCallers system.now spares.old }
    requires config { system.now.config ≡ config_numbers 8 1 1 0 0 2 4 4 8 2 }
    ensures { IfSome result (IsPlainCallerOf system.now) }
{
    let mut server = take_caller(system, spares)?;
    if are_served(rt, alloc, system, &mut server, spares, is_slots, told) {
        Some(server)
    } else {
        None
    }
}

/// The controller after all calls, or all claims.
pub(crate) fn by_driver<R: Wait>(
    rt: &R,
    alloc: Global,
    is_slots: bool,
    told: &mut u64,
) -> Option<Core> {
    let Ok(config) = Config::new(8, 1, 1, 0, 0, 2, 4, 4, 8) else {
        return None;
    };
    let (system, mut spares) = system(alloc, config, MOST, MOST, told)?;
    let server = all_served(rt, alloc, &system, &mut spares, is_slots, told)?;
    closed(system, server)
}
