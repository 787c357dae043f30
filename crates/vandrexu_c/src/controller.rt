//! A controller: made, freed, and looked at.

ghost use Rattle.std.specs.Prelude.{◌++◌, ◌≡◌, ◌<◌, ◌≤◌, IfOk, None, Some, [], drop, length};
ghost use Rattle.c_handles.specs.Owned.{Keeps};
ghost use Rattle.c_handles.specs.Configurations.{given_numbers};
ghost use Rattle.nvme_model.specs.Medium.{medium};
ghost use Rattle.vandrexu_c.specs.OwnedStates.{Forgets, IsNewController, OwnedState, MayRefuse, Reserves};

use crate::copying::fits;
use crate::held::Handle;
use crate::lending::{fill, lend};
use crate::numbers::TOO_SMALL;
use crate::owned_controller::OwnedController;
use c_handles::GivenConfig;
use c_handles::numbers::{NO_BLOCK, NO_MEMORY};
use history::Config;
use std::alloc::{AllocError as NoMemory, Global};
use step_core::Core;

// A controller in a box.
fn own_controller(alloc: Global, config: Config) -> Result<Box<OwnedController>, NoMemory>
    ensures core { IfOk result (λ b.
        b.value.core ≡ record {
          config = config;
          past = [];
          forgotten = 0;
          promised = 0;
          room = b.value.core.room;
        }) }
    ensures payload { IfOk result (λ b. b.value.payload ≡ []) }
{
    let core = Core::new(alloc, config)?;
    let owned = OwnedController {
        core,
        payload: Vec::new(alloc),
    };
    Ok(Box::new(alloc, owned)?)
}

/// Makes a controller with no history and blocks of zeros, and puts it into the handle: 0; or the first fault of the
/// configuration, 21 to 30; or 11 where memory is refused; or 102 where the handle owns one. The handle is then as
/// before.
#[unsafe(no_mangle)]
#[tactic(auto, using(c_handles::proofs::Marks::none_of))]
pub extern "C" fn vandrexu_controller_new(
    alloc: Global,
    config: &GivenConfig,
    controller: &mut Handle,
) -> u32
    ensures done { result ≡ 0 → IsNewController (given_numbers config.now) controller.new.held.core }
    ensures failed { (result ≡ 0 → ⊥) → controller.new.held.core ≡ controller.old.held.core }
    ensures cause { (result ≡ 0 → ⊥) → MayRefuse (given_numbers config.now) controller.old.held.core result }
{
    fill!(controller.live != 0, controller, config, accepted => own_controller(alloc, accepted))
}

/// Frees what the handle owns. Nothing is done where it owns nothing.
#[unsafe(no_mangle)]
pub extern "C" fn vandrexu_controller_free(alloc: Global, controller: &mut Handle)
    ensures { controller.new.held.core ≡ None }
{
    drop(controller.take(alloc));
}

/// Makes the memory of the next `more` Grants, Blocks and Reaps, so that none of them is answered 11: 0; or 11 where
/// memory is refused; or 101 where the handle owns nothing.
#[unsafe(no_mangle)]
pub extern "C" fn vandrexu_controller_reserve(
    alloc: Global,
    controller: &mut Handle,
    more: usize,
) -> u32
    ensures no_handle { controller.old.held.core ≡ None → (result ≡ 101) × (controller.new.held.core ≡ None) }
    ensures reserves { (m : OwnedState) → controller.old.held.core ≡ Some m →
        Keeps controller.new.held.core (λ n. Reserves m more result n) }
{
    let done = lend!(alloc, controller, mut owned => owned.as_mut().core.reserve(more));
    match done {
        Ok(()) => 0,
        Err(_) => NO_MEMORY,
    }
}

/// Forgets the entries of the history before a place, which counts as in `vandrexu_controller_history`: their memory is
/// free for others, and all else is as before. 0; or 101 where the handle owns nothing.
#[unsafe(no_mangle)]
pub extern "C" fn vandrexu_controller_forget(
    alloc: Global,
    controller: &mut Handle,
    place: u64,
) -> u32
    ensures no_handle { controller.old.held.core ≡ None → (result ≡ 101) × (controller.new.held.core ≡ None) }
    ensures forgets { (m : OwnedState) → controller.old.held.core ≡ Some m →
        (result ≡ 0) × Keeps controller.new.held.core (λ n. Forgets m place n) }
{
    let before = (place as usize).saturating_sub(1);
    lend!(alloc, controller, mut owned => owned.as_mut().core.forget(before));
    0
}

/// Copies a block as it lies in the volume: 0; or 104 where there is no such block; or 101 where the handle owns
/// nothing. Nothing is written where it isn't 0.
#[unsafe(no_mangle)]
pub extern "C" fn vandrexu_controller_medium(
    alloc: Global,
    controller: &mut Handle,
    lba: u64,
    out: &mut [u8; 512],
) -> u32
    ensures no_handle { controller.old.held.core ≡ None → result ≡ 101 }
    ensures same { controller.new.held.core ≡ controller.old.held.core }
    ensures no_block { (m : OwnedState) → controller.old.held.core ≡ Some m →
        m.core.config.blocks ≤ lba → result ≡ 104 }
    ensures block { (m : OwnedState) → controller.old.held.core ≡ Some m →
        lba < m.core.config.blocks → (result ≡ 0) × (out.new ≡ medium m.core.past lba) }
    ensures kept { (result ≡ 0 → ⊥) → out.new ≡ out.old }
{
    let found = lend!(alloc, controller, owned => owned.as_ref().core.medium(lba).copied());
    match found {
        Some(block) => {
            *out = block;
            0
        }
        None => NO_BLOCK,
    }
}

/// Copies the data of the completion that was reaped last: 0, and the beginning of `out` has them; or 103 where `out`
/// is too short, and nothing is written there; or 101 where the handle owns nothing. At 0 and 103 `needed` is their
/// count.
#[unsafe(no_mangle)]
pub extern "C" fn vandrexu_controller_data(
    alloc: Global,
    controller: &mut Handle,
    out: &mut [u8],
    needed: &mut usize,
) -> u32
    ensures no_handle { controller.old.held.core ≡ None → result ≡ 101 }
    ensures same { controller.new.held.core ≡ controller.old.held.core }
    ensures done { (m : OwnedState) → controller.old.held.core ≡ Some m → result ≡ 0 →
        (needed.new ≡ length m.payload) × (out.new ≡ m.payload ++ drop (length m.payload) out.old) }
    ensures too_small { (m : OwnedState) → controller.old.held.core ≡ Some m → (result ≡ 0 → ⊥) →
        (result ≡ 103) × (needed.new ≡ length m.payload) × (length out.old < length m.payload) }
    ensures kept { (result ≡ 0 → ⊥) → out.new ≡ out.old }
{
    let fit =
        lend!(alloc, controller, owned => fits(owned.as_ref().payload.as_slice(), out, needed));
    if fit { 0 } else { TOO_SMALL }
}

/// How many entries the history has: 0; or 101 where the handle owns nothing.
#[unsafe(no_mangle)]
pub extern "C" fn vandrexu_controller_history_count(
    alloc: Global,
    controller: &mut Handle,
    count: &mut u64,
) -> u32
    ensures no_handle { controller.old.held.core ≡ None → result ≡ 101 }
    ensures same { controller.new.held.core ≡ controller.old.held.core }
    ensures done { (m : OwnedState) → controller.old.held.core ≡ Some m →
        (result ≡ 0) × (count.new ≡ length m.core.past) }
    ensures kept { (result ≡ 0 → ⊥) → count.new ≡ count.old }
{
    let entries = lend!(alloc, controller, owned => owned.as_ref().core.history().len() as u64);
    *count = entries;
    0
}
