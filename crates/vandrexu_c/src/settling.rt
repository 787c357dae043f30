//! All that is ready, made by one call.

ghost use Rattle.std.specs.Prelude.{◌≡◌, None, Some};
ghost use Rattle.c_handles.specs.Owned.{Keeps};
ghost use Rattle.vandrexu_c.specs.OwnedStates.{OwnedState};
ghost use Rattle.vandrexu_c.specs.Settling.{SettlesAll};

use crate::held::Handle;
use crate::lending::lend;
use c_handles::numbers::NO_MEMORY;
use std::alloc::Global;
use step_core::Core;

// Makes what is ready until nothing is, by the number that it is answered.
fn settle(core: &mut Core) -> u32
    ensures settles { SettlesAll core.old result core.new }
{
    for _turn in 0..u64::MAX {
        let Some((_step, answer)) = core.step_ready() else {
            return 0;
        };
        if answer.is_err() {
            return NO_MEMORY;
        }
    }
    0
}

/// Makes what is ready until nothing is: 0; or 11 where memory is refused, and the steps before are made; or 101 where
/// the handle owns nothing.
#[unsafe(no_mangle)]
pub extern "C" fn vandrexu_settle(alloc: Global, controller: &mut Handle) -> u32
    ensures no_handle { controller.old.held.core ≡ None → (result ≡ 101) × (controller.new.held.core ≡ None) }
    ensures settles { (m : OwnedState) → controller.old.held.core ≡ Some m → Keeps controller.new.held.core
        (λ n. (n.payload ≡ m.payload) × SettlesAll m.core result n.core) }
{
    lend!(alloc, controller, mut owned => settle(&mut owned.as_mut().core))
}
