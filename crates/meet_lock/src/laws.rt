//! What is known of what a pass of a controller has seen.

ghost use Rattle.std.specs.Prelude.{◌≡◌, false, ℕ};
ghost use Rattle.meet_lock.specs.Lock.{ExtendsByPasses, unmade};
ghost use Rattle.meet_lock.specs.Passes.{config_of, passes_of, seen};
ghost use Rattle.nvme_model.specs.History.{Past};
ghost use Rattle.nvme_model.specs.Kept.{ControllerInvariant};
ghost use Rattle.nvme_model.specs.Laws.{is_held};
ghost use Rattle.nvme_model.specs.Legal.{IsLegal};
ghost use Rattle.nvme_model.specs.Medium.{medium};
ghost use Rattle.nvme_model.specs.Passes.{IsBeginning, SharedPast, entries};
ghost use Rattle.nvme_model.specs.Value.{value};
ghost use Rattle.nvme_model.specs.OneAtATime.{IsOneAtATime};

use crate::pass::Pass;
use controller_interface::Machine;

/// What a pass of a controller has seen is legal; what callers got there is what an array of blocks gives that serves
/// one operation at a time; and where no open unit writes a block, the volume then held its value.
///
/// What is asked of the pass is what `new`, `attempt`, `meet` and `learn` ensure of it.
pub fn what_a_pass_has_seen<M: Machine>(pass: &Pass<M>)
    requires knows { ControllerInvariant (config_of pass.now) (entries (seen pass.now)) }
    ensures legal { IsLegal (config_of pass.now) (entries (seen pass.now)) }
    ensures array { IsOneAtATime (config_of pass.now) (entries (seen pass.now)) }
    ensures volume { (l : ℕ) → is_held (entries (seen pass.now)) l ≡ false
        → medium (entries (seen pass.now)) l ≡ value (entries (seen pass.now)) l }
{
    let _ = pass;
}

/// What came between two moments of what a pass has seen is entries of passes alone: the earlier begins the later, and
/// `recall` told at both that it goes on, by such entries, from what the machine had when the lock was made.
pub fn what_came_between_is_of_passes<M: Machine>(pass: &Pass<M>)
    ensures { (opening : Past) (before : SharedPast)
        → ExtendsByPasses (passes_of pass.now) (unmade opening) before
        → ExtendsByPasses (passes_of pass.now) (unmade opening) (seen pass.now) → IsBeginning before (seen pass.now)
        → ExtendsByPasses (passes_of pass.now) before (seen pass.now) }
{
    let _ = pass;
}
