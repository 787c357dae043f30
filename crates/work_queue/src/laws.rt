//! What is known of what two passes of a queue pushed and popped.

ghost use Rattle.std.specs.Prelude.{[], Some, ◌≡◌, slice_get, ℕ};
ghost use Rattle.work_queue.specs.QueuePasses.{AreMatched, AreTheTwo, got, put};
ghost use Rattle.work_queue.specs.QueueSteps.{IsNth};
ghost use Rattle.work_queue.specs.declared.message.Popped.{Popped};

use crate::queue::QueuePass;

/// Of a queue that has two passes, of which one only pops: each message that it popped is one that the other pushed,
/// the one of the number beside it.
///
/// What the premises ask for is what `compare` and `new` of the queue ensure.
pub fn what_one_popped_the_other_pushed<T>(popper: &QueuePass<T>, pusher: &QueuePass<T>)
    ensures { AreMatched popper.now pusher.now → AreTheTwo pusher.now popper.now → put popper.now ≡ []
        → (k : ℕ) (e : Popped T) → slice_get (got popper.now) k ≡ Some e
        → IsNth (put pusher.now) e.number e.item }
{
    let _ = popper;
    let _ = pusher;
}
