//! The steps of a history, made once more by a controller.

ghost use Rattle.std.specs.Prelude.{◌∷◌, ◌≡◌, ◌≤◌, ◌⊎◌, None, Some, length};
ghost use Rattle.c_handles.specs.Owned.{Keeps};
ghost use Rattle.nvme_model.specs.History.{Past};
ghost use Rattle.nvme_model.specs.Kept.{ControllerInvariant};
ghost use Rattle.nvme_model.specs.declared.entry.Entry.{Entry as TheEntry};
ghost use Rattle.history.specs.Lines.{entry_in};
ghost use Rattle.vandrexu_c.specs.OwnedStates.{OwnedState};
ghost use Rattle.vandrexu_c.specs.Replays.{AreOne, GivesDone, Replays, ReplaysEntry};

use crate::answers::refused_in;
use crate::held::Handle;
use crate::lending::lend;
use crate::line::Line;
use crate::numbers::{BAD_LINE, OTHER_ENTRY};
use crate::owned_controller::OwnedController;
use c_handles::numbers::NO_MEMORY;
use controller_interface::{Answer, Refused, Step};
use history::{Entry, LineFault, parse_line};
use nvme_model::entry::PublishLine;
use nvme_model::submission::Submissions;
use std::alloc::Global;

impl OwnedController {
    // Makes a step, and keeps what it read; a refusal by its number.
    fn make(&mut self, step: Step) -> Result<(), u32>
        ensures gives { GivesDone self.old step result self.new }
    {
        match self.core.step(step) {
            Ok(Answer::Reaped { cqe: _, payload }) => {
                self.payload = payload.into_vec();
                Ok(())
            }
            Ok(Answer::Published) => Ok(()),
            Ok(Answer::Fetched(_)) => Ok(()),
            Ok(Answer::Granted(_, _, _)) => Ok(()),
            Ok(Answer::Blocked(_)) => Ok(()),
            Ok(Answer::Posted(_)) => Ok(()),
            Err(Refused::Publish(why, _) | Refused::Step(why)) => Err(refused_in(why)),
        }
    }

    // Whether the newest entry, where it wasn't forgotten, is this line's.
    fn has_added<L: Line>(&self, line: &L) -> bool
        ensures value { (e : TheEntry) (past : Past) → self.now.core.past ≡ e ∷ past →
            self.now.core.forgotten ≤ length past → AreOne result e (L.entry line.now) }
    {
        match self.core.history().last() {
            Some(made) => line.is(made),
            None => false,
        }
    }

    // Makes the step of a line, and says whether it added that.
    fn make_again<L: Line>(&mut self, line: &L) -> u32
        ensures again { ReplaysEntry self.old (L.entry line.now) result self.new }
    {
        // A read tells the proof that no more were forgotten than there are.
        let _ = self.core.history();
        if let Err(number) = self.make(line.step()) {
            return number;
        }
        if self.has_added(line) {
            return 0;
        }
        OTHER_ENTRY
    }

    // Publishes what a line says, which is then what was added.
    fn publish_again(&mut self, line: PublishLine) -> u32
        ensures again { ReplaysEntry self.old (TheEntry.Publish line) result self.new }
    {
        let batch = Submissions::new(line.batch.into_vec());
        match self.make(Step::Publish(line.queue, batch)) {
            Ok(()) => 0,
            Err(number) => number,
        }
    }

    // Makes the step of an entry, and says whether it added that.
    fn replay(&mut self, entry: Entry) -> u32
        ensures again { ReplaysEntry self.old entry result self.new }
    {
        match entry {
            Entry::Publish(line) => self.publish_again(line),
            Entry::Fetch(line) => self.make_again(&line),
            Entry::Grant(line) => self.make_again(&line),
            Entry::Block(line) => self.make_again(&line),
            Entry::Post(line) => self.make_again(&line),
            Entry::Reap(line) => self.make_again(&line),
        }
    }
}

// Makes the step of a line's entry, by the number that it is answered.
fn replayed(alloc: Global, owned: &mut OwnedController, line: &[u8]) -> u32
    ensures replays { Replays owned.old line.now result owned.new }
{
    match parse_line(alloc, line) {
        Ok(entry) => owned.replay(entry),
        Err(LineFault::Malformed) => BAD_LINE,
        Err(LineFault::NoMemory) => NO_MEMORY,
    }
}

// The same. What a controller of this kind has added behind this history it adds again.
fn line_replayed(alloc: Global, owned: &mut OwnedController, line: &[u8]) -> u32
    ensures replays { Replays owned.old line.now result owned.new }
    ensures own { (e : TheEntry) → entry_in line.now ≡ Some e →
        ControllerInvariant owned.old.core.config (e ∷ owned.old.core.past) → (result ≡ 0) ⊎ (result ≡ 11) }
{
    replayed(alloc, owned, line)
}

/// Makes the step of the next line of a history once more: 0 where the controller has added that line; or 131 where it
/// made the step, and added another line, which stays; or the number of the refusal; or 107 for what is no line of a
/// history, and 11 where memory is refused, and no step is made; or 101 where the handle owns nothing. What a Reap read
/// stays with the controller until the next Reap.
#[unsafe(no_mangle)]
pub extern "C" fn vandrexu_controller_replay(
    alloc: Global,
    controller: &mut Handle,
    line: &[u8],
) -> u32
    ensures no_handle { controller.old.held.core ≡ None → (result ≡ 101) × (controller.new.held.core ≡ None) }
    ensures replays { (m : OwnedState) → controller.old.held.core ≡ Some m →
        Keeps controller.new.held.core (Replays m line.now result) }

    // A line that a controller of this kind made behind this history is made again, unless memory is refused.
    ensures own { (m : OwnedState) (e : TheEntry) → controller.old.held.core ≡ Some m → entry_in line.now ≡ Some e →
        ControllerInvariant m.core.config (e ∷ m.core.past) → (result ≡ 0) ⊎ (result ≡ 11) }
{
    lend!(alloc, controller, mut owned => line_replayed(alloc, owned.as_mut(), line))
}
