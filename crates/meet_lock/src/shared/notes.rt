//! The seats of messages: making one, taking one in, and looking after that.

ghost use Rattle.std.specs.Prelude.{◌≡◌, ◌<◌, [], true};
ghost use Rattle.nvme_model.specs.Passes.{IsBeginning, entries, places};
ghost use Rattle.meet_lock.specs.Lock.{ExtendsByPasses, IsLive, hearing, informed, laden, lading, longer};
ghost use Rattle.meet_lock.specs.Lock.{message, message_held, unladen, unmade};
ghost use Rattle.meet_lock.specs.SeatSteps.{IsMessage, IsSameSeat};

use crate::owner::StepRight;
use crate::pass::Pass;
use crate::plays::{Hear, Load, Look, Recall, Tell, TellHeld, Unload};
use crate::seats::NoteSeat;
use crate::shared::{SeatPlace, Shared};
use crate::view::Origin;
use controller_interface::Machine;
use std::marker::Brand;

impl<M: Machine, K: StepRight> Shared<M, K> {
    ghost use Rattle.meet_lock.specs.Passes.{IsNoteOf, IsPassOfLock, IsSame, Knows, config_of, mine, opening_of};
    ghost use Rattle.meet_lock.specs.Passes.{passes_of};
    ghost use Rattle.meet_lock.specs.Passes.{seen, message_seen, message_config};

    // A message with what the seat has seen.
    pub(crate) fn tell(&self, seat: &mut SeatPlace<M>) -> SeatPlace<M>
        requires own { seat.old.table_id ≡ self.now.table.shared.table_id }
        requires live { IsLive seat.old.me.0 }
        ensures same { IsSameSeat seat.old seat.new × (seat.new.me ≡ seat.old.me) }
        ensures message { (result.table_id ≡ seat.old.table_id) × (result.me ≡ (message seat.old.me.0, [])) }
    {
        self.table.shared.split_seat::<Tell>(seat)
    }

    // A message with the history, of the seat that holds the lock.
    pub(crate) fn tell_held(&self, seat: &mut SeatPlace<M>) -> SeatPlace<M>
        requires own { seat.old.table_id ≡ self.now.table.shared.table_id }
        requires holds { seat.old.me.0.holds ≡ true }
        ensures same { IsSameSeat seat.old seat.new × (seat.new.me ≡ seat.old.me) }
        ensures message { (result.table_id ≡ seat.old.table_id) × (result.me ≡ (message_held seat.old.me.0, [])) }
    {
        self.table.shared.split_seat::<TellHeld>(seat)
    }

    // Takes in a message.
    pub(crate) fn hear(&self, seat: &mut SeatPlace<M>, from: SeatPlace<M>)
        requires own { (seat.old.table_id ≡ self.now.table.shared.table_id)
            × (from.table_id ≡ self.now.table.shared.table_id) }
        requires message { IsMessage from.me }
        ensures { IsSameSeat seat.old seat.new × (seat.new.me ≡ (hearing seat.old.me.0 from.me.0, seat.old.me.1)) }
    {
        self.table.shared.join_seat::<Hear>(seat, from);
    }

    // Sees what it was told.
    pub(crate) fn look(&self, seat: &mut SeatPlace<M>)
        requires own { seat.old.table_id ≡ self.now.table.shared.table_id }
        requires heard { (seat.old.me.0.hears ≡ true) × (0 < seat.old.me.0.number) }
        ensures same { IsSameSeat seat.old seat.new }
        ensures informed { (seat.new.me ≡ (informed seat.old.me.0, seat.old.me.1))
            × (places seat.new.me.0.number seat.new.me.0.seen ≡ places seat.old.me.0.number seat.old.me.0.seen) }
        ensures told { ExtendsByPasses seat.old.me.0.passes seat.old.me.0.seen seat.new.me.0.seen
            × ExtendsByPasses seat.old.me.0.passes seat.old.me.0.told seat.new.me.0.seen
            × M.legal seat.new.me.0.config (entries seat.new.me.0.seen) }
        ensures config { seat.old.me.0.told_config ≡ seat.old.me.0.config }
    {
        self.table.shared.load::<Look<M>>(seat, 0);
    }

    // Gives the ticket to a message.
    pub(crate) fn unload(&self, seat: &mut SeatPlace<M>) -> SeatPlace<M>
        requires own { seat.old.table_id ≡ self.now.table.shared.table_id }
        requires live { IsLive seat.old.me.0 }
        ensures same { IsSameSeat seat.old seat.new × (seat.new.me ≡ (unladen seat.old.me.0, seat.old.me.1)) }
        ensures message { (result.table_id ≡ seat.old.table_id) × (result.me ≡ (laden seat.old.me.0, [])) }
    {
        self.table.shared.split_seat::<Unload>(seat)
    }

    // Takes in a message, with its ticket.
    pub(crate) fn load(&self, seat: &mut SeatPlace<M>, from: SeatPlace<M>)
        requires own { (seat.old.table_id ≡ self.now.table.shared.table_id)
            × (from.table_id ≡ self.now.table.shared.table_id) }
        requires message { IsMessage from.me }
        requires bare { seat.old.me.0.ticket ≡ 0 }
        ensures { IsSameSeat seat.old seat.new × (seat.new.me ≡ (lading seat.old.me.0 from.me.0, seat.old.me.1)) }
    {
        self.table.shared.join_seat::<Load>(seat, from);
    }

    // Looks, and learns what holds of what it has seen.
    fn look_back<J: Origin>(&self, seat: &mut SeatPlace<M>)
        requires own { seat.old.table_id ≡ self.now.table.shared.table_id }
        requires named { 0 < seat.old.me.0.number }
        requires origin { J.past ≡ opening_of M.history self.now }
        ensures same { IsSameSeat seat.old seat.new × (seat.new.me ≡ seat.old.me) }
        ensures recalled { M.legal seat.new.me.0.config (entries seat.new.me.0.seen)
            × ExtendsByPasses seat.new.me.0.passes (unmade (opening_of M.history self.now)) seat.new.me.0.seen }
    {
        self.table.shared.load::<Recall<M, J>>(seat, 0);
    }

    /// Tells what holds of whatever the pass has seen: it is legal, and goes on from what the machine had when the lock
    /// was made, by entries of passes alone. Takes no lock and no memory.
    pub fn recall(&self, pass: &mut Pass<M>)
        requires { IsPassOfLock self.now pass.old }
        ensures same { IsSame pass.old pass.new × (seen pass.new ≡ seen pass.old) }
        ensures legal { M.legal (config_of pass.new) (entries (seen pass.new)) }
        ensures opens { ExtendsByPasses (passes_of pass.new) (unmade (opening_of M.history self.now)) (seen pass.new) }
    {
        self.look_back::<Brand>(&mut pass.seat);
    }

    /// What the pass has seen, for another pass to learn. Takes no lock and no memory.
    pub fn note(&self, pass: &mut Pass<M>) -> NoteSeat<M>
        requires { IsPassOfLock self.now pass.old }
        ensures same { IsSame pass.old pass.new × (seen pass.new ≡ seen pass.old) }
        ensures note { IsNoteOf self.now result × (message_seen result ≡ seen pass.old)
            × (message_config result ≡ config_of pass.old) }
    {
        NoteSeat {
            seat: self.tell(&mut pass.seat),
        }
    }

    /// The pass sees what the message had seen, too. Takes no lock and no memory.
    pub fn learn(&self, pass: &mut Pass<M>, note: &mut NoteSeat<M>)
        requires pass { IsPassOfLock self.now pass.old }
        requires note { IsNoteOf self.now note.old }
        ensures same { IsSame pass.old pass.new × (mine pass.new ≡ mine pass.old) }
        ensures knows { Knows M.legal pass.old pass.new }
        ensures learned { IsBeginning (message_seen note.old) (seen pass.new) }
        ensures config { message_config note.old ≡ config_of pass.old }
        ensures longer { seen pass.new ≡ longer (seen pass.old) (message_seen note.old) }
        ensures note { IsNoteOf self.now note.new × (message_seen note.new ≡ message_seen note.old)
            × (message_config note.new ≡ message_config note.old) }
    {
        let copy = self.tell(&mut note.seat);
        self.hear(&mut pass.seat, copy);
        self.look(&mut pass.seat);
    }
}
