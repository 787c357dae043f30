//! The port of a controller that is somewhere else: two queues in memory.

ghost use Rattle.std.specs.Prelude.{◌++◌, ◌+◌, ◌≡◌, ◌≤◌, length, option_copied, slice_get};
ghost use Rattle.std.specs.VecDeque.{deque_capacity, deque_len};
ghost use Rattle.remote_host.specs.Events.{events_of};
ghost use Rattle.remote_host.specs.Queues.{IsBrought, IsEmptyPort, IsTakenAway, entries_of, to_carry};

use driver_cas::{Port, PortFault, Reaped};
use nvme_model::submission::{Payload, Submission, Submissions};
use std::alloc::{AllocError as NoMemory, Global};
use std::collections::VecDeque;
use std::mem;
use std::snapshot::Snapshot;

/// What a port did, the newest last: for contracts alone, since a `Snapshot` has no bytes.
#[derive(Drop)]
pub(crate) enum Done {
    Nothing,
    Sent(Snapshot<Done>, u16, Snapshot<Submissions>),
    Got(Snapshot<Done>, [u8; 16], Snapshot<Payload>),
}

/// An entry on its way to the controller, with the data beside it.
#[derive(Debug, Drop)]
pub struct Outgoing {
    /// The submission queue that it was published to.
    pub queue: u16,
    pub submission: Submission,
    /// How many entries stand behind it in its batch: 1 of the first of a fused pair, else 0.
    pub more: usize,
}

/// The port of a driver whose controller is somewhere else. It keeps what was published until that is taken away, and
/// what was brought until it is reaped, each in order. Each of its functions costs a constant for an entry, amortised.
#[derive(Drop)]
pub struct RemotePort {
    // Published and not taken away, the oldest first.
    pub(crate) outgoing: VecDeque<Outgoing>,
    // Brought and not reaped, the oldest first.
    pub(crate) incoming: VecDeque<Reaped>,
    pub(crate) done: Snapshot<Done>,
}

// Puts the entries of a batch behind those that are to be taken away.
fn push_all(outgoing: &mut VecDeque<Outgoing>, queue: u16, batch: Vec<Submission>)
    requires { deque_len outgoing.old + length batch.items ≤ deque_capacity outgoing.old }
    ensures { outgoing.new.items ≡ outgoing.old.items ++ entries_of queue batch.items }
{
    let mut more = batch.len();
    for submission in batch {
        more -= 1;
        outgoing.push_back_reserved(Outgoing {
            queue,
            submission,
            more,
        });
    }
}

impl RemotePort {
    /// A port that did nothing, with nothing in its queues.
    pub fn new(alloc: Global) -> RemotePort
        ensures { IsEmptyPort result }
    {
        RemotePort {
            outgoing: VecDeque::new(alloc),
            incoming: VecDeque::new(alloc),
            done: Snapshot::of(&Done::Nothing),
        }
    }

    /// The entry that is to be taken away next; None where there is none.
    pub fn peek(&self) -> Option<&Outgoing>
        ensures { option_copied result ≡ slice_get (to_carry self.now) 0 }
    {
        self.outgoing.front()
    }

    /// Takes away the entry that was published first of those that are there; None where there is none.
    pub fn take_away(&mut self) -> Option<Outgoing>
        ensures taken { IsTakenAway self.old self.new result }
        ensures log { events_of self.new ≡ events_of self.old }
    {
        self.outgoing.pop_front()
    }

    /// Brings a completion, with what a successful Read read, else an empty payload. It is reaped behind those that
    /// were brought before.
    ///
    /// # Errors
    ///
    /// The payload, where a growth is refused; nothing has changed.
    pub fn bring(&mut self, cqe: [u8; 16], payload: Payload) -> Result<(), (Payload, NoMemory)>
        ensures brought { IsBrought self.old self.new cqe payload result }
        ensures log { events_of self.new ≡ events_of self.old }
    {
        if let Err(why) = self.incoming.reserve(1) {
            return Err((payload, why));
        }
        self.incoming.push_back_reserved(Reaped { cqe, payload });
        Ok(())
    }
}

impl Port for RemotePort {
    ghost use Rattle.std.specs.Prelude.{[], ◌++◌, List, length, true};
    ghost use Rattle.std.proofs.Common.{add_comm, ap, append_assoc, refl, sym, ◌∙◌};
    ghost use Rattle.driver_calls.specs.declared.event.PortEvent.{PortEvent};
    ghost use Rattle.remote_host.specs.Queues.{IsLater, IsPublished, IsReap, IsRefused};

    ghost log = { events_of };

    ghost steps = { λ p. length (events_of p) };

    ghost owns = { λ p queue. true };

    ghost follows = { IsLater };

    ghost accepts = { IsPublished };

    ghost refuses = { λ before after queue batch fault. IsRefused before after fault };

    ghost reaps = { IsReap };

    ghost says = { λ before start now queue number op answer. Unit {0} };

    fn publish(&mut self, queue: u16, batch: Submissions) -> Result<(), (PortFault, Submissions)> {
        if let Err(_) = self.outgoing.reserve(batch.as_slice().len()) {
            return Err((PortFault::NoMemory, batch));
        }
        let earlier = mem::replace(&mut self.done, Snapshot::of(&Done::Nothing));
        self.done = Snapshot::of(&Done::Sent(earlier, queue, Snapshot::of(&batch)));
        push_all(&mut self.outgoing, queue, batch.into_vec());
        Ok(())
    }

    fn reap(&mut self) -> Result<Option<Reaped>, PortFault> {
        let Some(reaped) = self.incoming.pop_front() else {
            return Ok(None);
        };
        let earlier = mem::replace(&mut self.done, Snapshot::of(&Done::Nothing));
        let payload = Snapshot::of(&reaped.payload);
        self.done = Snapshot::of(&Done::Got(earlier, reaped.cqe, payload));
        Ok(Some(reaped))
    }

    ghost stays = { λ a. record { more = []; is = refl } };

    ghost goes_on = { λ a b c x y. record {
      more = y.more ++ x.more;
      is = y.is ∙ ap (λ (log : List PortEvent). y.more ++ log) x.is ∙ sym (append_assoc y.more x.more (events_of a));
    } };

    ghost sole = { λ a b x. add_comm (length (events_of b)) (length (events_of a)) };

    ghost keeps_own = { λ a b queue x. refl };

    ghost tells = { λ before start now queue number first second op on own tidy is call. tt };
}
