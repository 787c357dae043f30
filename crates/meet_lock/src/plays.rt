//! The rule of the lock, and what each of its steps tells.

ghost use Rattle.meet_lock.specs.Lock.{IsOneHistory, boxed, first_view, gives_left, gives_right, message, message_held};
ghost use Rattle.meet_lock.specs.Lock.{gathering, hearing, spent, unladen, laden, lading};
ghost use Rattle.meet_lock.specs.SeatSteps.{took, wrote, gives_lock_back, looked, recalled};

use crate::owner::StepRight;
use crate::view::{Origin, Start, View};
use atomic_table::{Join, Play, Split, TableRule};
use controller_interface::Machine;
use std::marker::PhantomData;

pub(crate) struct Lock<M, K> {
    machine: PhantomData<M>,
    right: PhantomData<K>,
}

impl<M: Machine, K: StepRight> TableRule<Option<Box<M>>, View, Start<M>> for Lock<M, K> {
    ghost holds = { λ key. IsOneHistory (boxed M.config) (boxed M.history) M.legal K.owned
        (M.config key.machine.value) key.passes (M.history key.machine.value) };

    ghost first = { λ key. first_view (M.config key.machine.value) key.passes (M.history key.machine.value) };
}

pub(crate) struct Take<M> {
    machine: PhantomData<M>,
}

impl<M: Machine> Play<Option<Box<M>>, View> for Take<M> {
    ghost then = { took (boxed M.config) (boxed M.history) M.legal };
}

/// Gives the lock back, with one entry more.
pub(crate) struct Write<M, K> {
    machine: PhantomData<M>,
    right: PhantomData<K>,
}

impl<M: Machine, K: StepRight> Play<Option<Box<M>>, View> for Write<M, K> {
    ghost then = { wrote (boxed M.history) K.owned };
}

/// Gives the lock back, with the same history.
pub(crate) struct Leave<M> {
    machine: PhantomData<M>,
}

impl<M: Machine> Play<Option<Box<M>>, View> for Leave<M> {
    ghost then = { gives_lock_back };
}

/// A seat that took in a message looks.
pub(crate) struct Look<M> {
    machine: PhantomData<M>,
}

impl<M: Machine> Play<Option<Box<M>>, View> for Look<M> {
    ghost then = { looked M.legal };
}

/// A seat looks, and learns what holds of what it has seen.
pub(crate) struct Recall<M, J> {
    machine: PhantomData<M>,
    origin: PhantomData<J>,
}

impl<M: Machine, J: Origin> Play<Option<Box<M>>, View> for Recall<M, J> {
    ghost then = { recalled M.legal J.past };
}

/// The first seat gives out the next number.
pub(crate) struct Give;

impl Split<View> for Give {
    ghost left = { gives_left };

    ghost right = { gives_right };
}

/// A message with what the seat has seen.
pub(crate) struct Tell;

impl Split<View> for Tell {
    ghost left = { λ v. v };

    ghost right = { message };
}

/// A message with the history, of the seat that holds the lock.
pub(crate) struct TellHeld;

impl Split<View> for TellHeld {
    ghost left = { λ v. v };

    ghost right = { message_held };
}

/// A message with the ticket of the seat.
pub(crate) struct Unload;

impl Split<View> for Unload {
    ghost left = { unladen };

    ghost right = { laden };
}

/// A seat takes in a message.
pub(crate) struct Hear;

impl Join<View> for Hear {
    ghost both = { hearing };

    ghost spent = { spent };
}

/// A seat takes in a message, with its ticket.
pub(crate) struct Load;

impl Join<View> for Load {
    ghost both = { lading };

    ghost spent = { spent };
}

/// A seat takes in a pass: nobody steps by its number any more.
pub(crate) struct Gather;

impl Join<View> for Gather {
    ghost both = { gathering };

    ghost spent = { spent };
}
