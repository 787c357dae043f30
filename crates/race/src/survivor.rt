//! What a survivor of a race has in hand, from one turn to the next.

use driver_cas::{Fault, SharedPort};
use nvme_model::Name;
use race_hosts::Host;
use shared_system::HostPasses;
use slot_alloc::Releasing;
use slot_takeover::{KeptSlot, ReadingHolder, TakingOver};

/// A call about the slot at hand that was begun.
#[derive(Drop)]
pub(crate) enum SweepCall<'a> {
    /// Who holds the slot?
    Reads(ReadingHolder<SharedPort<'a>>),
    TakesOver(TakingOver<SharedPort<'a>>),
    GivesBack(Releasing<SharedPort<'a>>),
}

/// How far a survivor is with the slot at hand.
#[derive(Drop)]
pub(crate) enum SweepStage<'a> {
    /// It is to ask who holds it.
    Asks,
    /// A dead host does, under this name: the slot is to be taken over.
    Finds(Name),
    /// It has the slot, and is to begin to give it back.
    Has(KeptSlot),
    /// The call hasn't ended.
    Waits(SweepCall<'a>),
    /// No dead host holds the slot any more.
    Done,
}

/// What came of a call about the slot at hand.
#[derive(Drop)]
pub(crate) enum Called<'a> {
    /// The survivor is so far now.
    Done(SweepStage<'a>),
    /// Nothing yet: it waits.
    Pending(SweepCall<'a>),
    /// Nothing, for this reason.
    Later(Fault, SweepStage<'a>),
}

/// A host that goes over the slots, with the slot at hand.
#[derive(Drop)]
pub(crate) struct Survivor<'a> {
    pub host: Host<'a>,
    pub slot: u32,
    pub stage: SweepStage<'a>,
}

/// What is left of a host behind its rounds.
#[derive(Drop)]
pub(crate) enum Party<'a> {
    /// It died, and is fenced: its driver is gone, and its passes stay.
    Fenced(HostPasses),
    Survives(Survivor<'a>),
}
