//! The turns of a survivor, which goes over the slots.

ghost use Rattle.std.specs.Prelude.{◌≡◌, ◌<◌, IfOk, true};
ghost use Rattle.slot_takeover.specs.Takeovers.{HoldsTaken};
ghost use Rattle.race.specs.Fates.{is_dead_host};
ghost use Rattle.race.specs.Survivors.{IsCalled, IsDeadName, IsSurvivor, IsSweepCall, IsSweepStage, IsSweeping};
ghost use Rattle.race.specs.declared.survivor.SweepStage.{SweepStage};

use crate::fate::{Fate, is_dead_at};
use crate::pausing::{asks_again, pause, waits};
use crate::survivor::SweepCall::{GivesBack, Reads, TakesOver};
use crate::survivor::SweepStage::Waits;
use crate::survivor::{Called, Survivor, SweepCall, SweepStage};
use hosts::OpenGate;
use nvme_model::Name;
use race_hosts::{Host, Play};
use shared_system::System;
use slot_alloc::{Released, poll_release};
use slot_takeover::laws::an_untouched_driver_keeps_its_takeovers;
use slot_takeover::{
    HeldSlot, Holder, HolderPoll, KeptSlot, TakeoverProgress, give_back, poll_holder,
    poll_takeover, read_holder, take_over,
};
use std::alloc::AllocError as NoMemory;
use std::mem;
use std::snapshot::Snapshot;
use std::sync::Wait;

// Whether the host of this number is dead.
fn is_dead_host(fates: &[Fate], host: u32) -> bool
    ensures value { result ≡ is_dead_host fates.now host }
{
    is_dead_at(fates, host.saturating_sub(1) as usize)
}

// Whether it is the name of a dead host.
fn is_dead_name(fates: &[Fate], name: Name) -> bool
    ensures dead { result ≡ true → IsDeadName fates.now name }
{
    name.host != 0 && name.serial != 0 && is_dead_host(fates, name.host)
}

// What a survivor does once it was told who holds a slot: it takes it over from a dead host alone.
fn found<'a>(fates: &[Fate], host: &Host<'_>, holder: Holder) -> SweepStage<'a>
    ensures stage { IsSweepStage fates.now host.now result }
{
    match holder {
        Holder::Of(name) => {
            if is_dead_name(fates, name) && name.host != u32::from(host.queue) {
                SweepStage::Finds(name)
            } else {
                SweepStage::Done
            }
        }
        Holder::Free | Holder::Foreign => SweepStage::Done,
    }
}

// Asks who holds the slot.
fn asks<'a>(
    _system: &System<OpenGate>,
    _play: &Play,
    _fates: &[Fate],
    host: &mut Host<'a>,
    slot: u32,
) -> Called<'a>
    requires own { IsSweeping _system.now _play.now host.old }
    requires slot { slot < _play.now.slots.blocks }
    ensures goes { IsSweeping _system.now _play.now host.new }
    ensures called { IsCalled _fates.now host.new result }
{
    match read_holder(&host.slots, &mut host.driver, slot) {
        Ok(reading) => Called::Done(Waits(Reads(reading))),
        Err(fault) => Called::Later(fault, SweepStage::Asks),
    }
}

// Begins to take the slot over from a dead name.
fn takes<'a>(
    _system: &System<OpenGate>,
    _play: &Play,
    _fates: &[Fate],
    host: &mut Host<'a>,
    slot: u32,
    name: Name,
) -> Called<'a>
    requires own { IsSweeping _system.now _play.now host.old }
    requires slot { slot < _play.now.slots.blocks }
    requires finds { IsSweepStage _fates.now host.old (SweepStage.Finds name) }
    ensures goes { IsSweeping _system.now _play.now host.new }
    ensures called { IsCalled _fates.now host.new result }
{
    match take_over(&host.slots, &mut host.driver, slot, name) {
        Ok(taking) => Called::Done(Waits(TakesOver(taking))),
        Err(fault) => Called::Later(fault, SweepStage::Finds(name)),
    }
}

// Begins to give the slot back.
fn gives<'a>(
    _system: &System<OpenGate>,
    _play: &Play,
    _fates: &[Fate],
    host: &mut Host<'a>,
    held: HeldSlot,
) -> Called<'a>
    requires own { IsSweeping _system.now _play.now host.old }
    requires held { HoldsTaken host.old.driver held }
    ensures goes { IsSweeping _system.now _play.now host.new }
    ensures called { IsCalled _fates.now host.new result }
{
    let before = Snapshot::of(&host.driver);
    match give_back(&host.slots, &mut host.driver, held) {
        Ok(giving) => Called::Done(Waits(GivesBack(giving))),
        Err((held, fault)) => {
            an_untouched_driver_keeps_its_takeovers(&before, &host.driver);
            Called::Later(fault, SweepStage::Has(KeptSlot { held }))
        }
    }
}

// Polls a call about this slot. Where a takeover ends, the slot is this host's, or somebody else took it over first.
fn polls<'a>(
    _system: &System<OpenGate>,
    _play: &Play,
    fates: &[Fate],
    host: &mut Host<'a>,
    call: SweepCall<'a>,
) -> Called<'a>
    requires own { IsSweeping _system.now _play.now host.old }
    requires of { IsSweepCall host.old call }
    ensures goes { IsSweeping _system.now _play.now host.new }
    ensures called { IsCalled fates.now host.new result }
{
    match call {
        Reads(reading) => match poll_holder(&mut host.driver, reading) {
            HolderPoll::Done(holder) => Called::Done(found(fates, host, holder)),
            HolderPoll::Pending(same) => Called::Pending(Reads(same)),
            HolderPoll::Later(fault, same) => Called::Later(fault, Waits(Reads(same))),
            HolderPoll::Failed(_) => Called::Done(SweepStage::Done),
        },
        TakesOver(taking) => match poll_takeover(&mut host.driver, taking) {
            TakeoverProgress::Held(held) => Called::Done(SweepStage::Has(KeptSlot { held })),
            TakeoverProgress::Pending(same) => Called::Pending(TakesOver(same)),
            TakeoverProgress::Later(fault, same) => Called::Later(fault, Waits(TakesOver(same))),
            TakeoverProgress::Taken | TakeoverProgress::Failed(_) => Called::Done(SweepStage::Done),
        },
        GivesBack(giving) => match poll_release(&mut host.driver, giving) {
            Released::Released | Released::Failed(_) => Called::Done(SweepStage::Done),
            Released::Pending(same) => Called::Pending(GivesBack(same)),
            Released::Later(fault, same) => Called::Later(fault, Waits(GivesBack(same))),
        },
    }
}

// One call about this slot.
fn calls<'a>(
    system: &System<OpenGate>,
    play: &Play,
    fates: &[Fate],
    host: &mut Host<'a>,
    slot: u32,
    stage: SweepStage<'a>,
) -> Called<'a>
    requires own { IsSweeping system.now play.now host.old }
    requires slot { slot < play.now.slots.blocks }
    requires stage { IsSweepStage fates.now host.old stage }
    ensures goes { IsSweeping system.now play.now host.new }
    ensures called { IsCalled fates.now host.new result }
{
    match stage {
        SweepStage::Asks => asks(system, play, fates, host, slot),
        SweepStage::Finds(name) => takes(system, play, fates, host, slot, name),
        SweepStage::Has(kept) => gives(system, play, fates, host, kept.into_held()),
        Waits(call) => polls(system, play, fates, host, call),
        SweepStage::Done => Called::Done(SweepStage::Done),
    }
}

// One turn of a survivor at this slot: it makes a call, and pauses where nothing came of it yet.
fn next_stage<'a, R: Wait>(
    rt: &R,
    system: &System<OpenGate>,
    play: &Play,
    fates: &[Fate],
    host: &mut Host<'a>,
    slot: u32,
    stage: SweepStage<'a>,
) -> Result<SweepStage<'a>, NoMemory>
    requires own { IsSweeping system.now play.now host.old }
    requires slot { slot < play.now.slots.blocks }
    requires stage { IsSweepStage fates.now host.old stage }
    ensures goes { IsSweeping system.now play.now host.new }
    ensures stage { IfOk result (IsSweepStage fates.now host.new) }
{
    match calls(system, play, fates, host, slot, stage) {
        Called::Done(next) => Ok(next),
        Called::Pending(same) => Ok(waits(rt, system, play, fates, host, Waits(same))),
        Called::Later(fault, same) => {
            asks_again(fault)?;
            Ok(waits(rt, system, play, fates, host, same))
        }
    }
}

impl Survivor<'_> {
    /// Whether it went over all of so many slots.
    pub(crate) fn is_over(&self, slots: u32) -> bool {
        slots <= self.slot
    }
}

/// One turn of a survivor: it makes one call about the slot at hand, or goes to the next one. Behind the last slot it
/// learns the next notice.
///
/// # Errors
///
/// `NoMemory` where a growth is refused, or a call can't be begun.
pub(crate) fn sweep_turn<R: Wait>(
    rt: &R,
    system: &System<OpenGate>,
    play: &Play,
    fates: &[Fate],
    survivor: &mut Survivor<'_>,
) -> Result<(), NoMemory>
    requires { IsSurvivor system.now play.now fates.now survivor.old }
    ensures { IsSurvivor system.now play.now fates.now survivor.new }
{
    let stage = mem::replace(&mut survivor.stage, SweepStage::Asks);
    if survivor.slot >= play.slots.blocks {
        pause(rt, system, play, &mut survivor.host);
        return Ok(());
    }
    let slot = survivor.slot;
    let next = next_stage(rt, system, play, fates, &mut survivor.host, slot, stage)?;
    match next {
        SweepStage::Done => survivor.slot = slot + 1,
        next => survivor.stage = next,
    }
    Ok(())
}
