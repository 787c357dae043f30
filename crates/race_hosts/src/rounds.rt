//! The rounds of a host.

ghost use Rattle.std.specs.Prelude.{ℕ, IfOk, OnOk, ◌+◌, ◌≡◌, ◌≤◌};
ghost use Rattle.nvme_model.specs.declared.array.Range.{Range};
ghost use Rattle.nvme_model.specs.declared.config.ConfigNumbers.{ConfigNumbers};
ghost use Rattle.many_host_laws.specs.Hosts.{IsHost};
ghost use Rattle.race_hosts.specs.Hosts.{HostContinues, IsHosting, rounds_begun};
ghost use Rattle.race_hosts.specs.Stages.{IsStageOf};

use crate::claiming::{begin, polls};
use crate::owned::Host;
use crate::releasing::{give_back, polls_release};
use crate::stage::{RoundStage, Rounds};
use shared_system::System;
use std::alloc::AllocError as NoMemory;
use std::sync::Wait;

// One turn of a host that has begun no round: it begins one, if one is left.
#[tactic(auto, using(crate::proofs::Going::goes_same))]
fn ready_turn<'a, R: Wait, G>(
    rt: &R,
    system: &System<G>,
    host: &mut Host<'a>,
    left: u32,
) -> Result<Rounds<'a>, NoMemory>
    requires { IsHosting system.now host.old }
    ensures goes { HostContinues system.now host.old host.new }
    ensures stage { IfOk result (λ r. IsStageOf host.new r.stage) }
    ensures sum { IfOk result (λ r. rounds_begun host.new + r.left ≡ rounds_begun host.old + left) }
    ensures most { rounds_begun host.new ≤ rounds_begun host.old + left }
{
    if left == 0 {
        return Ok(Rounds::of(0));
    }
    begin(rt, system, host, left)
}

/// One turn of a host: it begins to claim any slot, or polls that claim, begins to release the slot, or polls that
/// release. Where nothing came of it for now the host learns the next notice, or lets others run where there is none.
///
/// A round in which all slots are had by others, or a claim fails, ends there. All that is added to the driver's pass
/// is in the driver's log, and keeps the rules of slots. A turn of rounds that are over does nothing.
///
/// # Errors
///
/// `NoMemory` where a round can't be begun, since a growth is refused or the claim is for good; and where a growth is
/// refused later. The stop flag is set then, and a slot may be held.
pub fn host_turn<'a, R: Wait, G>(
    rt: &R,
    system: &System<G>,
    host: &mut Host<'a>,
    rounds: Rounds<'a>,
) -> Result<Rounds<'a>, NoMemory>
    requires own { IsHosting system.now host.old }
    requires stage { IsStageOf host.old rounds.stage }
    ensures goes { HostContinues system.now host.old host.new }
    ensures stage { IfOk result (λ r. IsStageOf host.new r.stage) }
    ensures sum { IfOk result (λ r. rounds_begun host.new + r.left ≡ rounds_begun host.old + rounds.entry.left) }
    ensures most { rounds_begun host.new ≤ rounds_begun host.old + rounds.entry.left }
{
    let Rounds { left, stage } = rounds;
    match stage {
        RoundStage::Ready => ready_turn(rt, system, host, left),
        RoundStage::Claiming(claiming) => {
            let stage = polls(rt, system, host, claiming)?;
            Ok(Rounds { left, stage })
        }
        RoundStage::Holding(kept) => {
            let stage = give_back(rt, system, host, kept.into_claim())?;
            Ok(Rounds { left, stage })
        }
        RoundStage::Releasing(releasing) => {
            let stage = polls_release(rt, system, host, releasing)?;
            Ok(Rounds { left, stage })
        }
    }
}

/// Claims any slot and releases it, so many times, by turns. Each round begins with a claim of the first slot. A slot
/// that is held when the stop flag is set stays held. All that is added to the driver's pass is in the driver's log,
/// and keeps the rules of slots.
///
/// # Errors
///
/// `NoMemory` where a round can't be begun, since a growth is refused, the claim is for good, or the stop flag is set;
/// and where a growth is refused later. The stop flag is set then, and a slot may be held. No more rounds were begun
/// than were asked for.
#[tactic(auto, using(crate::proofs::Going::host_on, crate::proofs::Going::none_left))]
pub fn host<R: Wait, G>(
    rt: &R,
    system: &System<G>,
    host: &mut Host<'_>,
    rounds: u32,
) -> Result<(), NoMemory>
    requires { IsHosting system.now host.old }
    ensures goes { HostContinues system.now host.old host.new }
    ensures begun { OnOk result (rounds_begun host.new ≡ rounds_begun host.old + rounds) }
    ensures most { rounds_begun host.new ≤ rounds_begun host.old + rounds }
    ensures hosts { (c : ConfigNumbers) (slots : Range) (pass queue n : ℕ) →
        IsHost c slots pass queue n host.old.driver → IsHost c slots pass queue n host.new.driver }
{
    let mut now = Rounds::of(rounds);
    for _ in rt.forever() {
        if now.are_over() {
            return Ok(());
        }
        if system.stop.is_set() {
            if now.left == 0 {
                return Ok(());
            }
            return Err(NoMemory);
        }
        now = host_turn(rt, system, host, now)?;
    }
    // The loop is left by a return alone.
    unreachable!()
}
