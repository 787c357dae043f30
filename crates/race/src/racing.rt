//! The threads of a race.

ghost use Rattle.std.specs.List.{AllZip};
ghost use Rattle.std.specs.Prelude.{◌+◌, ◌≡◌, ◌≤◌, All, IfErr, IfOk, OnOk, vec_len};
ghost use Rattle.meet_lock.specs.Passes.{number};
ghost use Rattle.shared_system.specs.Callers.{AreCallersOf, IsHostOf};
ghost use Rattle.race_hosts.specs.Playing.{HasPlayed, HostPassesContinue};
ghost use Rattle.race_numbers.specs.Races.{race_config};
ghost use Rattle.race.specs.Ended.{EndDown, HasEnded};
ghost use Rattle.race.specs.Faults.{IsEarly};
ghost use Rattle.many_host_laws.specs.Closing.{HasRounds, KeepsSlots};
ghost use Rattle.race.specs.Slots.{slots_of};
ghost use Rattle.nvme_model.specs.Array.{IsRange};

use crate::closing::{closed, room_for};
use crate::fault::RaceFault;
use crate::play::play_of;
use hosts::{Crew, OpenGate, Returned, run_crew};
use race_hosts::{Play, run_hosts};
use race_numbers::Race;
use shared_system::{Callers, HostPasses, System, system_of};
use std::alloc::{AllocError as NoMemory, Global};
use std::sync::Wait;
use std::thread::Threads;
use step_core::Core;

// The crew, and beside it the hosts, until these have ended. All passes come back, in the order in which they were
// given.
#[tactic(auto, using(crate::proofs::Ended::fetcher, crate::proofs::Ended::workers, crate::proofs::Ended::hosts))]
fn all_threads<R: Threads + Wait + Sync>(
    rt: &R,
    alloc: Global,
    system: &System<OpenGate>,
    play: &Play,
    queues: u16,
    callers: Callers,
    _workers: u16,
) -> Result<Callers, NoMemory>
    requires callers { AreCallersOf system.now play.now.config _workers callers }
    requires slots { IsRange play.now.slots }
    requires queues { 1 ≤ queues }
    ensures workers { IfOk result (λ h. EndDown (λ w. w.caller.pass) system.now.engine play.now
        (_workers + 1) _workers h.workers.items) }
    ensures fetcher { IfOk result (λ h. (number h.fetcher.pass ≡ _workers + 1)
        × HasEnded system.now.engine play.now (_workers + 1) h.fetcher.pass) }
    ensures hosts { IfOk result (λ h. EndDown (λ g. g.pass) system.now.engine play.now
        (_workers + 1) (_workers + 1 + play.now.config.cqs) h.hosts.items) }
    ensures counts { IfOk result (λ h. (vec_len h.workers ≡ _workers) × (vec_len h.hosts ≡ play.now.config.cqs)) }
{
    let Crew {
        fetcher,
        workers,
        beside,
        ends,
    } = run_crew(
        rt,
        alloc,
        system,
        queues,
        callers,
        |hosts: Vec<HostPasses>| -> Returned<Vec<HostPasses>>
            requires { All (IsHostOf system.now play.now.config) hosts.items × IsRange play.now.slots }
            ensures back { AllZip (HostPassesContinue system.entry.now) hosts.items result.0.items }
            ensures played { OnOk result.1
                (AllZip (HasPlayed system.entry.now play.entry.now) hosts.items result.0.items) }
        { run_hosts(rt, alloc, system, play, hosts) },
    );
    let (hosts, played) = beside;
    ends?;
    played?;
    Ok(Callers {
        fetcher,
        workers,
        hosts,
    })
}

/// The controller after a race: its history keeps the slots, and has all rounds of each host.
///
/// # Errors
///
/// `NoMemory` where a growth was refused, a thread couldn't be started or a host couldn't begin a round.
pub(crate) fn raced<R: Threads + Wait + Sync>(
    rt: &R,
    alloc: Global,
    race: &Race,
) -> Result<Core, RaceFault>
    ensures config { IfOk result (λ core. core.config ≡ race_config race.now) }
    ensures slots { IfOk result (λ core. KeepsSlots (race_config race.now) (slots_of race.now) core.past) }
    ensures rounds { IfOk result
        (λ core. HasRounds (race_config race.now) (slots_of race.now) race.now.rounds core.past) }
    ensures early { IfErr result IsEarly }
{
    let play = play_of(race);
    let (system, callers) = system_of(alloc, play.config, OpenGate, race.workers)?;
    let room = room_for(alloc, &play, race.workers)?;
    let queues = play.config.numbers().pairs;
    let callers = all_threads(rt, alloc, &system, &play, queues, callers, race.workers)?;
    Ok(closed(system, &play, callers, room))
}
