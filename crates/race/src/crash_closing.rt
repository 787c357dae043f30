//! All turns of a race, and its controller behind them.

ghost use Rattle.std.specs.Prelude.{◌+◌, ◌≡◌, IfErr, IfOk, IfSome};
ghost use Rattle.shared_system.specs.Callers.{AreCallersOf};
ghost use Rattle.race_numbers.specs.Races.{race_config};
ghost use Rattle.race.specs.Racers.{IsRaceFetcher};
ghost use Rattle.race.specs.Crashes.{IsUnraced};
ghost use Rattle.nvme_model.specs.Array.{IsRange};

use crate::crash_fault::CrashFault;
use crate::crash_racing::to_the_crash;
use crate::fate::fates_of;
use crate::play::play_of;
use crate::scene::Scene;
use crate::seeded_racing::all_racers;
use crate::swept::{drains, sweep_of, sweeps};
use hosts::OpenGate;
use race_hosts::Play;
use race_numbers::{Bias, Race};
use random_script::RandomNumbers;
use shared_system::{CallerPasses, Callers, System, system_of};
use std::alloc::{AllocError as NoMemory, Global};
use std::sync::Wait;
use step_core::Core;

// All turns: those of the race, and then those of the survivors. The fetcher's passes come back.
fn all_turns<R: Wait>(
    rt: &R,
    alloc: Global,
    scene: &Scene<'_>,
    bias: &Bias,
    crash: u16,
    seed: u64,
    callers: Callers,
) -> Result<CallerPasses, NoMemory>
    requires callers { AreCallersOf scene.now.system.now scene.now.play.now.config scene.now.race.now.workers callers }
    requires config { scene.now.play.now.config ≡ race_config scene.now.race.now }
    requires slots { IsRange scene.now.play.now.slots }
    ensures { IfOk result (IsRaceFetcher scene.now.system.now scene.now.play.now (scene.now.race.now.workers + 1)) }
{
    let mut random = RandomNumbers::from_seed(seed);
    let mut fates = fates_of(alloc, scene.race, crash, &mut random)?;
    let mut racers = all_racers(alloc, scene, callers)?;
    to_the_crash(rt, scene, bias, &mut fates, &mut racers, &mut random)?;
    let mut sweep = sweep_of(alloc, scene, &fates, racers)?;
    let fates = fates.as_slice();
    drains(rt, scene, fates, &mut sweep)?;
    sweeps(rt, scene, bias, fates, &mut sweep, &mut random)?;
    let servers = sweep.servers;
    Ok(servers.fetcher)
}

// The controller, closed. None where the lock wasn't free.
fn closed(
    system: System<OpenGate>,
    _play: &Play,
    _race: &Race,
    fetcher: CallerPasses,
) -> Option<Core>
    requires { IsRaceFetcher system _play.now (_race.now.workers + 1) fetcher }
    ensures { IfSome result (λ core. core.config ≡ _play.now.config) }
{
    let System { engine, .. } = system;
    engine.close(fetcher.pass)
}

/// The controller behind all turns of a race some of whose hosts die.
///
/// # Errors
///
/// `NoMemory` where a growth was refused or a host couldn't begin a call; `NoHistory` where the controller wasn't given
/// back.
pub(crate) fn raced<R: Wait>(
    rt: &R,
    alloc: Global,
    race: &Race,
    bias: &Bias,
    crash: u16,
    seed: u64,
) -> Result<Core, CrashFault>
    ensures config { IfOk result (λ core. core.config ≡ race_config race.now) }
    ensures unraced { IfErr result IsUnraced }
{
    let play = play_of(race);
    let (system, callers) = system_of(alloc, play.config, OpenGate, race.workers)?;
    let scene = Scene {
        system: &system,
        play: &play,
        race,
        queues: race.hosts * race.queues,
    };
    let fetcher = all_turns(rt, alloc, &scene, bias, crash, seed, callers)?;
    closed(system, &play, race, fetcher).ok_or(CrashFault::NoHistory)
}
