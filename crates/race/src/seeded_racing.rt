//! The turns of a race.

ghost use Rattle.std.specs.Prelude.{◌≡◌, All, IfErr, IfOk, OnOk, true, vec_len};
ghost use Rattle.random_script.specs.Drawn.{moved_on};
ghost use Rattle.shared_system.specs.Callers.{AreCallersOf};
ghost use Rattle.race_numbers.specs.Races.{race_config};
ghost use Rattle.race.specs.Ended.{HaveCallersEnded};
ghost use Rattle.race.specs.Faults.{IsEarly};
ghost use Rattle.many_host_laws.specs.Closing.{HasRounds, KeepsSlots};
ghost use Rattle.race.specs.Slots.{slots_of};
ghost use Rattle.hosts.specs.Stages.{IsWorkStage};
ghost use Rattle.race.specs.Drawing.{IsActorIn};
ghost use Rattle.race.specs.Racers.{AreAllRacers, AreOver};
ghost use Rattle.nvme_model.specs.Array.{IsRange};

use crate::closing::{closed, room_for};
use crate::drawing::{Actor, next_actor};
use crate::fault::RaceFault;
use crate::play::play_of;
use crate::racers::{Racer, Racers, hosts_back, racers_of};
use crate::scene::Scene;
use crate::servers::{Servers, fetches, works};
use crate::turns::{busy_racer_turn, racer_turn};
use hosts::{FetchStage, OpenGate, WorkStage};
use race_numbers::{Bias, Race};
use random_script::RandomNumbers;
use shared_system::{Callers, System, system_of};
use std::alloc::{AllocError as NoMemory, Global};
use std::sync::Wait;
use step_core::Core;

// A call takes the lock and gives it back before it returns, so on one thread none finds it taken.
// In such a turn the caller's call isn't made.
/// One turn in so many finds the controller busy.
const BUSY: u32 = 8;

// Whether the rounds of all hosts are over.
fn are_all_over(racers: &Vec<Racer<'_>>) -> bool
    ensures { result ≡ true → AreOver racers.now.items }
{
    for racer in racers {
        if !racer.rounds.are_over() {
            return false;
        }
    }
    true
}

// A turn of a caller that finds the controller free.
fn acts<R: Wait>(
    rt: &R,
    scene: &Scene<'_>,
    racers: &mut Racers<'_>,
    actor: Actor,
) -> Result<(), NoMemory>
    requires racers { AreAllRacers scene.now racers.old }
    requires actor { IsActorIn scene.now.race.now actor }
    ensures { OnOk result (AreAllRacers scene.now racers.new) }
{
    match actor {
        Actor::Fetcher => fetches(rt, scene, &mut racers.servers),
        Actor::Worker(k) => works(rt, scene, &mut racers.servers, usize::from(k)),
        Actor::Host(k) => racer_turn(
            rt,
            scene.system,
            scene.play,
            scene.servers(),
            &mut racers.hosts,
            usize::from(k),
        ),
    }
}

// A turn of a caller that finds the controller busy: nothing comes of its call.
fn waits<R: Wait>(rt: &R, scene: &Scene<'_>, racers: &mut Racers<'_>, actor: Actor)
    requires racers { AreAllRacers scene.now racers.old }
    requires actor { IsActorIn scene.now.race.now actor }
    ensures { AreAllRacers scene.now racers.new }
{
    if let Actor::Host(k) = actor {
        busy_racer_turn(
            rt,
            scene.system,
            scene.play,
            scene.servers(),
            &mut racers.hosts,
            usize::from(k),
        );
    }
}

/// One turn of a caller; a draw says whether it finds the controller busy.
///
/// # Errors
///
/// `NoMemory` where a growth is refused, or a round can't be begun.
pub fn turn_of<R: Wait>(
    rt: &R,
    scene: &Scene<'_>,
    racers: &mut Racers<'_>,
    actor: Actor,
    random: &mut RandomNumbers,
) -> Result<(), NoMemory>
    requires racers { AreAllRacers scene.now racers.old }
    requires actor { IsActorIn scene.now.race.now actor }
    ensures racers { OnOk result (AreAllRacers scene.now racers.new) }
    ensures moved { random.new ≡ moved_on random.old }
{
    if random.one_in(BUSY) {
        waits(rt, scene, racers, actor);
        return Ok(());
    }
    acts(rt, scene, racers, actor)
}

// Turns until the rounds of all hosts are over. A draw says whose each is.
fn to_the_end<R: Wait>(
    rt: &R,
    scene: &Scene<'_>,
    bias: &Bias,
    racers: &mut Racers<'_>,
    random: &mut RandomNumbers,
) -> Result<(), NoMemory>
    requires { AreAllRacers scene.now racers.old }
    ensures racers { OnOk result (AreAllRacers scene.now racers.new) }
    ensures over { OnOk result (AreOver racers.new.hosts.items) }
{
    for _ in rt.forever() {
        if are_all_over(&racers.hosts) {
            break;
        }
        let actor = next_actor(scene.race, bias, random);
        turn_of(rt, scene, racers, actor, random)?;
    }
    Ok(())
}

// So many workers that have no Work.
fn idle_workers(
    alloc: Global,
    _system: &System<OpenGate>,
    count: usize,
) -> Result<Vec<WorkStage>, NoMemory>
    ensures idle { IfOk result (λ w. All (IsWorkStage _system.now) w.items) }
    ensures count { IfOk result (λ w. vec_len w ≡ count) }
{
    let mut working = Vec::with_capacity(alloc, count)?;
    for _ in 0..count {
        working.push_reserved(WorkStage::Idle);
    }
    Ok(working)
}

/// All callers of a race, with nothing in hand.
///
/// # Errors
///
/// `NoMemory` where a growth is refused.
pub fn all_racers<'a>(
    alloc: Global,
    scene: &Scene<'a>,
    callers: Callers,
) -> Result<Racers<'a>, NoMemory>
    requires callers { AreCallersOf scene.now.system.now scene.now.play.now.config scene.now.race.now.workers callers }
    requires hosts { scene.now.play.now.config.cqs ≡ scene.now.race.now.hosts }
    requires slots { IsRange scene.now.play.now.slots }
    ensures { IfOk result (AreAllRacers scene.now) }
{
    let Callers {
        fetcher,
        workers,
        hosts,
    } = callers;
    let working = idle_workers(alloc, scene.system, usize::from(scene.race.workers))?;
    let hosts = racers_of(alloc, scene.system, scene.play, scene.servers(), hosts)?;
    let servers = Servers {
        fetcher,
        fetching: FetchStage::Asks(1),
        workers,
        working,
    };
    Ok(Racers { servers, hosts })
}

// All passes of callers whose rounds are over.
fn callers_back(alloc: Global, scene: &Scene<'_>, racers: Racers<'_>) -> Result<Callers, NoMemory>
    requires racers { AreAllRacers scene.now racers }
    requires over { AreOver racers.hosts.items }
    requires hosts { scene.now.play.now.config.cqs ≡ scene.now.race.now.hosts }
    ensures { IfOk result (HaveCallersEnded scene.now.system.now.engine scene.now.play.now scene.now.race.now.workers) }
{
    let Racers { servers, hosts } = racers;
    let Servers {
        fetcher,
        fetching: _,
        workers,
        working: _,
    } = servers;
    let hosts = hosts_back(alloc, scene.system, scene.play, scene.servers(), hosts)?;
    Ok(Callers {
        fetcher,
        workers,
        hosts,
    })
}

// All turns. The passes come back, in the order in which they were given.
fn all_turns<R: Wait>(
    rt: &R,
    alloc: Global,
    scene: &Scene<'_>,
    bias: &Bias,
    seed: u64,
    callers: Callers,
) -> Result<Callers, NoMemory>
    requires callers { AreCallersOf scene.now.system.now scene.now.play.now.config scene.now.race.now.workers callers }
    requires config { scene.now.play.now.config ≡ race_config scene.now.race.now }
    requires slots { IsRange scene.now.play.now.slots }
    ensures { IfOk result (HaveCallersEnded scene.now.system.now.engine scene.now.play.now scene.now.race.now.workers) }
{
    let mut random = RandomNumbers::from_seed(seed);
    let mut racers = all_racers(alloc, scene, callers)?;
    to_the_end(rt, scene, bias, &mut racers, &mut random)?;
    callers_back(alloc, scene, racers)
}

/// The controller after a race by turns: its history keeps the slots, and has all rounds of each host.
///
/// # Errors
///
/// `NoMemory` where a growth was refused or a host couldn't begin a round.
pub(crate) fn raced<R: Wait>(
    rt: &R,
    alloc: Global,
    race: &Race,
    bias: &Bias,
    seed: u64,
) -> Result<Core, RaceFault>
    ensures config { IfOk result (λ core. core.config ≡ race_config race.now) }
    ensures slots { IfOk result (λ core. KeepsSlots (race_config race.now) (slots_of race.now) core.past) }
    ensures rounds { IfOk result
        (λ core. HasRounds (race_config race.now) (slots_of race.now) race.now.rounds core.past) }
    ensures early { IfErr result IsEarly }
{
    let play = play_of(race);
    let (system, callers) = system_of(alloc, play.config, OpenGate, race.workers)?;
    let room = room_for(alloc, &play, race.workers)?;
    let scene = Scene {
        system: &system,
        play: &play,
        race,
        queues: race.hosts * race.queues,
    };
    let callers = all_turns(rt, alloc, &scene, bias, seed, callers)?;
    Ok(closed(system, &play, callers, room))
}
