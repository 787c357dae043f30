//! The turns of a race behind the rounds of its hosts: those that live go over the slots.

ghost use Rattle.std.specs.Prelude.{◌≡◌, All, IfOk, vec_len};
ghost use Rattle.race.specs.Drawing.{IsActorIn};
ghost use Rattle.race.specs.Racers.{AreAllRacers};
ghost use Rattle.race.specs.Survivors.{AreAllParties, IsParty};

use crate::drawing::{Actor, next_actor};
use crate::fate::Fate;
use crate::fencing::parties_of;
use crate::parties::{busy_parts, parts};
use crate::racers::Racers;
use crate::scene::Scene;
use crate::servers::{Servers, asks_each, fetches, works, works_each};
use crate::survivor::Party;
use race_numbers::Bias;
use random_script::RandomNumbers;
use std::alloc::{AllocError as NoMemory, Global};
use std::sync::Wait;

/// One turn in so many finds the controller busy.
const BUSY: u32 = 8;

/// All callers, each with what it has in hand.
#[derive(Drop)]
pub(crate) struct Sweep<'a> {
    pub servers: Servers,
    /// What is left of the hosts, of the last one first.
    pub parties: Vec<Party<'a>>,
}

/// What is left of a race behind its rounds: the hosts that died are fenced.
///
/// # Errors
///
/// `NoMemory` where a growth is refused.
pub(crate) fn sweep_of<'a>(
    alloc: Global,
    scene: &Scene<'_>,
    fates: &Vec<Fate>,
    racers: Racers<'a>,
) -> Result<Sweep<'a>, NoMemory>
    requires racers { AreAllRacers scene.now racers }
    requires fates { vec_len fates.now ≡ scene.now.race.now.hosts }
    ensures { IfOk result (AreAllParties scene.now fates.now.items) }
{
    let Racers { servers, hosts } = racers;
    let count = scene.servers();
    let parties = parties_of(alloc, scene.system, scene.play, fates, count, hosts)?;
    Ok(Sweep { servers, parties })
}

// One turn of a caller that finds the controller free.
fn acts<R: Wait>(
    rt: &R,
    scene: &Scene<'_>,
    fates: &[Fate],
    sweep: &mut Sweep<'_>,
    actor: Actor,
) -> Result<(), NoMemory>
    requires sweep { AreAllParties scene.now fates.now sweep.old }
    requires actor { IsActorIn scene.now.race.now actor }
    ensures { AreAllParties scene.now fates.now sweep.new }
{
    match actor {
        Actor::Fetcher => fetches(rt, scene, &mut sweep.servers),
        Actor::Worker(k) => works(rt, scene, &mut sweep.servers, usize::from(k)),
        Actor::Host(k) => parts(
            rt,
            scene.system,
            scene.play,
            fates,
            &mut sweep.parties,
            usize::from(k),
        ),
    }
}

// One turn of a caller that finds the controller busy.
fn waits<R: Wait>(rt: &R, scene: &Scene<'_>, fates: &[Fate], sweep: &mut Sweep<'_>, actor: Actor)
    requires sweep { AreAllParties scene.now fates.now sweep.old }
    requires actor { IsActorIn scene.now.race.now actor }
    ensures { AreAllParties scene.now fates.now sweep.new }
{
    if let Actor::Host(k) = actor {
        busy_parts(
            rt,
            scene.system,
            scene.play,
            fates,
            &mut sweep.parties,
            usize::from(k),
        );
    }
}

// Whether no host has a slot before it.
fn are_all_over(parties: &Vec<Party<'_>>, slots: u32) -> bool {
    for party in parties {
        let is_over = match party {
            Party::Fenced(_) => true,
            Party::Survives(survivor) => survivor.is_over(slots),
        };
        if !is_over {
            return false;
        }
    }
    true
}

/// Turns until each survivor went over all slots. A draw says whose each is, and another whether the controller is then
/// busy.
///
/// # Errors
///
/// `NoMemory` where a growth is refused, or a call can't be begun.
pub(crate) fn sweeps<R: Wait>(
    rt: &R,
    scene: &Scene<'_>,
    bias: &Bias,
    fates: &[Fate],
    sweep: &mut Sweep<'_>,
    random: &mut RandomNumbers,
) -> Result<(), NoMemory>
    requires { AreAllParties scene.now fates.now sweep.old }
    ensures { AreAllParties scene.now fates.now sweep.new }
{
    for _ in rt.forever() {
        if are_all_over(&sweep.parties, scene.race.slots) {
            break;
        }
        let actor = next_actor(scene.race, bias, random);
        if random.one_in(BUSY) {
            waits(rt, scene, fates, sweep, actor);
        } else {
            acts(rt, scene, fates, sweep, actor)?;
        }
    }
    Ok(())
}

// What is left of each host learns the next notice.
fn hears_each<R: Wait>(rt: &R, scene: &Scene<'_>, fates: &[Fate], parties: &mut Vec<Party<'_>>)
    requires { All (IsParty scene.now.system.now scene.now.play.now fates.now) parties.old.items }
    ensures parties { All (IsParty scene.now.system.now scene.now.play.now fates.now) parties.new.items }
    ensures count { vec_len parties.new ≡ vec_len parties.old }
{
    for place in 0..parties.len() {
        busy_parts(rt, scene.system, scene.play, fates, parties, place);
    }
}

/// Serves what was published to its end. Once nobody has a Work, the fetcher finds none in any submission queue, and no
/// worker in the queue of Works, nothing is left.
///
/// # Errors
///
/// `NoMemory` where a growth is refused.
pub(crate) fn drains<R: Wait>(
    rt: &R,
    scene: &Scene<'_>,
    fates: &[Fate],
    sweep: &mut Sweep<'_>,
) -> Result<(), NoMemory>
    requires { AreAllParties scene.now fates.now sweep.old }
    ensures { AreAllParties scene.now fates.now sweep.new }
{
    for _ in rt.forever() {
        let asked = asks_each(rt, scene, &mut sweep.servers)?;
        let worked = works_each(rt, scene, &mut sweep.servers)?;
        hears_each(rt, scene, fates, &mut sweep.parties);
        if asked && worked {
            break;
        }
    }
    Ok(())
}
