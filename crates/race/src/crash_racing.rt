//! The turns of a race up to the end of its rounds, some of whose hosts die.

ghost use Rattle.std.specs.Prelude.{◌≡◌, OnOk, true, vec_len};
ghost use Rattle.race.specs.Drawing.{IsActorIn};
ghost use Rattle.race.specs.Racers.{AreAllRacers};
ghost use Rattle.race.specs.Fates.{is_dead_actor};

use crate::drawing::{Actor, next_actor};
use crate::fate::{Fate, makes_turn};
use crate::racers::{Racer, Racers};
use crate::scene::Scene;
use crate::seeded_racing::turn_of;
use race_numbers::Bias;
use random_script::RandomNumbers;
use std::alloc::AllocError as NoMemory;
use std::sync::Wait;

// Whether this host is dead, or lives and its rounds are over.
fn is_over(fate: Fate, racer: &Racer<'_>) -> bool {
    match fate {
        Fate::Lives => racer.rounds.are_over(),
        Fate::Dies(turns) => turns == 0,
    }
}

// Whether all who live have made their rounds, and the others are dead.
fn are_all_over(fates: &Vec<Fate>, racers: &Vec<Racer<'_>>) -> bool
    requires { vec_len fates.now ≡ vec_len racers.now }
{
    for place in 0..racers.len() {
        if !is_over(fates[place], &racers[place]) {
            return false;
        }
    }
    true
}

// One turn of a caller, if it isn't a dead host: that makes no further turn, whatever it has in hand.
fn living_turn<R: Wait>(
    rt: &R,
    scene: &Scene<'_>,
    fates: &mut Vec<Fate>,
    racers: &mut Racers<'_>,
    actor: Actor,
    random: &mut RandomNumbers,
) -> Result<(), NoMemory>
    requires racers { AreAllRacers scene.now racers.old }
    requires actor { IsActorIn scene.now.race.now actor }
    requires count { vec_len fates.old ≡ scene.now.race.now.hosts }
    ensures racers { OnOk result (AreAllRacers scene.now racers.new) }
    ensures count { vec_len fates.new ≡ vec_len fates.old }
    ensures dead { is_dead_actor fates.old.items actor ≡ true → racers.new ≡ racers.old }
{
    if !makes_turn(scene.race, fates, actor) {
        return Ok(());
    }
    turn_of(rt, scene, racers, actor, random)
}

/// Turns until all who live have made their rounds, and the others are dead. A draw says whose each is.
///
/// # Errors
///
/// `NoMemory` where a growth is refused, or a host can't begin a round.
pub(crate) fn to_the_crash<R: Wait>(
    rt: &R,
    scene: &Scene<'_>,
    bias: &Bias,
    fates: &mut Vec<Fate>,
    racers: &mut Racers<'_>,
    random: &mut RandomNumbers,
) -> Result<(), NoMemory>
    requires racers { AreAllRacers scene.now racers.old }
    requires count { vec_len fates.old ≡ scene.now.race.now.hosts }
    ensures racers { OnOk result (AreAllRacers scene.now racers.new) }
    ensures count { vec_len fates.new ≡ vec_len fates.old }
{
    for _ in rt.forever() {
        // Survivors wait until the rounds are over, so that what a dead host published is served
        // before a slot is read, and one sweep is enough. No rule of slots asks for it.
        if are_all_over(fates, &racers.hosts) {
            break;
        }
        let actor = next_actor(scene.race, bias, random);
        living_turn(rt, scene, fates, racers, actor, random)?;
    }
    Ok(())
}
