//! The hosts that died are fenced.

ghost use Rattle.std.specs.Prelude.{◌+◌, ◌≡◌, ◌≤◌, ◌<◌, All, IfOk, vec_len};
ghost use Rattle.std.specs.Vec.{vec_capacity};
ghost use Rattle.race.specs.Racers.{AreRacers, IsRacer};
ghost use Rattle.race.specs.Fates.{is_dead};
ghost use Rattle.race.specs.Survivors.{IsParty, is_fenced};

use crate::fate::Fate;
use crate::racers::{Racer, last_racer};
use crate::survivor::{Party, Survivor, SweepStage};
use hosts::OpenGate;
use race_hosts::Play;
use shared_system::System;
use std::alloc::{AllocError as NoMemory, Global};

// What is left of a host: a dead one is fenced, since its driver is taken from it and gone. A host that lives isn't.
fn party_of<'a>(
    _system: &System<OpenGate>,
    _play: &Play,
    _fates: &[Fate],
    _servers: usize,
    fate: Fate,
    racer: Racer<'a>,
) -> Party<'a>
    requires racer { IsRacer _system.now _play.now _servers racer }
    ensures party { IsParty _system.now _play.now _fates.now result }
    ensures fenced { is_fenced result ≡ is_dead fate }
{
    let Racer { host, rounds: _ } = racer;
    if fate.is_dead() {
        return Party::Fenced(host.into_caller());
    }
    Party::Survives(Survivor {
        host,
        slot: 0,
        stage: SweepStage::Asks,
    })
}

// One party more.
fn put_party<'a>(
    _system: &System<OpenGate>,
    _play: &Play,
    _fates: &[Fate],
    parties: &mut Vec<Party<'a>>,
    party: Party<'a>,
)
    requires parties { All (IsParty _system.now _play.now _fates.now) parties.old.items }
    requires party { IsParty _system.now _play.now _fates.now party }
    requires room { vec_len parties.old < vec_capacity parties.old }
    ensures parties { All (IsParty _system.now _play.now _fates.now) parties.new.items }
    ensures len { vec_len parties.new ≡ vec_len parties.old + 1 }
    ensures capacity { vec_capacity parties.new ≡ vec_capacity parties.old }
{
    parties.push_reserved(party);
}

/// What is left of each host, that of the last one first: those that died are fenced.
///
/// # Errors
///
/// `NoMemory` where a growth is refused.
pub(crate) fn parties_of<'a>(
    alloc: Global,
    system: &System<OpenGate>,
    play: &Play,
    fates: &Vec<Fate>,
    servers: usize,
    mut racers: Vec<Racer<'a>>,
) -> Result<Vec<Party<'a>>, NoMemory>
    requires racers { AreRacers system.now play.now servers racers.items }
    requires fates { vec_len racers ≤ vec_len fates.now }
    ensures parties { IfOk result (λ p. All (IsParty system.now play.now fates.now.items) p.items) }
    ensures count { IfOk result (λ p. vec_len p ≡ vec_len racers.entry) }
{
    let count = racers.len();
    let mut parties = Vec::with_capacity(alloc, count)?;
    for _ in 0..count {
        let racer = last_racer(system, play, servers, &mut racers);
        let fate = fates[racers.len()];
        let party = party_of(system, play, fates.as_slice(), servers, fate, racer);
        put_party(system, play, fates.as_slice(), &mut parties, party);
    }
    Ok(parties)
}
