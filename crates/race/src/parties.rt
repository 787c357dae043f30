//! The turns of what is left of a host behind its rounds.

ghost use Rattle.std.specs.Prelude.{◌≡◌, ◌<◌, All, vec_len};
ghost use Rattle.race.specs.Survivors.{IsParty};

use crate::fate::Fate;
use crate::pausing::{forgets, pause};
use crate::survivor::Party;
use crate::sweeping::sweep_turn;
use hosts::OpenGate;
use race_hosts::Play;
use shared_system::System;
use std::alloc::AllocError as NoMemory;
use std::sync::Wait;

// One turn of what is left of a host.
fn party_turn<R: Wait>(
    rt: &R,
    system: &System<OpenGate>,
    play: &Play,
    fates: &[Fate],
    party: &mut Party<'_>,
) -> Result<(), NoMemory>
    requires { IsParty system.now play.now fates.now party.old }
    ensures { IsParty system.now play.now fates.now party.new }
{
    match party {
        Party::Fenced(fenced) => {
            forgets(rt, system, fenced);
            Ok(())
        }
        Party::Survives(survivor) => sweep_turn(rt, system, play, fates, survivor),
    }
}

// One turn of what is left of a host that finds the controller busy.
fn busy_party_turn<R: Wait>(
    rt: &R,
    system: &System<OpenGate>,
    play: &Play,
    _fates: &[Fate],
    party: &mut Party<'_>,
)
    requires { IsParty system.now play.now _fates.now party.old }
    ensures { IsParty system.now play.now _fates.now party.new }
{
    match party {
        Party::Fenced(fenced) => forgets(rt, system, fenced),
        Party::Survives(survivor) => pause(rt, system, play, &mut survivor.host),
    }
}

/// One turn of what is left of the host at this place.
///
/// # Errors
///
/// `NoMemory` where a growth is refused, or a call can't be begun.
pub(crate) fn parts<R: Wait>(
    rt: &R,
    system: &System<OpenGate>,
    play: &Play,
    fates: &[Fate],
    parties: &mut Vec<Party<'_>>,
    place: usize,
) -> Result<(), NoMemory>
    requires parties { All (IsParty system.now play.now fates.now) parties.old.items }
    requires place { place < vec_len parties.old }
    ensures parties { All (IsParty system.now play.now fates.now) parties.new.items }
    ensures count { vec_len parties.new ≡ vec_len parties.old }
{
    party_turn(rt, system, play, fates, &mut parties[place])
}

/// One turn of what is left of the host at this place, which finds the controller busy.
pub(crate) fn busy_parts<R: Wait>(
    rt: &R,
    system: &System<OpenGate>,
    play: &Play,
    fates: &[Fate],
    parties: &mut Vec<Party<'_>>,
    place: usize,
)
    requires parties { All (IsParty system.now play.now fates.now) parties.old.items }
    requires place { place < vec_len parties.old }
    ensures parties { All (IsParty system.now play.now fates.now) parties.new.items }
    ensures count { vec_len parties.new ≡ vec_len parties.old }
{
    busy_party_turn(rt, system, play, fates, &mut parties[place]);
}
