//! Which hosts of a race die, and when.

ghost use Rattle.std.specs.Prelude.{◌≡◌, ◌≤◌, ◌<◌, All, IfOk, not, slice_get, vec_len};
ghost use Rattle.race.specs.Fates.{IsFateIn, is_dead, is_dead_actor, is_dead_fate};
ghost use Rattle.race.specs.Drawing.{IsActorIn};

use crate::drawing::Actor;
use race_numbers::Race;
use random_script::RandomNumbers;
use std::alloc::{AllocError as NoMemory, Global};

/// What becomes of a host.
#[derive(Clone, Copy, Debug, PartialEq, Eq)]
pub(crate) enum Fate {
    Lives,
    /// It stops once it has made so many turns more.
    Dies(u32),
}

/// So many turns a round, at the most, until a host dies.
const TURNS: u32 = 8;

// What becomes of a host that is among so many of whom so many are to die.
fn fate_of(race: &Race, dying: u16, hosts: u16, random: &mut RandomNumbers) -> Fate
    requires some { 1 ≤ hosts }
    ensures dies { dying ≡ 0 → result ≡ Fate.Lives }
    ensures turns { IsFateIn race.now result }
{
    if random.below(u32::from(hosts)) < u32::from(dying) {
        Fate::Dies(1 + random.below(TURNS * race.rounds))
    } else {
        Fate::Lives
    }
}

/// Draws which hosts die, so many of them, each after at most eight turns a round of the race.
///
/// # Errors
///
/// `NoMemory` where a growth is refused.
pub(crate) fn fates_of(
    alloc: Global,
    race: &Race,
    crash: u16,
    random: &mut RandomNumbers,
) -> Result<Vec<Fate>, NoMemory>
    ensures count { IfOk result (λ f. vec_len f ≡ race.now.hosts) }
    ensures each { IfOk result (λ f. All (IsFateIn race.now) f.items) }
{
    let mut dying = crash;
    let mut fates = Vec::with_capacity(alloc, usize::from(race.hosts))?;
    for k in 0..race.hosts {
        let fate = fate_of(race, dying, race.hosts - k, random);
        if fate != Fate::Lives {
            dying = dying.saturating_sub(1);
        }
        fates.push_reserved(fate);
    }
    Ok(fates)
}

impl Fate {
    /// Whether the host makes no further turn.
    pub(crate) fn is_dead(self) -> bool
        ensures value { result ≡ is_dead self }
    {
        match self {
            Fate::Lives => false,
            Fate::Dies(turns) => turns == 0,
        }
    }

    // The same behind one turn more.
    fn later(self) -> Fate {
        match self {
            Fate::Lives => Fate::Lives,
            Fate::Dies(turns) => Fate::Dies(turns.saturating_sub(1)),
        }
    }
}

/// Whether the host of this place is there and dead.
pub(crate) fn is_dead_at(fates: &[Fate], place: usize) -> bool
    ensures value { result ≡ is_dead_fate (slice_get fates.now place) }
{
    match fates.get(place) {
        Some(fate) => fate.is_dead(),
        None => false,
    }
}

// One turn of the host of this place is counted.
fn count_turn(fates: &mut Vec<Fate>, place: usize)
    requires place { place < vec_len fates.old }
    ensures count { vec_len fates.new ≡ vec_len fates.old }
{
    let fate = fates[place];
    fates[place] = fate.later();
}

/// Whether this caller makes its turn: each does but a dead host. The turns of a host that dies are counted.
pub(crate) fn makes_turn(race: &Race, fates: &mut Vec<Fate>, actor: Actor) -> bool
    requires actor { IsActorIn race.now actor }
    requires count { vec_len fates.old ≡ race.now.hosts }
    ensures value { result ≡ not (is_dead_actor fates.old.items actor) }
    ensures count { vec_len fates.new ≡ vec_len fates.old }
{
    let Actor::Host(k) = actor else {
        return true;
    };
    let place = usize::from(k);
    if is_dead_at(fates.as_slice(), place) {
        return false;
    }
    count_turn(fates, place);
    true
}
