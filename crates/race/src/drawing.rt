//! Who makes the next turn.

ghost use Rattle.std.specs.Prelude.{◌≡◌, ◌≤◌, ◌%◌};
ghost use Rattle.random_script.specs.Drawn.{drawn_word, moved_on};
ghost use Rattle.race.specs.Drawing.{IsActorIn, actor_of, weight_of_all};

use race_numbers::{Bias, Race};
use random_script::RandomNumbers;

/// Who makes a turn.
#[derive(Clone, Copy, Debug, PartialEq, Eq)]
pub enum Actor {
    Fetcher,
    /// The worker at this place.
    Worker(u16),
    /// The host at this place.
    Host(u16),
}

// The weights of all together.
fn weight(race: &Race, bias: &Bias) -> u32
    ensures value { result ≡ weight_of_all race.now bias.now }
    ensures some { 1 ≤ result }
{
    let workers = u32::from(bias.worker) * u32::from(race.workers);
    let hosts = u32::from(bias.host) * u32::from(race.hosts);
    u32::from(bias.fetcher) + workers + hosts
}

// Who has this number, of those below the weights of all: the fetcher the first ones, then the workers in turn, then
// the hosts.
fn actor_at(race: &Race, bias: &Bias, n: u32) -> Actor
    ensures value { result ≡ actor_of race.now bias.now n }
    ensures inside { IsActorIn race.now result }
{
    let fetcher = u32::from(bias.fetcher);
    if n < fetcher {
        return Actor::Fetcher;
    }
    let n = n - fetcher;
    if n < u32::from(bias.worker) * u32::from(race.workers) {
        return Actor::Worker((n % u32::from(race.workers)) as u16);
    }
    Actor::Host((n % u32::from(race.hosts)) as u16)
}

/// Draws who makes the next turn, each by its weight.
pub fn next_actor(race: &Race, bias: &Bias, random: &mut RandomNumbers) -> Actor
    ensures value { result ≡ actor_of race.now bias.now (drawn_word random.old % weight_of_all race.now bias.now) }
    ensures moved { random.new ≡ moved_on random.old }
    ensures inside { IsActorIn race.now result }
{
    let n = random.below(weight(race, bias));
    actor_at(race, bias, n)
}
