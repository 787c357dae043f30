//! A small configuration that suits a kind.

ghost use Rattle.std.specs.Prelude.{◌<◌, ◌≤◌};
ghost use Rattle.random_script.specs.Configs.{IsSmall, Suits};

use crate::numbers::RandomNumbers;
use crate::script_kind::ScriptKind;
use history::Config;

// A number from the first to the last.
fn between(random: &mut RandomNumbers, first: u16, last: u16) -> u16
    requires ordered { first ≤ last }
    requires small { last < 1000 }
    ensures range { (first ≤ result) × (result ≤ last) }
{
    first + random.below(u32::from(last - first) + 1) as u16
}

// Rings of few slots, so that they are often full.
fn narrow(random: &mut RandomNumbers) -> Config
    ensures small { IsSmall result }
    ensures submissions { result.sq_size ≤ 4 }
    ensures completions { result.cq_size ≤ 4 }
{
    let pairs = between(random, 1, 3);
    let sq = between(random, 3, 4);
    let cq = between(random, 2, 4);
    let jobs = between(random, 1, 4);
    let cqs = between(random, 1, pairs);
    Config::with_cqs(8, 0, 0, 0, 0, pairs, sq, cq, jobs, cqs).unwrap()
}

// Boundaries in most cases, and units of few blocks.
fn bounded(random: &mut RandomNumbers) -> Config
    ensures small { IsSmall result }
    ensures room { 12 ≤ result.blocks }
{
    let awun = between(random, 0, 3);
    let acwu = between(random, 0, 3);
    let nabsn = if random.one_in(4) {
        0
    } else {
        between(random, 3, 6)
    };
    let nabo = between(random, 0, nabsn);
    let blocks = between(random, 12, 40);
    let jobs = between(random, 1, 6);
    Config::new(u32::from(blocks), awun, acwu, nabsn, nabo, 2, 6, 6, jobs).unwrap()
}

// Anything that is small; a fused pair finds room.
fn small(random: &mut RandomNumbers) -> Config
    ensures small { IsSmall result }
    ensures room { 4 ≤ result.sq_size }
{
    let blocks = between(random, 4, 24);
    let awun = between(random, 0, 3);
    let acwu = between(random, 0, 3);
    let nabsn = if random.one_in(2) {
        0
    } else {
        between(random, 3, 5)
    };
    let nabo = between(random, 0, nabsn);
    let pairs = between(random, 1, 3);
    let sq = between(random, 4, 8);
    let cq = between(random, 2, 7);
    let jobs = between(random, 1, 6);
    let cqs = between(random, 1, pairs);
    let blocks = u32::from(blocks);
    Config::with_cqs(blocks, awun, acwu, nabsn, nabo, pairs, sq, cq, jobs, cqs).unwrap()
}

/// A small configuration that suits a kind, for a script of which none is asked for.
pub fn draw_config(random: &mut RandomNumbers, kind: ScriptKind) -> Config
    ensures small { IsSmall result }
    ensures suits { Suits kind result }
{
    match kind {
        ScriptKind::Queues => narrow(random),
        ScriptKind::Units => bounded(random),
        ScriptKind::Single
        | ScriptKind::Pairs
        | ScriptKind::Hostile
        | ScriptKind::Slots
        | ScriptKind::Mixed => small(random),
    }
}
