//! Sixteen hosts on one slot, each served in a random order.

ghost use Rattle.std.specs.Prelude.{◌≡◌, ◌<◌, All, IfOk, IfSome};
ghost use Rattle.shared_system.specs.Plain.{ArePlainCallers, IsPlainCallerOf};
ghost use Rattle.driver_testing.specs.Claimants.{IsClaimant};
ghost use Rattle.slot_alloc.specs.Areas.{area};

use crate::rows::closes;
use driver_testing::{Came, Claimant, ClaimantStage, answered, asks, claimant_of, gives_back};
use history::Config;
use shared_system::{PlainCaller, PlainCallers, PlainSystem, plain_system_of, take_caller};
use slot_alloc::Slots;
use std::alloc::Global;
use std::mem;
use std::process::Abort;
use std::sync::Wait;
use std::test::Fail;

const HOSTS: u16 = 16;

// Numbers that look random, from a seed that isn't 0.
#[derive(Drop)]
struct Random {
    state: u64,
}

impl Random {
    // One below `count`; 0 where that is 0.
    fn below(&mut self, count: usize) -> usize {
        self.state ^= self.state << 13;
        self.state ^= self.state >> 7;
        self.state ^= self.state << 17;
        let all = count as u64;
        if all == 0 {
            return 0;
        }
        (self.state % all) as usize
    }
}

// What came of all claims and releases.
#[derive(Clone, Copy, Debug)]
struct Tally {
    // Those whose last answer was that they hold the slot, and that haven't begun to release it.
    holders: u32,
    held: u32,
    taken: u32,
    released: u32,
}

const NONE: Tally = Tally {
    holders: 0,
    held: 0,
    taken: 0,
    released: 0,
};

// A system of `config 8 1 1 0 0 16 4 4 32`, with passes for a server and each host.
fn wide(alloc: Global) -> Result<(PlainSystem, PlainCallers), Fail>
    ensures own { IfOk result (λ b. ArePlainCallers b.0 b.1) }
    ensures queues { IfOk result (λ b. (b.0.config.pairs ≡ 16) × (b.0.config.cqs ≡ 16)) }
{
    let Ok(config) = Config::new(8, 1, 1, 0, 0, 16, 4, 4, 32) else {
        return Err(Fail::from("the configuration is refused"));
    };
    Ok(plain_system_of(alloc, config, 4, 17)?)
}

// The hosts of a round, and what came of all rounds.
#[derive(Drop)]
struct Crowd<'a> {
    waiting: Vec<Claimant<'a>>,
    // Those that had their turn.
    done: Vec<Claimant<'a>>,
    random: Random,
    tally: Tally,
}

// Puts one claimant to the others.
fn joins<'a>(
    _system: &PlainSystem,
    _slots: &Slots,
    all: &mut Vec<Claimant<'a>>,
    claimant: Claimant<'a>,
) -> Result<(), Fail>
    requires all { All (IsClaimant _system.now _slots.now) all.old.items }
    requires claimant { IsClaimant _system.now _slots.now claimant }
    ensures { All (IsClaimant _system.now _slots.now) all.new.items }
{
    all.push(claimant)?;
    Ok(())
}

// Takes one claimant away from the others.
fn leaves<'a>(
    _system: &PlainSystem,
    _slots: &Slots,
    all: &mut Vec<Claimant<'a>>,
    place: usize,
) -> Option<Claimant<'a>>
    requires { All (IsClaimant _system.now _slots.now) all.old.items }
    ensures rest { All (IsClaimant _system.now _slots.now) all.new.items }
    ensures one { IfSome result (IsClaimant _system.now _slots.now) }
{
    if place >= all.len() {
        return None;
    }
    Some(all.swap_remove(place))
}

// All hosts.
fn hosts<'a>(
    alloc: Global,
    system: &'a PlainSystem,
    spares: &mut PlainCallers,
    slots: &Slots,
) -> Result<Vec<Claimant<'a>>, Fail>
    requires own { ArePlainCallers system.now spares.old }
    requires queues { (system.now.config.pairs ≡ 16) × (system.now.config.cqs ≡ 16) }
    requires slots { area slots.now ≡ record { slba = 0; blocks = 1 } }
    ensures { IfOk result (λ all. All (IsClaimant system.entry.now slots.now) all.items) }
{
    let mut all = Vec::new(alloc);
    for h in 1..=HOSTS {
        let Some(caller) = take_caller(system, spares) else {
            return Err(Fail::from("a host"));
        };
        let Some(one) = claimant_of(alloc, system, caller, h, slots, 1) else {
            return Err(Fail::from("a host"));
        };
        joins(system, slots, &mut all, one)?;
    }
    Ok(all)
}

// What a host does at its turn: it begins a claim, or the release of the slot that it holds, or is served until it is
// told what came of that.
fn turn<R: Abort + Wait>(
    rt: &R,
    system: &PlainSystem,
    server: &mut PlainCaller,
    slots: &Slots,
    claimant: &mut Claimant<'_>,
    tally: &mut Tally,
)
    requires server { IsPlainCallerOf system.now server.old }
    requires claimant { IsClaimant system.now slots.now claimant.old }
    requires slots { area slots.now ≡ record { slba = 0; blocks = 1 } }
    ensures server { IsPlainCallerOf system.now server.new }
    ensures claimant { IsClaimant system.now slots.now claimant.new }
{
    let came = match claimant.stage {
        ClaimantStage::Idle => asks(system, slots, claimant, Some(0)),
        ClaimantStage::Holding(_) => {
            tally.holders = tally.holders.saturating_sub(1);
            gives_back(system, slots, claimant)
        }
        ClaimantStage::Claiming(_) | ClaimantStage::Releasing(_) => {
            answered(rt, system, server, slots, claimant, 2)
        }
    };
    match came {
        Came::Begun => {}
        Came::Held(0) => {
            tally.holders = tally.holders.saturating_add(1);
            tally.held = tally.held.saturating_add(1);
        }
        Came::Taken => tally.taken = tally.taken.saturating_add(1),
        Came::Released => tally.released = tally.released.saturating_add(1),
        Came::Nothing
        | Came::Refused(_)
        | Came::Pending
        | Came::Later(_)
        | Came::Held(_)
        | Came::AllTaken
        | Came::Failed(_) => panic!(rt; "told {came:?}"),
    }
    assert!(rt; tally.holders <= 1, "two hosts hold the slot");
}

// Each host that waits has its turn once, in a random order, and then waits for the next round.
fn round<R: Abort + Wait>(
    rt: &R,
    system: &PlainSystem,
    server: &mut PlainCaller,
    slots: &Slots,
    crowd: &mut Crowd<'_>,
) -> Result<(), Fail>
    requires server { IsPlainCallerOf system.now server.old }
    requires waiting { All (IsClaimant system.now slots.now) crowd.old.waiting.items }
    requires done { All (IsClaimant system.now slots.now) crowd.old.done.items }
    requires slots { area slots.now ≡ record { slba = 0; blocks = 1 } }
    ensures server { IsPlainCallerOf system.now server.new }
    ensures waiting { All (IsClaimant system.now slots.now) crowd.new.waiting.items }
    ensures done { All (IsClaimant system.now slots.now) crowd.new.done.items }
{
    for _ in 0..HOSTS {
        let place = crowd.random.below(crowd.waiting.len());
        let Some(mut claimant) = leaves(system, slots, &mut crowd.waiting, place) else {
            return Err(Fail::from("a host"));
        };
        turn(rt, system, server, slots, &mut claimant, &mut crowd.tally);
        joins(system, slots, &mut crowd.done, claimant)?;
    }
    mem::swap(&mut crowd.waiting, &mut crowd.done);
    Ok(())
}

// So many rounds.
fn plays<R: Abort + Wait>(
    rt: &R,
    system: &PlainSystem,
    server: &mut PlainCaller,
    slots: &Slots,
    crowd: &mut Crowd<'_>,
    count: u32,
) -> Result<(), Fail>
    requires server { IsPlainCallerOf system.now server.old }
    requires waiting { All (IsClaimant system.now slots.now) crowd.old.waiting.items }
    requires done { All (IsClaimant system.now slots.now) crowd.old.done.items }
    requires slots { area slots.now ≡ record { slba = 0; blocks = 1 } }
    ensures { IsPlainCallerOf system.now server.new }
{
    for _ in 0..count {
        round(rt, system, server, slots, crowd)?;
    }
    Ok(())
}

// The server after so many rounds, and what came of them.
fn served<R: Abort + Wait>(
    rt: &R,
    alloc: Global,
    system: &PlainSystem,
    spares: &mut PlainCallers,
    seed: u64,
    count: u32,
) -> Result<(PlainCaller, Tally), Fail>
    requires own { ArePlainCallers system.now spares.old }
    requires queues { (system.now.config.pairs ≡ 16) × (system.now.config.cqs ≡ 16) }
    ensures { IfOk result (λ s. IsPlainCallerOf system.now s.0) }
{
    let Some(mut server) = take_caller(system, spares) else {
        return Err(Fail::from("a server"));
    };
    let slots = Slots::new(0, 1);
    let mut crowd = Crowd {
        waiting: hosts(alloc, system, spares, &slots)?,
        done: Vec::new(alloc),
        random: Random { state: seed },
        tally: NONE,
    };
    plays(rt, system, &mut server, &slots, &mut crowd, count)?;
    Ok((server, crowd.tally))
}

// A thousand rounds: never two hosts hold the slot, and the history is legal.
#[test]
fn one_of_sixteen_hosts_holds_the_slot(rt: HostRuntime) -> Result<(), Fail> {
    let (system, mut spares) = wide(rt.alloc())?;
    let seed = 0x9e37_79b9_7f4a_7c15;
    let (server, tally) = served(&rt, rt.alloc(), &system, &mut spares, seed, 1_000)?;
    assert!(rt;
        tally.held > 0 && tally.taken > 0 && tally.released > 0,
        "{tally:?}"
    );
    closes(&rt, rt.alloc(), system, server, &[])
}
