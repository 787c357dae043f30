//! One run of one thread through all calls of a driver and of slots, and through both kinds of queue: two hosts, a
//! fetcher and a worker, each with passes of its own.

ghost use Rattle.std.specs.Prelude.{◌≡◌, ◌<◌, ◌≤◌, IfOk};
ghost use Rattle.work_queue.specs.Engines.{IsPassOfEngine};
ghost use Rattle.driver_cas.specs.Drivers.{IsCallOf};
ghost use Rattle.shared_system.specs.Plain.{ArePlainCallers};
ghost use Rattle.driver_testing.specs.Claimants.{IsClaimant, IsClaimantReady};
ghost use Rattle.slot_alloc.specs.Areas.{area};
ghost use Rattle.driver_tests.specs.Crews.{AreCrewOf};

use crate::crews::{ServerPair, crew_of, crew_serves};
use driver_cas::{Call, SharedPort};
use driver_testing::{
    AnswerWords, Ask, Came, Claimant, ClaimantStage, Fill, TestHost, asks, begins_call,
    claimant_of, gives_back, hears_all, leaves, meets, meets_server, polls_begun, polls_call,
    small_system,
};
use history_check::check;
use meet_lock::Pass;
use shared_system::{PlainCallers, PlainSystem, take_caller};
use slot_alloc::Slots;
use std::alloc::Global;
use std::process::Abort;
use std::sync::Wait;
use std::test::Fail;
use step_core::Core;

/// What a host does.
#[derive(Clone, Copy)]
enum Deed {
    /// A call, told so.
    Asks(Ask, AnswerWords),
    /// Claims slot 0; this comes of it.
    Claims(Came),
    /// Claims any slot.
    ClaimsAny(Came),
    Releases,
    /// Leaves its slot: this one, under this serial.
    Leaves(u32, u64),
    /// Meets the worker.
    Meets,
}

/// Which host does it, or both.
#[derive(Clone, Copy)]
enum HostsTurn {
    One(Deed),
    Two(Deed),
    /// They meet, and neither is Busy.
    Meet,
}

// What a call that was begun is told, polled at most twice.
fn told<'a>(
    system: &PlainSystem,
    slots: &Slots,
    host: &mut TestHost<'a>,
    call: Call<SharedPort<'a>>,
) -> AnswerWords
    requires ready { IsClaimantReady system.now slots.now host.old }
    requires call { IsCallOf host.old.driver call }
    ensures { IsClaimantReady system.now slots.now host.new }
{
    let (told, back) = polls_call(system, slots, host, call);
    let Some(call) = back else {
        return told;
    };
    polls_call(system, slots, host, call).0
}

// What a call is told, once it is served; None where it isn't begun.
fn asked<R: Abort + Wait>(
    rt: &R,
    system: &PlainSystem,
    crew: &mut ServerPair,
    slots: &Slots,
    claimant: &mut Claimant<'_>,
    ask: Ask,
) -> Option<AnswerWords>
    requires crew { AreCrewOf system.now crew.old.fetcher crew.old.worker }
    requires claimant { IsClaimant system.now slots.now claimant.old }
    ensures crew { AreCrewOf system.now crew.new.fetcher crew.new.worker }
    ensures claimant { IsClaimant system.now slots.now claimant.new }
{
    claimant.stage = ClaimantStage::Idle;
    let call = begins_call(system, slots, &mut claimant.host, ask)?;
    crew_serves(rt, system, crew, claimant.queue);
    hears_all(rt, system, slots, claimant);
    let told = told(system, slots, &mut claimant.host, call);
    claimant.stage = ClaimantStage::Idle;
    Some(told)
}

// What comes in the end of what was begun, each time served and polled.
fn comes<R: Abort + Wait>(
    rt: &R,
    system: &PlainSystem,
    crew: &mut ServerPair,
    slots: &Slots,
    claimant: &mut Claimant<'_>,
) -> Came
    requires crew { AreCrewOf system.now crew.old.fetcher crew.old.worker }
    requires claimant { IsClaimant system.now slots.now claimant.old }
    ensures crew { AreCrewOf system.now crew.new.fetcher crew.new.worker }
    ensures claimant { IsClaimant system.now slots.now claimant.new }
{
    for _ in 0..8 {
        crew_serves(rt, system, crew, claimant.queue);
        hears_all(rt, system, slots, claimant);
        let came = polls_begun(system, slots, claimant);
        if came != Came::Pending {
            return came;
        }
    }
    Came::Pending
}

// That this comes of what is begun now.
fn ends_so<R: Abort + Wait>(
    rt: &R,
    system: &PlainSystem,
    crew: &mut ServerPair,
    slots: &Slots,
    claimant: &mut Claimant<'_>,
    begun: Came,
    want: Came,
)
    requires crew { AreCrewOf system.now crew.old.fetcher crew.old.worker }
    requires claimant { IsClaimant system.now slots.now claimant.old }
    ensures crew { AreCrewOf system.now crew.new.fetcher crew.new.worker }
    ensures claimant { IsClaimant system.now slots.now claimant.new }
{
    assert_eq!(rt; begun, Came::Begun);
    let came = comes(rt, system, crew, slots, claimant);
    assert_eq!(rt; came, want);
}

// A host does so.
fn does<R: Abort + Wait>(
    rt: &R,
    system: &PlainSystem,
    crew: &mut ServerPair,
    slots: &Slots,
    claimant: &mut Claimant<'_>,
    deed: Deed,
)
    requires crew { AreCrewOf system.now crew.old.fetcher crew.old.worker }
    requires claimant { IsClaimant system.now slots.now claimant.old }
    requires some { 0 < (area slots.now).blocks }
    ensures crew { AreCrewOf system.now crew.new.fetcher crew.new.worker }
    ensures claimant { IsClaimant system.now slots.now claimant.new }
{
    match deed {
        Deed::Asks(ask, told) => {
            let answer = asked(rt, system, crew, slots, claimant, ask);
            let want = Some(told);
            assert_eq!(rt; answer, want);
        }
        Deed::Claims(came) => {
            let begun = asks(system, slots, claimant, Some(0));
            ends_so(rt, system, crew, slots, claimant, begun, came);
        }
        Deed::ClaimsAny(came) => {
            let begun = asks(system, slots, claimant, None);
            ends_so(rt, system, crew, slots, claimant, begun, came);
        }
        Deed::Releases => {
            let begun = gives_back(system, slots, claimant);
            ends_so(rt, system, crew, slots, claimant, begun, Came::Released);
        }
        Deed::Leaves(slot, serial) => {
            let left = leaves(system, slots, claimant);
            let want = Some((slot, serial));
            assert_eq!(rt; left, want);
        }
        Deed::Meets => assert!(rt; meets_server(system, slots, claimant, &mut crew.worker)),
    }
}

// Both do all of this.
fn do_all<R: Abort + Wait>(
    rt: &R,
    system: &PlainSystem,
    crew: &mut ServerPair,
    slots: &Slots,
    one: &mut Claimant<'_>,
    two: &mut Claimant<'_>,
    all: &[HostsTurn],
)
    requires crew { AreCrewOf system.now crew.old.fetcher crew.old.worker }
    requires one { IsClaimant system.now slots.now one.old }
    requires two { IsClaimant system.now slots.now two.old }
    requires some { 0 < (area slots.now).blocks }
    ensures crew { AreCrewOf system.now crew.new.fetcher crew.new.worker }
    ensures one { IsClaimant system.now slots.now one.new }
    ensures two { IsClaimant system.now slots.now two.new }
{
    for turn in all {
        match *turn {
            HostsTurn::One(deed) => does(rt, system, crew, slots, one, deed),
            HostsTurn::Two(deed) => does(rt, system, crew, slots, two, deed),
            HostsTurn::Meet => assert!(rt; meets(system, slots, one, two)),
        }
    }
}

// Host h, on queue h.
fn host<'a>(
    alloc: Global,
    system: &'a PlainSystem,
    spares: &mut PlainCallers,
    h: u16,
    slots: &Slots,
) -> Result<Claimant<'a>, Fail>
    requires own { ArePlainCallers system.now spares.old }
    requires number { (1 ≤ h) × (h ≤ system.now.config.pairs) }
    requires queues { system.now.config.cqs ≡ system.now.config.pairs }
    requires slots { area slots.now ≡ record { slba = 0; blocks = 2 } }
    ensures rest { ArePlainCallers system.now spares.new }
    ensures host { IfOk result (IsClaimant system.entry.now slots.now) }
{
    let caller = take_caller(system, spares).ok_or("a caller")?;
    match claimant_of(alloc, system, caller, h, slots, 2) {
        Some(claimant) => Ok(claimant),
        None => Err(Fail::from("a host")),
    }
}

// The host's pass, given back.
fn pass_of(system: &PlainSystem, slots: &Slots, claimant: Claimant<'_>) -> Pass<Core>
    requires { IsClaimant system.now slots.now claimant }
    ensures { IsPassOfEngine system.now.engine result }
{
    // (named by the contract alone)
    let _ = system;
    let _ = slots;
    let Claimant { host, .. } = claimant;
    host.driver.into_port().into_pass()
}

// The pass of host 1 after all of this.
fn pass_after<R: Abort + Wait>(
    rt: &R,
    alloc: Global,
    system: &PlainSystem,
    spares: &mut PlainCallers,
    all: &[HostsTurn],
) -> Result<Pass<Core>, Fail>
    requires own { ArePlainCallers system.now spares.old }
    requires queues { (system.now.config.pairs ≡ 2) × (system.now.config.cqs ≡ 2) }
    ensures { IfOk result (IsPassOfEngine system.now.engine) }
{
    let slots = Slots::new(0, 2);
    let mut crew = crew_of(system, spares)?;
    let mut one = host(alloc, system, spares, 1, &slots)?;
    let mut two = host(alloc, system, spares, 2, &slots)?;
    do_all(rt, system, &mut crew, &slots, &mut one, &mut two, all);
    Ok(pass_of(system, &slots, one))
}

// The controller after all of this.
fn core_after<R: Abort + Wait>(rt: &R, alloc: Global, all: &[HostsTurn]) -> Result<Core, Fail> {
    let (system, mut spares) = small_system(alloc, 4, 4).ok_or("memory")?;
    let pass = pass_after(rt, alloc, &system, &mut spares, all)?;
    let PlainSystem { engine, .. } = system;
    match engine.close(pass) {
        Some(core) => Ok(core),
        None => Err(Fail::from("the lock isn't free")),
    }
}

// No call is answered for want of memory, or because another caller had the controller; no Fetch is refused but for
// want of an entry.
#[test]
fn all_calls_in_one_run(rt: HostRuntime) -> Result<(), Fail> {
    let a1 = Fill(0xa1, 512);
    let b2 = Fill(0xb2, 512);
    let all = [
        HostsTurn::One(Deed::Asks(Ask::Write(2, a1), AnswerWords::Written)),
        HostsTurn::One(Deed::Asks(Ask::WriteZeroes(3, 1), AnswerWords::Written)),
        HostsTurn::Two(Deed::Asks(Ask::Read(2, 1), AnswerWords::Read(512, 0xa1))),
        HostsTurn::Two(Deed::Asks(Ask::Compare(2, a1), AnswerWords::Equal)),
        HostsTurn::Meet,
        HostsTurn::Two(Deed::Asks(Ask::CompareAndWrite(2, a1, b2), AnswerWords::Swapped)),
        HostsTurn::One(Deed::Asks(Ask::Compare(2, a1), AnswerWords::Differs)),
        HostsTurn::One(Deed::Meets),
        HostsTurn::One(Deed::Claims(Came::Held(0))),
        HostsTurn::Two(Deed::Claims(Came::Taken)),
        HostsTurn::Two(Deed::ClaimsAny(Came::Held(1))),
        HostsTurn::Meet,
        HostsTurn::One(Deed::Releases),
        HostsTurn::Two(Deed::Leaves(1, 3)),
        HostsTurn::Two(Deed::ClaimsAny(Came::Held(0))),
        HostsTurn::One(Deed::ClaimsAny(Came::AllTaken)),
        HostsTurn::Two(Deed::Releases),
        HostsTurn::One(Deed::Asks(Ask::Read(0, 1), AnswerWords::Read(512, 0))),
    ];
    let core = core_after(&rt, rt.alloc(), &all)?;
    assert!(rt; check(rt.alloc(), &core.config(), core.history().as_slice()).is_ok());
    Ok(())
}
