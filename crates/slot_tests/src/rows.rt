//! Two hosts and one or two slots, every call served before the next, and the blocks' bytes.

ghost use Rattle.std.specs.Prelude.{◌≡◌, ◌<◌, ◌≤◌, IfOk};
ghost use Rattle.shared_system.specs.Plain.{ArePlainCallers, IsPlainCallerOf};
ghost use Rattle.driver_testing.specs.Claimants.{IsClaimant};
ghost use Rattle.slot_alloc.specs.Areas.{area};

use driver_testing::{
    Came, Claimant, Contents, asks, claimants_of, claims, is_served, leaves, meets, polls_begun,
    reads, releases, serves, small_system,
};
use history_check::check;
use shared_system::{PlainCaller, PlainCallers, PlainSystem};
use slot_alloc::Slots;
use std::alloc::Global;
use std::process::Abort;
use std::sync::Wait;
use std::test::Fail;

/// What a host does, and what comes of it.
#[derive(Clone, Copy)]
enum SlotAct {
    /// Claims slot 0.
    First(Came),
    /// Claims any slot.
    Any(Came),
    /// Begins to claim slot 0, and isn't served.
    Asks,
    /// Is served.
    Waits,
    /// Polls what it has begun.
    Polls(Came),
    /// Meets the other host, and isn't Busy.
    Meets,
    Releases(Came),
    /// Drops what it has begun; the slot and the serial of a claim that it held.
    Leaves(Option<(u32, u64)>),
    /// Reads this block, which is the name of this host and serial; zeros where both are 0.
    Reads(u64, u8, u8),
}

// The block of a slot that this host holds under this serial.
pub(crate) fn named(host: u8, serial: u8) -> Contents {
    let mut contents = [0; 512];
    contents[0] = host;
    contents[8] = serial;
    contents
}

// Does so, beside the other host.
fn does<R: Abort + Wait>(
    rt: &R,
    system: &PlainSystem,
    server: &mut PlainCaller,
    slots: &Slots,
    host: &mut Claimant<'_>,
    other: &mut Claimant<'_>,
    act: SlotAct,
)
    requires server { IsPlainCallerOf system.now server.old }
    requires host { IsClaimant system.now slots.now host.old }
    requires other { IsClaimant system.now slots.now other.old }
    requires slots { 0 < (area slots.now).blocks }
    ensures server { IsPlainCallerOf system.now server.new }
    ensures host { IsClaimant system.now slots.now host.new }
    ensures other { IsClaimant system.now slots.now other.new }
{
    match act {
        SlotAct::First(want) => {
            let came = claims(rt, system, server, slots, host, Some(0));
            assert_eq!(rt; came, want);
        }
        SlotAct::Any(want) => {
            let came = claims(rt, system, server, slots, host, None);
            assert_eq!(rt; came, want);
        }
        SlotAct::Asks => {
            let came = asks(system, slots, host, Some(0));
            assert_eq!(rt; came, Came::Begun);
        }
        SlotAct::Waits => assert!(rt; is_served(rt, system, server, slots, host)),
        SlotAct::Polls(want) => {
            let came = polls_begun(system, slots, host);
            assert_eq!(rt; came, want);
        }
        SlotAct::Meets => assert!(rt; meets(system, slots, host, other)),
        SlotAct::Releases(want) => {
            let came = releases(rt, system, server, slots, host);
            assert_eq!(rt; came, want);
        }
        SlotAct::Leaves(want) => {
            let left = leaves(system, slots, host);
            assert_eq!(rt; left, want);
        }
        SlotAct::Reads(lba, number, serial) => {
            let contents = reads(rt, system, server, slots, host, lba);
            assert!(rt; contents == Some(named(number, serial)));
        }
    }
}

// Host 1 and host 2 do so, each act beside the number of its host.
fn does_all<R: Abort + Wait>(
    rt: &R,
    system: &PlainSystem,
    server: &mut PlainCaller,
    slots: &Slots,
    one: &mut Claimant<'_>,
    two: &mut Claimant<'_>,
    acts: &[(u8, SlotAct)],
)
    requires server { IsPlainCallerOf system.now server.old }
    requires one { IsClaimant system.now slots.now one.old }
    requires two { IsClaimant system.now slots.now two.old }
    requires slots { 0 < (area slots.now).blocks }
    ensures { IsPlainCallerOf system.now server.new }
{
    for (host, act) in acts {
        match *host {
            1 => does(rt, system, server, slots, one, two, *act),
            _ => does(rt, system, server, slots, two, one, *act),
        }
    }
}

// The server, when hosts 1 and 2 have done so.
fn served<R: Abort + Wait>(
    rt: &R,
    alloc: Global,
    system: &PlainSystem,
    spares: &mut PlainCallers,
    slots: &Slots,
    count: u32,
    acts: &[(u8, SlotAct)],
) -> Result<PlainCaller, Fail>
    requires own { ArePlainCallers system.now spares.old }
    requires queues { (system.now.config.pairs ≡ 2) × (system.now.config.cqs ≡ 2) }
    requires slots { area slots.now ≡ record { slba = 0; blocks = count } }
    requires count { (0 < count) × (count ≤ 2) }
    ensures { IfOk result (IsPlainCallerOf system.now) }
{
    let Some((mut server, mut one, mut two)) = claimants_of(alloc, system, spares, slots, count)
    else {
        return Err(Fail::from("two hosts"));
    };
    does_all(rt, system, &mut server, slots, &mut one, &mut two, acts);
    Ok(server)
}

// The controller closes; its blocks hold these bytes, and its history is legal.
pub(crate) fn closes<R: Abort>(
    rt: &R,
    alloc: Global,
    system: PlainSystem,
    server: PlainCaller,
    wants: &[(u64, Contents)],
) -> Result<(), Fail>
    requires { IsPlainCallerOf system server }
{
    let PlainSystem { engine, config, .. } = system;
    let core = engine.close(server.pass).ok_or("the lock isn't free")?;
    for (lba, want) in wants {
        assert!(rt; core.medium(*lba) == Some(want));
    }
    assert!(rt; check(alloc, &config, core.history().as_slice()).is_ok());
    Ok(())
}

// That hosts of so many slots do so, where completion queues have so many places, and what the blocks hold then.
fn plays<R: Abort + Wait>(
    rt: &R,
    alloc: Global,
    cq: u16,
    count: u32,
    acts: &[(u8, SlotAct)],
    wants: &[(u64, Contents)],
) -> Result<(), Fail>
    requires { (0 < count) × (count ≤ 2) }
{
    let Some((system, mut spares)) = small_system(alloc, cq, 3) else {
        return Err(Fail::from("a system"));
    };
    let slots = Slots::new(0, count);
    let server = served(rt, alloc, &system, &mut spares, &slots, count, acts)?;
    closes(rt, alloc, system, server, wants)
}

#[test]
fn one_slot_goes_from_host_to_host(rt: HostRuntime) -> Result<(), Fail> {
    let acts = [
        (1, SlotAct::First(Came::Held(0))),
        (2, SlotAct::First(Came::Taken)),
        (1, SlotAct::Releases(Came::Released)),
        (1, SlotAct::Reads(0, 0, 0)),
        (2, SlotAct::First(Came::Held(0))),
        (1, SlotAct::Reads(0, 2, 2)),
        (2, SlotAct::Leaves(Some((0, 2)))),
    ];
    plays(&rt, rt.alloc(), 4, 1, &acts, &[(0, named(2, 2))])
}

#[test]
fn any_of_two_slots_is_claimed(rt: HostRuntime) -> Result<(), Fail> {
    let acts = [
        (1, SlotAct::Any(Came::Held(0))),
        (1, SlotAct::Leaves(Some((0, 1)))),
        (2, SlotAct::Any(Came::Held(1))),
        (1, SlotAct::Reads(1, 2, 2)),
        (1, SlotAct::Any(Came::AllTaken)),
        (2, SlotAct::Releases(Came::Released)),
        (1, SlotAct::Any(Came::Held(1))),
        (2, SlotAct::Reads(0, 1, 1)),
        (2, SlotAct::Reads(1, 1, 5)),
        (1, SlotAct::Leaves(Some((1, 5)))),
    ];
    let wants = [(0, named(1, 1)), (1, named(1, 5))];
    plays(&rt, rt.alloc(), 4, 2, &acts, &wants)
}

// Whatever is under way, hosts of one thread meet, and nobody is Busy.
#[test]
fn hosts_that_claim_meet(rt: HostRuntime) -> Result<(), Fail> {
    let acts = [
        (1, SlotAct::Meets),
        (1, SlotAct::Asks),
        (1, SlotAct::Meets),
        (1, SlotAct::Waits),
        (1, SlotAct::Meets),
        (1, SlotAct::Polls(Came::Pending)),
        (1, SlotAct::Meets),
        (1, SlotAct::Polls(Came::Held(0))),
        (1, SlotAct::Meets),
        (2, SlotAct::First(Came::Taken)),
        (2, SlotAct::Meets),
        (2, SlotAct::Any(Came::AllTaken)),
        (1, SlotAct::Releases(Came::Released)),
        (1, SlotAct::Meets),
        (2, SlotAct::Any(Came::Held(0))),
        (2, SlotAct::Meets),
        (1, SlotAct::Reads(0, 2, 3)),
        (2, SlotAct::Releases(Came::Released)),
        (2, SlotAct::Meets),
        (2, SlotAct::Reads(0, 0, 0)),
    ];
    plays(&rt, rt.alloc(), 4, 1, &acts, &[(0, named(0, 0))])
}

// A claim that is dropped is served all the same, and its slot stays with its name, whoever asks.
#[test]
fn a_dropped_claim_keeps_its_slot(rt: HostRuntime) -> Result<(), Fail> {
    let acts = [
        (1, SlotAct::Asks),
        (1, SlotAct::Leaves(None)),
        (1, SlotAct::Waits),
        (2, SlotAct::First(Came::Taken)),
        (1, SlotAct::First(Came::Taken)),
        (2, SlotAct::Any(Came::AllTaken)),
        (1, SlotAct::Reads(0, 1, 1)),
    ];
    plays(&rt, rt.alloc(), 8, 1, &acts, &[(0, named(1, 1))])
}

// A slot that is left stays held: nobody has a claim to release it by, its host neither.
#[test]
fn a_slot_that_is_left_stays_held(rt: HostRuntime) -> Result<(), Fail> {
    let acts = [
        (1, SlotAct::First(Came::Held(0))),
        (1, SlotAct::Leaves(Some((0, 1)))),
        (1, SlotAct::Releases(Came::Nothing)),
        (2, SlotAct::Releases(Came::Nothing)),
        (1, SlotAct::Any(Came::AllTaken)),
        (2, SlotAct::First(Came::Taken)),
    ];
    plays(&rt, rt.alloc(), 8, 1, &acts, &[(0, named(1, 1))])
}

// The driver of host 1 releases what it left, by the serial that it was told, and host 2 claims it.
fn frees<R: Abort + Wait>(
    rt: &R,
    system: &PlainSystem,
    server: &mut PlainCaller,
    slots: &Slots,
    one: &mut Claimant<'_>,
    two: &mut Claimant<'_>,
)
    requires server { IsPlainCallerOf system.now server.old }
    requires one { IsClaimant system.now slots.now one.old }
    requires two { IsClaimant system.now slots.now two.old }
    requires slots { area slots.now ≡ record { slba = 0; blocks = 1 } }
    ensures { IsPlainCallerOf system.now server.new }
{
    does(
        rt,
        system,
        server,
        slots,
        one,
        two,
        SlotAct::First(Came::Held(0)),
    );
    does(
        rt,
        system,
        server,
        slots,
        one,
        two,
        SlotAct::Leaves(Some((0, 1))),
    );
    assert!(rt; one.host.driver.start_release(0, 1).is_ok());
    serves(rt, system, server, 1);
    let came = claims(rt, system, server, slots, two, Some(0));
    assert_eq!(rt; came, Came::Held(0));
}

// Whoever was told the slot and the serial frees it by other means.
#[test]
fn a_slot_that_is_left_is_freed_by_its_name(rt: HostRuntime) -> Result<(), Fail> {
    let Some((system, mut spares)) = small_system(rt.alloc(), 8, 3) else {
        return Err(Fail::from("a system"));
    };
    let slots = Slots::new(0, 1);
    let Some((mut server, mut one, mut two)) = claimants_of(
        rt.alloc(),
        &system,
        &mut spares,
        &slots,
        1,
    ) else {
        return Err(Fail::from("two hosts"));
    };
    frees(&rt, &system, &mut server, &slots, &mut one, &mut two);
    drop(one);
    drop(two);
    closes(&rt, rt.alloc(), system, server, &[(0, named(2, 1))])
}
