//! Calls whose port refuses their Publish, and claims that find too few CIDs.

ghost use Rattle.std.specs.Prelude.{◌≡◌};
ghost use Rattle.driver_cas.specs.Drivers.{area_of};

use driver_cas::{Driver, Fault, PortFault};
use driver_testing::{Ask, Did, Fake, Fill, begins, driver_of};
use nvme_model::submission::Submission;
use std::alloc::Global;
use std::process::Abort;
use std::test::Fail;

#[derive(Clone, Copy, Debug)]
enum StartCall {
    Asks(Ask),
    /// Of the slot at block 0.
    Claims,
    /// Of the same, of the name with serial 1.
    Releases,
}

const STARTS: [StartCall; 7] = [
    StartCall::Asks(Ask::Read(1, 2)),
    StartCall::Asks(Ask::WriteZeroes(1, 2)),
    StartCall::Asks(Ask::Write(1, Fill(0xa1, 1024))),
    StartCall::Asks(Ask::Compare(1, Fill(0xa1, 1024))),
    StartCall::Asks(Ask::CompareAndWrite(1, Fill(0xa1, 512), Fill(0xb2, 512))),
    StartCall::Claims,
    StartCall::Releases,
];

// Begins the call, and drops it; the serial of a claim, else 0.
fn starts(driver: &mut Driver<Fake>, start: StartCall) -> Result<u64, Fault>
    requires { area_of driver.old ≡ record { slba = 0; blocks = 1 } }
    ensures { area_of driver.new ≡ record { slba = 0; blocks = 1 } }
{
    match start {
        StartCall::Asks(ask) => begins(driver, ask).map(|_| 0),
        StartCall::Claims => driver.start_claim(0).map(|claim| claim.1),
        StartCall::Releases => driver.start_release(0, 1).map(|_| 0),
    }
}

fn same_items(one: &[Submission], two: &[Submission]) -> bool {
    one.len() == two.len()
        && one.iter().zip(two).all(|(a, b)| {
            a.entry.as_slice() == b.entry.as_slice() && a.payload.as_slice() == b.payload.as_slice()
        })
}

// Whether each published one batch, and these are alike.
fn one_alike(one: Driver<Fake>, two: Driver<Fake>) -> bool {
    let (one, two) = (one.into_port(), two.into_port());
    let ([Did::Sent(queue, batch)], [Did::Sent(other, same)]) = (
        one.did.as_slice(),
        two.did.as_slice(),
    ) else {
        return false;
    };
    queue == other && same_items(batch.as_slice(), same.as_slice())
}

// Begins the call after these faults; a claim gets serial 1.
fn begins_after<R: Abort>(rt: &R, driver: &mut Driver<Fake>, start: StartCall, faults: &[Fault])
    requires { area_of driver.old ≡ record { slba = 0; blocks = 1 } }
{
    for fault in faults {
        let begun = starts(driver, start);
        assert_eq!(rt; begun, Err(*fault), "{start:?}");
    }
    let serial = if matches!(start, StartCall::Claims) {
        1
    } else {
        0
    };
    let begun = starts(driver, start);
    assert_eq!(rt; begun, Ok(serial), "{start:?}");
}

// A driver that began the call after these refusals.
fn begun<R: Abort>(
    rt: &R,
    alloc: Global,
    start: StartCall,
    refusals: &[Option<PortFault>],
    faults: &[Fault],
) -> Result<Driver<Fake>, Fail> {
    let Some(mut driver) = driver_of(alloc, &[1], 1, refusals, &[]) else {
        return Err(Fail::from("a driver"));
    };
    begins_after(rt, &mut driver, start, faults);
    Ok(driver)
}

// That it is refused so, and then begun as by a driver that wasn't refused.
fn as_before<R: Abort>(
    rt: &R,
    alloc: Global,
    start: StartCall,
    refusal: PortFault,
    fault: Fault,
) -> Result<(), Fail> {
    let driver = begun(rt, alloc, start, &[Some(refusal)], &[fault])?;
    let other = begun(rt, alloc, start, &[], &[])?;
    assert!(rt; one_alike(driver, other), "{start:?}");
    Ok(())
}

#[test]
fn after_a_fault_the_driver_is_as_before(rt: HostRuntime) -> Result<(), Fail> {
    for start in STARTS {
        for (refusal, fault) in [
            (PortFault::RingFull, Fault::RingFull),
            (PortFault::Busy, Fault::Busy),
            (PortFault::NoMemory, Fault::NoMemory),
        ] {
            as_before(&rt, rt.alloc(), start, refusal, fault)?;
        }
    }
    Ok(())
}

// How each of these is begun.
fn all_begin<R: Abort>(
    rt: &R,
    driver: &mut Driver<Fake>,
    all: &[(u8, StartCall, Result<u64, Fault>)],
)
    requires { area_of driver.old ≡ record { slba = 0; blocks = 1 } }
    ensures { area_of driver.new ≡ record { slba = 0; blocks = 1 } }
{
    for (count, start, want) in all {
        for _ in 0..*count {
            assert_eq!(rt; starts(driver, *start), *want, "{start:?}");
        }
    }
}

// No serial is used up.
#[test]
fn a_claim_needs_two_cids(rt: HostRuntime) -> Result<(), Fail> {
    let mut driver = driver_of(rt.alloc(), &[1], 1, &[], &[]).ok_or("memory")?;
    let all = [
        (1, StartCall::Claims, Ok(1)),
        (61, STARTS[0], Ok(0)),
        (1, StartCall::Claims, Err(Fault::RingFull)),
        (1, StartCall::Releases, Err(Fault::RingFull)),
        (1, STARTS[0], Ok(0)),
        (1, STARTS[0], Err(Fault::RingFull)),
    ];
    all_begin(&rt, &mut driver, &all);
    Ok(())
}
