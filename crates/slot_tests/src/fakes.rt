//! Claims over a port that answers what it is told to: what they publish, under which serials, and what is told where
//! the next slot's pair isn't taken.

ghost use Rattle.std.specs.Prelude.{◌≡◌, IfOk, IfSome};
ghost use Rattle.driver_cas.specs.Drivers.{area_of};
ghost use Rattle.slot_alloc.specs.Areas.{area};
ghost use Rattle.slot_alloc.specs.Claims.{IsClaimingOf};

use crate::rows::named;
use driver_cas::{Driver, Fault, PortFault};
use driver_testing::{Came, Contents, Did, Fake, Script, driver_of, good};
use nvme_model::submission::Submission;
use slot_alloc::{Claiming, Progress, Slots, poll_claim};
use std::alloc::Global;
use std::process::Abort;
use std::test::Fail;

// A completion on submission queue 1 with this CID and status field, whose phase is 1.
fn completion(cid: u8, low: u8, high: u8) -> Script {
    Script::Posted([0, 0, 0, 0, 0, 0, 0, 0, 1, 0, 1, 0, cid, 0, low, high])
}

// Compare Failure; Command Aborted due to Failed Fused Command.
fn compare_failure(cid: u8) -> Script {
    completion(cid, 0x0b, 0x05)
}

fn failed_fused(cid: u8) -> Script {
    completion(cid, 0x13, 0)
}

// Begins to claim any slot.
fn begins(slots: &Slots, driver: &mut Driver<Fake>) -> Result<Claiming<Fake>, Fault>
    requires { area_of driver.old ≡ area slots.now }
    ensures area { area_of driver.new ≡ area slots.now }
    ensures claiming { IfOk result (IsClaimingOf driver.new) }
{
    slots.claim_any(driver)
}

// That claims are refused, for these causes.
fn are_refused<R: Abort>(rt: &R, slots: &Slots, driver: &mut Driver<Fake>, wants: &[Fault])
    requires { area_of driver.old ≡ area slots.now }
    ensures { area_of driver.new ≡ area slots.now }
{
    for want in wants {
        match begins(slots, driver) {
            Ok(_) => panic!(rt; "a claim in place of {want:?}"),
            Err(fault) => assert_eq!(rt; fault, *want),
        }
    }
}

// What a poll tells, and the claim where it goes on.
fn polled(driver: &mut Driver<Fake>, claiming: Claiming<Fake>) -> (Came, Option<Claiming<Fake>>)
    requires { IsClaimingOf driver.old claiming }
    ensures { IfSome result.1 (IsClaimingOf driver.new) }
{
    match poll_claim(driver, claiming) {
        Progress::Pending(claiming) => (Came::Pending, Some(claiming)),
        Progress::Later(fault, claiming) => (Came::Later(fault), Some(claiming)),
        Progress::Held(claim) => {
            let (slot, _) = claim.leave();
            (Came::Held(slot), None)
        }
        Progress::Taken => (Came::Taken, None),
        Progress::AllTaken => (Came::AllTaken, None),
        Progress::Failed(fault) => (Came::Failed(fault), None),
    }
}

// That polling a claim tells these, and then nothing more.
fn is_told<R: Abort>(rt: &R, driver: &mut Driver<Fake>, claiming: Claiming<Fake>, wants: &[Came])
    requires { IsClaimingOf driver.old claiming }
{
    let mut next = Some(claiming);
    for want in wants {
        let Some(claiming) = next else {
            panic!(rt; "an answer before {want:?}");
        };
        let (came, back) = polled(driver, claiming);
        assert_eq!(rt; came, *want);
        next = back;
    }
    assert!(rt; next.is_none(), "no answer");
}

// One of a pair's entries: its opcode, its FUSE field, namespace 1, block `lba` alone, this data.
fn is_entry(submission: &Submission, opcode: u8, fuse: u8, lba: u8, data: &Contents) -> bool {
    let entry = &submission.entry;
    entry[0] == opcode
        && entry[1] == fuse
        && entry[4] == 1
        && entry[40] == lba
        && entry[41..64].iter().all(|b| *b == 0)
        && submission.payload.as_slice() == data.as_slice()
}

// The pair from zeros to host 1's name of this serial, on block `lba`.
fn is_claim(did: &Did, lba: u8, serial: u8) -> bool {
    let Did::Sent(1, batch) = did else {
        return false;
    };
    let [first, second] = batch.as_slice() else {
        return false;
    };
    is_entry(first, 0x05, 1, lba, &[0; 512]) && is_entry(second, 0x01, 2, lba, &named(1, serial))
}

// That the port published these claims, each by its block and serial, and nothing else.
fn has_published<R: Abort>(rt: &R, port: &Fake, wants: &[(u8, u8)]) {
    let mut count: usize = 0;
    for did in port.did.as_slice() {
        if let Did::Got(..) = did {
            continue;
        }
        let Some((lba, serial)) = wants.get(count) else {
            panic!(rt; "a further batch");
        };
        assert!(rt;
            is_claim(did, *lba, *serial),
            "block {lba}, serial {serial}"
        );
        count = count.saturating_add(1);
    }
    assert_eq!(rt; count, wants.len());
}

// That a driver of two slots, whose port answers so, the next last, is refused for these causes; that its next claim is
// told these; and that these are all that it published.
fn claims<R: Abort>(
    rt: &R,
    alloc: Global,
    answers: (&[Option<PortFault>], &[Script]),
    faults: &[Fault],
    told: &[Came],
    sent: &[(u8, u8)],
) -> Result<(), Fail> {
    let slots = Slots::new(0, 2);
    let Some(mut driver) = driver_of(alloc, &[1], 2, answers.0, answers.1) else {
        return Err(Fail::from("a driver"));
    };
    are_refused(rt, &slots, &mut driver, faults);
    let Ok(claiming) = begins(&slots, &mut driver) else {
        return Err(Fail::from("a claim"));
    };
    is_told(rt, &mut driver, claiming, told);
    has_published(rt, &driver.into_port(), sent);
    Ok(())
}

// A claim of a free slot is one pair; those that were refused before used up no serial.
#[test]
fn a_claim_is_one_pair(rt: HostRuntime) -> Result<(), Fail> {
    let refusals = [
        Some(PortFault::NoMemory),
        Some(PortFault::Busy),
        Some(PortFault::RingFull),
    ];
    let reaps = [good(1, 1), good(1, 0)];
    let faults = [Fault::RingFull, Fault::Busy, Fault::NoMemory];
    let told = [Came::Pending, Came::Held(0)];
    claims(
        &rt,
        rt.alloc(),
        (&refusals, &reaps),
        &faults,
        &told,
        &[(0, 1)],
    )
}

// The next slot's pair is begun only once the one before was answered, and again where it was refused.
#[test]
fn the_next_slot_is_tried_until_its_pair_is_taken(rt: HostRuntime) -> Result<(), Fail> {
    let refusals = [
        Some(PortFault::RingFull),
        Some(PortFault::NoMemory),
        Some(PortFault::Busy),
        None,
    ];
    let reaps = [
        good(1, 1),
        good(1, 0),
        failed_fused(1),
        Script::Busy,
        compare_failure(0),
    ];
    let told = [
        Came::Pending,
        Came::Later(Fault::Busy),
        Came::Later(Fault::Busy),
        Came::Later(Fault::NoMemory),
        Came::Pending,
        Came::Pending,
        Came::Pending,
        Came::Held(1),
    ];
    let sent = [(0, 1), (1, 2)];
    claims(&rt, rt.alloc(), (&refusals, &reaps), &[], &told, &sent)
}

// Both of two slots are somebody else's: each was claimed once, under a serial of its own.
#[test]
fn each_slot_is_claimed_under_the_next_serial(rt: HostRuntime) -> Result<(), Fail> {
    let reaps = [
        failed_fused(1),
        compare_failure(0),
        failed_fused(1),
        compare_failure(0),
    ];
    let told = [Came::Pending, Came::Pending, Came::Pending, Came::AllTaken];
    let sent = [(0, 1), (1, 2)];
    claims(&rt, rt.alloc(), (&[], &reaps), &[], &told, &sent)
}
