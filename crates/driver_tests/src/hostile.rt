//! A driver over a port that answers what it likes.

ghost use Rattle.driver_cas.specs.Drivers.{IsCallOf};

use driver_cas::{Call, Driver, Fault, PortFault};
use driver_testing::{AnswerWords, Ask, Fake, Script, begins, driver_of, good, polled};
use std::alloc::Global;
use std::process::Abort;
use std::test::Fail;

const READ: Ask = Ask::Read(0, 1);

/// Success for the command with CID 0 of submission queue 1.
const GOOD: [u8; 16] = [0, 0, 0, 0, 0, 0, 0, 0, 1, 0, 1, 0, 0, 0, 1, 0];

// That polling a call gives these, the last of which is its answer.
fn is_told<R: Abort>(
    rt: &R,
    driver: &mut Driver<Fake>,
    call: Call<Fake>,
    wants: [AnswerWords; 3],
) -> Result<(), Fail>
    requires { IsCallOf driver.old call }
{
    let mut next = call;
    for want in wants {
        let (told, back) = polled(driver, next);
        assert_eq!(rt; told, want);
        let Some(same) = back else {
            return Ok(());
        };
        next = same;
    }
    Err(Fail::from("no answer"))
}

// What a Read is told whose completion has this bit changed, and then, where it waits, by the good one.
fn changed(alloc: Global, bit: usize) -> Result<(AnswerWords, AnswerWords), Fail> {
    let mut bad = GOOD;
    if let Some(byte) = bad.get_mut(bit / 8) {
        *byte ^= 1 << (bit % 8);
    }
    let reaps = [good(1, 0), Script::Posted(bad)];
    let mut driver = driver_of(alloc, &[1], 0, &[], &reaps).ok_or("memory")?;
    let Ok(call) = begins(&mut driver, READ) else {
        return Err(Fail::from("a Read"));
    };
    let (first, back) = polled(&mut driver, call);
    let Some(call) = back else {
        return Ok((first, AnswerWords::Pending));
    };
    let (second, _) = polled(&mut driver, call);
    Ok((first, second))
}

// By the layout of a completion queue entry.
fn wanted(bit: usize) -> (AnswerWords, AnswerWords) {
    let read = AnswerWords::Read(1, 0);
    match bit {
        // SQHD and the phase tag.
        64..80 | 112 => (read, AnswerWords::Pending),
        // The Status Code and its type.
        113..121 => (
            AnswerWords::Failed(0, 1 << (bit - 113)),
            AnswerWords::Pending,
        ),
        121..124 => (
            AnswerWords::Failed(1 << (bit - 121), 0),
            AnswerWords::Pending,
        ),
        _ => (AnswerWords::Pending, read),
    }
}

// That it is told so.
fn counts<R: Abort>(rt: &R, alloc: Global, bit: usize) -> Result<(), Fail> {
    let (first, second) = changed(alloc, bit)?;
    let (one, two) = wanted(bit);
    assert_eq!(rt; first, one, "bit {bit}");
    assert_eq!(rt; second, two, "bit {bit}");
    Ok(())
}

#[test]
fn each_bit_of_a_completion_counts(rt: HostRuntime) -> Result<(), Fail> {
    for bit in 0..128 {
        counts(&rt, rt.alloc(), bit)?;
    }
    Ok(())
}

// Two Reads; the completion of the second comes twice.
#[test]
fn a_completion_counts_once(rt: HostRuntime) -> Result<(), Fail> {
    let reaps = [good(1, 0), good(1, 9), good(1, 1), good(1, 1)];
    let mut driver = driver_of(rt.alloc(), &[1], 0, &[], &reaps).ok_or("memory")?;
    let Ok(one) = begins(&mut driver, READ) else {
        return Err(Fail::from("a Read"));
    };
    let Ok(two) = begins(&mut driver, READ) else {
        return Err(Fail::from("a second Read"));
    };
    let (told, _) = polled(&mut driver, two);
    assert_eq!(rt; told, AnswerWords::Read(1, 1));
    is_told(
        &rt,
        &mut driver,
        one,
        [
            AnswerWords::Pending,
            AnswerWords::Pending,
            AnswerWords::Read(1, 0),
        ],
    )
}

// That a Read is refused so, and then begun; that its completion comes later, and then comes.
fn is_later<R: Abort>(rt: &R, alloc: Global, fault: PortFault, want: Fault) -> Result<(), Fail> {
    let reaps = [good(1, 0), Script::NoMemory, Script::Busy];
    let mut driver = driver_of(alloc, &[1], 0, &[Some(fault)], &reaps).ok_or("memory")?;
    match begins(&mut driver, READ) {
        Ok(_) => return Err(Fail::from("a refused Read")),
        Err(fault) => assert_eq!(rt; fault, want),
    }
    let Ok(call) = begins(&mut driver, READ) else {
        return Err(Fail::from("a Read"));
    };
    is_told(
        rt,
        &mut driver,
        call,
        [
            AnswerWords::Later(Fault::Busy),
            AnswerWords::Later(Fault::NoMemory),
            AnswerWords::Read(1, 0),
        ],
    )
}

#[test]
fn after_a_fault_the_same_call_succeeds(rt: HostRuntime) -> Result<(), Fail> {
    is_later(&rt, rt.alloc(), PortFault::RingFull, Fault::RingFull)?;
    is_later(&rt, rt.alloc(), PortFault::Busy, Fault::Busy)?;
    is_later(&rt, rt.alloc(), PortFault::NoMemory, Fault::NoMemory)
}
