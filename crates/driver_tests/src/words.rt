//! The words and the numbers of a driver's faults.

use driver_cas::{Fault, PortFault};
use nvme_model::status::Status;
use std::alloc::Global;
use std::process::Abort;
use std::test::Fail;

// Fails unless a fault has these words and this number.
fn has(rt: &impl Abort, alloc: Global, fault: Fault, words: &str, number: u8) -> Result<(), Fail> {
    let text = fault.to_string(alloc)?;
    assert_eq!(rt; text.as_str(), words);
    assert_eq!(rt; fault.number(), number);
    Ok(())
}

#[test]
fn faults_have_their_words_and_numbers(rt: HostRuntime) -> Result<(), Fail> {
    let alloc = rt.alloc();
    let words = "not whole blocks, or data of unlike lengths";
    has(&rt, alloc, Fault::Length, words, 41)?;
    has(&rt, alloc, Fault::TooLong, "too many blocks", 42)?;
    let words = "too few CIDs, or no room in a submission queue";
    has(&rt, alloc, Fault::RingFull, words, 43)?;
    let past = Fault::Status(Status::OUT_OF_RANGE);
    has(&rt, alloc, past, "status 0/80", 44)?;
    has(&rt, alloc, Fault::Busy, "busy", 45)?;
    has(&rt, alloc, Fault::NoMemory, "no memory", 46)?;
    let words = "the slot area is written by claims and releases alone";
    has(&rt, alloc, Fault::SlotArea, words, 47)?;
    has(&rt, alloc, Fault::NoSerial, "no serial is left", 48)
}

#[test]
fn faults_of_a_port_have_their_words(rt: HostRuntime) -> Result<(), Fail> {
    let rows = [
        (PortFault::RingFull, "no room in the submission queue"),
        (PortFault::Busy, "busy"),
        (PortFault::NoMemory, "no memory"),
    ];
    for (fault, words) in rows {
        let text = fault.to_string(rt.alloc())?;
        assert_eq!(rt; text.as_str(), words);
    }
    Ok(())
}
